//! Beyond the contracts: why worked plans fail.
ghost use Rattle.std.specs.Prelude.{◌≤◌};
ghost use Rattle.lattice.specs.Grids.{choices_of};
ghost use Rattle.lattice.specs.PlanNumbers.{IsPlan};
ghost use Rattle.plan_situations.specs.Situations.{IsSituation, IsTarget, end_of, now_of};

use crate::checked::is_checked;
use crate::compared::{is, is_found, is_true};
use crate::searches::{head_on, keeping_on};
use closest_approach::Moment;
use hull_domains::Shape;
use lattice::Plan;
use out_of_memory::Memory;
use plan_situations::{BrokenRule, DomainEntry};
use planner::{Situation, Target};
use std::alloc::Global;
use std::process::Abort;

/// Why a plan fails towards a target.
type Reasons = (Option<DomainEntry>, Option<BrokenRule>);

/// A horizon, and why the first plan fails up to it.
type Row = (u32, Option<DomainEntry>, Option<BrokenRule>);

/// Returns why a plan fails towards a target, up to a horizon.
fn reasons(
    alloc: Global,
    situation: &Situation,
    plan: &Plan,
    target: &Target,
    until: u32,
) -> Result<Reasons, Memory>
    requires situation { IsSituation situation.now }
    requires plan { IsPlan (choices_of situation.now.lattice) situation.now.lattice.legs plan.now }
    requires target { IsTarget situation.now target.now }
    requires from_now { now_of situation.now ≤ until }
    requires until { until ≤ end_of situation.now }
{
    let entry = situation.entered(alloc, plan, target, until)?;
    Ok((entry, situation.newly_broken(alloc, plan, target, until)?))
}

/// Checks that the first plan fails towards a target for the reasons of a row.
fn fails_by(
    rt: &impl Abort,
    alloc: Global,
    situation: &Situation,
    target: &Target,
    row: &Row,
) -> Result<(), Memory>
    requires situation { IsSituation situation.now }
    requires target { IsTarget situation.now target.now }
{
    let (until, entry, broken) = *row;
    is_true(rt, situation.lattice.plans() > 0);
    is_true(rt, situation.now() <= until && until <= situation.end());
    let plan = situation.lattice.plan(0);
    let found = reasons(alloc, situation, &plan, target, until);
    drop(plan);
    is_found(rt, found, (entry, broken))
}

/// Checks that the first plan fails towards a target for these reasons.
fn fails_towards(
    rt: &impl Abort,
    alloc: Global,
    situation: &Situation,
    target: &Target,
    rows: &[Row],
) -> Result<(), Memory>
    requires situation { IsSituation situation.now }
    requires target { IsTarget situation.now target.now }
{
    for row in rows {
        fails_by(rt, alloc, situation, target, row)?;
    }
    Ok(())
}

/// Checks that the first plan fails towards the only target for these reasons.
fn fails(
    rt: &impl Abort,
    alloc: Global,
    situation: &Situation,
    rows: &[Row],
) -> Result<(), Memory> {
    is_checked(rt, situation);
    is(rt, situation.targets.as_slice().len(), 1);
    for target in situation.targets.as_slice() {
        fails_towards(rt, alloc, situation, target, rows)?;
    }
    Ok(())
}

const BROKEN: Option<BrokenRule> = Some(BrokenRule { step: 0, rule: 3 });

const ENTRY: Option<DomainEntry> = Some(DomainEntry {
    step: 18,
    moment: Moment { a: 1, b: 1 },
});

/// Own ship keeps her course towards a vessel head-on, 3704 metres away at tick 0 and 185.2 metres less at each tick
/// after it, and passes her 18.52 metres abeam at tick 20. Now is tick 1, and the last planned tick is 41. She is
/// nearer than 300 metres for the first time in the step from tick 18, nearest at its end. The engagement begins at
/// tick 0, and the rule with index 3, `r14a`, requires a turn to starboard within 60 seconds, at one of the steps 0 to
/// 6.
static HORIZONS: [Row; 6] = [
    (1, None, None),
    (6, None, None),
    (7, None, BROKEN),
    (18, None, BROKEN),
    (19, ENTRY, BROKEN),
    (41, ENTRY, BROKEN),
];

/// Checks that the first plan fails for these reasons, if the target has no direction from a tick.
fn fails_head_on(
    rt: &impl Abort,
    alloc: Global,
    shape: Option<Shape>,
    lost: u32,
    rows: &[Row],
) -> Result<(), Memory> {
    let situation = head_on(alloc, keeping_on(alloc), shape, lost)?;
    let done = fails(rt, alloc, &situation, rows);
    drop(situation);
    done
}

#[test]
fn two_vessels_head_on(rt: HostRuntime) -> Result<(), Memory> {
    fails_head_on(&rt, rt.alloc(), None, u32::MAX, &HORIZONS)
}

/// As long ahead as aft.
static EVEN: [(i32, i32); 6] = [
    (300, 0),
    (150, 100),
    (-150, 100),
    (-300, 0),
    (-150, -100),
    (150, -100),
];

const TURNED: Option<DomainEntry> = Some(DomainEntry {
    step: 18,
    moment: Moment {
        a: 98_180_000_000_001,
        b: 185_200_000_000_001,
    },
});

/// Domains have this shape. She enters it 272.22 metres ahead of the target in the step from tick 18, which begins
/// 370.4 metres ahead of her and ends 185.2 ahead: she crosses the edge from the sixth vertex to the first at 9818 /
/// 18520 of it. The rule is broken as before.
static SHAPED: [Row; 2] = [(18, None, BROKEN), (19, TURNED, BROKEN)];

/// If the target has no direction at tick 18, she enters the circle instead, and is nearest at the end.
static CIRCLED: [Row; 2] = [(18, None, BROKEN), (19, ENTRY, BROKEN)];

/// Checks the same if domains are a shape.
fn fails_in_shape(rt: &impl Abort, alloc: Global, lost: u32, rows: &[Row]) -> Result<(), Memory> {
    fails_head_on(rt, alloc, Shape::new(&EVEN), lost, rows)
}

#[test]
fn a_shape_stands_for_the_circle_where_there_is_a_direction(rt: HostRuntime) -> Result<(), Memory> {
    fails_in_shape(&rt, rt.alloc(), 50, &SHAPED)?;
    fails_in_shape(&rt, rt.alloc(), 19, &SHAPED)?;
    fails_in_shape(&rt, rt.alloc(), 18, &CIRCLED)
}
