//! The values of the atoms at the steps of two vessels.
ghost use Rattle.std.specs.Prelude.{◌≡◌, ◌<◌, IfSome};
ghost use Rattle.mtl_formulas.specs.FormulaMeasures.{IsValidAtom};
ghost use Rattle.encounters.specs.Directions.{HasDirection, HaveDirections};

use crate::compared::{is, is_true};
use crate::numbers::{ACT, DETECT};
use encounters::{EngagementState, PairStep, past_clear};
use fixed_geometry::Point;
use meetings::{AtomRow, Follower, Pair, PairTrace, atoms_at, contact, step_between, with_ranks};
use motion::{Step, TickState};
use mtl_formulas::{Atom, Atoms, Verdict};
use sectors::Class;
use std::alloc::Global;
use std::process::Abort;
use std::test::Fail;

const PAIR: Pair = Pair {
    subject: 369190000,
    other: 477553000,
};

fn state(x: i64, y: i64, direction: Option<u16>) -> TickState
    requires { IfSome direction (λ d. d < 3600) }
    ensures point { result.point ≡ record { x = x; y = y } }
    ensures direction { HasDirection result }
{
    TickState {
        point: Point { x, y },
        direction,
        speed: Some(180),
    }
}

/// Returns the step of two vessels that meet head-on, at 18 knots each.
fn head_on(i: u8) -> Option<PairStep>
    ensures { IfSome result HaveDirections }
{
    let p = Point {
        x: -185_200,
        y: 37_040_000 - 1_852_000 * i64::from(i),
    };
    let w = Point {
        x: 0,
        y: -1_852_000,
    };
    Some(PairStep {
        step: Step::new(p, w)?,
        a: state(0, 0, Some(0)),
        b: state(0, 0, Some(1800)),
    })
}

/// Returns a step with these numbers, and the directions of A and B at its first tick.
fn pair_step(p: (i64, i64), w: (i64, i64), a: Option<u16>, b: Option<u16>) -> Option<PairStep>
    requires a { IfSome a (λ d. d < 3600) }
    requires b { IfSome b (λ d. d < 3600) }
    ensures { IfSome result HaveDirections }
{
    let p = Point { x: p.0, y: p.1 };
    let w = Point { x: w.0, y: w.1 };
    Some(PairStep {
        step: Step::new(p, w)?,
        a: state(0, 0, a),
        b: state(0, 0, b),
    })
}

/// Returns the value of an atom at a step with these numbers if the vessels are apart.
fn answer(
    atom: Atom,
    p: (i64, i64),
    w: (i64, i64),
    a: Option<u16>,
    b: Option<u16>,
) -> Option<Verdict>
    requires atom { IsValidAtom atom }
    requires a { IfSome a (λ d. d < 3600) }
    requires b { IfSome b (λ d. d < 3600) }
{
    let pair = pair_step(p, w, a, b)?;
    let row = atoms_at(&DETECT, &EngagementState::Apart, Some(&pair), &ACT, 10);
    Some(row.value(atom))
}

fn told(holds: bool) -> Verdict {
    if holds { Verdict::Yes } else { Verdict::No }
}

/// Compares the values of the atoms at step `i` of the two that meet head-on.
fn is_as_worked_out(rt: &impl Abort, row: &AtomRow, i: usize) {
    let answers = [
        (Atom::Risk, i <= 22),
        (Atom::Engaged, i <= 25),
        (Atom::HeadOn, i <= 25),
        (Atom::Passing, false),
        (Atom::Begin, i == 0),
        (Atom::Age(60), 6 <= i && i <= 25),
        (Atom::Opening, 20 <= i),
        (Atom::Close(187), 19 <= i && i <= 21),
        (Atom::Clear(19), i != 19 && i != 20),
        (Atom::OtherOnPort, true),
    ];
    for (atom, holds) in answers {
        is(rt, row.value(atom), told(holds));
    }
}

/// Returns the thirty steps of two that meet head-on.
fn head_on_trace(alloc: Global) -> Result<PairTrace, Fail> {
    let mut trace = PairTrace::new(alloc, PAIR, DETECT, ACT, 10);
    for i in 0..30 {
        trace.push(head_on(i))?;
    }
    Ok(trace)
}

#[test]
fn two_that_meet_head_on_are_past_and_clear_from_step_26_on(rt: HostRuntime) -> Result<(), Fail> {
    for i in 0..30 {
        let pair = head_on(i).ok_or("a step")?;
        is(&rt, (i, past_clear(&DETECT, &pair.step)), (i, i >= 26));
    }
    Ok(())
}

#[test]
fn two_that_meet_head_on(rt: HostRuntime) -> Result<(), Fail> {
    let trace = head_on_trace(rt.alloc())?;
    for (i, row) in trace.rows().iter().enumerate() {
        is_as_worked_out(&rt, row, i);
    }
    is(&rt, trace.rows().len(), 30);
    is(&rt, trace.pair(), PAIR);
    Ok(())
}

#[test]
fn a_step_that_is_not_seen(rt: HostRuntime) -> Result<(), Fail> {
    let mut follower = Follower::new(DETECT, ACT, 10);
    let first = head_on(0).ok_or("a step")?;
    follower.step(Some(&first));
    is(
        &rt,
        follower.state(),
        EngagementState::Engaged {
            kind: Class::HeadOn,
            age: 0,
            a: first.a,
            b: first.b,
        },
    );
    let row = follower.step(None);
    is(&rt, follower.state(), EngagementState::Apart);
    for (atom, expected) in [
        (Atom::Seen, Verdict::No),
        (Atom::Risk, Verdict::No),
        (Atom::BothPower, Verdict::No),
        (Atom::Alters, Verdict::No),
        (Atom::Opening, Verdict::Open),
        (Atom::OtherOnPort, Verdict::Open),
        (Atom::Ahead, Verdict::Open),
        (Atom::Clear(1), Verdict::Open),
        (Atom::Close(1), Verdict::Open),
    ] {
        is(&rt, (atom, row.value(atom)), (atom, expected));
    }
    Ok(())
}

/// B heads north, and A moves along a line, at `-p` and then at `-(p + w)` relative to B.
#[test]
fn ahead_of_the_bow(rt: HostRuntime) {
    let cases = [
        ("ahead, from starboard", (-10, -5), (20, 0), Verdict::Yes),
        ("ahead, from port", (10, -5), (-20, 0), Verdict::Yes),
        ("ends on the line", (-10, -5), (10, 0), Verdict::Yes),
        ("begins on the line", (0, -5), (10, 0), Verdict::No),
        ("at the bow", (-10, -5), (20, 10), Verdict::No),
        ("just ahead of the bow", (-10, -5), (20, 9), Verdict::Yes),
        ("behind", (-10, 5), (20, 0), Verdict::No),
        ("on one side", (-10, -5), (9, 0), Verdict::No),
    ];
    for (name, p, w, expected) in cases {
        let found = answer(Atom::Ahead, p, w, None, Some(0));
        is(&rt, (name, found), (name, Some(expected)));
    }
    let found = answer(Atom::Ahead, (-10, -5), (20, 0), Some(0), None);
    is(&rt, found, Some(Verdict::Open));
}

/// B bears 1800 from A, and is in the same place in the last row.
#[test]
fn the_other_on_port(rt: HostRuntime) {
    let cases = [
        ((0, -5), Some(0), Verdict::No),
        ((0, -5), Some(3599), Verdict::Yes),
        ((0, -5), Some(1801), Verdict::Yes),
        ((0, -5), Some(1800), Verdict::No),
        ((0, -5), None, Verdict::Open),
        ((0, 0), Some(0), Verdict::Open),
    ];
    for (p, direction, expected) in cases {
        let found = answer(Atom::OtherOnPort, p, (0, 0), direction, None);
        is(&rt, (direction, found), (direction, Some(expected)));
    }
}

#[test]
fn alterations_since_the_beginning(rt: HostRuntime) -> Result<(), Fail> {
    let since = EngagementState::Engaged {
        kind: Class::CrossingGives,
        age: 3,
        a: state(0, 0, Some(0)),
        b: state(0, 0, Some(2700)),
    };
    let pair = pair_step((10, 10), (0, 0), Some(200), Some(2700)).ok_or("a step")?;
    let row = atoms_at(&DETECT, &since, Some(&pair), &ACT, 10);
    for (atom, holds) in [
        (Atom::CrossingGives, true),
        (Atom::Alters, true),
        (Atom::Apparent, true),
        (Atom::ToStarboard, true),
        (Atom::BothPower, true),
        (Atom::Begin, false),
        (Atom::ToPort, false),
        (Atom::OtherApparent, false),
        (Atom::RankGives, false),
    ] {
        is(&rt, (atom, row.value(atom)), (atom, told(holds)));
    }
    Ok(())
}

/// A sailing vessel and a power-driven one, which gives way to her (Rule 18 (a)), at the start of their engagement.
#[test]
fn ranks_where_an_engagement_begins(rt: HostRuntime) -> Result<(), Fail> {
    let begins = EngagementState::Engaged {
        kind: Class::CrossingStands,
        age: 0,
        a: state(0, 0, Some(0)),
        b: state(0, 0, Some(900)),
    };
    let pair = pair_step((-10, 10), (0, 0), Some(0), Some(900)).ok_or("a step")?;
    let power = atoms_at(&DETECT, &begins, Some(&pair), &ACT, 10);
    for (gives, stands, both_power) in [
        (true, false, false),
        (false, true, false),
        (false, false, false),
        (false, false, true),
    ] {
        let row = with_ranks(&power, gives, stands, both_power);
        let ranks = (row.value(Atom::RankGives), row.value(Atom::RankStands));
        is(&rt, ranks, (told(gives), told(stands)));
        let others = (row.value(Atom::BothPower), row.value(Atom::CrossingStands));
        is(&rt, others, (told(both_power), Verdict::Yes));
    }
    Ok(())
}

#[test]
fn contact_and_steps(rt: HostRuntime) -> Result<(), Fail> {
    let a = state(0, 0, Some(0));
    let b = state(3, 4, Some(1800));
    is_true(&rt, contact(&a, &b, 5));
    is_true(&rt, !contact(&a, &b, 4));
    let later = state(1, 0, Some(0));
    let pair = step_between(Some(&a), Some(&b), Some(&later), Some(&b)).ok_or("a step")?;
    let (p, w) = (Point { x: 3, y: 4 }, Point { x: -1, y: 0 });
    is(&rt, (pair.step.p(), pair.step.w()), (p, w));
    is(&rt, (pair.a, pair.b), (a, b));
    is_true(
        &rt,
        step_between(Some(&a), Some(&b), None, Some(&b)).is_none(),
    );
    Ok(())
}
