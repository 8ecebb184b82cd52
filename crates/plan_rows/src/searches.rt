//! Beyond the contracts: worked situations, the pruned search against the flat list, and that each call can succeed.
ghost use Rattle.std.specs.Prelude.{◌≤◌, ◌<◌, IfSome};
ghost use Rattle.lattice.specs.Grids.{choices_of};
ghost use Rattle.lattice.specs.PlanNumbers.{IsPlan};
ghost use Rattle.planner.specs.Searches.{IsSound};
ghost use Rattle.plan_situations.specs.Situations.{IsSituation};

use crate::checked::is_checked;
use crate::compared::{is, is_found};
use ais_messages::PositionReport;
use encounters::{Act, Detect};
use fixed_geometry::Point;
use hull_domains::Shape;
use lattice::{Lattice, Plan};
use motion::TickState;
use out_of_memory::Memory;
use planner::{Ahead, Domain, Past, Search, Situation, Target, Targets, least_plan, predicted};
use predictions::Change;
use rand_core::utils::NextWord;
use rand_pcg::Pcg32;
use rule_set::{RuleNumbers, RuleSet, Safe};
use sectors::Angles;
use std::alloc::Global;
use std::process::Abort;
use tracks::Accepted;

static DETECT: Detect = Detect {
    watch: 50_000_000,
    risk: 5_000_000,
    clear: 10_000_000,
    horizon: 60,
    angles: Angles {
        doubt: 0,
        ahead: 100,
        reciprocal: 100,
    },
};

static ACT: Act = Act {
    steady_turn: 50,
    apparent_turn: 200,
    steady_speed: 10,
    apparent_speed: 50,
};

static NUMBERS: RuleNumbers = RuleNumbers {
    safe: Safe::One(200),
    overtake: 200,
    close: 300,
    t8: 60,
    ta: 60,
    tl: 20,
    tw: 100,
    te: 600,
};

/// A domain that is longer ahead than aft.
static LONG_AHEAD: [(i32, i32); 6] = [
    (600, 0),
    (300, 150),
    (-100, 150),
    (-200, 0),
    (-100, -150),
    (300, -150),
];

/// A vessel that moves by this much from each tick to the next and reports 18 knots. She has no direction from a tick,
/// and is not seen at the ticks up to now whose bits are set.
#[derive(Drop)]
struct Line {
    from: Point,
    step: Point,
    direction: u16,
    lost: u32,
    missed: u32,
}

impl Line {
    fn at(&self, k: u32) -> TickState {
        let ticks = i64::from(k);
        TickState {
            point: Point {
                x: self.from.x.wrapping_add(self.step.x.wrapping_mul(ticks)),
                y: self.from.y.wrapping_add(self.step.y.wrapping_mul(ticks)),
            },
            direction: if k < self.lost {
                Some(self.direction)
            } else {
                None
            },
            speed: Some(180),
        }
    }

    /// Returns her state at a tick up to now, if she is seen.
    fn seen_at(&self, k: u32) -> Option<TickState>
        requires { k ≤ 20 }
    {
        match self.missed >> k & 1 {
            0 => Some(self.at(k)),
            _ => None,
        }
    }
}

/// Returns both values, or the first out-of-memory error.
fn both<A: Drop, B: Drop>(
    first: Result<A, Memory>,
    second: Result<B, Memory>,
) -> Result<(A, B), Memory> {
    Ok((first?, second?))
}

/// Returns her states at the ticks up to now.
fn past_on(alloc: Global, line: &Line, now: u32) -> Result<Past, Memory>
    requires { now ≤ 20 }
{
    let mut past = Vec::new(alloc);
    for k in 0..now + 1 {
        past.push(line.seen_at(k))?;
    }
    Ok(Past::new(past))
}

/// Returns her predicted states from now, up to this many ticks later.
fn ahead_on(alloc: Global, line: &Line, now: u32, positions: u32) -> Result<Ahead, Memory>
    requires now { now ≤ 20 }
    requires positions { positions ≤ 7200 }
{
    let mut ahead = Vec::new(alloc);
    for k in now..now + positions + 1 {
        ahead.push(line.at(k))?;
    }
    Ok(Ahead::new(ahead))
}

/// Returns a target on a line.
fn target_on(
    alloc: Global,
    line: &Line,
    radius: u64,
    now: u32,
    positions: u32,
) -> Result<Target, Memory>
    requires now { now ≤ 20 }
    requires positions { positions ≤ 7200 }
{
    let past = past_on(alloc, line, now);
    let (past, ahead) = both(past, ahead_on(alloc, line, now, positions))?;
    Ok(Target {
        mmsi: 477_553_000,
        past,
        ahead,
        domain: Domain { radius },
    })
}

/// Own ship: she heads north at 18 knots from the origin, at a tick of 10 seconds.
static NORTHWARD: Line = Line {
    from: Point { x: 0, y: 0 },
    step: Point { x: 0, y: 926_000 },
    direction: 0,
    lost: u32::MAX,
    missed: 0,
};

/// Returns one target, which is on a line.
fn targets_on(
    alloc: Global,
    line: &Line,
    radius: u64,
    now: u32,
    positions: u32,
) -> Result<Targets, Memory>
    requires now { now ≤ 20 }
    requires positions { positions ≤ 7200 }
{
    let target = target_on(alloc, line, radius, now, positions)?;
    Ok(Targets::new(vec![in alloc; target]?))
}

/// Returns own ship up to the tick of now, a target on a line, and the rules.
fn surroundings(
    alloc: Global,
    line: &Line,
    radius: u64,
    now: u32,
    positions: u32,
) -> Result<((Past, Targets), RuleSet), Memory>
    requires now { now ≤ 20 }
    requires positions { positions ≤ 7200 }
{
    let targets = targets_on(alloc, line, radius, now, positions);
    let vessels = both(past_on(alloc, &NORTHWARD, now), targets);
    both(vessels, RuleSet::new(alloc, &NUMBERS, 10))
}

/// Returns a situation with one target on a line; own ship has headed north up to the tick of now.
fn towards(
    alloc: Global,
    line: &Line,
    radius: u64,
    now: u32,
    lattice: Lattice,
    shape: Option<Shape>,
) -> Result<Situation, Memory>
    requires { now ≤ 20 }
{
    let around = surroundings(alloc, line, radius, now, lattice.positions());
    let (lattice, ((own_past, targets), rules)) = both(Ok(lattice), around)?;
    Ok(Situation {
        own_past,
        start: NORTHWARD.at(now),
        targets,
        rules,
        detect: DETECT,
        act: ACT,
        lattice,
        tick: 10,
        shape,
    })
}

/// Returns two vessels that meet head-on at 18 knots each, 18.52 metres abeam of each other. Now is tick 1. The other
/// has no direction from a tick.
pub(crate) fn head_on(
    alloc: Global,
    lattice: Lattice,
    shape: Option<Shape>,
    lost: u32,
) -> Result<Situation, Memory> {
    let line = Line {
        from: Point {
            x: -185_200,
            y: 37_040_000,
        },
        step: Point { x: 0, y: -926_000 },
        direction: 1800,
        lost,
        missed: 0,
    };
    towards(alloc, &line, 3_000_000, 1, lattice, shape)
}

/// Returns a lattice with only the plan of keeping course and speed.
pub(crate) fn keeping_on(alloc: Global) -> Lattice {
    Lattice::new(alloc, &[0], &[0], 1, 30, 10, 1800, 1022)
}

/// Returns a lattice with three plans: she keeps her course, or turns to starboard by 30 or 60 degrees, by this much
/// per tick.
fn turning(alloc: Global, turn_rate: u16) -> Lattice
    requires some { 1 ≤ turn_rate }
    requires few { turn_rate ≤ 1800 }
{
    Lattice::new(alloc, &[0, 300, 600], &[0], 1, 30, 10, turn_rate, 1022)
}

fn number_in(lattice: &Lattice, plan: Option<Plan>) -> Option<u32>
    requires { IfSome plan (λ plan. IsPlan (choices_of lattice.now) lattice.now.legs plan) }
{
    match plan {
        Some(plan) => Some(lattice.number(&plan)),
        None => None,
    }
}

/// Returns the number of the least plan that does not fail, by the flat list.
fn flat_answer(alloc: Global, situation: &Situation) -> Result<Option<u32>, Memory>
    requires { IsSituation situation.now }
{
    let plan = least_plan(alloc, situation)?;
    Ok(number_in(&situation.lattice, plan))
}

/// Returns the number of the least plan that does not fail, by the pruned search.
fn pruned_answer(search: &mut Search) -> Option<u32>
    requires { IsSound search.old }
    ensures { IsSound search.new }
{
    let plan = search.run();
    number_in(&search.situation().lattice, plan)
}

/// Returns the answer of a search, and its answer to a second call.
fn answers_of(mut search: Search) -> [Option<u32>; 2]
    requires { IsSound search }
{
    let first = pruned_answer(&mut search);
    let second = pruned_answer(&mut search);
    drop(search);
    [first, second]
}

/// Returns the answers of the pruned search to two calls.
fn pruned_answers(alloc: Global, situation: Situation) -> Result<[Option<u32>; 2], Memory>
    requires { IsSituation situation }
{
    Ok(answers_of(Search::new(alloc, situation)?))
}

/// Checks that the pruned search gives the answer of the flat list each time; returns it.
fn agreed(
    rt: &impl Abort,
    flat: Result<Option<u32>, Memory>,
    pruned: Result<[Option<u32>; 2], Memory>,
) -> Result<Option<u32>, Memory> {
    let flat = flat?;
    is_found(rt, pruned, [flat, flat])?;
    Ok(flat)
}

/// Returns the number of the least plan that does not fail, on which the flat list and each call of the pruned search
/// agree.
fn least(rt: &impl Abort, alloc: Global, situation: Situation) -> Result<Option<u32>, Memory> {
    is_checked(rt, &situation);
    let flat = flat_answer(alloc, &situation);
    agreed(rt, flat, pruned_answers(alloc, situation))
}

/// Returns the answer for two vessels head-on.
fn least_head_on(
    rt: &impl Abort,
    alloc: Global,
    lattice: Lattice,
    shape: Option<Shape>,
) -> Result<Option<u32>, Memory> {
    least(rt, alloc, head_on(alloc, lattice, shape, u32::MAX)?)
}

/// Returns the same if she may turn to starboard by this much per tick.
fn least_turning(
    rt: &impl Abort,
    alloc: Global,
    turn_rate: u16,
    shape: Option<Shape>,
) -> Result<Option<u32>, Memory>
    requires some { 1 ≤ turn_rate }
    requires few { turn_rate ≤ 1800 }
{
    least_head_on(rt, alloc, turning(alloc, turn_rate), shape)
}

/// Returns a lattice with two legs; on each she keeps her course or turns to starboard by 30 degrees.
fn two_legs(alloc: Global) -> Lattice {
    Lattice::new(alloc, &[0, 300], &[0], 2, 15, 10, 1800, 1022)
}

#[test]
fn two_vessels_head_on(rt: HostRuntime) -> Result<(), Memory> {
    let alloc = rt.alloc();
    is_found(&rt, least_turning(&rt, alloc, 1800, None), Some(1))?;
    is_found(
        &rt,
        least_head_on(&rt, alloc, keeping_on(alloc), None),
        None,
    )?;
    is_found(
        &rt,
        least_head_on(&rt, alloc, two_legs(alloc), None),
        Some(2),
    )
}

#[test]
fn two_vessels_head_on_with_a_shape(rt: HostRuntime) -> Result<(), Memory> {
    let shape = Shape::new(&LONG_AHEAD);
    is_found(&rt, least_turning(&rt, rt.alloc(), 1800, shape), Some(1))
}

#[test]
fn a_turn_at_a_rate_passes_or_comes_too_late(rt: HostRuntime) -> Result<(), Memory> {
    is_found(&rt, least_turning(&rt, rt.alloc(), 100, None), Some(1))?;
    is_found(&rt, least_turning(&rt, rt.alloc(), 20, None), None)
}

/// Returns the answers of the pruned search for 2^30 plans, too many for the flat list.
fn answers_of_the_greatest_lattice(
    rt: &impl Abort,
    alloc: Global,
) -> Result<[Option<u32>; 2], Memory> {
    let greatest = Lattice::new(alloc, &[0; 4], &[0; 8], 6, 30, 10, 1800, 1022);
    let situation = head_on(alloc, greatest, None, u32::MAX)?;
    is_checked(rt, &situation);
    pruned_answers(alloc, situation)
}

#[test]
fn all_plans_of_the_greatest_lattice_fail_in_their_first_leg(
    rt: HostRuntime,
) -> Result<(), Memory> {
    let answers = answers_of_the_greatest_lattice(&rt, rt.alloc());
    is_found(&rt, answers, [None, None])
}

/// Returns a number below `many`, which is at most 2^24.
fn below(source: &mut Pcg32, many: u32) -> u32
    requires { 0 < many }
    ensures { result < many }
{
    (source.next_word() >> 8) % many
}

/// Returns a number whose distance from 0 is less than `size`.
fn about(source: &mut Pcg32, size: u32) -> i64
    requires some { 0 < size }
    requires few { size < 8388608 }
{
    i64::from(below(source, 2 * size)) - i64::from(size)
}

fn random_lattice(alloc: Global, source: &mut Pcg32) -> Lattice {
    match below(source, 4) {
        0 => Lattice::new(alloc, &[0, 300, -300], &[0], 2, 5, 5, 1800, 1022),
        1 => Lattice::new(alloc, &[0, 600], &[0, -100], 2, 4, 3, 300, 50),
        2 => Lattice::new(alloc, &[0, 150, -900, 300], &[0], 1, 10, 2, 150, 1022),
        _ => Lattice::new(alloc, &[0, 900], &[0], 3, 3, 4, 1800, 1022),
    }
}

fn random_line(source: &mut Pcg32) -> Line {
    Line {
        from: Point {
            x: about(source, 8_000_000),
            y: about(source, 8_000_000),
        },
        step: Point {
            x: about(source, 900_000),
            y: about(source, 900_000),
        },
        direction: below(source, 3600) as u16,
        lost: u32::MAX,
        missed: 0,
    }
}

/// Returns about one in eight of the ticks up to now.
fn random_ticks(source: &mut Pcg32, now: u32) -> u32
    requires { now ≤ 20 }
{
    let mut ticks = 0;
    for k in 0..now + 1 {
        if below(source, 8) == 0 {
            ticks |= 1 << k;
        }
    }
    ticks
}

fn random_shape(source: &mut Pcg32) -> Option<Shape> {
    match below(source, 2) {
        0 => Shape::new(&LONG_AHEAD),
        _ => None,
    }
}

/// Returns a target on a random line, which is not seen at some ticks, and a random lattice. In about half of the
/// situations domains are shapes.
fn random_situation(alloc: Global, source: &mut Pcg32) -> Result<Situation, Memory> {
    let lattice = random_lattice(alloc, source);
    let line = random_line(source);
    let now = 1 + below(source, 4);
    let missed = random_ticks(source, now);
    let radius = u64::from(below(source, 4_000_000));
    let shape = random_shape(source);
    towards(alloc, &Line { missed, ..line }, radius, now, lattice, shape)
}

fn least_of_random(
    rt: &impl Abort,
    alloc: Global,
    source: &mut Pcg32,
) -> Result<Option<u32>, Memory> {
    least(rt, alloc, random_situation(alloc, source)?)
}

/// Returns the kind of an answer: the first plan, a later one, or none.
fn kind_of(answer: Option<u32>) -> usize
    ensures { result < 3 }
{
    match answer {
        Some(0) => 0,
        Some(_) => 1,
        None => 2,
    }
}

#[test]
fn the_pruned_search_agrees_with_the_flat_list(rt: HostRuntime) -> Result<(), Memory> {
    let mut source = Pcg32::new(42, 54);
    let mut came = [false; 3];
    for _ in 0..120u8 {
        came[kind_of(least_of_random(&rt, rt.alloc(), &mut source)?)] = true;
    }
    is(&rt, came, [true; 3]);
    Ok(())
}

/// A vessel that heads north at 18 knots, by her report at second 1000 at the origin.
static REPORTED: Accepted = Accepted {
    time: 1000,
    point: Point { x: 0, y: 0 },
    report: PositionReport {
        kind: 1,
        mmsi: 477_553_000,
        status: 0,
        place: Some((0, 0)),
        sog: Some(180),
        cog: Some(0),
        heading: None,
        second: 0,
    },
};

/// After 10 seconds she heads east at 9 knots.
static EAST: [Change; 1] = [Change {
    after: 10,
    course: 900,
    speed: 90,
}];

/// Returns her predicted state this many seconds after her report.
fn predicted_after(seconds: u8) -> TickState {
    predicted(&REPORTED, &EAST, 1000, 1000 + u64::from(seconds))
}

/// Seconds, and the predicted state after them.
static ON_THE_WAY: [(u8, TickState); 3] = [
    (
        9,
        TickState {
            point: Point { x: 0, y: 833_400 },
            direction: Some(0),
            speed: Some(180),
        },
    ),
    (
        10,
        TickState {
            point: Point { x: 0, y: 926_000 },
            direction: Some(900),
            speed: Some(90),
        },
    ),
    (
        20,
        TickState {
            point: Point {
                x: 463_000,
                y: 926_000,
            },
            direction: Some(900),
            speed: Some(90),
        },
    ),
];

#[test]
fn a_change_of_course_on_the_way(rt: HostRuntime) {
    for (seconds, state) in &ON_THE_WAY {
        is(&rt, predicted_after(*seconds), *state);
    }
}
