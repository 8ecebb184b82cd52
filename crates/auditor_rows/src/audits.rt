//! Whole audits of a few vessels.
ghost use Rattle.std.specs.Prelude.{ℤ, ◌≡◌, ◌+◌, ◌*◌, ◌<◌, ◌≤◌, ◌-ℤ◌, pos, [], IfOk, OnOk};
ghost use Rattle.traces.specs.Audited.{AreAscending, ArePlaced, MoveLittle};
ghost use Rattle.auditor_rows.specs.WorkedMeeting.{head_on_at, overtaking_at, own_at, seen_at};
ghost use Rattle.auditor.specs.Standing.{IsSound, given_of, last_tick_of, latest_vessels};

use crate::compared::is;
use crate::queues::NO_ROWS;
use audit_rows::Row;
use auditor::{Audit, AuditEnd, AuditFault, Total};
use encounters::{Act, Detect};
use fixed_geometry::Point;
use meetings::Pair;
use motion::TickState;
use out_of_memory::Memory;
use ranks::Rank;
use rule_set::{RuleNumbers, RuleSet, Safe};
use scenario_values::Window;
use sectors::{Angles, Class};
use std::alloc::Global;
use std::process::Abort;

pub(crate) const DETECT: Detect = Detect {
    watch: 50_000_000,
    risk: 5_000_000,
    clear: 10_000_000,
    horizon: 60,
    angles: Angles {
        doubt: 0,
        ahead: 100,
        reciprocal: 100,
    },
};

pub(crate) const ACT: Act = Act {
    steady_turn: 50,
    apparent_turn: 200,
    steady_speed: 10,
    apparent_speed: 50,
};

pub(crate) const NUMBERS: RuleNumbers = RuleNumbers {
    safe: Safe::One(200),
    overtake: 200,
    close: 300,
    t8: 60,
    ta: 60,
    tl: 20,
    tw: 100,
    te: 600,
};

/// No subjects, so that all vessels are subjects.
pub(crate) static ALL: [u32; 0] = [];

/// The ranks if they do not count.
pub(crate) static UNRANKED: [Rank; 0] = [];

pub(crate) const OWN: u32 = 369_190_000;

pub(crate) const OTHER: u32 = 477_553_000;

/// The duties of the first vessel towards the second.
pub(crate) const PAIR: Pair = Pair {
    subject: OWN,
    other: OTHER,
};

/// The duties of the second vessel towards the first.
pub(crate) const BACK: Pair = Pair {
    subject: OTHER,
    other: OWN,
};

/// Returns the eleven rules, or the twelve of an audit with ranks.
fn rules(alloc: Global, ranked: bool) -> Result<RuleSet, Memory> {
    if ranked {
        RuleSet::new_ranked(alloc, &NUMBERS, 10)
    } else {
        RuleSet::new(alloc, &NUMBERS, 10)
    }
}

/// Returns an audit of `ticks` ticks of 10 seconds.
fn audit(alloc: Global, ranked: bool, ticks: u32) -> Result<Audit, Memory>
    requires { ticks ≤ 20000 }
    ensures sound { IfOk result (λ audit. IsSound audit) }
    ensures none { IfOk result (λ audit. given_of audit ≡ 0) }
    ensures last { IfOk result (λ audit. last_tick_of audit ≡ ticks) }
    ensures latest { IfOk result (λ audit. latest_vessels audit ≡ []) }
{
    let rules = rules(alloc, ranked)?;
    let window = Window {
        start: 1_700_000_000,
        tick: 10,
        ticks,
    };
    Audit::new(alloc, &rules, DETECT, ACT, &ALL, window)
}

/// Returns the first vessel's distance north of the middle at a tick.
fn north(k: u32) -> i64
    requires { k ≤ 40 }
    ensures { result ≡ pos (926000 * k) -ℤ pos 18520000 }
{
    926_000 * i64::from(k) - 18_520_000
}

/// Returns the second vessel's distance north of the middle at a tick.
fn other_north(k: u32) -> i64
    requires { k ≤ 40 }
    ensures { result ≡ pos 18520000 -ℤ pos (926000 * k) }
{
    18_520_000 - 926_000 * i64::from(k)
}

/// Returns the first vessel, which heads north at 18 knots, at a tick.
fn own_at(k: u32) -> TickState
    requires { k ≤ 40 }
    ensures { result ≡ own_at k }
{
    TickState {
        point: Point { x: 0, y: north(k) },
        direction: Some(0),
        speed: Some(180),
    }
}

/// Returns two vessels at a tick that meet head-on at 18 knots each, 18.52 metres abeam of each other.
pub(crate) fn head_on(k: u32) -> [(u32, TickState); 2]
    requires { k ≤ 40 }
    ensures { result ≡ head_on_at k }
{
    [
        (OWN, own_at(k)),
        (
            OTHER,
            TickState {
                point: Point {
                    x: -185_200,
                    y: other_north(k),
                },
                direction: Some(1800),
                speed: Some(180),
            },
        ),
    ]
}

/// Returns a vessel at a tick that overtakes another, which is stopped, 18.52 metres abeam of her.
fn overtaking(k: u32) -> [(u32, TickState); 2]
    requires { k ≤ 40 }
    ensures { result ≡ overtaking_at k }
{
    [
        (OWN, own_at(k)),
        (
            OTHER,
            TickState {
                point: Point { x: -185_200, y: 0 },
                direction: Some(0),
                speed: Some(0),
            },
        ),
    ]
}

/// A meeting of the two vessels: whether the second is stopped, and the ranks at the first tick and at all later ones;
/// no ranks if they do not count.
pub(crate) struct Encounter {
    pub(crate) still: bool,
    pub(crate) first: &'static [Rank],
    pub(crate) later: &'static [Rank],
}

/// Returns the vessels at a tick.
fn seen_at(still: bool, k: u32) -> [(u32, TickState); 2]
    requires { k ≤ 40 }
    ensures vessels { result ≡ seen_at still k }
    ensures ascending { AreAscending result }
    ensures placed { ArePlaced result }
{
    if still { overtaking(k) } else { head_on(k) }
}

/// Returns the rows of a tick of these vessels.
fn given(
    audit: &mut Audit,
    seen: &[(u32, TickState)],
    ranks: &[Rank],
) -> Result<Vec<Row>, AuditFault>
    requires sound { IsSound audit.old }
    requires within { given_of audit.old ≤ last_tick_of audit.old }
    requires ascending { AreAscending seen.now }
    requires placed { ArePlaced seen.now }
    requires moves { MoveLittle (latest_vessels audit.old) seen.now }
    ensures sound { OnOk result (IsSound audit.new) }
    ensures given { OnOk result (given_of audit.new ≡ given_of audit.old + 1) }
    ensures last { OnOk result (last_tick_of audit.new ≡ last_tick_of audit.old) }
    ensures latest { OnOk result (latest_vessels audit.new ≡ seen.now) }
{
    if ranks.is_empty() {
        audit.step(seen)
    } else {
        audit.step_ranked(seen, ranks)
    }
}

/// Collects rows, each with the tick that returned it.
fn keep(rows: &mut Vec<(u32, Row)>, k: u32, given: &[Row]) -> Result<(), Memory> {
    for row in given {
        rows.push((k, *row))?;
    }
    Ok(())
}

/// Takes a tick of the meeting, and collects the rows that it returns.
fn take(
    audit: &mut Audit,
    encounter: &Encounter,
    k: u32,
    rows: &mut Vec<(u32, Row)>,
) -> Result<(), AuditFault>
    requires sound { IsSound audit.old }
    requires at { given_of audit.old ≡ k }
    requires within { k ≤ last_tick_of audit.old }
    requires small { k ≤ 40 }
    requires moves { MoveLittle (latest_vessels audit.old) (seen_at encounter.now.still k) }
    ensures sound { OnOk result (IsSound audit.new) }
    ensures at { OnOk result (given_of audit.new ≡ k + 1) }
    ensures last { OnOk result (last_tick_of audit.new ≡ last_tick_of audit.old) }
    ensures moves { OnOk result
        (MoveLittle (latest_vessels audit.new) (seen_at encounter.now.still (k + 1))) }
{
    let seen = seen_at(encounter.still, k);
    let ranks = if k == 0 {
        encounter.first
    } else {
        encounter.later
    };
    let given = given(audit, &seen, ranks)?;
    Ok(keep(rows, k, &given)?)
}

/// Takes all ticks of the meeting, and collects the rows that they return.
fn take_all(
    audit: &mut Audit,
    encounter: &Encounter,
    ticks: u32,
    rows: &mut Vec<(u32, Row)>,
) -> Result<(), AuditFault>
    requires small { ticks ≤ 40 }
    requires sound { IsSound audit.old }
    requires none { given_of audit.old ≡ 0 }
    requires last { last_tick_of audit.old ≡ ticks }
    requires latest { latest_vessels audit.old ≡ [] }
    ensures sound { OnOk result (IsSound audit.new) }
    ensures all { OnOk result (given_of audit.new ≡ last_tick_of audit.new + 1) }
{
    for k in 0..ticks + 1 {
        take(audit, encounter, k, rows)?;
    }
    Ok(())
}

/// Audits the meeting in a window of `ticks` ticks, collects the rows before its end, and returns the results of the
/// end.
pub(crate) fn audited(
    alloc: Global,
    encounter: &Encounter,
    ticks: u32,
    rows: &mut Vec<(u32, Row)>,
) -> Result<AuditEnd, AuditFault>
    requires { ticks ≤ 40 }
{
    let mut audit = audit(alloc, !encounter.first.is_empty(), ticks)?;
    take_all(&mut audit, encounter, ticks, rows)?;
    Ok(audit.end()?)
}

/// Returns the totals of the meeting in a window of `ticks` ticks. Checks the rows before its end, each with its tick,
/// and the rows of the end.
pub(crate) fn totals_behind(
    rt: &impl Abort,
    alloc: Global,
    encounter: &Encounter,
    ticks: u32,
    before: &[(u32, Row)],
    last: &[Row],
) -> Result<Vec<Total>, AuditFault>
    requires { ticks ≤ 40 }
{
    let mut rows = Vec::new(alloc);
    let AuditEnd { rows: rest, totals } = audited(alloc, encounter, ticks, &mut rows)?;
    is(rt, rows.as_slice(), before);
    is(rt, rest.as_slice(), last);
    Ok(totals)
}

static COMING_HEAD_ON: Encounter = Encounter {
    still: false,
    first: &[],
    later: &[],
};

#[rattlefmt::skip]
pub(crate) static HEAD_ON_ROWS: [(u32, Row); 6] = [
    (8, Row::Verdict { pair: PAIR, rule: 3, undecided: false, first: 0, last: 0 }),
    (8, Row::Verdict { pair: BACK, rule: 3, undecided: false, first: 0, last: 0 }),
    (29, Row::Verdict { pair: PAIR, rule: 1, undecided: false, first: 18, last: 21 }),
    (29, Row::Verdict { pair: BACK, rule: 1, undecided: false, first: 18, last: 21 }),
    (33, Row::Meeting { pair: PAIR, kind: Class::HeadOn, first: 0, last: 25, least: 185_200 }),
    (33, Row::Meeting { pair: BACK, kind: Class::HeadOn, first: 0, last: 25, least: 185_200 }),
];

#[rattlefmt::skip]
static HEAD_ON_TOTALS: [Total; 11] = [
    Total { positions: 80, yes: 80, no: 0, undecided: 0, runs: 0 },
    Total { positions: 80, yes: 72, no: 8, undecided: 0, runs: 2 },
    Total { positions: 80, yes: 80, no: 0, undecided: 0, runs: 0 },
    Total { positions: 80, yes: 78, no: 2, undecided: 0, runs: 2 },
    Total { positions: 80, yes: 80, no: 0, undecided: 0, runs: 0 },
    Total { positions: 80, yes: 80, no: 0, undecided: 0, runs: 0 },
    Total { positions: 80, yes: 80, no: 0, undecided: 0, runs: 0 },
    Total { positions: 80, yes: 80, no: 0, undecided: 0, runs: 0 },
    Total { positions: 80, yes: 80, no: 0, undecided: 0, runs: 0 },
    Total { positions: 80, yes: 80, no: 0, undecided: 0, runs: 0 },
    Total { positions: 80, yes: 80, no: 0, undecided: 0, runs: 0 },
];

#[test]
fn head_on_where_nobody_alters(rt: HostRuntime) -> Result<(), AuditFault> {
    let totals = totals_behind(
        &rt,
        rt.alloc(),
        &COMING_HEAD_ON,
        40,
        &HEAD_ON_ROWS,
        &NO_ROWS,
    )?;
    is(&rt, totals.as_slice(), HEAD_ON_TOTALS.as_slice());
    Ok(())
}

static NOT_YET: [(u32, Row); 0] = [];

#[rattlefmt::skip]
static LEFT_OPEN: [Row; 4] = [
    Row::Verdict { pair: PAIR, rule: 3, undecided: true, first: 0, last: 0 },
    Row::Verdict { pair: BACK, rule: 3, undecided: true, first: 0, last: 0 },
    Row::Meeting { pair: PAIR, kind: Class::HeadOn, first: 0, last: 3, least: 29_632_578 },
    Row::Meeting { pair: BACK, kind: Class::HeadOn, first: 0, last: 3, least: 29_632_578 },
];

#[test]
fn a_window_that_ends_early_leaves_open_what_is_not_decided(
    rt: HostRuntime,
) -> Result<(), AuditFault> {
    let _totals = totals_behind(&rt, rt.alloc(), &COMING_HEAD_ON, 4, &NOT_YET, &LEFT_OPEN)?;
    Ok(())
}

/// Returns `vessels` stopped vessels at one point.
fn still(alloc: Global, vessels: u32) -> Result<Vec<(u32, TickState)>, Memory>
    requires { vessels ≤ 1000 }
    ensures ascending { IfOk result (λ seen. AreAscending seen.items) }
    ensures placed { IfOk result (λ seen. ArePlaced seen.items) }
{
    let mut seen = Vec::new(alloc);
    for k in 0..vessels {
        seen.push((
            200_000_000 + k,
            TickState {
                point: Point { x: 0, y: 0 },
                direction: None,
                speed: None,
            },
        ))?;
    }
    Ok(seen)
}

/// Returns the rows of the first tick of `vessels` stopped vessels.
fn first_tick(alloc: Global, vessels: u32) -> Result<Vec<Row>, AuditFault>
    requires { vessels ≤ 1000 }
{
    let seen = still(alloc, vessels)?;
    let mut audit = audit(alloc, false, 4)?;
    audit.step(&seen)
}

#[test]
fn sixty_five_vessels_are_too_many_pairs(rt: HostRuntime) {
    is(&rt, first_tick(rt.alloc(), 64).is_ok(), true);
    let fault = first_tick(rt.alloc(), 65).err();
    is(&rt, fault, Some(AuditFault::TooManyPairs));
}
