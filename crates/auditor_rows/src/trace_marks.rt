//! A worked trace.
ghost use Rattle.std.specs.Prelude.{◌≡◌, ◌+◌, ◌<◌, ◌≤◌, ◌^◌, IfOk, IfSome, OnOk, length};
ghost use Rattle.encounters.specs.Directions.{HasDirection, HaveDirections};
ghost use Rattle.mtl_monitor.specs.Following.{count_of};
ghost use Rattle.auditor.specs.TraceKeeping.{IsReady, steps_of};

use crate::audits::{ACT, DETECT, PAIR};
use crate::queues::{NO_ROWS, NO_TOTALS, ends_with};
use audit_rows::{Row, RowQueue};
use auditor::{AuditTrace, NextRow, Total, begin_tracks};
use encounters::PairStep;
use fixed_geometry::Point;
use meetings::Follower;
use motion::{Step, TickState};
use mtl_language::parse;
use mtl_monitor::Program;
use out_of_memory::Memory;
use sectors::Class;
use std::alloc::Global;
use std::test::Fail;

fn state(direction: u16) -> TickState
    requires { direction < 3600 }
    ensures { HasDirection result }
{
    TickState {
        point: Point { x: 0, y: 0 },
        direction: Some(direction),
        speed: Some(180),
    }
}

/// Returns a step of two vessels that meet head-on at 18 knots each, 18.52 metres abeam of each other and this far
/// apart along their tracks.
fn head_on(ahead: i64) -> Option<PairStep>
    ensures { IfSome result HaveDirections }
{
    let p = Point {
        x: -185_200,
        y: ahead,
    };
    let w = Point {
        x: 0,
        y: -1_852_000,
    };
    Some(PairStep {
        step: Step::new(p, w)?,
        a: state(0),
        b: state(1800),
    })
}

/// Takes the next step.
fn take(
    trace: &mut AuditTrace,
    follower: &mut Follower,
    program: &Program,
    seen: Option<PairStep>,
    step: u32,
    queue: &mut RowQueue,
) -> Result<(), Memory>
    requires seen { IfSome seen HaveDirections }
    requires ready { IsReady program.now trace.old }
    requires few { steps_of trace.old < 2 ^ 31 }
    requires room { count_of program.now < 2 ^ 31 }
    ensures ready { IsReady program.now trace.new }
    ensures steps { steps_of trace.new ≡ steps_of trace.old + 1 }
{
    let was = follower.state();
    let row = follower.step(seen.as_ref());
    let is = follower.state();
    let next = NextRow {
        seen: seen.as_ref(),
        row: &row,
        was: &was,
        is: &is,
    };
    trace.step(program, next, step, queue, 0)
}

/// Takes steps of a head-on meeting, given their numbers and the vessels' distance along their tracks.
fn take_all(
    trace: &mut AuditTrace,
    follower: &mut Follower,
    program: &Program,
    steps: &[(u32, i64)],
    queue: &mut RowQueue,
) -> Result<(), Memory>
    requires ready { IsReady program.now trace.old }
    requires few { steps_of trace.old + length steps.now < 2 ^ 31 }
    requires room { count_of program.now < 2 ^ 31 }
    ensures ready { OnOk result (IsReady program.now trace.new) }
    ensures steps { OnOk result (steps_of trace.new ≡ steps_of trace.old + length steps.now) }
{
    for (step, ahead) in steps {
        take(trace, follower, program, head_on(*ahead), *step, queue)?;
    }
    Ok(())
}

/// Returns a program with one more formula, at a tick of 10 seconds.
fn with_formula(alloc: Global, program: Program, text: &[u8]) -> Result<Program, Fail>
    requires { length text.now ≤ 1024 }
    ensures { IfOk result (λ more. count_of more ≡ count_of program + 1) }
{
    let formula = parse(alloc, text, 10)?;
    Ok(program.with(&formula)?)
}

/// Returns two rules: the vessels are engaged, and they are engaged within two steps.
fn two_rules(alloc: Global) -> Result<Program, Fail>
    ensures { IfOk result (λ program. count_of program ≡ 2) }
{
    let engaged = with_formula(alloc, Program::new(alloc), b"engaged")?;
    with_formula(alloc, engaged, b"F[0,20] engaged")
}

/// Begins a trace at step 5, takes these steps, and ends it.
fn take_whole(
    alloc: Global,
    program: &Program,
    steps: &[(u32, i64)],
    queue: &mut RowQueue,
) -> Result<(), Memory>
    requires few { length steps.now < 2 ^ 31 }
    requires room { count_of program.now < 2 ^ 31 }
{
    begin_tracks(queue, PAIR, program.formula_count())?;
    let mut trace = AuditTrace::new(alloc, program, 5)?;
    let mut follower = Follower::new(DETECT, ACT, 10);
    take_all(&mut trace, &mut follower, program, steps, queue)?;
    trace.end(program, queue, 0)
}

/// Returns the tracks of a trace of these steps by the two rules.
fn tracks_of(alloc: Global, steps: &[(u32, i64)]) -> Result<RowQueue, Fail>
    requires { length steps.now < 2 ^ 31 }
{
    let program = two_rules(alloc)?;
    let mut queue = RowQueue::new(alloc);
    take_whole(alloc, &program, steps, &mut queue)?;
    Ok(queue)
}

/// They pass at the end of the first step, are 1111 metres past each other at the end of the second, and are clear in the third.
static STEPS: [(u32, i64); 3] = [(5, 1_852_000), (6, -9_260_000), (7, -11_112_000)];

#[rattlefmt::skip]
static ROWS: [Row; 3] = [
    Row::Meeting { pair: PAIR, kind: Class::HeadOn, first: 5, last: 6, least: 185_200 },
    Row::Verdict { pair: PAIR, rule: 0, undecided: false, first: 7, last: 7 },
    Row::Verdict { pair: PAIR, rule: 1, undecided: true, first: 7, last: 7 },
];

#[rattlefmt::skip]
static TOTALS: [Total; 2] = [
    Total { positions: 3, yes: 2, no: 1, undecided: 0, runs: 1 },
    Total { positions: 3, yes: 2, no: 0, undecided: 1, runs: 0 },
];

#[test]
fn an_engagement_that_ends_at_the_last_step(rt: HostRuntime) -> Result<(), Fail> {
    let queue = tracks_of(rt.alloc(), &STEPS)?;
    Ok(ends_with(&rt, rt.alloc(), queue, 8, &ROWS, &TOTALS)?)
}

static NO_STEPS: [(u32, i64); 0] = [];

#[test]
fn a_trace_of_no_steps_has_no_rows(rt: HostRuntime) -> Result<(), Fail> {
    let queue = tracks_of(rt.alloc(), &NO_STEPS)?;
    Ok(ends_with(&rt, rt.alloc(), queue, 5, &NO_ROWS, &NO_TOTALS)?)
}
