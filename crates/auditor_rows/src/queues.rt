//! A queue and the marks of its tracks.
use crate::compared::is;
use audit_rows::{Mark, Row, RowQueue, Topic};
use auditor::{Total, begin_tracks, totals_of};
use meetings::Pair;
use out_of_memory::Memory;
use std::alloc::Global;
use std::process::Abort;

/// An operation on a queue.
pub(crate) enum Step {
    /// The tracks of a pair's trace begin, by so many rules.
    Trace(Pair, u16),
    /// A track begins.
    Track(Topic),
    /// The track at an index gets the mark for a step.
    Mark(usize, u32, Mark),
    /// Taking the next rows below a bound returns these.
    Below(u32, &'static [Row]),
}

pub(crate) static NO_ROWS: [Row; 0] = [];

/// The totals without rules.
pub(crate) static NO_TOTALS: [Total; 0] = [];

/// Checks that a queue returns these rows below a bound.
fn gives_below(
    rt: &impl Abort,
    queue: &mut RowQueue,
    bound: u32,
    wanted: &[Row],
) -> Result<(), Memory> {
    let rows = queue.rows_below(bound)?;
    is(rt, rows.as_slice(), wanted);
    Ok(())
}

fn take(rt: &impl Abort, queue: &mut RowQueue, step: &Step) -> Result<(), Memory> {
    match step {
        Step::Trace(pair, rules) => begin_tracks(queue, *pair, usize::from(*rules)),
        Step::Track(topic) => {
            queue.begin(*topic)?;
            Ok(())
        }
        Step::Mark(index, step, mark) => queue.mark(*index, *step, *mark),
        Step::Below(bound, rows) => gives_below(rt, queue, *bound, rows),
    }
}

/// Runs these operations.
pub(crate) fn take_all(
    rt: &impl Abort,
    queue: &mut RowQueue,
    steps: &[Step],
) -> Result<(), Memory> {
    for step in steps {
        take(rt, queue, step)?;
    }
    Ok(())
}

/// Checks that the rules have these totals if all tracks end at a step.
fn has_totals(
    rt: &impl Abort,
    alloc: Global,
    queue: &RowQueue,
    end: u32,
    wanted: &[Total],
) -> Result<(), Memory> {
    let totals = totals_of(alloc, queue, wanted.len(), end)?;
    is(rt, totals.as_slice(), wanted);
    Ok(())
}

/// Checks that a queue returns these rows, and that the rules have these totals, if all tracks end at a step.
pub(crate) fn ends_with(
    rt: &impl Abort,
    alloc: Global,
    queue: RowQueue,
    end: u32,
    rows: &[Row],
    totals: &[Total],
) -> Result<(), Memory> {
    has_totals(rt, alloc, &queue, end, totals)?;
    let found = queue.finish(end)?;
    is(rt, found.as_slice(), rows);
    Ok(())
}

/// Checks the same for a queue after these operations.
pub(crate) fn comes_to(
    rt: &impl Abort,
    alloc: Global,
    steps: &[Step],
    end: u32,
    rows: &[Row],
    totals: &[Total],
) -> Result<(), Memory> {
    let mut queue = RowQueue::new(alloc);
    take_all(rt, &mut queue, steps)?;
    ends_with(rt, alloc, queue, end, rows, totals)
}
