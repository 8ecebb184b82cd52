//! The audit's part for each trace of a window: marking the trace's tracks.
ghost use Rattle.std.specs.Prelude.{ℕ, ◌≡◌, ◌≤◌, ◌++◌, ◌^◌, List, OnOk};
ghost use Rattle.meetings.specs.declared.pair.Pair.{Pair};
ghost use Rattle.audit_rows.specs.Standing.{QueueStandsFor};
ghost use Rattle.audit_rows.specs.Tracks.{Track};
ghost use Rattle.audit_rows.specs.declared.row.Row.{Row};
ghost use Rattle.auditor.specs.Tallies.{IsUnknown, begun_tracks};

use crate::trace::AuditTrace;
use audit_rows::{RowQueue, Topic};
use meetings::Pair;
use mtl_formulas::Glance;
use mtl_monitor::Program;
use out_of_memory::Memory;
use std::alloc::Global;
use traces::{NextRow, TraceKeeper};

/// Marks the tracks of all traces, one trace after the other: the track of the meeting, then one per rule.
#[derive(Drop)]
pub(crate) struct AuditKeeper {
    pub(crate) alloc: Global,
    /// The formulas of all rules.
    pub(crate) program: Program,
    /// The tracks of each trace, in the order of the traces.
    pub(crate) queue: RowQueue,
}

impl AuditKeeper {
    ghost use Rattle.std.specs.Prelude.{◌+◌, ◌*◌, ◌<◌};
    ghost use Rattle.mtl_monitor.specs.Following.{count_of};
    ghost use Rattle.traces.specs.declared.all_traces.TheConstants.{MOST_TRACES};

    /// Returns the index of the first track of the trace with this index.
    #[inline(always)]
    fn first_track(&self, index: usize) -> usize
        requires rules { count_of self.now.program ≤ 17 }
        requires within { index < MOST_TRACES }
        ensures is { result ≡ index * (count_of self.now.program + 1) }
        ensures room { result + count_of self.now.program + 1 < 2 ^ 64 }
    {
        index * (self.program.formula_count() + 1)
    }
}

impl TraceKeeper for AuditKeeper {
    ghost use Rattle.auditor.specs.Inner.TracesMarked.{audit_keeper};

    type Kept = AuditTrace;

    ghost Given = { List Row };

    ghost keeper = { audit_keeper };

    fn begin(&mut self, pair: Pair, start: u32) -> Result<AuditTrace, Memory> {
        begin_tracks(&mut self.queue, pair, self.program.formula_count())?;
        let trace = AuditTrace::new(self.alloc, &self.program, start)?;
        Ok(trace)
    }

    #[inline(always)]
    fn step(
        &mut self,
        index: usize,
        trace: &mut AuditTrace,
        next: NextRow<'_>,
        step: u32,
    ) -> Result<(), Memory> {
        let first = self.first_track(index);
        trace.step(&self.program, next, step, &mut self.queue, first)?;
        Ok(())
    }

    #[inline(always)]
    fn rest(&self, _index: usize, trace: &mut AuditTrace, glance: Glance, step: u32) -> bool {
        trace.rest(&self.program, glance, step)
    }

    fn end(&mut self, index: usize, trace: &mut AuditTrace) -> Result<(), Memory> {
        let first = self.first_track(index);
        trace.end(&self.program, &mut self.queue, first)?;
        Ok(())
    }
}

/// Appends the tracks of a new trace of a pair: the track of the meeting, then one for each of `rules` rules, at most
/// 2^32, because a row names its rule by 32 bits. The pair must not have another trace, and the trace must not begin
/// below the bound of the rows returned so far.
pub fn begin_tracks(queue: &mut RowQueue, pair: Pair, rules: usize) -> Result<(), Memory>
    requires { rules ≤ 2 ^ 32 }
    ensures { OnOk result
        ((start bound : ℕ) (tracks : List Track) (given : List Row)
        → QueueStandsFor queue.old tracks bound given → IsUnknown pair tracks → bound ≤ start
        → QueueStandsFor queue.new (tracks ++ begun_tracks pair start rules) bound given) }
{
    queue.begin(Topic::Meeting(pair))?;
    for rule in 0..rules {
        queue.begin(Topic::Verdict(pair, rule as u32))?;
    }
    Ok(())
}
