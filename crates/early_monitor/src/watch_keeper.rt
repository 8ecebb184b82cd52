//! The watch's part for each trace of a window: finding the alarms of the trace's steps.
use crate::alarm::Alarm;
use crate::watched_rules::WatchedRules;
use crate::watched_trace::WatchedTrace;
use meetings::Pair;
use mtl_formulas::Glance;
use out_of_memory::Memory;
use std::alloc::Global;
use std::collections::BTreeSet;
use traces::{NextRow, TraceKeeper};

/// Finds the alarms of all traces, one trace after the other.
#[derive(Drop)]
pub(crate) struct WatchKeeper {
    pub(crate) alloc: Global,
    pub(crate) rules: WatchedRules,
    /// The alarms of the latest step.
    pub(crate) alarms: BTreeSet<Alarm>,
}

impl TraceKeeper for WatchKeeper {
    ghost use Rattle.early_monitor.specs.Inner.TracesWatched.{watch_keeper};

    type Kept = WatchedTrace;

    ghost Given = { Unit {0} };

    ghost keeper = { watch_keeper };

    fn begin(&mut self, pair: Pair, start: u32) -> Result<WatchedTrace, Memory> {
        let trace = WatchedTrace::new(self.alloc, &self.rules, pair, start)?;
        Ok(trace)
    }

    #[inline(always)]
    fn step(
        &mut self,
        _index: usize,
        trace: &mut WatchedTrace,
        next: NextRow<'_>,
        step: u32,
    ) -> Result<(), Memory> {
        trace.step(&self.rules, next.row, step, &mut self.alarms)?;
        Ok(())
    }

    #[inline(always)]
    fn rest(&self, _index: usize, trace: &mut WatchedTrace, glance: Glance, _step: u32) -> bool {
        trace.rest(&self.rules, glance)
    }

    /// Does nothing: the end of a trace has no alarm.
    fn end(&mut self, _index: usize, _trace: &mut WatchedTrace) -> Result<(), Memory> {
        Ok(())
    }
}
