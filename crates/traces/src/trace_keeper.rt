//! The use of each trace of a window.
use crate::next_row::NextRow;
use meetings::Pair;
use mtl_formulas::Glance;
use out_of_memory::Memory;

/// A user of each trace of a window: an audit marks stretches, a watch finds alarms. After an `Err` the caller may only
/// drop the keeper.
pub trait TraceKeeper: Drop {
    ghost use Rattle.std.specs.Prelude.{◌≡◌, ◌<◌, ◌≤◌, ◌^◌, IfOk, OnOk, false, true};
    ghost use Rattle.traces.specs.Keeping.{HasBegunTrace, HasEndedTrace, HasRested, HasTakenStep, Keeper};
    ghost use Rattle.traces.specs.declared.all_traces.TheConstants.{MOST_TRACES};

    /// The stored state of one trace.
    type Kept: Drop;

    // what was given of the traces before
    ghost Given: { Type 0 };

    ghost keeper: { Self → Keeper Self.Kept Given };

    /// Begins the trace of a pair at a step, after the traces that there are.
    fn begin(&mut self, pair: Pair, start: u32) -> Result<Self::Kept, Memory>
        requires sound { (keeper self.old).Sound }
        requires early { start < 2 ^ 31 }
        ensures { IfOk result
            (λ kept. HasBegunTrace (keeper self.old) (keeper self.new) pair start kept) };

    /// Takes the next row of the trace with this index, which is the row of the step with this number.
    fn step(
        &mut self,
        index: usize,
        kept: &mut Self::Kept,
        next: NextRow<'_>,
        step: u32,
    ) -> Result<(), Memory>
        requires sound { (keeper self.old).Sound }
        requires within { index < MOST_TRACES }
        requires ready { (keeper self.old).Ready kept.old }
        requires few { (keeper self.old).steps kept.old < 2 ^ 31 }
        ensures { OnOk result
            (HasTakenStep (keeper self.old)
            (keeper self.new) index step next.entry kept.old kept.new) };

    /// Takes the next step of the trace with this index without its row, if this suffices: the vessels are apart before
    /// the step and at it, which a glance at the row shows. Otherwise changes nothing and returns false.
    fn rest(&self, index: usize, kept: &mut Self::Kept, glance: Glance, step: u32) -> bool
        requires sound { (keeper self.now).Sound }
        requires within { index < MOST_TRACES }
        requires ready { (keeper self.now).Ready kept.old }
        requires few { (keeper self.now).steps kept.old < 2 ^ 31 }
        ensures rests { result ≡ true
            → HasRested (keeper self.now) index step glance kept.old kept.new }
        ensures stays { result ≡ false → kept.new ≡ kept.old };

    /// Ends the trace with this index.
    fn end(&mut self, index: usize, kept: &mut Self::Kept) -> Result<(), Memory>
        requires sound { (keeper self.old).Sound }
        requires within { index < MOST_TRACES }
        requires ready { (keeper self.old).Ready kept.old }
        requires few { (keeper self.old).steps kept.old ≤ 2 ^ 31 }
        ensures { OnOk result
            (HasEndedTrace (keeper self.old) (keeper self.new) index kept.old kept.new) };
}
