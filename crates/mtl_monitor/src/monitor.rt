//! The monitor of one formula over one trace.
ghost use Rattle.std.specs.Prelude.{◌≡◌, ◌≤◌, ◌<◌, ◌+◌, ◌^◌};
ghost use Rattle.mtl_monitor.specs.Following.{Fits, count_of, fed_of, past_of};

use crate::program::Program;
use crate::trace_state::TraceState;
use mtl_formulas::{Atoms, Formula, Verdict};
use out_of_memory::Memory;
use std::alloc::Global;

/// A formula over a trace whose rows arrive one by one. It returns each position's value once it can no longer change.
#[derive(Drop)]
pub struct Monitor {
    program: Program,
    state: TraceState,
    ghost fits: { Fits program state },
    ghost one: { count_of program ≡ 1 },
    ghost fed_small: { fed_of state ≤ 2 ^ 31 },
    ghost past_small: { past_of state ≤ program.reach },
}

impl Monitor {
    ghost use Rattle.std.specs.Prelude.{IfOk, List, [], ◌∷◌, ◌++◌};
    ghost use Rattle.mtl_formulas.specs.FormulaTree.{FormulaTree, tree_of};
    ghost use Rattle.mtl_formulas.specs.FormulaMeasures.{IsValid};
    ghost use Rattle.mtl_formulas.specs.Traces.{Trace};
    ghost use Rattle.mtl_monitor.specs.Following.{IsFed};
    ghost use Rattle.mtl_monitor.specs.Monitoring.{IsMonitorOf, AreOfOneFormula, IsFollowing, IsClosing, IsNext, answered, fed_rows, past_rows};

    /// Returns the monitor of a formula, of whose trace no row was fed. It takes all its memory here.
    pub fn new(alloc: Global, formula: &Formula) -> Result<Monitor, Memory>
        requires { IsValid (tree_of formula.now) }
        ensures of { IfOk result (λ m. IsMonitorOf m (tree_of formula.now)) }
        ensures follows { IfOk result (λ m. IsFollowing m (tree_of formula.now) []) }
        ensures fed { IfOk result (λ m. fed_rows m ≡ 0) }
        ensures past { IfOk result (λ m. past_rows m ≡ 0) }
    {
        let program = Program::new(alloc).with(formula)?;
        let state = TraceState::new(alloc, &program)?;
        Ok(Monitor { program, state })
    }

    /// Feeds the next row. The answer is the value at the position that lies the formula's reach before this one, which no
    /// further row changes; there is none while at most so many positions were fed.
    ///
    /// No row may come after `finish_next` passed rows beyond the trace's end, nor after 2^31 rows. It takes no memory.
    pub fn feed<A: Atoms>(&mut self, row: &A) -> Option<(u32, Verdict)>
        requires unclosed { past_rows self.old ≡ 0 }
        requires small { fed_rows self.old < 2 ^ 31 }
        ensures follows { (t : FormulaTree) (rows : Trace) → IsFollowing self.old t rows →
            IsFollowing self.new t (rows ++ A.answer row.now ∷ []) }
        ensures answer { (t : FormulaTree) (rows : Trace) → IsFollowing self.old t rows →
            IsFed result t (rows ++ A.answer row.now ∷ []) }
        ensures of { (t : FormulaTree) → IsMonitorOf self.old t → IsMonitorOf self.new t }
        ensures fed { fed_rows self.new ≡ fed_rows self.old + 1 }
        ensures past { past_rows self.new ≡ 0 }
    {
        let _changed = self.state.feed(&self.program, row);
        self.state.answer(&self.program, 0)
    }

    /// Returns the next position that is not answered, with its value over the trace that was fed; none where all are
    /// answered. It takes no memory.
    pub fn finish_next(&mut self) -> Option<(u32, Verdict)>
        ensures begins { (t : FormulaTree) (rows : Trace) → IsFollowing self.old t rows
            → IsClosing self.new t rows }
        ensures closes { (t : FormulaTree) (rows : Trace) → IsClosing self.old t rows
            → IsClosing self.new t rows }
        ensures first { (t : FormulaTree) (rows : Trace) → IsFollowing self.old t rows →
            IsNext result t rows (answered self.old) }
        ensures answer { (t : FormulaTree) (rows : Trace) → IsClosing self.old t rows →
            IsNext result t rows (answered self.old) }
        ensures of { (t : FormulaTree) → IsMonitorOf self.old t → IsMonitorOf self.new t }
        ensures count { answered self.old < fed_rows self.old
            → answered self.new ≡ answered self.old + 1 }
        ensures stays { fed_rows self.old ≤ answered self.old → self.new ≡ self.old }
        ensures fed { fed_rows self.new ≡ fed_rows self.old }
    {
        let reach = self.program.reach;
        let next = self.state.passed.saturating_sub(reach);
        if next >= self.state.fed {
            return None;
        }
        self.state.pass_end_to(&self.program, next + reach + 1);
        self.state.answer(&self.program, 0)
    }

    /// Copies the state of another monitor of an equal formula. It takes no memory.
    pub fn copy_from(&mut self, other: &Monitor)
        requires { AreOfOneFormula self.old other.now }
        ensures follows { (t : FormulaTree) (rows : Trace) → IsFollowing other.now t rows
            → IsFollowing self.new t rows }
        ensures closes { (t : FormulaTree) (rows : Trace) → IsClosing other.now t rows
            → IsClosing self.new t rows }
        ensures of { (t : FormulaTree) → IsMonitorOf other.now t → IsMonitorOf self.new t }
        ensures answered { answered self.new ≡ answered other.now }
        ensures fed { fed_rows self.new ≡ fed_rows other.now }
        ensures past { past_rows self.new ≡ past_rows other.now }
    {
        self.state.copy_from(&self.program, &other.state);
    }
}
