//! The early monitor of one formula over one trace.
ghost use Rattle.std.specs.Prelude.{◌≡◌, ◌<◌, ◌+◌, ◌^◌};
ghost use Rattle.early_monitor.specs.Inner.EarlyStates.{IsStateOf};
ghost use Rattle.early_monitor.specs.Inner.Room.{IsStateOf-prop};

use crate::early_program::{EarlyProgram, EarlyState};
use mtl_formulas::{Atoms, Formula, Verdict};
use out_of_memory::Memory;
use std::alloc::Global;

/// A formula over a trace whose rows arrive one by one. It returns each position with its value at the first row that
/// makes the value Yes or No.
#[derive(Drop)]
pub struct EarlyMonitor {
    program: EarlyProgram,
    state: EarlyState,
    ghost of: { IsStateOf program state } by { IsStateOf-prop program state },
}

impl EarlyMonitor {
    ghost use Rattle.std.specs.Prelude.{IfOk, [], ◌∷◌, ◌++◌, ℕ};
    ghost use Rattle.mtl_formulas.specs.FormulaTree.{FormulaTree, tree_of};
    ghost use Rattle.mtl_formulas.specs.FormulaMeasures.{IsValid};
    ghost use Rattle.mtl_formulas.specs.Traces.{Trace};
    ghost use Rattle.mtl_early.specs.Decided.{IsNextDecided};
    ghost use Rattle.early_monitor.specs.Standing.{Continues, HasGivenAll, IsAt, IsGiving, rows_fed};

    /// Returns the monitor of a formula before the first row. It allocates all its memory here.
    pub fn new(alloc: Global, formula: &Formula) -> Result<EarlyMonitor, Memory>
        requires { IsValid (tree_of formula.now) }
        ensures at { IfOk result (λ m. IsAt m (tree_of formula.now) []) }
        ensures fed { IfOk result (λ m. rows_fed m ≡ 0) }
        ensures done { IfOk result HasGivenAll }
    {
        let program = EarlyProgram::of(alloc, formula)?;
        let state = program.begin(alloc)?;
        Ok(EarlyMonitor { program, state })
    }

    /// Feeds the next row, after `next` has returned all positions that the row before decides. Takes at most 2^31
    /// rows. It takes no memory.
    pub fn feed<A: Atoms>(&mut self, row: &A)
        requires done { HasGivenAll self.old }
        requires small { rows_fed self.old < 2 ^ 31 }
        ensures giving { (t : FormulaTree) (rows : Trace) → IsAt self.old t rows →
            IsGiving self.new t (rows ++ A.answer row.now ∷ []) 0 }
        ensures fed { rows_fed self.new ≡ rows_fed self.old + 1 }
    {
        self.program.feed(&mut self.state, row);
    }

    /// Returns the next position that exactly the rows so far decide, with its value: in ascending order, each once.
    /// Returns `None` after the last one. It takes no memory.
    pub fn next(&mut self) -> Option<(u32, Verdict)>
        ensures answer { (t : FormulaTree) (rows : Trace) (from : ℕ) → IsGiving self.old t rows from
            → IsNextDecided result t rows from × Continues result self.new t rows }
        ensures again { (t : FormulaTree) (rows : Trace) → IsAt self.old t rows
            → (result ≡ None) × IsAt self.new t rows }
        ensures done { result ≡ None → HasGivenAll self.new }
        ensures fed { rows_fed self.new ≡ rows_fed self.old }
    {
        self.program.next(&mut self.state)
    }
}
