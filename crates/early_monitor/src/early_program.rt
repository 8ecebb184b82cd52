//! Early answers of one formula: by sweeps if they can compute it, otherwise by passing rows beyond the last one.
ghost use Rattle.std.specs.Prelude.{◌≡◌, IfOk};

use crate::pass_program::PassProgram;
use crate::pass_state::PassState;
use mtl_early::{SweepProgram, SweepState};
use mtl_formulas::{Atoms, Formula, Verdict};
use out_of_memory::Memory;
use std::alloc::Global;

/// A formula that answers each position at the first row that decides it. One program serves many traces.
#[derive(Drop)]
pub(crate) enum EarlyProgram {
    Sweeps(SweepProgram),
    /// For formulas in which an operator looks back at a part that looks ahead.
    Passes(PassProgram),
}

/// The early state of one trace, for the program of the same form. It is stored separately, because most rules of a
/// trace have none.
#[derive(Drop)]
pub(crate) enum EarlyState {
    Sweeps(Box<SweepState>),
    Passes(Box<PassState>),
}

/// Returns a value in a box.
fn apart<T: Drop>(alloc: Global, value: T) -> Result<Box<T>, Memory>
    ensures { IfOk result (λ place. place.value ≡ value) }
{
    match Box::new(alloc, value) {
        Ok(place) => Ok(place),
        Err(_) => Err(Memory),
    }
}

impl EarlyProgram {
    ghost use Rattle.std.specs.Prelude.{◌≡◌, ◌<◌, ◌+◌, ◌^◌, IfOk, IfSome, None, [], ◌∷◌, ◌++◌, ℕ};
    ghost use Rattle.mtl_formulas.specs.FormulaTree.{FormulaTree, tree_of};
    ghost use Rattle.mtl_formulas.specs.FormulaMeasures.{IsValid};
    ghost use Rattle.mtl_formulas.specs.Traces.{Trace};
    ghost use Rattle.mtl_early.specs.Decided.{IsNextDecided};
    ghost use Rattle.early_monitor.specs.Inner.EarlyStates.{Continues, HasGivenAll, IsAt, IsEarlyProgramOf, IsGiving, IsStateOf, left_to_look, rows_fed};

    /// Returns the program of a formula.
    pub(crate) fn of(alloc: Global, formula: &Formula) -> Result<EarlyProgram, Memory>
        requires { IsValid (tree_of formula.now) }
        ensures { IfOk result (λ p. IsEarlyProgramOf p (tree_of formula.now)) }
    {
        match SweepProgram::of(alloc, formula)? {
            Some(program) => Ok(EarlyProgram::Sweeps(program)),
            None => Ok(EarlyProgram::Passes(PassProgram::of(alloc, formula)?)),
        }
    }

    /// Returns the state over a trace before its first row. It allocates all its memory here.
    pub(crate) fn begin(&self, alloc: Global) -> Result<EarlyState, Memory>
        ensures of { IfOk result (IsStateOf self.now) }
        ensures at { IfOk result
            (λ s. (t : FormulaTree) → IsEarlyProgramOf self.now t → IsAt self.now s t []) }
        ensures fed { IfOk result (λ s. rows_fed s ≡ 0) }
        ensures done { IfOk result HasGivenAll }
    {
        match self {
            EarlyProgram::Sweeps(program) => {
                let state = SweepState::new(alloc, program)?;
                Ok(EarlyState::Sweeps(apart(alloc, state)?))
            }
            EarlyProgram::Passes(program) => {
                let state = PassState::new(alloc, &program.program, program.reach)?;
                Ok(EarlyState::Passes(apart(alloc, state)?))
            }
        }
    }

    /// Feeds the next row, after `next` has returned all positions that the row before decides. It takes no memory.
    pub(crate) fn feed<A: Atoms>(&self, state: &mut EarlyState, row: &A)
        requires of { IsStateOf self.now state.old }
        requires done { HasGivenAll state.old }
        requires small { rows_fed state.old < 2 ^ 31 }
        ensures of { IsStateOf self.now state.new }
        ensures giving { (t : FormulaTree) (rows : Trace) → IsAt self.now state.old t rows →
            IsGiving self.now state.new t (rows ++ A.answer row.now ∷ []) 0 }
        ensures fed { rows_fed state.new ≡ rows_fed state.old + 1 }
    {
        match (self, state) {
            (EarlyProgram::Sweeps(program), EarlyState::Sweeps(state)) => state.feed(program, row),
            (EarlyProgram::Passes(program), EarlyState::Passes(state)) => {
                state.feed(&program.program, row)
            }
            _ => {}
        }
    }

    /// Returns the next position that exactly the rows so far decide, with its value: in ascending order, each once.
    /// Returns `None` after the last one. It takes no memory.
    pub(crate) fn next(&self, state: &mut EarlyState) -> Option<(u32, Verdict)>
        requires of { IsStateOf self.now state.old }
        ensures of { IsStateOf self.now state.new }
        ensures position { IfSome result (λ a. a.0 < 2 ^ 31) }
        ensures answer { (t : FormulaTree) (rows : Trace) (from : ℕ)
            → IsGiving self.now state.old t rows from
            → IsNextDecided result t rows from × Continues self.now result state.new t rows }
        ensures again { (t : FormulaTree) (rows : Trace) → IsAt self.now state.old t rows
            → (result ≡ None) × IsAt self.now state.new t rows }
        ensures done { result ≡ None → HasGivenAll state.new }
        ensures lower { IfSome result (λ a. left_to_look state.new < left_to_look state.old) }
        ensures fed { rows_fed state.new ≡ rows_fed state.old }
    {
        match (self, state) {
            (EarlyProgram::Sweeps(program), EarlyState::Sweeps(state)) => state.next(program),
            (EarlyProgram::Passes(program), EarlyState::Passes(state)) => {
                state.next(&program.program)
            }
            _ => None,
        }
    }
}
