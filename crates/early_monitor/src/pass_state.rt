//! The early state of one trace in the plain form, which fits every formula: the counterpart of `TraceState` for a
//! program of one formula.
ghost use Rattle.std.specs.Prelude.{◌≡◌, ◌≤◌, ◌<◌, ◌+◌, ◌^◌, length};
ghost use Rattle.mtl_monitor.specs.Following.{fed_of, past_of};

use crate::known::{is_answer, is_known_at, nothing_known};
use mtl_formulas::{Atoms, Verdict};
use mtl_monitor::{Program, TraceState};
use out_of_memory::Memory;
use std::alloc::Global;

/// The state of a program of one formula over one trace, which answers each position at the first row that decides it. One program
/// serves many traces.
///
/// It has the state after the rows so far, and a second state that passes rows beyond them. The second one returns the
/// value so far at each position that the formula's reach still leaves open.
#[derive(Drop)]
pub(crate) struct PassState {
    pub(crate) state: TraceState,
    pub(crate) ahead: TraceState,
    pub(crate) reach: u32,
    /// Whether each of the last positions, one more than the reach, is decided.
    known: Vec<bool>,
    /// The number of them checked since the last row.
    pub(crate) place: u32,
    ghost fed_small: { fed_of state ≤ 2 ^ 31 },
    ghost unclosed: { past_of state ≡ 0 },
    ghost ahead_small: { fed_of ahead ≤ 2 ^ 31 },
    ghost past: { past_of ahead ≤ place },
    ghost reach_small: { reach ≤ 7200 },
    ghost places: { length known.items ≡ reach + 1 },
    ghost within: { place ≤ reach + 1 },
}

impl PassState {
    ghost use Rattle.std.specs.Prelude.{IfOk, IfSome, List, [], ◌∷◌, ◌++◌, ℕ};
    ghost use Rattle.mtl_formulas.specs.declared.atom.Atom.{Atom};
    ghost use Rattle.mtl_formulas.specs.declared.verdict.Verdict.{Verdict};
    ghost use Rattle.mtl_formulas.specs.FormulaTree.{FormulaTree};
    ghost use Rattle.mtl_formulas.specs.FormulaMeasures.{reach_of};
    ghost use Rattle.mtl_formulas.specs.Traces.{Trace};
    ghost use Rattle.mtl_monitor.specs.Following.{IsProgramOf, count_of};
    ghost use Rattle.mtl_early.specs.Decided.{IsNextDecided};
    ghost use Rattle.early_monitor.specs.Inner.Passing.{Continues, HasLookedAll, IsAt, IsGiving, IsLooked, IsLooking, IsStateOf, fed_rows, left_to_look};

    /// Returns the state over a trace before its first row. It allocates all its memory here.
    pub(crate) fn new(alloc: Global, program: &Program, reach: u32) -> Result<PassState, Memory>
        requires { reach ≤ 7200 }
        ensures of { IfOk result (IsStateOf program.now) }
        ensures at { IfOk result
            (λ s. (t : FormulaTree) → IsProgramOf program.now (t ∷ []) → reach ≡ reach_of t
            → IsAt program.now s t []) }
        ensures fed { IfOk result (λ s. fed_rows s ≡ 0) }
        ensures done { IfOk result HasLookedAll }
    {
        let state = TraceState::new(alloc, program)?;
        let ahead = TraceState::new(alloc, program)?;
        let known = nothing_known(alloc, reach as usize + 1)?;
        Ok(PassState {
            state,
            ahead,
            reach,
            known,
            place: reach + 1,
        })
    }

    /// Feeds the next row, after all positions were checked. It takes no memory.
    pub(crate) fn feed<A: Atoms>(&mut self, program: &Program, row: &A)
        requires of { IsStateOf program.now self.old }
        requires small { fed_rows self.old < 2 ^ 31 }
        ensures of { IsStateOf program.now self.new }
        ensures giving { (t : FormulaTree) (rows : Trace) → IsAt program.now self.old t rows →
            IsGiving program.now self.new t (rows ++ A.answer row.now ∷ []) 0 }
        ensures fed { fed_rows self.new ≡ fed_rows self.old + 1 }
    {
        let _changed = self.state.feed(program, row);
        self.ahead.copy_from(program, &self.state);
        self.place = 0;
    }

    /// Returns the next position that exactly the rows so far decide, with its value: in ascending order, each once.
    /// Returns `None` after the last one. It takes no memory.
    pub(crate) fn next(&mut self, program: &Program) -> Option<(u32, Verdict)>
        requires of { IsStateOf program.now self.old }
        requires one { count_of program.now ≡ 1 }
        ensures of { IsStateOf program.now self.new }
        ensures position { IfSome result (λ a. a.0 < 2 ^ 31) }
        ensures answer { (t : FormulaTree) (rows : Trace) (from : ℕ)
            → IsGiving program.now self.old t rows from
            → IsNextDecided result t rows from × Continues program.now result self.new t rows }
        ensures again { (t : FormulaTree) (rows : Trace) → IsAt program.now self.old t rows
            → (result ≡ None) × IsAt program.now self.new t rows }
        ensures done { result ≡ None → HasLookedAll self.new }
        ensures lower { IfSome result (λ a. left_to_look self.new < left_to_look self.old) }
        ensures fed { fed_rows self.new ≡ fed_rows self.old }
    {
        for _ in self.place..self.reach + 1 {
            let answer = self.look(program);
            if answer.is_some() {
                return answer;
            }
        }
        None
    }

    /// Checks the next position; returns it if the last row has decided it.
    fn look(&mut self, program: &Program) -> Option<(u32, Verdict)>
        requires more { self.old.place ≤ self.old.reach }
        requires of { IsStateOf program.now self.old }
        requires one { count_of program.now ≡ 1 }
        ensures of { IsStateOf program.now self.new }
        ensures position { IfSome result (λ a. a.0 < 2 ^ 31) }
        ensures place { self.new.place ≡ self.old.place + 1 }
        ensures reach { self.new.reach ≡ self.old.reach }
        ensures fed { fed_rows self.new ≡ fed_rows self.old }
        ensures looked { (t : FormulaTree) (before : Trace) (row : Atom → Verdict)
            → IsLooking program.now self.old t before row
            → IsLooking program.now self.new t before row
            × IsLooked result t (before ++ row ∷ []) self.old.place }
    {
        let place = self.place as usize;
        let answer = self.ahead.answer(program, 0);
        self.ahead.pass_end(program);
        // Another row has moved each position by one place.
        let was = is_known_at(&self.known, place + 1);
        let is = is_answer(answer);
        self.known[place] = is;
        self.place += 1;
        if is && !was { answer } else { None }
    }
}
