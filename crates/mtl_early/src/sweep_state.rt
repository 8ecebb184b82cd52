//! The early state of one trace.
ghost use Rattle.std.specs.Prelude.{◌≡◌, ◌≤◌, ◌^◌};
ghost use Rattle.mtl_monitor.specs.Following.{fed_of, past_of};

use crate::sweep_program::SweepProgram;
use crate::sweeper::sweep_row;
use crate::zone::{all_open, is_counted, is_open, keep_old, old_at, open_ages, root_of};
use mtl_formulas::{Atoms, Verdict};
use mtl_monitor::TraceState;
use out_of_memory::Memory;
use std::alloc::Global;

/// The state of a program over a trace whose rows come one by one: each position comes with its value at the first row with which
/// that is Yes or No.
#[derive(Drop)]
pub struct SweepState {
    /// Whether a row more that changes no last value leaves the cells as they are.
    pub(crate) still: bool,
    fed: u32,
    /// How many cells of each node hold values.
    pub(crate) size: usize,
    /// How many of the formula's are to be checked since the last row.
    place: usize,
    pub(crate) state: TraceState,
    /// The nodes' values at the last positions.
    pub(crate) cells: Vec<Verdict>,
    /// The formula's values at the positions before the last row, by the rows before it.
    pub(crate) was: Vec<Verdict>,
    /// Room for the cells before a row, to compare them with those after it.
    pub(crate) before: Vec<Verdict>,
    ghost count: { fed_of state ≡ fed },
    ghost unclosed: { past_of state ≡ 0 },
    ghost fed_small: { fed ≤ 2 ^ 31 },
    ghost inside: { size ≤ fed },
    ghost placed: { place ≤ size },
}

impl SweepState {
    ghost use Rattle.std.specs.Prelude.{ℕ, Option, None, [], ◌∷◌, ◌++◌, ◌+◌, ◌<◌, IfOk, IfSome};
    ghost use Rattle.mtl_formulas.specs.declared.atom.Atom.{Atom};
    ghost use Rattle.mtl_formulas.specs.declared.verdict.Verdict.{Verdict};
    ghost use Rattle.mtl_formulas.specs.FormulaTree.{FormulaTree};
    ghost use Rattle.mtl_formulas.specs.Traces.{Trace};
    ghost use Rattle.mtl_early.specs.Decided.{IsNextDecided};
    ghost use Rattle.mtl_early.specs.Standing.{Continues, HasGivenAll, IsAt, IsGiving, IsStateOf, IsSweepProgramOf, left_to_look, rows_fed};
    ghost use Rattle.mtl_early.specs.Inner.Looking.{IsLooked, IsLooking};

    /// Returns the state over a trace before its first row. It allocates all its memory here.
    pub fn new(alloc: Global, program: &SweepProgram) -> Result<SweepState, Memory>
        ensures of { IfOk result (IsStateOf program.now) }
        ensures at { IfOk result
            (λ s. (t : FormulaTree) → IsSweepProgramOf program.now t → IsAt program.now s t []) }
        ensures fed { IfOk result (λ s. rows_fed s ≡ 0) }
        ensures done { IfOk result HasGivenAll }
    {
        let state = TraceState::new(alloc, &program.program)?;
        let cells = all_open(alloc, program.cell_count())?;
        let was = all_open(alloc, program.reach as usize + 1)?;
        let before = all_open(alloc, program.cell_count())?;
        Ok(SweepState {
            state,
            cells,
            was,
            before,
            still: false,
            fed: 0,
            size: 0,
            place: 0,
        })
    }

    /// Feeds the next row, after `next` has returned all positions that the row before decides. Takes at most 2^31
    /// rows. It takes no memory.
    pub fn feed<A: Atoms>(&mut self, program: &SweepProgram, row: &A)
        requires of { IsStateOf program.now self.old }
        requires done { HasGivenAll self.old }
        requires small { rows_fed self.old < 2 ^ 31 }
        ensures of { IsStateOf program.now self.new }
        ensures giving { (t : FormulaTree) (rows : Trace) → IsAt program.now self.old t rows →
            IsGiving program.now self.new t (rows ++ A.answer row.now ∷ []) 0 }
        ensures fed { rows_fed self.new ≡ rows_fed self.old + 1 }
    {
        let root = root_of(&program.nodes);
        let reach = program.reach as usize;
        let open = open_ages(&self.cells, root, self.size, reach);
        let changed = self.state.feed(&program.program, row);
        let counted = is_counted(changed, open, self.size);
        self.fed += 1;
        self.place = open + 1;
        if counted && self.still {
            return;
        }
        keep_old(&self.cells, root, &mut self.was, open);
        self.still = sweep_row(
            &program.nodes,
            &mut self.cells,
            &mut self.before,
            &program.program,
            &self.state,
            open + 1,
            reach + 1,
            counted,
        );
        self.size = open + 1;
    }

    /// Returns the next position that exactly the rows fed so far decide, with its value: in ascending order, and each
    /// once. `None` where all were given. It takes no memory.
    pub fn next(&mut self, program: &SweepProgram) -> Option<(u32, Verdict)>
        requires of { IsStateOf program.now self.old }
        ensures of { IsStateOf program.now self.new }
        ensures position { IfSome result (λ a. a.0 < 2 ^ 31) }
        ensures answer { (t : FormulaTree) (rows : Trace) (from : ℕ)
            → IsGiving program.now self.old t rows from
            → IsNextDecided result t rows from × Continues program.now result self.new t rows }
        ensures again { (t : FormulaTree) (rows : Trace) → IsAt program.now self.old t rows
            → (result ≡ None) × IsAt program.now self.new t rows }
        ensures done { result ≡ None → HasGivenAll self.new }
        ensures lower { IfSome result (λ a. left_to_look self.new < left_to_look self.old) }
        ensures fed { rows_fed self.new ≡ rows_fed self.old }
    {
        while self.place > 0 {
            let answer = self.look(program);
            if answer.is_some() {
                return answer;
            }
        }
        None
    }

    /// Checks the next position; returns it if the last row has decided it.
    fn look(&mut self, program: &SweepProgram) -> Option<(u32, Verdict)>
        requires of { IsStateOf program.now self.old }
        requires more { 0 < self.old.place }
        ensures of { IsStateOf program.now self.new }
        ensures position { IfSome result (λ a. a.0 < 2 ^ 31) }
        ensures place { self.old.place ≡ self.new.place + 1 }
        ensures size { self.new.size ≡ self.old.size }
        ensures fed { rows_fed self.new ≡ rows_fed self.old }
        ensures looked { (t : FormulaTree) (before : Trace) (row : Atom → Verdict)
            → IsLooking program.now self.old t before row
            → IsLooking program.now self.new t before row
            × IsLooked result t (before ++ row ∷ []) self.new.place }
    {
        let age = self.place - 1;
        self.place = age;
        let value = self.cells[root_of(&program.nodes) + age];
        let was_open = is_open(old_at(&self.was, age));
        let still_open = is_open(value);
        if was_open && !still_open {
            Some((self.fed - 1 - age as u32, value))
        } else {
            None
        }
    }
}
