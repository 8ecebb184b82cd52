//! What is known of one trace.
ghost use Rattle.std.specs.Prelude.{◌≡◌, ◌≤◌, ◌<◌, ◌+◌, ◌^◌};

use crate::copying::copy_listed;
use crate::node::Kept;
use crate::passing::pass_all;
use crate::program::Program;
use crate::reading::read_atoms;
use crate::starting::{Values, start};
use mtl_formulas::{Atom, Atoms, Glance, Verdict};
use out_of_memory::Memory;
use std::alloc::Global;

/// A row past the trace's end.
struct Beyond;

impl Atoms for Beyond {
    ghost use Rattle.mtl_formulas.specs.declared.verdict.Verdict.TheVariants.{Open};

    ghost answer = { λ row atom. Open };

    fn value(&self, _atom: Atom) -> Verdict {
        Verdict::Open
    }

    fn glance(&self) -> Glance {
        Glance::Beyond
    }
}

/// The state of a program over one trace, whose rows come one by one.
///
/// A node that a further equal row would leave as it is rests until an operand's value changes, or the trace's end comes to its
/// position; where all nodes rest, a row of the trace that answers the atoms as the row before is only counted.
#[derive(Drop)]
pub struct TraceState {
    /// What a glance told of the row that was read last.
    pub(crate) glance: Glance,
    pub(crate) still: bool,
    pub(crate) fed: u32,
    pub(crate) passed: u32,
    pub(crate) values: Values,
    pub(crate) states: Vec<Kept>,
    pub(crate) moving: Vec<bool>,
    ghost in_order: { fed ≤ passed },
}

impl TraceState {
    ghost use Rattle.std.specs.Prelude.{IfOk, IfSome, max, true, false, List, [], ◌∷◌, ◌++◌};
    ghost use Rattle.mtl_formulas.specs.FormulaTree.{FormulaTree};
    ghost use Rattle.mtl_formulas.specs.Traces.{Trace};
    ghost use Rattle.mtl_monitor.specs.declared.program.Program.{Program};
    ghost use Rattle.mtl_monitor.specs.Inner.Quiet.{Walked};
    ghost use Rattle.mtl_monitor.specs.Inner.Reading.{AreAllListed, ReadsAtoms};
    ghost use Rattle.mtl_monitor.specs.Inner.Idle.{HasShown, IsReadAs};
    ghost use Rattle.mtl_formulas.specs.Glances.{IsTold};
    ghost use Rattle.mtl_formulas.specs.declared.atom.Atom.{Atom};
    ghost use Rattle.mtl_formulas.specs.declared.verdict.Verdict.{Verdict};
    ghost use Rattle.mtl_monitor.specs.Following.{GivesTheSame, last_value, IsProgramOf, Fits, HasRoom, AreStatesOf, Follows, Closes, IsFed, IsEnded, formula_at, count_of, fed_of, past_of};

    /// Returns the state of a program over a trace before its first row. It takes all its memory here.
    pub fn new(alloc: Global, program: &Program) -> Result<TraceState, Memory>
        ensures fits { IfOk result (Fits program.now) }
        ensures room { IfOk result (HasRoom program.now) }
        ensures fed { IfOk result (λ s. fed_of s ≡ 0) }
        ensures past { IfOk result (λ s. past_of s ≡ 0) }
        ensures follows { IfOk result (λ s. (formulas : List FormulaTree) →
            IsProgramOf program.now formulas → Follows program.now s formulas []) }
    {
        let begun = start(alloc, &program.nodes)?;
        Ok(TraceState {
            states: begun.states,
            values: begun.values,
            moving: begun.moving,
            still: false,
            glance: Glance::Nothing,
            fed: 0,
            passed: 0,
        })
    }

    /// Passes row `i` through the nodes that may change, once its atoms are read and those that have changed are marked. The
    /// trace is known to end at `end`, or not before.
    fn pass(&mut self, program: &Program, i: u32, end: u32, marks: u64)
        requires { Fits program.now self.old }
        ensures fits { Fits program.now self.new }
        ensures fed { self.new.fed ≡ self.old.fed }
        ensures passed { self.new.passed ≡ self.old.passed }
        ensures glance { self.new.glance ≡ self.old.glance }
        ensures walked { (before : List Verdict)
            → Walked program.now.nodes.items self.old.states.items before self.old.values.items
            self.old.moving.items i end marks self.new.states.items self.new.values.items
            self.new.moving.items self.new.still }
    {
        self.still = pass_all(
            &program.nodes,
            &program.triggers,
            &mut self.states,
            &mut self.values,
            &mut self.moving,
            i,
            end,
            marks,
        );
    }

    /// Reads a row's atoms except those that a glance gives as at the last row, and marks the nodes of those that are
    /// answered otherwise than at the last row. An idle program asks none if the vessels stay apart: the last row is taken
    /// for this one.
    fn read<A: Atoms>(&mut self, program: &Program, row: &A) -> u64
        requires { Fits program.now self.old }
        ensures fits { Fits program.now self.new }
        ensures states { self.new.states ≡ self.old.states }
        ensures moving { self.new.moving ≡ self.old.moving }
        ensures still { self.new.still ≡ self.old.still }
        ensures fed { self.new.fed ≡ self.old.fed }
        ensures passed { self.new.passed ≡ self.old.passed }
        ensures read { AreAllListed program.now.nodes.items program.now.atoms.items
            program.now.asked.items
            → HasShown self.old.glance program.now.nodes.items self.old.values.items
            → IsReadAs program.now.idle program.now.nodes.items self.new.values.items
            self.new.glance (A.answer row.now) }
        ensures reads { ReadsAtoms program.now.nodes.items self.old.values.items
            self.new.values.items result }
    {
        let glance = row.glance();
        if program.are_alike(self.glance, glance) {
            return 0;
        }
        let atoms = program.to_be_read(self.glance, glance);
        self.glance = glance;
        read_atoms(atoms, &mut self.values, row)
    }

    /// Feeds the next row. False where the row was only counted: then each formula's answer has the value of its last one.
    pub fn feed<A: Atoms>(&mut self, program: &Program, row: &A) -> bool
        requires fits { Fits program.now self.old }
        requires unclosed { past_of self.old ≡ 0 }
        requires small { fed_of self.old < 2 ^ 31 }
        ensures fits { Fits program.now self.new }
        ensures room { HasRoom program.now self.old → HasRoom program.now self.new }
        ensures fed { fed_of self.new ≡ fed_of self.old + 1 }
        ensures past { past_of self.new ≡ 0 }
        ensures follows { (formulas : List FormulaTree) (rows : Trace) →
            Follows program.now self.old formulas rows →
            Follows program.now self.new formulas (rows ++ A.answer row.now ∷ []) }
        ensures same { result ≡ false → GivesTheSame program.now self.old self.new }
    {
        let i = self.passed;
        let marks = self.read(program, row);
        self.passed = i + 1;
        self.fed = i + 1;
        if marks == 0 && self.still {
            return false;
        }
        self.pass(program, i, i + 1, marks);
        true
    }

    /// Counts the next row without its atoms if what a glance shows of it suffices: a further equal row changes nothing,
    /// and the row is alike to the last one. Then each formula's answer has the value of its last one. Otherwise changes
    /// nothing and returns false.
    #[inline(always)]
    pub fn rest(&mut self, program: &Program, glance: Glance) -> bool
        requires fits { Fits program.now self.old }
        requires unclosed { past_of self.old ≡ 0 }
        requires small { fed_of self.old < 2 ^ 31 }
        ensures stays { result ≡ false → self.new ≡ self.old }
        ensures fits { Fits program.now self.new }
        ensures room { HasRoom program.now self.old → HasRoom program.now self.new }
        ensures fed { result ≡ true → fed_of self.new ≡ fed_of self.old + 1 }
        ensures past { past_of self.new ≡ 0 }
        ensures follows { result ≡ true → (formulas : List FormulaTree) (rows : Trace)
            (row : Atom → Verdict) → IsTold glance row → Follows program.now self.old formulas rows
            → Follows program.now self.new formulas (rows ++ row ∷ []) }
        ensures same { GivesTheSame program.now self.old self.new }
    {
        if !self.still || !program.are_alike(self.glance, glance) {
            return false;
        }
        self.passed += 1;
        self.fed = self.passed;
        true
    }

    /// Passes one row beyond the trace's end: none is fed any more.
    pub fn pass_end(&mut self, program: &Program)
        requires fits { Fits program.now self.old }
        requires small_fed { fed_of self.old ≤ 2 ^ 31 }
        requires small_past { past_of self.old < 2 ^ 30 }
        ensures fits { Fits program.now self.new }
        ensures room { HasRoom program.now self.old → HasRoom program.now self.new }
        ensures fed { fed_of self.new ≡ fed_of self.old }
        ensures past { past_of self.new ≡ past_of self.old + 1 }
        ensures begins { (formulas : List FormulaTree) (rows : Trace) →
            Follows program.now self.old formulas rows → Closes program.now self.new formulas rows }
        ensures goes_on { (formulas : List FormulaTree) (rows : Trace) →
            Closes program.now self.old formulas rows → Closes program.now self.new formulas rows }
    {
        let i = self.passed;
        let marks = self.read(program, &Beyond);
        self.passed = i + 1;
        self.pass(program, i, self.fed, marks);
    }

    /// Passes rows beyond the trace's end until so many rows have passed, those of the trace among them.
    pub(crate) fn pass_end_to(&mut self, program: &Program, count: u32)
        requires fits { Fits program.now self.old }
        requires small_fed { fed_of self.old ≤ 2 ^ 31 }
        requires small { count ≤ fed_of self.old + 7200 }
        ensures fits { Fits program.now self.new }
        ensures room { HasRoom program.now self.old → HasRoom program.now self.new }
        ensures fed { self.new.fed ≡ self.old.fed }
        ensures passed { self.new.passed ≡ max self.old.passed count }
        ensures closes { (formulas : List FormulaTree) (rows : Trace) →
            Closes program.now self.old formulas rows → Closes program.now self.new formulas rows }
    {
        for _ in self.passed..count {
            self.pass_end(program);
        }
    }

    /// Returns the answer of the formula with this index to the row that passed last: a position, and its value there.
    /// Each position of the trace is answered once, in order, where each row is followed by this call, and as many rows
    /// pass beyond the end as the formula reaches.
    pub fn answer(&self, program: &Program, formula: usize) -> Option<(u32, Verdict)>
        requires fits { Fits program.now self.now }
        requires inside { formula < count_of program.now }
        ensures within { IfSome result (λ a. a.0 < fed_of self.now) }
        ensures value { IfSome result (λ a. a.1 ≡ last_value program.now self.now formula) }
        ensures fed { (formulas : List FormulaTree) (rows : Trace)
            → Follows program.now self.now formulas rows
            → IsFed result (formula_at formulas formula) rows }
        ensures ended { (formulas : List FormulaTree) (rows : Trace)
            → Closes program.now self.now formulas rows
            → IsEnded result (formula_at formulas formula) rows (past_of self.now) }
    {
        let root = program.roots[formula];
        if self.passed <= root.late {
            return None;
        }
        let position = self.passed - root.late - 1;
        if position >= self.fed {
            return None;
        }
        Some((position, self.values[root.index]))
    }

    /// Takes over another state of the same program. It takes no memory.
    pub fn copy_from(&mut self, program: &Program, other: &TraceState)
        requires { AreStatesOf program.now self.old other.now }
        ensures fits { (p : Program) → Fits p other.now → Fits p self.new }
        ensures room { (p : Program) → HasRoom p other.now → HasRoom p self.new }
        ensures fed { fed_of self.new ≡ fed_of other.now }
        ensures past { past_of self.new ≡ past_of other.now }
        ensures follows { (p : Program) (formulas : List FormulaTree) (rows : Trace) →
            Follows p other.now formulas rows → Follows p self.new formulas rows }
        ensures closes { (p : Program) (formulas : List FormulaTree) (rows : Trace) →
            Closes p other.now formulas rows → Closes p self.new formulas rows }
    {
        copy_listed(&mut self.states, &other.states, &program.keepers);
        self.values.copy_from_slice(&other.values);
        self.moving.copy_from_slice(&other.moving);
        self.still = other.still;
        self.glance = other.glance;
        self.fed = other.fed;
        self.passed = other.passed;
    }
}
