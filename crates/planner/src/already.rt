//! The rules that are already broken at now.
ghost use Rattle.std.specs.Prelude.{ℕ, ◌≡◌, ◌≢◌, ◌+◌, ◌<◌, ◌≤◌, ◌^◌, ◌↔◌, IfOk, IsTrue, List, OnOk, false, length};
ghost use Rattle.mtl_formulas.specs.FormulaTree.{FormulaTree};
ghost use Rattle.mtl_formulas.specs.declared.verdict.Verdict.TheVariants.{No};
ghost use Rattle.mtl_monitor.specs.Following.{count_of, fed_of, formula_at, last_value, past_of, Fits, Follows, HasRoom};
ghost use Rattle.mtl_formulas.specs.Traces.{Trace};
ghost use Rattle.planner.specs.Inner.Breaking.{flag_at, HasPassed, IsBrokenAt, IsCalm, IsNewlyBrokenAt, IsRowAdded, Tells};

use mtl_formulas::Verdict;
use mtl_monitor::{Program, TraceState};
use out_of_memory::Memory;
use std::alloc::Global;

/// Which formulas are broken at which positions of a trace that is cut at now, where the row that decides the position in a longer trace
/// comes after now. The first such row has index 0.
#[derive(Drop)]
pub(crate) struct Already {
    rules: usize,
    flags: Vec<bool>,
}

fn is_value_no(value: Verdict) -> bool
    ensures { IsTrue result ↔ (value ≡ No) }
{
    value == Verdict::No
}

/// Returns whether the latest row has decided a position of a formula as broken.
fn is_no(program: &Program, values: &TraceState, rule: usize) -> bool
    requires fits { Fits program.now values.now }
    requires inside { rule < count_of program.now }
    ensures { (formulas : List FormulaTree) (rows : Trace) (passed : ℕ)
        → HasPassed program.now values.now formulas rows passed
        → (IsTrue result ↔ IsBrokenAt rows (formula_at formulas rule) passed) }
{
    match values.answer(program, rule) {
        Some((_, value)) => is_value_no(value),
        None => false,
    }
}

/// Returns whether the latest row has decided a position of a formula, and not as broken.
fn is_kept(program: &Program, values: &TraceState, rule: usize) -> bool
    requires fits { Fits program.now values.now }
    requires inside { rule < count_of program.now }
    ensures { IsTrue result → last_value program.now values.now rule ≢ No }
{
    match values.answer(program, rule) {
        Some((_, value)) => !is_value_no(value),
        None => false,
    }
}

/// Returns whether the latest row has decided a position of each formula, and none as broken.
fn is_calm(program: &Program, values: &TraceState) -> bool
    requires { Fits program.now values.now }
    ensures { IsTrue result → IsCalm program.now values.now }
{
    for rule in 0..program.formula_count() {
        if !is_kept(program, values, rule) {
            return false;
        }
    }
    true
}

/// Returns the same, if it may be known already: the formulas are asked only if it is not.
#[inline(always)]
pub(crate) fn is_calm_now(known: bool, program: &Program, values: &TraceState) -> bool
    requires fits { Fits program.now values.now }
    requires known { IsTrue known → IsCalm program.now values.now }
    ensures { IsTrue result → IsCalm program.now values.now }
{
    if known {
        return true;
    }
    is_calm(program, values)
}

impl Already {
    /// Adds the values after one more row past the end.
    fn add_row(&mut self, program: &Program, values: &TraceState) -> Result<(), Memory>
        requires { Fits program.now values.now }
        ensures rules { self.new.rules ≡ self.old.rules }
        ensures row { OnOk result (IsRowAdded program.now values.now self.old self.new) }
    {
        for rule in 0..program.formula_count() {
            self.flags.push(is_no(program, values, rule))?;
        }
        Ok(())
    }

    /// What is broken if the trace ends with the rows so far. `ending` is another state of the program, whose places serve here.
    pub(crate) fn of(
        alloc: Global,
        program: &Program,
        values: &TraceState,
        ending: &mut TraceState,
    ) -> Result<Already, Memory>
        requires fits { Fits program.now values.now }
        requires room { HasRoom program.now values.now }
        requires ending_fits { Fits program.now ending.old }
        requires ending_room { HasRoom program.now ending.old }
        requires unended { past_of values.now ≡ 0 }
        requires few { fed_of values.now ≤ 2 ^ 31 }
        requires rules { count_of program.now ≤ 17 }
        ensures ending_fits { Fits program.now ending.new }
        ensures ending_room { HasRoom program.now ending.new }
        ensures tells { IfOk result
            (λ already. (formulas : List FormulaTree) (rows : Trace)
            → Follows program.now values.now formulas rows → Tells formulas rows already) }
    {
        ending.copy_from(program, values);
        let mut already = Already {
            rules: program.formula_count(),
            flags: Vec::new(alloc),
        };
        for _past in 0..program.reach() {
            ending.pass_end(program);
            already.add_row(program, ending)?;
        }
        Ok(already)
    }

    /// Returns whether the formula is broken there already.
    fn tells(&self, index: u32, rule: usize) -> bool
        requires index { index < 2 ^ 31 }
        requires rules { self.now.rules ≤ 17 }
        requires rule { rule < 2 ^ 31 }
        ensures { result ≡ flag_at self.now index rule }
    {
        match self.flags.get(index as usize * self.rules + rule) {
            Some(flag) => *flag,
            None => false,
        }
    }

    /// Returns whether the latest row has decided a position of a formula as broken that was not broken at now.
    fn is_rule_newly_broken(
        &self,
        program: &Program,
        values: &TraceState,
        index: u32,
        rule: usize,
    ) -> bool
        requires fits { Fits program.now values.now }
        requires index { index < 2 ^ 31 }
        requires rules { self.now.rules ≤ 17 }
        requires few { count_of program.now ≤ 17 }
        requires inside { rule < count_of program.now }
        ensures { (formulas : List FormulaTree) (rows : Trace) (passed : ℕ)
            → HasPassed program.now values.now formulas rows passed
            → (IsTrue result ↔ (IsBrokenAt rows (formula_at formulas rule) passed
            × (flag_at self.now index rule ≡ false))) }
    {
        is_no(program, values, rule) && !self.tells(index, rule)
    }

    /// Returns whether the latest row has decided some position as broken that was not broken at now. So many rows came
    /// between now and it.
    pub(crate) fn is_newly_broken(&self, program: &Program, values: &TraceState, index: u32) -> bool
        requires fits { Fits program.now values.now }
        requires index { index < 2 ^ 31 }
        requires rules { self.now.rules ≤ 17 }
        requires few { count_of program.now ≤ 17 }
        ensures { (formulas : List FormulaTree) (cut rows : Trace) (passed : ℕ)
            → HasPassed program.now values.now formulas rows passed → Tells formulas cut self.now
            → passed ≡ length cut + index + 1
            → (IsTrue result ↔ IsNewlyBrokenAt formulas cut rows passed) }
    {
        for rule in 0..program.formula_count() {
            if self.is_rule_newly_broken(program, values, index, rule) {
                return true;
            }
        }
        false
    }
}
