//! The rules of an audit as one program, which returns the values of all of them along a trace; and the least numbers
//! of rows that their formulas need before a value of Yes or No.
//!
//! A Yes of `F[0,20] risk` at a tick of 10 seconds may come with the position's own row, and a No needs two rows after
//! it: the last that the formula reaches. For `G[0,20] risk` it is the other way round: a No may come early. Computing
//! a value is out of scope: see `mtl_monitor`.
#![tactic(auto)]

mod lags;
pub mod laws;

ghost use Rattle.std.specs.Prelude.{◌≡◌, ◌≤◌, IfOk, length, map};
ghost use Rattle.mtl_monitor.specs.Following.{IsProgramOf, count_of};
ghost use Rattle.rule_set.specs.NamedTrees.{NamedTree};
ghost use Rattle.rule_set.specs.declared.rule_set.TheConstants.{MOST_RULES};

pub use lags::{Lags, are_no_last, is_no_last, lags_of};
use mtl_monitor::Program;
use out_of_memory::Memory;
use rule_set::RuleSet;
use std::alloc::Global;

/// Returns the formulas of all rules in order, each at the index of its rule, as one program.
pub fn program_of(alloc: Global, rules: &RuleSet) -> Result<Program, Memory>
    ensures formulas { IfOk result
        (λ program. IsProgramOf program (map (λ (rule : NamedTree). rule.tree) rules.now)) }
    ensures count { IfOk result (λ program. count_of program ≡ length rules.now) }
    ensures few { IfOk result (λ program. count_of program ≤ MOST_RULES) }
{
    let mut program = Program::new(alloc);
    for rule in 0..rules.len() {
        program = program.with(rules.formula(rule))?;
    }
    Ok(program)
}
