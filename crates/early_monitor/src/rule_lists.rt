//! The early form of each rule of a watch, and its state for a new trace.
ghost use Rattle.std.specs.Prelude.{ℕ, ◌≡◌, ◌+◌, ◌<◌, ◌≤◌, ◌++◌, ◌∷◌, [], IfOk, List, None, Option, get_or, length, true};
ghost use Rattle.mtl_formulas.specs.FormulaTree.{tree_of};
ghost use Rattle.mtl_formulas.specs.FormulaMeasures.{IsValid};
ghost use Rattle.mtl_monitor.specs.Following.{count_of};
ghost use Rattle.rule_set.specs.NamedTrees.{NamedTree};
ghost use Rattle.early_monitor.specs.declared.early_rule.EarlyRule.{EarlyRule};
ghost use Rattle.early_monitor.specs.Inner.RulesWatched.{AreBegun, AreEarlyRules, IsPlainProgram};

use crate::early_program::EarlyState;
use crate::early_rule::EarlyRule;
use crate::watched_rules::WatchedRules;
use mtl_formulas::{Atom, Formula};
use mtl_monitor::Program;
use out_of_memory::Memory;
use rule_set::RuleSet;
use std::alloc::Global;

/// Returns the early form of each rule's formula, if it has one.
pub(crate) fn early_rules(alloc: Global, rules: &RuleSet) -> Result<Vec<Option<EarlyRule>>, Memory>
    ensures { IfOk result (λ early. AreEarlyRules early.items rules.now) }
{
    let mut early = Vec::new(alloc);
    for rule in 0..rules.len() {
        early.push(EarlyRule::of(alloc, rules.formula(rule))?)?;
    }
    Ok(early)
}

/// Returns the program with the formula of another rule. If an early monitor watches the rule, nothing asks the program
/// for it, so the program has a formula that costs nothing instead.
fn with_rule(
    program: Program,
    early: &Option<EarlyRule>,
    formula: &Formula,
) -> Result<Program, Memory>
    requires { IsValid (tree_of formula.now) }
    ensures plain { (rules : List NamedTree) (before : List (Option EarlyRule)) (rule : NamedTree)
        → tree_of formula.now ≡ rule.tree → IsPlainProgram program before rules
        → IfOk result (λ p. IsPlainProgram p (before ++ early.now ∷ []) (rules ++ rule ∷ [])) }
    ensures count { IfOk result (λ p. count_of p ≡ count_of program + 1) }
{
    match early {
        None => program.with(formula),
        Some(_) => program.with(&Formula::leaf(Atom::Always)),
    }
}

/// Returns the program of the rules without an early monitor. Each rule has the same index as among all rules.
pub(crate) fn plain_program(
    alloc: Global,
    rules: &RuleSet,
    early: &[Option<EarlyRule>],
) -> Result<Program, Memory>
    requires { length early.now ≡ length rules.now }
    ensures plain { IfOk result (λ program. IsPlainProgram program early.now rules.now) }
    ensures count { IfOk result (λ program. count_of program ≡ length rules.now) }
    ensures few { IfOk result (λ program. count_of program ≤ 17) }
{
    let mut program = Program::new(alloc);
    for rule in 0..rules.len() {
        program = with_rule(program, &early[rule], rules.formula(rule))?;
    }
    Ok(program)
}

/// Returns the early state of each rule before a trace's first row.
pub(crate) fn begin_rules(
    alloc: Global,
    rules: &WatchedRules,
) -> Result<Vec<Option<EarlyState>>, Memory>
    ensures { IfOk result (λ early. AreBegun rules.now early.items) }
{
    let mut early = Vec::new(alloc);
    for rule in 0..rules.early.len() {
        early.push(rules.begin_rule(alloc, rule)?)?;
    }
    Ok(early)
}

/// Returns whether the rule at an index has no program of its own.
fn is_plain(early: &[Option<EarlyRule>], rule: usize) -> bool
    requires { rule < length early.now }
    ensures { result ≡ true → get_or early.now rule None ≡ None }
{
    match &early[rule] {
        None => true,
        Some(_) => false,
    }
}

/// Returns whether no rule has a program of its own.
pub(crate) fn are_plain(early: &[Option<EarlyRule>]) -> bool
    ensures { result ≡ true → (k : ℕ) → k < length early.now → get_or early.now k None ≡ None }
{
    for rule in 0..early.len() {
        if !is_plain(early, rule) {
            return false;
        }
    }
    true
}
