//! The rules of an audit.
ghost use Rattle.std.specs.Prelude.{◌≡◌, ◌<◌, ◌∷◌, [], ◌++◌, false, length, IfOk, IfErr, OnErr, OnOk};
ghost use Rattle.mtl_formulas.specs.FormulaTree.{tree_of};
ghost use Rattle.mtl_formulas.specs.FormulaMeasures.{IsValid};
ghost use Rattle.rule_set.specs.NamedTrees.{rule_named, eleven_rules, rules_of, ranked_rules_of, rule_at, has_rule, AreRules};
ghost use Rattle.rule_set.specs.Inner.Rules.{named_trees, IsPut};
ghost use Rattle.rule_set.specs.RuleTrees.{AreRuleNumbers};

use crate::duties::{r8b, r8d, r13, r14a, r14b, r14p, r15, r16, r17a, r17b, r17c, r18};
use crate::name::Name;
use crate::numbers::RuleNumbers;
use crate::ranking::Ranking;
use crate::rule::{Rule, has_name};
use mtl_formulas::Formula;
use out_of_memory::Memory;
use std::alloc::{AllocFailed, Global};
use std::marker::Model;

/// The most rules of a set.
pub const MOST_RULES: usize = 17;

/// The rules of an audit in order: those of the COLREGs 1972, eleven or with ranks twelve, and then the added ones, at
/// most [`MOST_RULES`] in all. Its model is the list of their names and trees. All names are different, and all
/// formulas valid.
#[derive(Drop)]
pub struct RuleSet {
    rules: Vec<Rule>,
}

impl Model for RuleSet {
    ghost use Rattle.std.specs.Prelude.{List, length, ◌≤◌};
    ghost use Rattle.rule_set.specs.NamedTrees.{NamedTree, RulesHaveDifferentNames};
    ghost use Rattle.rule_set.specs.Inner.Codes.{coded_named_trees};

    ghost Value = { List NamedTree };

    ghost coded = { coded_named_trees };

    ghost use Rattle.rule_set.specs.Inner.Rules.{named_trees};

    ghost view = { λ s. named_trees s.rules.items };

    ghost use Rattle.rule_set.specs.declared.rule_set.TheConstants.{MOST_RULES};

    ghost invariant = { λ s. (length s.rules.items ≤ MOST_RULES)
        × RulesHaveDifferentNames (named_trees s.rules.items) };
}

/// Appends a rule, or passes on the out-of-memory error.
fn put(rules: &mut Vec<Rule>, made: Result<Rule, Memory>) -> Result<(), Memory>
    ensures { OnOk result (IsPut rules.old.items made rules.new.items) }
{
    rules.push(made?)?;
    Ok(())
}

/// Fills an empty list with the eleven rules that exist both without and with ranks. The list is borrowed, so that an
/// early return need not drop it.
fn push_eleven(
    rules: &mut Vec<Rule>,
    alloc: Global,
    ranks: Ranking,
    tick: u32,
    numbers: &RuleNumbers,
) -> Result<(), Memory>
    requires none { rules.old.items ≡ [] }
    requires numbers { AreRuleNumbers tick numbers.now }
    ensures { OnOk result (named_trees rules.new.items ≡ eleven_rules ranks tick numbers.now) }
{
    put(rules, r8b(alloc, tick, numbers))?;
    put(rules, r8d(alloc, numbers))?;
    put(rules, r13(alloc, numbers))?;
    put(rules, r14a(alloc, ranks, tick, numbers))?;
    put(rules, r14b(alloc, ranks))?;
    put(rules, r14p(alloc, ranks))?;
    put(rules, r15(alloc, ranks))?;
    put(rules, r16(alloc, ranks, tick, numbers))?;
    put(rules, r17a(alloc, ranks, tick, numbers))?;
    put(rules, r17b(alloc, ranks, tick, numbers))?;
    put(rules, r17c(alloc, ranks, tick, numbers))
}

/// Returns the eleven rules that exist both without and with ranks.
fn eleven_rules(
    alloc: Global,
    ranks: Ranking,
    tick: u32,
    numbers: &RuleNumbers,
) -> Result<Vec<Rule>, Memory>
    requires { AreRuleNumbers tick numbers.now }
    ensures { IfOk result (λ rules. named_trees rules.items ≡ eleven_rules ranks tick numbers.now) }
{
    let mut rules = Vec::new(alloc);
    match push_eleven(&mut rules, alloc, ranks, tick, numbers) {
        Ok(()) => Ok(rules),
        Err(fault) => {
            drop(rules);
            Err(fault)
        }
    }
}

impl RuleSet {
    /// Returns the eleven rules without ranks, with these numbers, at a tick of 1 to 60 seconds: `r8b`, `r8d`, `r13`,
    /// `r14a`, `r14b`, `r14p`, `r15`, `r16`, `r17a`, `r17b` and `r17c`. Each is the duty of the Rule of the COLREGs
    /// 1972 with its number (8, and 13 to 17).
    pub fn new(alloc: Global, numbers: &RuleNumbers, tick: u32) -> Result<RuleSet, Memory>
        requires { AreRuleNumbers tick numbers.now }
        ensures rules { IfOk result (λ set. set ≡ rules_of tick numbers.now) }
    {
        Ok(RuleSet {
            rules: eleven_rules(alloc, Ranking::Ignored, tick, numbers)?,
        })
    }

    /// Returns the twelve rules with ranks, with these numbers, at a tick of 1 to 60 seconds. The eleven have the same
    /// names, and use ranks if Rule 18 of the COLREGs 1972 takes precedence; `r18` is the duty of that Rule.
    pub fn new_ranked(alloc: Global, numbers: &RuleNumbers, tick: u32) -> Result<RuleSet, Memory>
        requires { AreRuleNumbers tick numbers.now }
        ensures rules { IfOk result (λ set. set ≡ ranked_rules_of tick numbers.now) }
    {
        let mut rules = eleven_rules(alloc, Ranking::Counted, tick, numbers)?;
        rules.push(r18(alloc, numbers)?)?;
        Ok(RuleSet { rules })
    }

    /// Appends a valid formula under a new name. The set must have fewer than [`MOST_RULES`] rules. Only if memory runs
    /// out, returns the formula as an `Err`, and the set is unchanged.
    pub fn add(&mut self, name: Name, formula: Formula) -> Result<(), Formula>
        requires few { length self.old < MOST_RULES }
        requires new { has_rule self.old name ≡ false }
        requires valid { IsValid (tree_of formula) }
        ensures added { OnOk result
            (self.new ≡ self.old ++ rule_named name (tree_of formula) ∷ []) }
        ensures left { OnErr result (self.new ≡ self.old) }
        ensures back { IfErr result (λ f. f ≡ formula) }
    {
        match self.rules.push(Rule { name, formula }) {
            Ok(()) => Ok(()),
            Err(AllocFailed { value }) => Err(value.formula),
        }
    }

    /// Returns the number of rules, at most [`MOST_RULES`].
    pub fn len(&self) -> usize
        ensures count { result ≡ length self.now }
        ensures rules { AreRules self.now }
    {
        self.rules.len()
    }

    /// Returns the bytes of the name of the rule at an index, 1 to 16.
    pub fn name(&self, k: usize) -> &[u8]
        requires { k < length self.now }
        ensures name { result.now ≡ (rule_at self.now k).name }
    {
        self.rules[k].name.bytes()
    }

    /// Returns the formula of the rule at an index.
    pub fn formula(&self, k: usize) -> &Formula
        requires { k < length self.now }
        ensures tree { tree_of result.now ≡ (rule_at self.now k).tree }
        ensures valid { IsValid (tree_of result.now) }
    {
        &self.rules[k].formula
    }

    /// Returns whether some rule has the name.
    pub fn holds(&self, name: &[u8]) -> bool
        ensures { result ≡ has_rule self.now name.now }
    {
        has_name(&self.rules, name)
    }
}
