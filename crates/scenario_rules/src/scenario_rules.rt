//! The rules of a scenario.
ghost use Rattle.std.specs.Prelude.{◌≡◌, ◌⊎◌, ◌≤◌, ◌<◌, nat_le, length, map, IfErr, IfOk, OnOk, Some, None};
ghost use Rattle.toml.specs.View.{view};
ghost use Rattle.mtl_formulas.specs.FormulaMeasures.{IsTick};
ghost use Rattle.rule_set.specs.NamedTrees.{has_rule, rules_by, AreRules};
ghost use Rattle.rule_set.specs.RuleTrees.{AreRuleNumbers};
ghost use Rattle.scenario_keys.specs.ToldFaults.{IfFault};
ghost use Rattle.scenario_rules.specs.FormulaTables.{IsFaultBy, IsFormulaFault};
ghost use Rattle.scenario_rules.specs.ScenarioRules.{AreScenarioRules, IsWeightFault};
ghost use Rattle.scenario_values.specs.LightRules.{greatest_weight, total_weight, AreLightRules};
ghost use Rattle.scenario_rules.specs.Inner.{Adds};

use crate::formula_names::name_in;
use crate::formula_texts::formula_in;
use mtl_formulas::weight;
use out_of_memory::Memory;
use rule_set::{Ranking, RuleNumbers, RuleSet};
use scenario_keys::{Cause, Key, ScenarioFault, member};
use std::alloc::Global;
use toml::Value;

/// The greatest weight of all rules together.
const GREATEST_WEIGHT: u64 = 65_536;

/// Adds the formula of the table with this index, or returns the fault of its name, otherwise that of
/// its text.
fn add_table(
    alloc: Global,
    rules: &mut RuleSet,
    tick: u32,
    item: u16,
    table: &Value,
) -> Result<(), ScenarioFault>
    requires tick { IsTick tick }
    requires few { length rules.old < 17 }
    ensures added { OnOk result (Adds tick (view table.now) rules.old rules.new) }
    ensures faultless { OnOk result
        (IsFaultBy (has_rule rules.old) tick item (view table.now) None) }
    ensures fault { IfErr result
        (IfFault (λ told. IsFaultBy (has_rule rules.old) tick item (view table.now) (Some told))) }
{
    let name = match name_in(rules, member(table, "name")) {
        Ok(name) => name,
        Err(why) => return Err(ScenarioFault::Fault(Key { row: 32, item }, why)),
    };
    let formula = formula_in(alloc, tick, member(table, "text"), Key { row: 33, item })?;
    match rules.add(name, formula) {
        Ok(()) => Ok(()),
        Err(_) => Err(ScenarioFault::Memory),
    }
}

/// Returns the rules of the COLREGs 1972 without ranks, or with them.
fn rules_by(
    alloc: Global,
    ranks: Ranking,
    numbers: &RuleNumbers,
    tick: u32,
) -> Result<RuleSet, Memory>
    requires { AreRuleNumbers tick numbers.now }
    ensures { IfOk result (λ set. set ≡ rules_by ranks tick numbers.now) }
{
    match ranks {
        Ranking::Ignored => RuleSet::new(alloc, numbers, tick),
        Ranking::Counted => RuleSet::new_ranked(alloc, numbers, tick),
    }
}

/// Returns these rules, followed by the formulas of these tables, or the first fault of a table.
fn all_rules(
    alloc: Global,
    ranks: Ranking,
    numbers: &RuleNumbers,
    tick: u32,
    tables: &[Value],
) -> Result<RuleSet, ScenarioFault>
    requires numbers { AreRuleNumbers tick numbers.now }
    requires few { length tables.now ≤ 5 }
    ensures rules { IfOk result (AreScenarioRules ranks tick numbers.now (map view tables.now)) }
    ensures faultless { OnOk result (IsFormulaFault ranks tick (map view tables.now) None) }
    ensures fault { IfErr result
        (IfFault (λ told. IsFormulaFault ranks tick (map view tables.now) (Some told))) }
{
    let mut rules = rules_by(alloc, ranks, numbers, tick)?;
    let mut item = 0;
    for table in tables {
        add_table(alloc, &mut rules, tick, item, table)?;
        item += 1;
    }
    Ok(rules)
}

/// Returns whether the rules together are light enough.
fn are_light(rules: &RuleSet) -> bool
    ensures light { result ≡ nat_le (total_weight rules.now) greatest_weight }
    ensures right { AreRules rules.now }
{
    let mut left = GREATEST_WEIGHT;
    for k in 0..rules.len() {
        let weight = weight(rules.formula(k));
        if left < weight {
            return false;
        }
        left -= weight;
    }
    true
}

/// Returns the rules of a scenario: those of the COLREGs 1972 with these numbers, at a tick of this many seconds,
/// eleven, or with ranks twelve, followed by the formulas of at most five tables, each with a `name` and a `text`.
/// Otherwise returns the first fault: in each table first that of its name and then that of its text, and last that all
/// rules together weigh more than 65,536.
pub fn rules_with(
    alloc: Global,
    ranks: Ranking,
    numbers: &RuleNumbers,
    tick: u32,
    tables: &[Value],
) -> Result<RuleSet, ScenarioFault>
    requires numbers { AreRuleNumbers tick numbers.now }
    requires few { length tables.now ≤ 5 }
    ensures rules { IfOk result (AreScenarioRules ranks tick numbers.now (map view tables.now)) }
    ensures light { IfOk result AreLightRules }
    ensures faultless { OnOk result (IsFormulaFault ranks tick (map view tables.now) None) }
    ensures weighed { OnOk result
        (IsWeightFault ranks tick numbers.now (map view tables.now) None) }
    ensures fault { IfErr result
        (IfFault (λ told. IsFormulaFault ranks tick (map view tables.now) (Some told)
        ⊎ (IsFormulaFault ranks tick (map view tables.now) None
        × IsWeightFault ranks tick numbers.now (map view tables.now) (Some told)))) }
{
    let rules = all_rules(alloc, ranks, numbers, tick, tables)?;
    if !are_light(&rules) {
        return Err(ScenarioFault::Fault(Key { row: 34, item: 0 }, Cause::Product));
    }
    Ok(rules)
}
