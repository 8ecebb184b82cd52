//! The rules of a scenario.
ghost use Rattle.std.specs.Prelude.{◌≡◌, ◌≤◌, Bool, length, map, IfErr, IfOk, Some, None, OnOk, false};
ghost use Rattle.toml.specs.View.{table_view, view};
ghost use Rattle.rule_set.specs.RuleTrees.{AreRuleNumbers, AreSafeMetres};
ghost use Rattle.scenario_keys.specs.FirstFaults.{IsFound};
ghost use Rattle.scenario_keys.specs.ScenarioKeys.{formula_rows};
ghost use Rattle.scenario_keys.specs.ToldFaults.{IfFault};
ghost use Rattle.scenario_values.specs.LightRules.{AreLightRules};
ghost use Rattle.scenario.specs.DocumentFaults.{IsTold};
ghost use Rattle.scenario.specs.Inner.NoFaults.{HaveNoFault};
ghost use Rattle.scenario.specs.KeyFaults.{basis_of, tick_of};
ghost use Rattle.scenario.specs.Purposes.{ranking_of};
ghost use Rattle.scenario.specs.RuleValues.{formula_tables, rule_numbers_of, safe_of, AreRulesOf};

use crate::basis::{is_version_two, tick_of};
use crate::integers::natural;
use crate::listed::values_at;
use crate::purpose::{Purpose, ranking_of};
use rule_set::{RuleNumbers, RuleSet, Safe};
use scenario_keys::ScenarioFault;
use scenario_rules::rules_with;
use std::alloc::Global;
use toml::{Table, Value};

#[tactic(auto, unfolding(crate::specs::RuleValues::safe_of, crate::specs::Inner::KnownKeys::kind_at, scenario_keys::specs::ScenarioKeys::first_rows))]
fn safe_in(document: &Table) -> Safe
    requires { HaveNoFault false (table_view document.now) }
    ensures values { result ≡ safe_of (table_view document.now) }
    ensures in_range { AreSafeMetres result }
{
    if is_version_two(document) {
        Safe::PerKind {
            head_on: natural(document, "rules", "safe_head_on"),
            overtaking: natural(document, "rules", "safe_overtaking"),
            crossing: natural(document, "rules", "safe_crossing"),
            other: natural(document, "rules", "safe_other"),
        }
    } else {
        Safe::One(natural(document, "rules", "safe"))
    }
}

#[tactic(auto, unfolding(crate::specs::RuleValues::rule_numbers_of, crate::specs::Inner::KnownKeys::kind_at, scenario_keys::specs::ScenarioKeys::first_rows))]
fn rule_numbers_in(document: &Table) -> RuleNumbers
    requires { HaveNoFault false (table_view document.now) }
    ensures values { result ≡ rule_numbers_of (table_view document.now) }
    ensures in_range { AreRuleNumbers (tick_of (table_view document.now)) result }
{
    RuleNumbers {
        safe: safe_in(document),
        overtake: natural(document, "rules", "overtake"),
        close: natural(document, "rules", "close"),
        t8: natural(document, "rules", "t8"),
        ta: natural(document, "rules", "ta"),
        tl: natural(document, "rules", "tl"),
        tw: natural(document, "rules", "tw"),
        te: natural(document, "rules", "te"),
    }
}

/// Returns the tables of `formula`, or none without the key.
fn formula_tables(document: &Table) -> &[Value]
    requires { HaveNoFault false (table_view document.now) }
    ensures tables { map view result.now ≡ formula_tables (table_view document.now) }
    ensures few { length result.now ≤ 5 }
{
    values_at(document, "formula")
}

/// Returns the rules of a document that has no fault before its formulas, or the first fault of its formulas.
pub(crate) fn rules_in(
    alloc: Global,
    document: &Table,
    purpose: Purpose,
) -> Result<RuleSet, ScenarioFault>
    requires { HaveNoFault false (table_view document.now) }
    ensures rules { IfOk result (AreRulesOf purpose (table_view document.now)) }
    ensures light { IfOk result AreLightRules }
    ensures faultless { OnOk result
        ((need_own : Bool)
        → IsFound (IsTold (basis_of need_own (table_view document.now))
        (ranking_of purpose (table_view document.now)) (table_view document.now)) formula_rows
        None) }
    ensures fault { IfErr result
        (IfFault (λ told. (need_own : Bool)
        → IsFound (IsTold (basis_of need_own (table_view document.now))
        (ranking_of purpose (table_view document.now)) (table_view document.now)) formula_rows
        (Some told))) }
{
    rules_with(
        alloc,
        ranking_of(document, purpose),
        &rule_numbers_in(document),
        tick_of(document),
        formula_tables(document),
    )
}
