//! Reads a scenario.
ghost use Rattle.std.specs.Prelude.{◌≡◌, ◌⊎◌, IfErr, IfOk};
ghost use Rattle.toml.specs.View.{table_view};
ghost use Rattle.scenario_keys.specs.ToldFaults.{IfFault};
ghost use Rattle.scenario_keys.specs.declared.key.Key.{Key};
ghost use Rattle.scenario_keys.specs.declared.cause.Cause.{Cause};
ghost use Rattle.scenario.specs.DocumentFaults.{IsFaultless, IsFirstFault};
ghost use Rattle.scenario.specs.RuleValues.{AreRulesOf};
ghost use Rattle.scenario.specs.ScenarioReading.{IsNoToml, IsRefused, Means, Reads};
ghost use Rattle.scenario.specs.ScenarioValues.{scenario_of};
ghost use Rattle.scenario_values.specs.ValueRanges.{IsInRange};
ghost use Rattle.scenario_values.specs.declared.values.Scenario.{Scenario};

use crate::basis::basis_of;
use crate::first::{first_fault, own_fault};
use crate::purpose::{Purpose, purpose_by};
use crate::rules::rules_in;
use crate::values::scenario_in;
use scenario_keys::{Cause, Key, ScenarioFault};
use scenario_values::Scenario;
use std::alloc::Global;
use toml::Table;

/// Returns the values of a document for a purpose, or its first fault.
pub(crate) fn values_of(
    alloc: Global,
    document: &Table,
    purpose: Purpose,
) -> Result<Scenario, ScenarioFault>
    ensures faultless { IfOk result (λ _. IsFaultless purpose (table_view document.now)) }
    ensures rules { IfOk result (λ s. AreRulesOf purpose (table_view document.now) s.rules) }
    ensures values { IfOk result (λ s. s ≡ scenario_of purpose (table_view document.now) s.rules) }
    ensures in_range { IfOk result IsInRange }
    ensures fault { IfErr result (IfFault (IsFirstFault purpose (table_view document.now))) }
{
    let basis = basis_of(document, purpose.need_own);
    if let Some((key, cause)) = first_fault(basis, document) {
        return Err(ScenarioFault::Fault(key, cause));
    }
    let rules = rules_in(alloc, document, purpose)?;
    if let Some((key, cause)) = own_fault(basis, document) {
        return Err(ScenarioFault::Fault(key, cause));
    }
    Ok(scenario_in(alloc, document, rules, purpose)?)
}

/// Parses bytes as a document.
pub(crate) fn document_of(alloc: Global, bytes: &[u8]) -> Result<Table, ScenarioFault>
    ensures reads { IfOk result (λ t. Reads bytes.now (table_view t)) }
    ensures refused { IfErr result (IfFault (λ told. IsNoToml bytes.now told.0 told.1)) }
{
    match toml::table_from_slice(alloc, bytes) {
        Ok(document) => Ok(document),
        Err(error) if error.is_memory() => Err(ScenarioFault::Memory),
        Err(_) => Err(ScenarioFault::Fault(Key { row: 0, item: 0 }, Cause::NotToml)),
    }
}

/// Reads a scenario, without the rest of the contract of `read`.
fn reading(alloc: Global, bytes: &[u8], need_own: bool) -> Result<Scenario, ScenarioFault>
    ensures values { IfOk result (Means need_own bytes.now) }
    ensures in_range { IfOk result IsInRange }
    ensures refused { IfErr result (IfFault (λ told. IsRefused need_own bytes.now told.0 told.1)) }
{
    let document = document_of(alloc, bytes)?;
    values_of(alloc, &document, purpose_by(need_own))
}

/// Reads a scenario. Returns its values, each in its range, or exactly the first fault in the order of the table of
/// keys. Memory may run out instead.
///
/// The scenario has own ship exactly if she is needed, and her keys are checked only then. Ranks count exactly if she
/// is not needed and the scenario asks for ranks.
pub fn read(alloc: Global, bytes: &[u8], need_own: bool) -> Result<Scenario, ScenarioFault>
    ensures values { IfOk result (Means need_own bytes.now) }
    ensures in_range { IfOk result IsInRange }
    ensures refused { (key : Key) (cause : Cause) → result ≡ Err (ScenarioFault.Fault key cause)
        → IsRefused need_own bytes.now key cause }
    // The converse: only out of memory needs no cause.
    ensures meant { (scenario : Scenario) → Means need_own bytes.now scenario
        → (result ≡ Ok scenario) ⊎ (result ≡ Err ScenarioFault.Memory) }
    ensures told { (key : Key) (cause : Cause) → IsRefused need_own bytes.now key cause
        → (result ≡ Err (ScenarioFault.Fault key cause)) ⊎ (result ≡ Err ScenarioFault.Memory) }
{
    reading(alloc, bytes, need_own)
}
