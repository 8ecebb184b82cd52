//! The texts of formulas.
ghost use Rattle.std.specs.Prelude.{◌≡◌, ◌≤◌, length, option_map, IfErr, IfOk, Some, None};
ghost use Rattle.toml.specs.View.{view};
ghost use Rattle.mtl_formulas.specs.FormulaTree.{tree_of};
ghost use Rattle.mtl_formulas.specs.FormulaMeasures.{IsValid, IsTick};
ghost use Rattle.mtl_language.specs.FormulaReading.{tree, IsMeaning};
ghost use Rattle.scenario_keys.specs.ToldFaults.{IfFault};
ghost use Rattle.scenario_rules.specs.FormulaTables.{string_in, HasCause, IsBytesCause, IsTextCause};

use mtl_formulas::Formula;
use mtl_language::{ParseFault, parse};
use scenario_keys::{Cause, Key, ScenarioFault};
use std::alloc::Global;
use toml::Value;

/// Returns the fault of a text at one of its bytes, or at its end.
fn fault_at_byte(key: Key, index: usize) -> ScenarioFault
    requires { index ≤ 1024 }
    ensures { result ≡ ScenarioFault.Fault key (Cause.Formula index) }
{
    ScenarioFault::Fault(key, Cause::Formula(index as u16))
}

/// Returns the formula of a text, or its fault, at this key.
fn parsed(alloc: Global, tick: u32, text: &[u8], key: Key) -> Result<Formula, ScenarioFault>
    requires tick { IsTick tick }
    requires short { length text.now ≤ 1024 }
    ensures meaning { IfOk result (λ f. IsMeaning text.now tick (tree (tree_of f))) }
    ensures valid { IfOk result (λ f. IsValid (tree_of f)) }
    ensures faultless { IfOk result (λ _. HasCause tick text.now None) }
    ensures fault { IfErr result
        (IfFault (λ told. (told.0 ≡ key) × HasCause tick text.now (Some told.1))) }
{
    match parse(alloc, text, tick) {
        Ok(formula) => Ok(formula),
        Err(ParseFault::Syntax(index)) => Err(fault_at_byte(key, index)),
        Err(ParseFault::Number(index)) => Err(fault_at_byte(key, index)),
        Err(ParseFault::Size) => Err(fault_at_byte(key, text.len())),
        Err(ParseFault::Memory) => Err(ScenarioFault::Memory),
    }
}

/// Returns the same for a text of any length.
fn formula_of(alloc: Global, tick: u32, text: &[u8], key: Key) -> Result<Formula, ScenarioFault>
    requires tick { IsTick tick }
    ensures meaning { IfOk result (λ f. IsMeaning text.now tick (tree (tree_of f))) }
    ensures valid { IfOk result (λ f. IsValid (tree_of f)) }
    ensures faultless { IfOk result (λ _. IsBytesCause tick text.now None) }
    ensures fault { IfErr result
        (IfFault (λ told. (told.0 ≡ key) × IsBytesCause tick text.now (Some told.1))) }
{
    if text.len() > 1024 {
        return Err(ScenarioFault::Fault(key, Cause::Range));
    }
    parsed(alloc, tick, text, key)
}

/// Returns the formula of the text in a value, or its fault, at this key.
pub(crate) fn formula_in(
    alloc: Global,
    tick: u32,
    found: Option<&Value>,
    key: Key,
) -> Result<Formula, ScenarioFault>
    requires tick { IsTick tick }
    ensures meaning { IfOk result
        (λ f. IsMeaning (string_in (option_map (λ v. view v.now) found.entry)) tick
        (tree (tree_of f))) }
    ensures valid { IfOk result (λ f. IsValid (tree_of f)) }
    ensures faultless { IfOk result
        (λ _. IsTextCause tick (option_map (λ v. view v.now) found.entry) None) }
    ensures fault { IfErr result
        (IfFault (λ told. (told.0 ≡ key)
        × IsTextCause tick (option_map (λ v. view v.now) found.entry) (Some told.1))) }
{
    match found {
        Some(found) => match found.as_str() {
            Some(text) => formula_of(alloc, tick, text.as_bytes(), key),
            None => Err(ScenarioFault::Fault(key, Cause::Type_)),
        },
        None => Err(ScenarioFault::Fault(key, Cause::Missing)),
    }
}
