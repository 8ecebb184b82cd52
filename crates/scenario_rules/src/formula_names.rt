//! The names of formulas.
ghost use Rattle.std.specs.Prelude.{◌≡◌, option_map, false, Some, None, IfOk, IfErr};
ghost use Rattle.std.specs.List.{list_all};
ghost use Rattle.toml.specs.View.{view};
ghost use Rattle.rule_set.specs.NamedTrees.{has_rule};
ghost use Rattle.scenario_rules.specs.FormulaTables.{begins_small, is_rule_name, is_name_byte, is_small_letter, name_cause, new_name_cause, string_in};

use rule_set::{Name, RuleSet};
use scenario_keys::Cause;
use toml::Value;

fn is_small_letter(byte: u8) -> bool
    ensures { result ≡ is_small_letter byte }
{
    b'a' <= byte && byte <= b'z'
}

fn is_name_byte(byte: u8) -> bool
    ensures { result ≡ is_name_byte byte }
{
    is_small_letter(byte) || byte.is_ascii_digit() || byte == b'_'
}

fn begins_small(name: &[u8]) -> bool
    ensures { result ≡ begins_small name.now }
{
    match name {
        [first, ..] => is_small_letter(*first),
        [] => false,
    }
}

fn are_name_bytes(bytes: &[u8]) -> bool
    ensures { result ≡ list_all is_name_byte bytes.now }
{
    bytes.iter().all(|byte| is_name_byte(*byte))
}

/// Returns whether a name is a lowercase letter followed by lowercase letters, digits and `_`, at most 16 bytes.
fn is_name(name: &[u8]) -> bool
    ensures { result ≡ is_rule_name name.now }
{
    name.len() <= 16 && begins_small(name) && are_name_bytes(name)
}

/// Returns the name of these bytes if no rule has it.
fn new_name(rules: &RuleSet, name: &[u8]) -> Result<Name, Cause>
    ensures name { IfOk result (λ n. n ≡ name.now) }
    ensures new { IfOk result (λ n. has_rule rules.now name.now ≡ false) }
    ensures faultless { IfOk result
        (λ _. new_name_cause (has_rule rules.now) (Some name.now) ≡ None) }
    ensures fault { IfErr result
        (λ why. new_name_cause (has_rule rules.now) (Some name.now) ≡ Some why) }
{
    if is_name(name) && !rules.holds(name) {
        Ok(Name::of(name))
    } else {
        Err(Cause::Range)
    }
}

/// Returns the name in a value, which no rule has, or its fault.
pub(crate) fn name_in(rules: &RuleSet, found: Option<&Value>) -> Result<Name, Cause>
    ensures name { IfOk result (λ n. n ≡ string_in (option_map (λ v. view v.now) found.entry)) }
    ensures new { IfOk result (λ n. has_rule rules.now n ≡ false) }
    ensures faultless { IfOk result
        (λ _. name_cause (has_rule rules.now) (option_map (λ v. view v.now) found.entry) ≡ None) }
    ensures fault { IfErr result
        (λ why. name_cause (has_rule rules.now) (option_map (λ v. view v.now) found.entry)
        ≡ Some why) }
{
    match found {
        Some(found) => match found.as_str() {
            Some(name) => new_name(rules, name.as_bytes()),
            None => Err(Cause::Type_),
        },
        None => Err(Cause::Missing),
    }
}
