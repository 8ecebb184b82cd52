//! A rule: a formula with a name.
ghost use Rattle.std.specs.Prelude.{◌≡◌, bytes_eq};
ghost use Rattle.std.specs.List.{list_any};
ghost use Rattle.mtl_formulas.specs.FormulaTree.{tree_of};
ghost use Rattle.mtl_formulas.specs.FormulaMeasures.{IsValid};
ghost use Rattle.rule_set.specs.Inner.Valid.{valid_prop};

use crate::draft::Draft;
use crate::name::Name;
use mtl_formulas::Formula;

/// A formula with its name.
#[derive(Drop)]
pub(crate) struct Rule {
    pub name: Name,
    pub formula: Formula,
    ghost valid: { IsValid (tree_of formula) } by { valid_prop (tree_of formula) },
}

impl Rule {
    ghost use Rattle.std.specs.Prelude.{◌≡◌, ◌≤◌, length};

    /// Returns a draft under a name of 1 to 16 bytes.
    #[tactic(auto, using(crate::proofs::Drafts::draft_is_valid))]
    pub fn of(name: &[u8], draft: Draft) -> Rule
        requires some { 1 ≤ length name.now }
        requires few { length name.now ≤ 16 }
        ensures name { result.name ≡ name.now }
        ensures formula { result.formula ≡ draft.formula }
    {
        Rule {
            name: Name::of(name),
            formula: draft.formula,
        }
    }
}

/// Returns whether some rule has the name.
pub(crate) fn has_name(rules: &[Rule], name: &[u8]) -> bool
    ensures { result ≡ list_any (λ rule. bytes_eq rule.name name.now) rules.now }
{
    rules.iter().any(|rule| rule.name.bytes() == name)
}
