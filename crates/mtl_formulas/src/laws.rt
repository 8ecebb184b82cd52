//! Laws of values, which follow from the definitions alone. A row of a trace is here its values of the atoms.
ghost use Rattle.std.specs.Prelude.{◌≡◌, ◌≢◌, ℕ, ◌+◌, ◌≤◌, List, ◌++◌, slice_get, map};
ghost use Rattle.mtl_formulas.specs.declared.atom.Atom.{Atom};
ghost use Rattle.mtl_formulas.specs.declared.verdict.Verdict.{Verdict};
ghost use Rattle.mtl_formulas.specs.declared.verdict.Verdict.TheVariants.{Open};
ghost use Rattle.mtl_formulas.specs.FormulaTree.{FormulaTree};
ghost use Rattle.mtl_formulas.specs.FormulaMeasures.{reach_of};
ghost use Rattle.mtl_formulas.specs.FormulaValue.{value_of};

use crate::atom::Atoms;

/// The prefix law: a value that is Yes or No over a trace is the same over every longer trace that begins with it.
pub fn decided_values_stay()
    ensures { (rows more : List (Atom → Verdict)) (t : FormulaTree) (i : ℕ) →
        value_of (λ row. row) rows t i ≢ Open →
        value_of (λ row. row) (rows ++ more) t i ≡ value_of (λ row. row) rows t i }
{}

/// The reach law: the value at `i` is the same over all traces that agree on the positions 0 to `i` and the formula's
/// reach beyond.
pub fn reach()
    ensures { (rows others : List (Atom → Verdict)) (t : FormulaTree) (i : ℕ) →
        ((k : ℕ) → k ≤ i + reach_of t → slice_get rows k ≡ slice_get others k) →
        value_of (λ row. row) rows t i ≡ value_of (λ row. row) others t i }
{}

/// Values depend only on the rows' values of the atoms, for rows of any type, so the other laws hold for such rows too.
pub fn answers_suffice<A: Atoms>()
    ensures { (rows : List A) (t : FormulaTree) (i : ℕ) →
        value_of A.answer rows t i ≡ value_of (λ row. row) (map A.answer rows) t i }
{}
