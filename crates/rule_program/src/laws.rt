//! Laws of the values of rules, which follow from the definitions alone.
ghost use Rattle.std.specs.Prelude.{◌≡◌, ℕ, ◌+◌, ◌<◌, length};
ghost use Rattle.mtl_formulas.specs.declared.verdict.Verdict.TheVariants.{No};
ghost use Rattle.mtl_formulas.specs.FormulaTree.{FormulaTree};
ghost use Rattle.mtl_formulas.specs.FormulaMeasures.{HasValidParts};
ghost use Rattle.mtl_formulas.specs.Traces.{Trace, value_in};
ghost use Rattle.rule_program.specs.Lags.{lags_of};

/// A No needs as many rows after its position as the formula's lag says.
pub fn no_lags()
    ensures { (rows : Trace) (t : FormulaTree) (i : ℕ) → HasValidParts t → value_in rows t i ≡ No →
        i + (lags_of t).no < length rows }
{}
