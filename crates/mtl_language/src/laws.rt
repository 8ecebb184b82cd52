//! The law of texts, which follows from the definitions alone.
ghost use Rattle.std.specs.Prelude.{ℕ, List};
ghost use Rattle.mtl_language.specs.FormulaReading.{HasOneMeaning};

/// Each text of any bytes has exactly one meaning at each tick: either it is a formula with one tree, or it has one
/// fault.
pub fn one_meaning()
    ensures { (text : List ℕ) (tick : ℕ) → HasOneMeaning text tick }
{}
