//! A part of a tree that is built.
ghost use Rattle.std.specs.Prelude.{◌≡◌, ◌≤◌};
ghost use Rattle.mtl_formulas.specs.FormulaTree.{tree_of};
ghost use Rattle.mtl_formulas.specs.FormulaMeasures.{depth_of, reach_of};

use mtl_formulas::Formula;

/// A formula within the limits, which waits for its operator, with its depth and its reach.
#[derive(Drop)]
pub(crate) struct Part {
    pub formula: Formula,
    pub depth: u32,
    pub reach: u32,
    ghost depth_is: { depth ≡ depth_of (tree_of formula) },
    ghost reach_is: { reach ≡ reach_of (tree_of formula) },
    ghost depth_within: { depth ≤ 64 },
    ghost reach_within: { reach ≤ 7200 },
}
