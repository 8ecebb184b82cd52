//! The size and the reach of a formula.
ghost use Rattle.std.specs.Prelude.{◌≡◌};
ghost use Rattle.mtl_formulas.specs.FormulaTree.{tree_of};
ghost use Rattle.mtl_formulas.specs.FormulaMeasures.{IsValid, reach_of, node_count, window_cells, weight_of};

use crate::formula::{Formula, LinkKind, Root, SpanKind};

/// Returns the number of positions ahead that the value at a position can look: 0 to 7200. An F, G or U adds its upper
/// bound.
pub fn future_reach(formula: &Formula) -> u32
    requires { IsValid (tree_of formula.now) }
    ensures { result ≡ reach_of (tree_of formula.now) }
{
    match &formula.root {
        Root::Leaf(_) => 0,
        Root::Negated(a) => future_reach(a),
        Root::Pair(_, a, b) => future_reach(a).max(future_reach(b)),
        Root::Span(SpanKind::F | SpanKind::G, _, upper, a) => *upper + future_reach(a),
        Root::Span(SpanKind::O | SpanKind::H, _, _, a) => future_reach(a),
        Root::Link(LinkKind::U, _, upper, a, b) => *upper + future_reach(a).max(future_reach(b)),
        Root::Link(LinkKind::S, _, _, a, b) => future_reach(a).max(future_reach(b)),
    }
}

/// Returns the number of atoms and operators of the formula: 1 to 256.
pub fn nodes(formula: &Formula) -> u32
    requires { IsValid (tree_of formula.now) }
    ensures { result ≡ node_count (tree_of formula.now) }
{
    match &formula.root {
        Root::Leaf(_) => 1,
        Root::Negated(a) => nodes(a) + 1,
        Root::Pair(_, a, b) => nodes(a) + nodes(b) + 1,
        Root::Span(_, _, _, a) => nodes(a) + 1,
        Root::Link(_, _, _, a, b) => nodes(a) + nodes(b) + 1,
    }
}

/// Returns the cost of the formula for a monitor, as a number without a unit: its nodes times its reach plus one, and
/// for each temporal operator its upper bound in positions plus one.
pub fn weight(formula: &Formula) -> u64
    requires { IsValid (tree_of formula.now) }
    ensures { result ≡ weight_of (tree_of formula.now) }
{
    let cells = nodes(formula) as u64 * (future_reach(formula) as u64 + 1);
    cells + windows(formula)
}

/// Returns the upper bounds of the temporal operators in positions, each plus one.
#[tactic(auto, using(crate::proofs::Windows::window_cells_fit))]
fn windows(formula: &Formula) -> u64
    requires { IsValid (tree_of formula.now) }
    ensures { result ≡ window_cells (tree_of formula.now) }
{
    match &formula.root {
        Root::Leaf(_) => 0,
        Root::Negated(a) => windows(a),
        Root::Pair(_, a, b) => windows(a) + windows(b),
        Root::Span(_, _, upper, a) => windows(a) + (*upper as u64 + 1),
        Root::Link(_, _, upper, a, b) => windows(a) + windows(b) + (*upper as u64 + 1),
    }
}
