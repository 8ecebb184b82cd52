//! Parts of rules in construction.
ghost use Rattle.std.specs.Prelude.{◌≡◌, ◌+◌, ◌<◌, ◌≤◌, IfOk};
ghost use Rattle.mtl_formulas.specs.FormulaTree.{leaf, negation, pair, span, link, tree_of};
ghost use Rattle.mtl_formulas.specs.FormulaMeasures.{IsValidAtom, node_count, reach_of};
ghost use Rattle.rule_set.specs.Inner.Drafts.{IsDraft, draft_prop, IsMade};

use mtl_formulas::{Atom, Formula, LinkKind, PairKind, SpanKind};
use out_of_memory::Memory;
use std::alloc::Global;

/// A formula that is small: at most 64 nodes.
#[derive(Drop)]
pub(crate) struct Draft {
    pub formula: Formula,
    ghost small: { IsDraft (tree_of formula) } by { draft_prop (tree_of formula) },
}

/// Returns the formula of one atom.
#[tactic(auto, using(crate::proofs::Drafts::made))]
pub(crate) fn atom(atom: Atom) -> Draft
    requires { IsValidAtom atom }
    ensures { IsMade result.formula (leaf atom) 1 }
{
    Draft {
        formula: Formula::leaf(atom),
    }
}

/// Returns `!a`.
#[tactic(auto, using(crate::proofs::Drafts::made))]
pub(crate) fn not(alloc: Global, a: Draft) -> Result<Draft, Memory>
    requires { node_count (tree_of a.formula) < 64 }
    ensures { IfOk result
        (λ d. IsMade d.formula (negation (tree_of a.formula))
        (node_count (tree_of a.formula) + 1)) }
{
    Ok(Draft {
        formula: Formula::negated(alloc, a.formula)?,
    })
}

/// Returns `a & b`, `a | b` or `a -> b`.
#[tactic(auto, using(crate::proofs::Drafts::made))]
pub(crate) fn join(alloc: Global, kind: PairKind, a: Draft, b: Draft) -> Result<Draft, Memory>
    requires { node_count (tree_of a.formula) + node_count (tree_of b.formula) < 64 }
    ensures { IfOk result (λ d. IsMade d.formula (pair kind (tree_of a.formula) (tree_of b.formula))
        (node_count (tree_of a.formula) + node_count (tree_of b.formula) + 1)) }
{
    Ok(Draft {
        formula: Formula::pair(alloc, kind, a.formula, b.formula)?,
    })
}

/// Returns `F[0,upper] a` or `H[0,upper] a`, in positions, for a formula that looks at no later position.
#[tactic(auto, using(crate::proofs::Drafts::made))]
pub(crate) fn over(alloc: Global, kind: SpanKind, upper: u32, a: Draft) -> Result<Draft, Memory>
    requires few { node_count (tree_of a.formula) < 64 }
    requires near { upper ≤ 7200 }
    requires alone { reach_of (tree_of a.formula) ≡ 0 }
    ensures { IfOk result
        (λ d. IsMade d.formula (span kind 0 upper (tree_of a.formula))
        (node_count (tree_of a.formula) + 1)) }
{
    Ok(Draft {
        formula: Formula::span(alloc, kind, 0, upper, a.formula)?,
    })
}

/// Returns `a S[0,upper] b`, in positions.
#[tactic(auto, using(crate::proofs::Drafts::made))]
pub(crate) fn since(alloc: Global, upper: u32, a: Draft, b: Draft) -> Result<Draft, Memory>
    requires few { node_count (tree_of a.formula) + node_count (tree_of b.formula) < 64 }
    requires near { upper ≤ 7200 }
    ensures { IfOk result
        (λ d. IsMade d.formula (link LinkKind.S 0 upper (tree_of a.formula) (tree_of b.formula))
        (node_count (tree_of a.formula) + node_count (tree_of b.formula) + 1)) }
{
    Ok(Draft {
        formula: Formula::link(alloc, LinkKind::S, 0, upper, a.formula, b.formula)?,
    })
}
