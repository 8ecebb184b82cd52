//! The nodes of a formula, operands before operators.
ghost use Rattle.std.specs.Prelude.{◌≡◌, ◌+◌, ◌*◌, ◌≤◌, ◌<◌, length, IfOk, IfSome, None};
ghost use Rattle.mtl_formulas.specs.FormulaTree.{negation, pair, span, link, tree_of};
ghost use Rattle.mtl_formulas.specs.FormulaMeasures.{IsValid, node_count, reach_of};
ghost use Rattle.mtl_monitor.specs.Following.{count_of};
ghost use Rattle.mtl_early.specs.Sweepable.{IsSweepable};
ghost use Rattle.mtl_formulas.specs.declared.formula.LinkKind.TheVariants.{U};
ghost use Rattle.mtl_early.specs.Inner.Cells.{ahead_kind};
ghost use Rattle.mtl_early.specs.Inner.Nodes.{HasFit};
ghost use Rattle.mtl_early.specs.Inner.Built.{Adds, Puts, last_of};

use crate::building::Building;
use crate::sweeper::{Sweep, SweepNode};
use mtl_formulas::{Formula, Node, PairKind, future_reach};
use out_of_memory::Memory;

/// Returns the index of the last node.
fn last(building: &Building) -> usize
    requires { 0 < length building.now.nodes.items }
    ensures { result ≡ last_of building.now }
{
    building.nodes.len() - 1
}

/// With a further node.
fn put(building: Building, sweep: Sweep) -> Result<Building, Memory>
    requires fit { HasFit (count_of building.program) (length building.nodes.items) sweep }
    requires few { length building.nodes.items < 256 }
    ensures { IfOk result (λ b. Puts building b sweep) }
{
    let Building {
        program,
        mut nodes,
        stride,
    } = building;
    let at = nodes.len() * stride;
    nodes.push(SweepNode { at, sweep })?;
    Ok(Building {
        program,
        nodes,
        stride,
    })
}

/// With a formula that looks no position ahead.
fn add_now(building: Building, formula: &Formula) -> Result<Building, Memory>
    requires valid { IsValid (tree_of formula.now) }
    requires now { reach_of (tree_of formula.now) ≡ 0 }
    requires few { length building.nodes.items < 256 }
    ensures { IfOk result (λ b. Adds building b (tree_of formula.now)) }
{
    let Building {
        program,
        nodes,
        stride,
    } = building;
    let index = program.formula_count();
    let program = program.with(formula)?;
    let building = Building {
        program,
        nodes,
        stride,
    };
    Ok(put(building, Sweep::Now(index))?)
}

/// With a formula; `None` where a part looks back at one that looks ahead.
#[cycle(adding)]
pub(crate) fn add(building: Building, formula: &Formula) -> Result<Option<Building>, Memory>
    requires valid { IsValid (tree_of formula.now) }
    requires few { length building.nodes.items + node_count (tree_of formula.now) ≤ 256 }
    ensures adds { IfOk result
        (λ built. IfSome built (λ b. Adds building b (tree_of formula.now))) }
    ensures none { IfOk result (λ built. built ≡ None → ¬ IsSweepable (tree_of formula.now)) }
{
    if future_reach(formula) == 0 {
        return Ok(Some(add_now(building, formula)?));
    }
    match formula.node() {
        Node::Atom(_) => Ok(Some(add_now(building, formula)?)),
        Node::Not(a) => add_not(building, a),
        Node::And(a, b) => add_pair(building, PairKind::And, a, b),
        Node::Or(a, b) => add_pair(building, PairKind::Or, a, b),
        Node::Implies(a, b) => add_pair(building, PairKind::Implies, a, b),
        Node::F(lower, upper, a) => add_ahead(building, false, lower, upper, a),
        Node::G(lower, upper, a) => add_ahead(building, true, lower, upper, a),
        Node::U(lower, upper, a, b) => add_until(building, lower, upper, a, b),
        Node::O(_, _, _) | Node::H(_, _, _) | Node::S(_, _, _, _) => Ok(None),
    }
}

#[cycle(adding)]
fn add_not(building: Building, a: &Formula) -> Result<Option<Building>, Memory>
    requires valid { IsValid (negation (tree_of a.now)) }
    requires few { length building.nodes.items + node_count (negation (tree_of a.now)) ≤ 256 }
    ensures adds { IfOk result
        (λ built. IfSome built (λ b. Adds building b (negation (tree_of a.now)))) }
    ensures none { IfOk result (λ built. built ≡ None → ¬ IsSweepable (tree_of a.now)) }
{
    let Some(built) = add(building, a)? else {
        return Ok(None);
    };
    let operand = last(&built);
    Ok(Some(put(built, Sweep::Not(operand))?))
}

#[cycle(adding)]
fn add_pair(
    building: Building,
    kind: PairKind,
    a: &Formula,
    b: &Formula,
) -> Result<Option<Building>, Memory>
    requires valid { IsValid (pair kind (tree_of a.now) (tree_of b.now)) }
    requires few { length building.nodes.items
        + node_count (pair kind (tree_of a.now) (tree_of b.now)) ≤ 256 }
    ensures adds { IfOk result
        (λ built. IfSome built
        (λ new. Adds building new (pair kind (tree_of a.now) (tree_of b.now)))) }
    ensures none { IfOk result
        (λ built. built ≡ None → ¬ IsSweepable (pair kind (tree_of a.now) (tree_of b.now))) }
{
    let Some(built) = add(building, a)? else {
        return Ok(None);
    };
    let first = last(&built);
    let Some(built) = add(built, b)? else {
        return Ok(None);
    };
    let second = last(&built);
    Ok(Some(put(built, Sweep::Pair(kind, first, second))?))
}

#[cycle(adding)]
fn add_ahead(
    building: Building,
    turned: bool,
    lower: u32,
    upper: u32,
    a: &Formula,
) -> Result<Option<Building>, Memory>
    requires valid { IsValid (span (ahead_kind turned) lower upper (tree_of a.now)) }
    requires few { length building.nodes.items
        + node_count (span (ahead_kind turned) lower upper (tree_of a.now)) ≤ 256 }
    ensures adds { IfOk result
        (λ built. IfSome built
        (λ b. Adds building b (span (ahead_kind turned) lower upper (tree_of a.now)))) }
    ensures none { IfOk result (λ built. built ≡ None → ¬ IsSweepable (tree_of a.now)) }
{
    let Some(built) = add(building, a)? else {
        return Ok(None);
    };
    let operand = last(&built);
    Ok(Some(put(built, Sweep::Ahead(turned, lower, upper, operand))?))
}

#[cycle(adding)]
fn add_until(
    building: Building,
    lower: u32,
    upper: u32,
    a: &Formula,
    b: &Formula,
) -> Result<Option<Building>, Memory>
    requires valid { IsValid (link U lower upper (tree_of a.now) (tree_of b.now)) }
    requires few { length building.nodes.items
        + node_count (link U lower upper (tree_of a.now) (tree_of b.now)) ≤ 256 }
    ensures adds { IfOk result
        (λ built. IfSome built
        (λ new. Adds building new (link U lower upper (tree_of a.now) (tree_of b.now)))) }
    ensures none { IfOk result
        (λ built. built ≡ None
        → ¬ IsSweepable (link U lower upper (tree_of a.now) (tree_of b.now))) }
{
    let Some(built) = add(building, a)? else {
        return Ok(None);
    };
    let first = last(&built);
    let Some(built) = add(built, b)? else {
        return Ok(None);
    };
    let second = last(&built);
    Ok(Some(put(built, Sweep::Until(lower, upper, first, second))?))
}
