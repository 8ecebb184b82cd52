//! The nodes of a formula, operands before operators.
ghost use Rattle.std.specs.Prelude.{◌≡◌, ◌≤◌, ◌<◌, ◌+◌, IfOk, max, position, ◌==◌, if◌then◌else◌};
ghost use Rattle.mtl_formulas.specs.FormulaTree.{negation, pair, span, link, tree_of};
ghost use Rattle.mtl_formulas.specs.FormulaMeasures.{IsValid, reach_of};
ghost use Rattle.mtl_monitor.specs.Inner.Compiling.{Makes, same_node, put_of, delayed_of, pair_of, ahead_of, behind_of, since_of, until_of, compiled};

use crate::node::{Operator, ProgramNode};
use mtl_formulas::{Formula, LinkKind, Node, PairKind, SpanKind};
use out_of_memory::Memory;

/// A node that others may take as an operand: its index and how late it is.
#[derive(Clone, Copy)]
pub(crate) struct Operand {
    pub index: usize,
    pub late: u32,
}

/// Returns the index of the first node like this one.
fn find(nodes: &[ProgramNode], node: &ProgramNode) -> Option<usize>
    ensures { result ≡ position (λ other. same_node other node.now) nodes.now }
{
    nodes.iter().position(|other| other.is_same(node))
}

/// Returns a node, which is put at the end if there is none like it.
fn put(nodes: &mut Vec<ProgramNode>, operator: Operator, late: u32) -> Result<Operand, Memory>
    ensures late { IfOk result (λ o. o.late ≡ late) }
    ensures made { IfOk result
        (λ o. Makes nodes.new.items o (put_of nodes.old.items operator late)) }
{
    let node = ProgramNode { operator, late };
    if let Some(index) = find(nodes, &node) {
        return Ok(Operand { index, late });
    }
    let index = nodes.len();
    match nodes.push(node) {
        Ok(()) => Ok(Operand { index, late }),
        Err(_) => Err(Memory),
    }
}

/// Returns the operand, so many rows later.
fn delayed(nodes: &mut Vec<ProgramNode>, a: Operand, by: u32) -> Result<Operand, Memory>
    requires small { a.late + by < 65536 }
    ensures late { IfOk result (λ o. o.late ≡ a.late + by) }
    ensures made { IfOk result (λ o. Makes nodes.new.items o (delayed_of nodes.old.items a by)) }
{
    if by == 0 {
        return Ok(a);
    }
    put(nodes, Operator::Late(by, a.late, a.index), a.late + by)
}

/// Returns a node over two operands, both as late as the later of them.
fn join(
    nodes: &mut Vec<ProgramNode>,
    kind: PairKind,
    a: Operand,
    b: Operand,
) -> Result<Operand, Memory>
    requires first { a.late ≤ 7200 }
    requires second { b.late ≤ 7200 }
    ensures late { IfOk result (λ o. o.late ≡ max a.late b.late) }
    ensures made { IfOk result (λ o. Makes nodes.new.items o (pair_of nodes.old.items kind a b)) }
{
    let late = a.late.max(b.late);
    let x = delayed(nodes, a, late - a.late)?;
    let y = delayed(nodes, b, late - b.late)?;
    put(nodes, Operator::Pair(kind, x.index, y.index), late)
}

/// Returns a node over a window ahead.
fn look_ahead(
    nodes: &mut Vec<ProgramNode>,
    kind: SpanKind,
    lower: u32,
    upper: u32,
    a: Operand,
) -> Result<Operand, Memory>
    requires ordered { lower ≤ upper }
    requires small { upper ≤ 7200 }
    requires operand { a.late ≤ 7200 }
    ensures late { IfOk result (λ o. o.late ≡ a.late + upper) }
    ensures made { IfOk result (λ o. Makes nodes.new.items o
        (ahead_of (record { nodes = nodes.old.items; operand = a }) kind lower upper)) }
{
    let late = a.late + upper;
    put(
        nodes,
        Operator::Window(kind, upper - lower + 1, a.late, a.index),
        late,
    )
}

/// Returns a node over a window behind.
fn look_back(
    nodes: &mut Vec<ProgramNode>,
    kind: SpanKind,
    lower: u32,
    upper: u32,
    a: Operand,
) -> Result<Operand, Memory>
    requires ordered { lower ≤ upper }
    requires small { upper ≤ 7200 }
    requires operand { a.late ≤ 7200 }
    ensures late { IfOk result (λ o. o.late ≡ a.late) }
    ensures made { IfOk result (λ o. Makes nodes.new.items o
        (behind_of (record { nodes = nodes.old.items; operand = a }) kind lower upper)) }
{
    let x = delayed(nodes, a, lower)?;
    put(
        nodes,
        Operator::Window(kind, upper - lower + 1, x.late, x.index),
        a.late,
    )
}

/// Returns a node for S.
fn look_since(
    nodes: &mut Vec<ProgramNode>,
    lower: u32,
    upper: u32,
    a: Operand,
    b: Operand,
) -> Result<Operand, Memory>
    requires ordered { lower ≤ upper }
    requires small { upper ≤ 7200 }
    requires first { a.late ≤ 7200 }
    requires second { b.late ≤ 7200 }
    ensures late { IfOk result (λ o. o.late ≡ max a.late b.late) }
    ensures made { IfOk result
        (λ o. Makes nodes.new.items o (since_of nodes.old.items lower upper a b)) }
{
    let late = a.late.max(b.late);
    let x = delayed(nodes, a, late - a.late)?;
    let y = delayed(nodes, b, late - b.late + lower)?;
    put(
        nodes,
        Operator::Since(upper - lower + 1, lower, y.late, x.index, y.index),
        late,
    )
}

/// How much later U takes its first operand again: not at all if no position lies before the window.
fn behind_window(lower: u32, width: u32) -> u32
    ensures made { result ≡ (if lower == 0 then 0 else width) }
    ensures small { result ≤ width }
{
    if lower == 0 { 0 } else { width }
}

/// Returns a node for U.
fn look_until(
    nodes: &mut Vec<ProgramNode>,
    lower: u32,
    upper: u32,
    a: Operand,
    b: Operand,
) -> Result<Operand, Memory>
    requires ordered { lower ≤ upper }
    requires small { upper ≤ 7200 }
    requires first { a.late ≤ 7200 }
    requires second { b.late ≤ 7200 }
    ensures late { IfOk result (λ o. o.late ≡ max a.late b.late + upper) }
    ensures made { IfOk result
        (λ o. Makes nodes.new.items o (until_of nodes.old.items lower upper a b)) }
{
    let late = a.late.max(b.late);
    let width = upper - lower + 1;
    let x = delayed(nodes, a, late - a.late)?;
    let y = delayed(nodes, b, late - b.late)?;
    let before = delayed(nodes, x, behind_window(lower, width))?;
    put(
        nodes,
        Operator::Until(late, late + width, lower, x.index, before.index, y.index),
        late + upper,
    )
}

/// Adds the nodes of a formula.
#[cycle(adding)]
pub(crate) fn add(nodes: &mut Vec<ProgramNode>, formula: &Formula) -> Result<Operand, Memory>
    requires { IsValid (tree_of formula.now) }
    ensures late { IfOk result (λ o. o.late ≡ reach_of (tree_of formula.now)) }
    ensures made { IfOk result
        (λ o. Makes nodes.new.items o (compiled nodes.old.items (tree_of formula.now))) }
{
    match formula.node() {
        Node::Atom(atom) => put(nodes, Operator::Atom(atom), 0),
        Node::Not(a) => add_not(nodes, a),
        Node::And(a, b) => add_pair(nodes, PairKind::And, a, b),
        Node::Or(a, b) => add_pair(nodes, PairKind::Or, a, b),
        Node::Implies(a, b) => add_pair(nodes, PairKind::Implies, a, b),
        Node::F(lower, upper, a) => add_span(nodes, SpanKind::F, lower, upper, a),
        Node::G(lower, upper, a) => add_span(nodes, SpanKind::G, lower, upper, a),
        Node::O(lower, upper, a) => add_span(nodes, SpanKind::O, lower, upper, a),
        Node::H(lower, upper, a) => add_span(nodes, SpanKind::H, lower, upper, a),
        Node::U(lower, upper, a, b) => add_link(nodes, LinkKind::U, lower, upper, a, b),
        Node::S(lower, upper, a, b) => add_link(nodes, LinkKind::S, lower, upper, a, b),
    }
}

#[cycle(adding)]
fn add_not(nodes: &mut Vec<ProgramNode>, a: &Formula) -> Result<Operand, Memory>
    requires { IsValid (negation (tree_of a.now)) }
    ensures late { IfOk result (λ o. o.late ≡ reach_of (tree_of a.now)) }
    ensures made { IfOk result (λ o. Makes nodes.new.items o
        (compiled nodes.old.items (negation (tree_of a.now)))) }
{
    let x = add(nodes, a)?;
    put(nodes, Operator::Not(x.index), x.late)
}

#[cycle(adding)]
fn add_pair(
    nodes: &mut Vec<ProgramNode>,
    kind: PairKind,
    a: &Formula,
    b: &Formula,
) -> Result<Operand, Memory>
    requires { IsValid (pair kind (tree_of a.now) (tree_of b.now)) }
    ensures late { IfOk result
        (λ o. o.late ≡ reach_of (pair kind (tree_of a.now) (tree_of b.now))) }
    ensures made { IfOk result (λ o. Makes nodes.new.items o
        (compiled nodes.old.items (pair kind (tree_of a.now) (tree_of b.now)))) }
{
    let x = add(nodes, a)?;
    let y = add(nodes, b)?;
    join(nodes, kind, x, y)
}

#[cycle(adding)]
fn add_span(
    nodes: &mut Vec<ProgramNode>,
    kind: SpanKind,
    lower: u32,
    upper: u32,
    a: &Formula,
) -> Result<Operand, Memory>
    requires { IsValid (span kind lower upper (tree_of a.now)) }
    ensures late { IfOk result (λ o. o.late ≡ reach_of (span kind lower upper (tree_of a.now))) }
    ensures made { IfOk result (λ o. Makes nodes.new.items o
        (compiled nodes.old.items (span kind lower upper (tree_of a.now)))) }
{
    let x = add(nodes, a)?;
    match kind {
        SpanKind::F => look_ahead(nodes, SpanKind::F, lower, upper, x),
        SpanKind::G => look_ahead(nodes, SpanKind::G, lower, upper, x),
        SpanKind::O => look_back(nodes, SpanKind::O, lower, upper, x),
        SpanKind::H => look_back(nodes, SpanKind::H, lower, upper, x),
    }
}

#[cycle(adding)]
fn add_link(
    nodes: &mut Vec<ProgramNode>,
    kind: LinkKind,
    lower: u32,
    upper: u32,
    a: &Formula,
    b: &Formula,
) -> Result<Operand, Memory>
    requires { IsValid (link kind lower upper (tree_of a.now) (tree_of b.now)) }
    ensures late { IfOk result
        (λ o. o.late ≡ reach_of (link kind lower upper (tree_of a.now) (tree_of b.now))) }
    ensures made { IfOk result (λ o. Makes nodes.new.items o
        (compiled nodes.old.items (link kind lower upper (tree_of a.now) (tree_of b.now)))) }
{
    let x = add(nodes, a)?;
    let y = add(nodes, b)?;
    match kind {
        LinkKind::U => look_until(nodes, lower, upper, x, y),
        LinkKind::S => look_since(nodes, lower, upper, x, y),
    }
}
