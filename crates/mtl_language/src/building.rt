//! The tree that a postfix form builds, within the limits.
ghost use Rattle.std.specs.Prelude.{◌≡◌, ◌≤◌, ◌<◌, ◌∷◌, vec_len, length};
ghost use Rattle.mtl_formulas.specs.FormulaTree.{FormulaTree, tree_of, leaf, negation, pair, span, link};
ghost use Rattle.mtl_formulas.specs.FormulaMeasures.{HasValidParts, node_count, span_reach, link_reach};
ghost use Rattle.mtl_language.specs.FormulaReading.{in_positions};
ghost use Rattle.mtl_language.specs.Inner.Postfix.{postfix_of};
ghost use Rattle.mtl_language.specs.Inner.Building.{IsFit, MakesPart, trees, built, CanAdd, Pushes, Adds, Builds};

use crate::parsing::ParseFault;
use crate::part::Part;
use crate::postfix::PostfixItem;
use mtl_formulas::{Atom, Formula, LinkKind, PairKind, SpanKind};
use std::alloc::Global;

/// The limits of a formula.
const DEPTH: u32 = 64;

const NODES: usize = 256;

const REACH: u32 = 7200;

fn make_leaf(atom: Atom) -> Part
    requires { IsFit (leaf atom) }
    ensures { tree_of result.formula ≡ leaf atom }
{
    Part {
        formula: Formula::leaf(atom),
        depth: 1,
        reach: 0,
    }
}

fn negate(alloc: Global, a: Part) -> Result<Part, ParseFault>
    requires { IsFit (negation (tree_of a.formula)) }
    ensures { MakesPart result (negation (tree_of a.formula)) }
{
    let depth = a.depth + 1;
    if depth > DEPTH {
        return Err(ParseFault::Size);
    }
    let formula = Formula::negated(alloc, a.formula)?;
    Ok(Part {
        formula,
        depth,
        reach: a.reach,
    })
}

fn join(alloc: Global, kind: PairKind, a: Part, b: Part) -> Result<Part, ParseFault>
    requires { IsFit (pair kind (tree_of a.formula) (tree_of b.formula)) }
    ensures { MakesPart result (pair kind (tree_of a.formula) (tree_of b.formula)) }
{
    let depth = a.depth.max(b.depth) + 1;
    if depth > DEPTH {
        return Err(ParseFault::Size);
    }
    let reach = a.reach.max(b.reach);
    let formula = Formula::pair(alloc, kind, a.formula, b.formula)?;
    Ok(Part {
        formula,
        depth,
        reach,
    })
}

fn stretch(
    alloc: Global,
    kind: SpanKind,
    lower: u32,
    upper: u32,
    a: Part,
) -> Result<Part, ParseFault>
    requires { IsFit (span kind lower upper (tree_of a.formula)) }
    ensures { MakesPart result (span kind lower upper (tree_of a.formula)) }
{
    let depth = a.depth + 1;
    let reach = a.reach + span_reach(kind, upper);
    if depth > DEPTH || reach > REACH {
        return Err(ParseFault::Size);
    }
    let formula = Formula::span(alloc, kind, lower, upper, a.formula)?;
    Ok(Part {
        formula,
        depth,
        reach,
    })
}

fn connect(
    alloc: Global,
    kind: LinkKind,
    lower: u32,
    upper: u32,
    a: Part,
    b: Part,
) -> Result<Part, ParseFault>
    requires { IsFit (link kind lower upper (tree_of a.formula) (tree_of b.formula)) }
    ensures { MakesPart result (link kind lower upper (tree_of a.formula) (tree_of b.formula)) }
{
    let depth = a.depth.max(b.depth) + 1;
    let reach = a.reach.max(b.reach) + link_reach(kind, upper);
    if depth > DEPTH || reach > REACH {
        return Err(ParseFault::Size);
    }
    let formula = Formula::link(alloc, kind, lower, upper, a.formula, b.formula)?;
    Ok(Part {
        formula,
        depth,
        reach,
    })
}

/// How far an operator itself looks ahead.
fn span_reach(kind: SpanKind, upper: u32) -> u32
    ensures { result ≡ span_reach kind upper }
{
    match kind {
        SpanKind::F | SpanKind::G => upper,
        SpanKind::O | SpanKind::H => 0,
    }
}

fn link_reach(kind: LinkKind, upper: u32) -> u32
    ensures { result ≡ link_reach kind upper }
{
    match kind {
        LinkKind::U => upper,
        LinkKind::S => 0,
    }
}

/// Takes the part that was built last.
fn pop(parts: &mut Vec<Part>) -> Part
    requires { 0 < length (trees parts.old.items) }
    ensures { trees parts.old.items ≡ tree_of result.formula ∷ trees parts.new.items }
{
    match parts.pop() {
        Some(part) => part,
        None => unreachable!(),
    }
}

fn push(parts: &mut Vec<Part>, part: Part) -> Result<(), ParseFault>
    ensures { Pushes result (tree_of part.formula ∷ trees parts.old.items) (trees parts.new.items) }
{
    parts.push(part)?;
    Ok(())
}

/// Builds what an item says from the parts that were built last.
fn add(alloc: Global, parts: &mut Vec<Part>, item: PostfixItem, tick: u32) -> Result<(), ParseFault>
    requires tick { 1 ≤ tick }
    requires fit { CanAdd (built tick item (trees parts.old.items)) }
    ensures { Adds result (built tick item (trees parts.old.items)) (trees parts.new.items) }
{
    match item {
        PostfixItem::Leaf(atom) => push(parts, make_leaf(atom)),
        PostfixItem::Not => {
            let a = pop(parts);
            push(parts, negate(alloc, a)?)
        }
        PostfixItem::Pair(kind) => {
            let b = pop(parts);
            let a = pop(parts);
            push(parts, join(alloc, kind, a, b)?)
        }
        PostfixItem::Span(kind, lower, upper) => {
            let a = pop(parts);
            push(parts, stretch(alloc, kind, lower / tick, upper / tick, a)?)
        }
        PostfixItem::Link(kind, lower, upper) => {
            let b = pop(parts);
            let a = pop(parts);
            push(
                parts,
                connect(alloc, kind, lower / tick, upper / tick, a, b)?,
            )
        }
    }
}

/// Returns the formula that a postfix form builds, its bounds in positions of `tick` seconds.
pub(crate) fn build(
    alloc: Global,
    postfix: &[PostfixItem],
    tick: u32,
) -> Result<Formula, ParseFault>
    requires tick { 1 ≤ tick }
    requires tree { (t : FormulaTree) × (postfix.now ≡ postfix_of t)
        × HasValidParts (in_positions tick t) }
    ensures { (t : FormulaTree) → postfix.now ≡ postfix_of t → Builds result (in_positions tick t) }
{
    if postfix.len() > NODES {
        return Err(ParseFault::Size);
    }
    let mut parts = Vec::new(alloc);
    for item in postfix {
        add(alloc, &mut parts, *item, tick)?;
    }
    Ok(pop(&mut parts).formula)
}
