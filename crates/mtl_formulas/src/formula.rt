//! Formulas as trees. Bounds are counted in positions.
ghost use Rattle.std.specs.Prelude.{◌≡◌, IfOk};
ghost use Rattle.mtl_formulas.specs.FormulaTree.{leaf, negation, pair, span, link, tree_of, node_tree};
ghost use Rattle.mtl_formulas.specs.FormulaMeasures.{IsValid};

use crate::atom::Atom;
use out_of_memory::Memory;
use std::alloc::Global;

/// The operators of two operands without an interval.
#[derive(Clone, Copy, PartialEq, Eq)]
pub enum PairKind {
    /// `a & b`.
    And,
    /// `a | b`.
    Or,
    /// `a -> b`, which is `!a | b`.
    Implies,
}

/// The operators of one operand over an interval.
#[derive(Clone, Copy, PartialEq, Eq)]
pub enum SpanKind {
    /// Finally: somewhere in an interval ahead.
    F,
    /// Globally: everywhere in an interval ahead.
    G,
    /// Once: somewhere in an interval behind.
    O,
    /// Historically: everywhere in an interval behind.
    H,
}

/// The operators of two operands over an interval.
#[derive(Clone, Copy, PartialEq, Eq)]
pub enum LinkKind {
    /// Until: `b` somewhere in an interval ahead, and `a` from here to before it.
    U,
    /// Since: `b` somewhere in an interval behind, and `a` from after it to here.
    S,
}

/// A formula of metric temporal logic (Koymans 1990). Its model is its tree; its bounds are in positions of one tick
/// each, `lower <= upper <= 7200`. A valid one is at most 64 deep, has at most 256 nodes and reaches at most 7200
/// positions ahead.
#[derive(Drop)]
#[cycle(formula)]
pub struct Formula {
    pub(crate) root: Root,
}

#[derive(Drop)]
#[cycle(formula)]
pub(crate) enum Root {
    Leaf(Atom),
    Negated(Box<Formula>),
    Pair(PairKind, Box<Formula>, Box<Formula>),
    Span(SpanKind, u32, u32, Box<Formula>),
    Link(LinkKind, u32, u32, Box<Formula>, Box<Formula>),
}

/// The root of a formula with its operands. The two numbers are the bounds, lower and upper, in positions, 0 to 7200.
#[derive(Clone, Copy)]
pub enum Node<'a> {
    /// A test of one position.
    Atom(Atom),
    /// `!a`.
    Not(&'a Formula),
    /// `a & b`.
    And(&'a Formula, &'a Formula),
    /// `a | b`.
    Or(&'a Formula, &'a Formula),
    /// `a -> b`.
    Implies(&'a Formula, &'a Formula),
    /// Finally: somewhere in an interval ahead.
    F(u32, u32, &'a Formula),
    /// Globally: everywhere in an interval ahead.
    G(u32, u32, &'a Formula),
    /// Once: somewhere in an interval behind.
    O(u32, u32, &'a Formula),
    /// Historically: everywhere in an interval behind.
    H(u32, u32, &'a Formula),
    /// `a U b`.
    U(u32, u32, &'a Formula, &'a Formula),
    /// `a S b`.
    S(u32, u32, &'a Formula, &'a Formula),
}

impl Formula {
    /// Returns the formula of one atom.
    pub fn leaf(atom: Atom) -> Formula
        requires { IsValid (leaf atom) }
        ensures { tree_of result ≡ leaf atom }
    {
        Formula {
            root: Root::Leaf(atom),
        }
    }

    /// `!a`. At `Memory` the operand is dropped.
    pub fn negated(alloc: Global, a: Formula) -> Result<Formula, Memory>
        requires { IsValid (negation (tree_of a)) }
        ensures { IfOk result (λ f. tree_of f ≡ negation (tree_of a)) }
    {
        let a = boxed(alloc, a)?;
        Ok(Formula {
            root: Root::Negated(a),
        })
    }

    /// `a & b`, `a | b` or `a -> b`. At `Memory` the operands are dropped.
    pub fn pair(alloc: Global, kind: PairKind, a: Formula, b: Formula) -> Result<Formula, Memory>
        requires { IsValid (pair kind (tree_of a) (tree_of b)) }
        ensures { IfOk result (λ f. tree_of f ≡ pair kind (tree_of a) (tree_of b)) }
    {
        let a = boxed(alloc, a)?;
        let b = boxed(alloc, b)?;
        Ok(Formula {
            root: Root::Pair(kind, a, b),
        })
    }

    /// `F`, `G`, `O` or `H` over the positions at a distance of `lower` to `upper`. At `Memory` the operand is dropped.
    pub fn span(
        alloc: Global,
        kind: SpanKind,
        lower: u32,
        upper: u32,
        a: Formula,
    ) -> Result<Formula, Memory>
        requires { IsValid (span kind lower upper (tree_of a)) }
        ensures { IfOk result (λ f. tree_of f ≡ span kind lower upper (tree_of a)) }
    {
        let a = boxed(alloc, a)?;
        Ok(Formula {
            root: Root::Span(kind, lower, upper, a),
        })
    }

    /// `a U b` or `a S b` with `b` at a distance of `lower` to `upper` positions. At `Memory` the operands are dropped.
    pub fn link(
        alloc: Global,
        kind: LinkKind,
        lower: u32,
        upper: u32,
        a: Formula,
        b: Formula,
    ) -> Result<Formula, Memory>
        requires { IsValid (link kind lower upper (tree_of a) (tree_of b)) }
        ensures { IfOk result (λ f. tree_of f ≡ link kind lower upper (tree_of a) (tree_of b)) }
    {
        let a = boxed(alloc, a)?;
        let b = boxed(alloc, b)?;
        Ok(Formula {
            root: Root::Link(kind, lower, upper, a, b),
        })
    }

    /// Returns the root with its operands.
    pub fn node(&self) -> Node<'_>
        ensures { tree_of self.now ≡ node_tree result }
    {
        match &self.root {
            Root::Leaf(atom) => Node::Atom(*atom),
            Root::Negated(a) => Node::Not(a),
            Root::Pair(PairKind::And, a, b) => Node::And(a, b),
            Root::Pair(PairKind::Or, a, b) => Node::Or(a, b),
            Root::Pair(PairKind::Implies, a, b) => Node::Implies(a, b),
            Root::Span(SpanKind::F, lower, upper, a) => Node::F(*lower, *upper, a),
            Root::Span(SpanKind::G, lower, upper, a) => Node::G(*lower, *upper, a),
            Root::Span(SpanKind::O, lower, upper, a) => Node::O(*lower, *upper, a),
            Root::Span(SpanKind::H, lower, upper, a) => Node::H(*lower, *upper, a),
            Root::Link(LinkKind::U, lower, upper, a, b) => Node::U(*lower, *upper, a, b),
            Root::Link(LinkKind::S, lower, upper, a, b) => Node::S(*lower, *upper, a, b),
        }
    }
}

fn boxed(alloc: Global, a: Formula) -> Result<Box<Formula>, Memory>
    ensures { IfOk result (λ b. b.value ≡ a) }
{
    match Box::new(alloc, a) {
        Ok(b) => Ok(b),
        Err(_) => Err(Memory),
    }
}
