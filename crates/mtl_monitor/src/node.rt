//! The nodes of a program, and what each keeps between rows.
use crate::delay_line::DelayLine;
use crate::left::Left;
use crate::outlook::Outlook;
use mtl_formulas::{Atom, PairKind, SpanKind, Verdict};

/// What a node computes. Operands are named by the indices of their nodes. The value of a node at a row is its formula's
/// value so many positions back as the node is late.
#[derive(Clone, Copy)]
pub(crate) enum Operator {
    Atom(Atom),
    Not(usize),
    Pair(PairKind, usize, usize),
    /// The operand's value, kept for so many rows. The operand gives values from a row on.
    Late(u32, u32, usize),
    /// The greatest or least of a number of the operand's last values, which it gives from a row on.
    Window(SpanKind, u32, u32, usize),
    /// S: whether the second operand held at one of so many of its last values, and the first since then. The second
    /// operand is taken so many rows late, and gives values from a row on.
    Since(u32, u32, u32, usize, usize),
    /// U: whether the second operand holds in a window ahead, and the first until then. The operands give values from a row
    /// on, and the window is full from a second row on. So many positions lie before the window: for these the first operand
    /// is taken again, later by the window's width.
    Until(u32, u32, u32, usize, usize, usize),
}

#[derive(Clone, Copy)]
pub(crate) struct ProgramNode {
    pub operator: Operator,
    pub late: u32,
}

/// A node of an atom, by its index.
#[derive(Clone, Copy)]
pub(crate) struct AtomNode {
    pub index: usize,
    pub atom: Atom,
}

/// What a node keeps between rows. What takes more room than a few counts stands in a block of its own, so that the list of
/// these is dense.
#[derive(Drop)]
pub(crate) enum Kept {
    Plain,
    Ring(DelayLine),
    Window(Left),
    /// What held, and what the first operand bars.
    Since(Left, Left),
    Until(Outlook),
}

/// What a node gives at a row, and whether what it keeps has moved.
#[derive(Clone, Copy)]
pub(crate) struct Passed {
    pub value: Verdict,
    pub moved: bool,
}
