//! Formulas of metric temporal logic (R. Koymans, "Specifying real-time properties with metric temporal logic", Real-Time
//! Systems 2, 1990) over discrete positions, with bounded closed intervals and three values: the tree, its
//! measures and its plain meaning over a trace.
//!
//! A position is a step of one tick, so at a tick of 10 seconds `F[0,20] risk` covers the positions `i`, `i + 1` and
//! `i + 2`. Over a trace of four positions without risk its values are No at 0, No at 1, and Open at 2 and 3, where the
//! window passes the trace's end and the answer is not yet known.
//! What texts mean is out of scope: `mtl_language` reads and prints them.
#![tactic(auto)]

mod atom;
mod connectives;
mod evaluation;
mod formula;
mod glance;
pub mod laws;
mod measures;
mod verdict;

pub use atom::{Atom, Atoms};
pub use evaluation::value;
pub use formula::{Formula, LinkKind, Node, PairKind, SpanKind};
pub use glance::Glance;
pub use measures::{future_reach, nodes, weight};
pub use verdict::Verdict;
