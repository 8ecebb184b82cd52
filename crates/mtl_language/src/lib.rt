//! The language of formulas of metric temporal logic: reads the text of a formula of `mtl_formulas` or returns its one
//! fault, and prints a formula again. In a text the bounds of operators are in seconds, in a formula they are in
//! positions, one per tick.
//!
//! At a tick of 10 seconds `F[0,20] risk & !seen` is read as a pair: finally `risk` over the positions at a distance of 0
//! to 2, and not `seen`. It is printed as `(F[0,20] risk & !seen)`, which is read as the same tree. `F[0,25] risk` is
//! refused at byte 4, since 25 seconds end between two ticks.
//! What a formula's value is, is out of scope: `mtl_formulas` defines it, and knows no texts.
#![tactic(auto)]

mod atom_words;
mod building;
pub mod laws;
mod numbers;
mod parsing;
mod part;
mod postfix;
mod printing;
mod tokens;

pub use parsing::{ParseFault, parse};
pub use printing::print;
