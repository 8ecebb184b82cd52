//! The closest approach of two vessels in a step, exact at every rational instant.
//!
//! At the instant `a / b` of a step, for whole numbers `0 <= a <= b` with `b` above 0, the displacement from one vessel
//! to the other is `(b * p + a * w) / b`. Each result is about all instants and is computed from one of them: the
//! instant of least distance. Distances are in tenths of a millimetre, and radii are below 2^31. No function takes
//! memory.
//!
//! The step with `p` `(5, -10)` and `w` `(0, 20)` passes at a distance of 5: it is separated by 5 and not by 6, and `least` is 5.
//! The one with `p` `(0, 1000)` and `w` `(0, -2000)` goes through the middle: `entry` within 1 is 2000000 / 4000000.
#![tactic(auto)]

mod nearest;
mod separation;

pub use nearest::Moment;
pub use separation::{enters_within, entry, least, separated};
