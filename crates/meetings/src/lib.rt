//! Meetings of two vessels: the trace of an ordered pair, from the first tick at which they are in contact, and the
//! values of a formula's atoms at each of its steps.
//!
//! Distances are tenths of a millimetre, angles tenths of a degree, speeds tenths of a knot. An atom's distance is in
//! metres and its time in seconds, like in a formula's text. Only `PairTrace::push` takes memory.
//!
//! Two vessels meet head-on at 18 knots each, 18.52 metres abeam of each other, at a tick of 10 seconds: `p` is
//! `(-185200, 37040000 - 1852000 i)` at step `i`. With risk within 500 metres and 60 ticks there is risk at the steps 0
//! to 22, and they are engaged up to step 25; at step 26 they are opening and over 1000 metres apart.
#![tactic(auto)]

mod ahead;
mod atom_row;
mod atoms;
mod by_rank;
mod follower;
pub mod laws;
mod pair;
mod pair_trace;
mod ticks;

pub use atom_row::AtomRow;
pub use atoms::{atoms_at, with_ranks};
pub use by_rank::{BOTH_POWER_DRIVEN, ByRank};
pub use follower::Follower;
pub use pair::Pair;
pub use pair_trace::PairTrace;
pub use ticks::{contact, step_between};
