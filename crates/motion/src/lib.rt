//! The motion of vessels: the legs between consecutive reports of one vessel, with her state at each time, and the
//! steps of two vessels from one tick to the next.
//!
//! Lengths are in tenths of a millimetre, times in whole seconds since the Unix epoch. Directions and speeds have the
//! units of courses and speeds in ITU-R M.1371-5, Annex 8, section 3.1: tenths of a degree and of a knot. Points
//! between two reports are rounded to the nearest whole number; everything else is exact.
//!
//! On a leg from `(0, 0)` at second 0 to `(10, 0)` at second 3 the vessel is at `(3, 0)` at second 1 and at `(7, 0)` at second 2.
//! If A moves from `(0, 0)` to `(1, 0)` and B from `(3, 4)` to `(3, 6)`, the step has `p` `(3, 4)` and `w` `(-1, 2)`.
#![tactic(auto)]

mod leg;
mod legs;
mod step;

pub use leg::{FARTHEST, Leg, TickState};
pub use legs::Legs;
pub use step::Step;
