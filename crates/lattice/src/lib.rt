//! The numbered plans of own ship, and her motion under each.
//!
//! A lattice has the changes of course and of speed that a leg may choose, and the number of legs of a plan. Its plans
//! are numbered. Each plan orders a course and a speed per leg, and own ship takes them at her turning and speed rates.
//! No call takes memory.
//!
//! Three changes of course and two of speed give a leg 6 choices, and a plan of two legs is one of 36. Plan 11 is 15 in
//! base 6: its legs take the choices 1 and 5. With the changes of course 0, 300, -600 and of speed 0, -50, choice 1
//! keeps a course of 500 and makes a speed of 180 one of 130; choice 5 makes the course 3500. Whether a plan is safe is
//! out of scope: a lattice knows neither targets nor rules.
#![tactic(auto)]

mod lattice;
pub mod laws;
mod numbers;
mod orders;
mod own_motion;
mod passage;
mod plan;
mod under_way;

pub use lattice::Lattice;
pub use plan::Plan;
pub use under_way::UnderWay;
