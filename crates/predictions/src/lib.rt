//! A scenario's predictions of other vessels: the times at which they take a course and a speed. Reads the values of
//! the tables, or returns their first fault.
//!
//! A table with `mmsi = 200000033` and `changes = [[180, 700, 50]]` states that 180 seconds after now this vessel takes
//! the course of 70.0 degrees and a speed of 5.0 knots. At a tick of 7 seconds this is the fault `predict.changes:
//! multiple`. Her place after that is out of scope: `plan_situations` computes it.
#![tactic(auto)]

mod changes;
mod faults;
mod predictions;
mod reading;

pub use changes::{Change, Changes};
pub use faults::predict_fault;
pub use predictions::{Predict, Predictions};
pub use reading::predictions_of;
