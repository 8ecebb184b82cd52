//! The scenario of a run: its values, or the first fault in the order of its keys, from its TOML text.
//!
//! The keys are listed in one table, in `scenario_keys`. It tests a document row by row and returns the fault of the
//! first row that has one. Reading the values after that cannot fail.
//!
//! A scenario of `version = 3` and `tick = 0` has the fault `version: range`: that row is the first one. The test of
//! one key is out of scope: `scenario_keys` defines it.
#![tactic(auto)]

mod basis;
mod first;
mod integers;
pub mod laws;
mod listed;
mod migration;
mod own_part;
mod plan_sizes;
mod purpose;
mod reading;
mod rules;
mod shapes;
mod values;

pub use migration::migrate;
pub use predictions::{Change, Changes, Predict, Predictions};
pub use reading::read;
pub use scenario_keys::{Cause, Key, ScenarioFault};
pub use scenario_values::{LogNumbers, OwnPart, Scenario, Subjects, Window};
