//! Worked rows of scenarios: their values, their first faults, and the log of a drill; and the scenario of all worked
//! rows, with a log.
#![tactic(auto)]

#[cfg(test)]
mod compared;
#[cfg(test)]
mod drill;
#[cfg(test)]
mod good;
#[cfg(test)]
mod migrations;
#[cfg(test)]
mod refusals;
mod text;
#[cfg(test)]
mod values;

pub use text::{HEAD_ON, SCENARIO};
