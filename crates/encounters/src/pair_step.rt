//! A step of an ordered pair of vessels, at which both are seen.
use motion::{Step, TickState};

/// A step of vessels A and B with their states at its first tick.
#[derive(Clone, Copy, PartialEq, Eq)]
pub struct PairStep {
    /// The move of B relative to A.
    pub step: Step,
    /// The state of A at the step's first tick.
    pub a: TickState,
    /// The state of B there.
    pub b: TickState,
}
