//! The state of two vessels at a step: engaged or apart.
use motion::TickState;
use sectors::Class;

/// The state of an ordered pair (A, B) at a step.
#[derive(Clone, Copy, Debug, PartialEq, Eq)]
pub enum EngagementState {
    /// They are not engaged.
    Apart,
    /// They are engaged.
    Engaged {
        /// The class at the engagement's beginning.
        kind: Class,
        /// The number of steps since the beginning, 0 at the beginning itself.
        age: u32,
        /// The state of A at the beginning.
        a: TickState,
        /// The state of B at the beginning.
        b: TickState,
    },
}
