//! The next step of a trace, with its row of atoms.
use encounters::{EngagementState, PairStep};
use meetings::AtomRow;

/// The next step of a trace.
#[derive(Clone, Copy)]
pub struct NextRow<'a> {
    /// The step: `None` if either vessel is not seen at either tick.
    pub seen: Option<&'a PairStep>,
    /// The values of the atoms at it.
    pub row: &'a AtomRow,
    /// The state of the engagement before the step.
    pub was: &'a EngagementState,
    /// The state at it.
    pub is: &'a EngagementState,
}
