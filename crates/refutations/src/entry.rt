//! The entries of a refutation.
use crate::prefix::Prefix;
use closest_approach::Moment;

/// Why the plans that extend a prefix fail towards a target.
#[derive(Clone, Copy, PartialEq, Eq)]
pub enum Reason {
    /// At an instant of the step that begins at a tick own ship is inside the target's domain.
    Domain { step: u32, moment: Moment },
    /// The rule with an index is newly broken at the position of the step that begins at a tick.
    Rule { index: u32, step: u32 },
}

/// Every plan that extends the prefix fails towards the target, for the reason.
#[derive(Drop)]
pub struct WhyEntry {
    pub prefix: Prefix,
    /// The target's MMSI.
    pub target: u32,
    pub reason: Reason,
}

/// The result of a check of a list of entries.
#[derive(Clone, Copy, Debug, PartialEq, Eq)]
pub enum Checked {
    /// The list is right.
    Right,
    /// It is wrong; this is the least index of an entry that is not good, or has a block that does not begin at the end
    /// of the blocks before it; if there is no such entry, the number of entries.
    Bad(u32),
}
