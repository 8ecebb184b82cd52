//! The duties of two vessels by rank.

/// The duties of a pair (A, B) by the vessels' ranks (Rule 18) at the start of their engagement.
#[derive(Clone, Copy, PartialEq, Eq)]
pub struct ByRank {
    /// A gives way to B by rank.
    pub gives: bool,
    /// B gives way to A by rank.
    pub stands: bool,
    /// Both are power-driven.
    pub both_power: bool,
}

/// The duties of two power-driven vessels.
pub const BOTH_POWER_DRIVEN: ByRank = ByRank {
    gives: false,
    stands: false,
    both_power: true,
};
