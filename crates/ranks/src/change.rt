//! A change of a vessel's rank by ship type.
use crate::rank::Rank;

/// From this time to her next change, the vessel's ship type gives her this rank. Before the first change she is
/// `Power`.
#[derive(Clone, Copy, Debug, PartialEq, Eq)]
pub struct Change {
    /// In seconds since the Unix epoch.
    pub time: u64,
    /// Her rank if her status leaves it to the type.
    pub rank: Rank,
}
