//! The two vessels of a meeting.

/// An ordered pair of different vessels, by their MMSIs: the subject, whose duties are audited, and the other. Pairs are in
/// order by the subject, then by the other.
#[derive(Clone, Copy, Debug, PartialEq, Eq, PartialOrd, Ord)]
pub struct Pair {
    pub subject: u32,
    pub other: u32,
}
