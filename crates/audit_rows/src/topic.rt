//! The topics of rows.
use meetings::Pair;

/// The topic of a track's marks and rows. Meetings come before verdicts; then the order is by the subject, by the
/// other, and by the rule.
#[derive(Clone, Copy, Debug, PartialEq, Eq, PartialOrd, Ord)]
pub enum Topic {
    /// The meeting of an ordered pair.
    Meeting(Pair),
    /// The outcome of a rule, by its index, for an ordered pair.
    Verdict(Pair, u32),
}
