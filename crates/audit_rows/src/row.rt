//! The rows of an audit.
ghost use Rattle.std.specs.Prelude.{◌≡◌};
ghost use Rattle.audit_rows.specs.Order.{sort_key_of};

use crate::sort_key::SortKey;
use crate::topic::Topic;
use meetings::Pair;
use sectors::Class;

/// One maximal stretch of a track, by its first and its last step.
#[derive(Clone, Copy, Debug, PartialEq, Eq)]
pub enum Row {
    /// The vessels are engaged at each step of the stretch, and at neither neighbour of it.
    Meeting {
        /// Whose meeting it is.
        pair: Pair,
        /// The kind of the engagement at the first step.
        kind: Class,
        /// The first step of the stretch.
        first: u32,
        /// The last.
        last: u32,
        /// The least distance of all its steps.
        least: u64,
    },
    /// A rule is broken at each step of the stretch, or its outcome is open at each, and it is not so at either neighbour.
    Verdict {
        /// The vessel whose duties are audited, and the other vessel.
        pair: Pair,
        /// The rule's index.
        rule: u32,
        /// Open, and not broken.
        undecided: bool,
        /// The first step of the stretch.
        first: u32,
        /// The last.
        last: u32,
    },
}

impl Row {
    /// Returns the sort key of the row.
    pub(crate) fn place(&self) -> SortKey
        ensures { result ≡ sort_key_of self.now }
    {
        match *self {
            Row::Meeting { pair, last, .. } => SortKey {
                last,
                topic: Topic::Meeting(pair),
            },
            Row::Verdict {
                pair,
                rule,
                last,
                ..
            } => SortKey {
                last,
                topic: Topic::Verdict(pair, rule),
            },
        }
    }
}
