//! The mark at one step of a track.
ghost use Rattle.std.specs.Prelude.{◌≡◌, ◌↔◌, IsTrue};
ghost use Rattle.audit_rows.specs.Inner.Sorts.{join, sort_of};

use sectors::Class;

/// The mark at one step of a track.
#[derive(Clone, Copy, Debug, PartialEq, Eq)]
pub enum Mark {
    /// Nothing to report.
    Nothing,
    /// The rule is broken there.
    Broken,
    /// The rule's outcome there is open.
    Undecided,
    /// The vessels are engaged.
    Engaged {
        /// The kind of the engagement.
        kind: Class,
        /// The least distance in the step.
        least: u64,
    },
}

impl Mark {
    /// Returns whether both, as neighbours, belong to the same stretch.
    #[inline(always)]
    pub(crate) fn is_like(self, other: Mark) -> bool
        ensures { IsTrue result ↔ (sort_of self ≡ sort_of other) }
    {
        match (self, other) {
            (Mark::Nothing, Mark::Nothing) => true,
            (Mark::Broken, Mark::Broken) => true,
            (Mark::Undecided, Mark::Undecided) => true,
            (Mark::Engaged { .. }, Mark::Engaged { .. }) => true,
            _ => false,
        }
    }

    /// Returns both as one mark: the kind of the first, and the smaller distance.
    #[inline(always)]
    pub(crate) fn join(self, next: Mark) -> Mark
        ensures { result ≡ join self next }
    {
        match (self, next) {
            (Mark::Engaged { kind, least }, Mark::Engaged { least: other, .. }) => Mark::Engaged {
                kind,
                least: least.min(other),
            },
            _ => self,
        }
    }
}
