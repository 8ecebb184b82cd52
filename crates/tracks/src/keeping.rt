//! The data that a book stores.
ghost use Rattle.std.specs.Prelude.{◌≡◌, MatchOption};
ghost use Rattle.tracks.specs.Standing.{forgetting};
ghost use Rattle.tracks.specs.declared.keeping.Keeping.TheVariants.{Since};

/// The part of a vessel's accepted reports that a book stores.
#[derive(Clone, Copy, PartialEq, Eq)]
pub enum Keeping {
    /// Only the latest, without legs.
    Latest,
    /// All, and the legs between them.
    Tracks,
    /// Those from the last one before this time, and the legs between them. The time is in seconds since the Unix
    /// epoch.
    Since(u64),
}

impl Keeping {
    /// Returns the time from which tracks are stored after forgetting those before `time`; `None` if no tracks are
    /// stored.
    pub(crate) fn since(self, time: u64) -> Option<u64>
        ensures { MatchOption result (forgetting self time ≡ self)
            (λ earliest. forgetting self time ≡ Since earliest) }
    {
        match self {
            Keeping::Latest => None,
            Keeping::Tracks => Some(time),
            Keeping::Since(earliest) => Some(earliest.max(time)),
        }
    }
}
