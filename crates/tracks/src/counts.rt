//! The counts of a vessel's reports.
ghost use Rattle.std.specs.Prelude.{◌≡◌};
ghost use Rattle.tracks.specs.Inner.Keeping.{counts_more};

/// The number of a vessel's accepted reports, and the number of legs that join them. Counts saturate at 2^64 - 1.
#[derive(Clone, Copy, Debug, PartialEq, Eq)]
pub struct Counts {
    /// Her accepted reports, including forgotten ones.
    pub reports: u64,
    /// The legs between them.
    pub legs: u64,
}

impl Counts {
    /// Returns the counts with one more report, which is joined to the previous one or not.
    pub(crate) fn more(self, joined: bool) -> Counts
        ensures { result ≡ counts_more self joined }
    {
        Counts {
            reports: self.reports.saturating_add(1),
            legs: if joined {
                self.legs.saturating_add(1)
            } else {
                self.legs
            },
        }
    }
}
