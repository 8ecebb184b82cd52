//! The numbers of a track's marks by kind, and of its stretches of broken marks.
ghost use Rattle.std.specs.Prelude.{◌≡◌};
ghost use Rattle.audit_rows.specs.Inner.Lanes.{no_counts, with_more};

use crate::mark::Mark;

/// The numbers of a track's marks, of its marks by kind for a rule's track, and of its stretches of broken marks.
#[derive(Clone, Copy, Debug, PartialEq, Eq)]
pub struct MarkCounts {
    /// All marks.
    pub all: u32,
    /// Those with nothing to report.
    pub nothing: u32,
    /// Those at which the rule is broken.
    pub broken: u32,
    /// Those at which the rule's outcome is open.
    pub undecided: u32,
    /// The maximal stretches of broken marks.
    pub runs: u32,
}

impl MarkCounts {
    /// Returns the counts of no marks.
    pub(crate) fn none() -> MarkCounts
        ensures { result ≡ no_counts }
    {
        MarkCounts {
            all: 0,
            nothing: 0,
            broken: 0,
            undecided: 0,
            runs: 0,
        }
    }

    /// Returns the counts with one more stretch of this many marks, all of this mark's kind. Counts saturate at the
    /// maximum of their type.
    pub(crate) fn with(self, mark: Mark, many: u32) -> MarkCounts
        ensures { result ≡ with_more self mark many }
    {
        let mut counts = self;
        counts.all = counts.all.saturating_add(many);
        match mark {
            Mark::Nothing => counts.nothing = counts.nothing.saturating_add(many),
            Mark::Broken => {
                counts.broken = counts.broken.saturating_add(many);
                counts.runs = counts.runs.saturating_add(1);
            }
            Mark::Undecided => counts.undecided = counts.undecided.saturating_add(many),
            Mark::Engaged { .. } => {}
        }
        counts
    }
}
