//! The total of a rule over all traces.
ghost use Rattle.std.specs.Prelude.{◌≡◌};
ghost use Rattle.auditor.specs.Inner.TrackCounts.{with_counts};

use audit_rows::MarkCounts;

/// The number of positions of all traces, their numbers by the value of a rule's formula, and the number of broken
/// stretches.
#[derive(Clone, Copy, Debug, Default, PartialEq, Eq)]
pub struct Total {
    /// The positions of all traces.
    pub positions: u64,
    /// The positions at which the rule is kept.
    pub yes: u64,
    /// The positions at which it is broken.
    pub no: u64,
    /// The positions at which the trace ends before it is decided.
    pub undecided: u64,
    /// The maximal stretches of broken positions.
    pub runs: u64,
}

impl Total {
    /// Counts a track of the rule. Counts saturate at the maximum of their type.
    pub(crate) fn take(&mut self, counts: MarkCounts)
        ensures { self.new ≡ with_counts counts self.old }
    {
        self.positions = self.positions.saturating_add(u64::from(counts.all));
        self.yes = self.yes.saturating_add(u64::from(counts.nothing));
        self.no = self.no.saturating_add(u64::from(counts.broken));
        self.undecided = self.undecided.saturating_add(u64::from(counts.undecided));
        self.runs = self.runs.saturating_add(u64::from(counts.runs));
    }
}
