//! The numbers of the rules.

/// The distance at which vessels pass safely, in metres, 0 to 100,000 (COLREGs Rule 8(d)).
#[derive(Clone, Copy, PartialEq, Eq)]
pub enum Safe {
    /// One for all encounters.
    One(u32),
    /// One for each kind of encounter.
    PerKind {
        /// Meeting head-on.
        head_on: u32,
        /// Overtaking and being overtaken.
        overtaking: u32,
        /// Crossing, giving way and standing on.
        crossing: u32,
        /// Passing, and encounters of no other kind.
        other: u32,
    },
}

/// The numbers of the rules: metres, 0 to 100,000, and seconds, 0 to 7200 and multiples of the tick.
#[derive(Clone, Copy, PartialEq, Eq)]
pub struct RuleNumbers {
    /// The distance at which vessels pass safely (Rule 8(d)).
    pub safe: Safe,
    /// The distance at which an overtaking vessel keeps out of the way, in metres (Rule 13).
    pub overtake: u32,
    /// Nearer than this, in metres, the vessels are in extremis: the vessel that gives way may be unable to avoid the
    /// collision alone (Rule 17(b)).
    pub close: u32,
    /// The time within which an alteration must be readily apparent, in seconds (Rule 8(b)).
    pub t8: u32,
    /// The time within which a vessel must act, in seconds (Rules 14 and 16).
    pub ta: u32,
    /// The time within which the vessel that stands on must act in extremis, in seconds (Rule 17(b)).
    pub tl: u32,
    /// The time for which the vessel that stands on waits for the other to act, in seconds (Rule 17(a)(ii)).
    pub tw: u32,
    /// The time for which the vessel that stands on stays free to act, in seconds (Rule 17(a)(ii)).
    pub te: u32,
}
