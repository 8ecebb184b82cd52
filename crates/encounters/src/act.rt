//! The numbers that define alterations.

/// The limits for keeping course and speed (Rule 17), and for a readily apparent alteration (Rule 8 (b)).
#[derive(Clone, Copy, Debug, PartialEq, Eq)]
pub struct Act {
    /// The greatest turn of a vessel that keeps her course: tenths of a degree, at most 1800 in a scenario.
    pub steady_turn: u16,
    /// The least turn that is readily apparent: tenths of a degree, 1 to 1800 in a scenario.
    pub apparent_turn: u16,
    /// The greatest change of a vessel that keeps her speed: tenths of a knot, at most 1022 in a scenario.
    pub steady_speed: u16,
    /// The least change of speed that is readily apparent: tenths of a knot, 1 to 1022 in a scenario.
    pub apparent_speed: u16,
}
