//! The angles that measure the terms of the Rules.

/// The limits of the Rules' terms, in tenths of a degree.
#[derive(Clone, Copy, Debug, PartialEq, Eq)]
pub struct Angles {
    /// The angle of doubt: how far forward of 22.5 degrees abaft the beam a vessel still counts as overtaking, at most
    /// 1124. A vessel in doubt whether she is overtaking assumes that she is (Rule 13 (c)).
    pub doubt: u16,
    /// The greatest angle from right ahead that is "ahead or nearly ahead" (Rule 14 (b)), at most 900 in a scenario.
    pub ahead: u16,
    /// The greatest angle from reciprocal that is "nearly reciprocal" (Rule 14 (a)), at most 900 in a scenario.
    pub reciprocal: u16,
}
