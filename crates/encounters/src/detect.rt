//! The numbers that define encounters.
use sectors::Angles;

/// The limits for risk of collision, and for past and clear.
#[derive(Clone, Copy, Debug, PartialEq, Eq)]
pub struct Detect {
    /// The greatest distance of a watched vessel: tenths of a millimetre, at most 10^9.
    pub watch: u64,
    /// A distance below this is a risk: tenths of a millimetre, at most 10^9.
    pub risk: u64,
    /// The least distance that is clear: tenths of a millimetre, at most 10^9.
    pub clear: u64,
    /// The look-ahead for risk, if both keep course and speed: ticks, at most 7200.
    pub horizon: u32,
    /// The angles of the classes.
    pub angles: Angles,
}
