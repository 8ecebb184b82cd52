//! An accepted report.
use ais_messages::PositionReport;
use fixed_geometry::Point;

/// An accepted report of a vessel, with its time and its point of the plane.
#[derive(Clone, Copy, Debug, PartialEq, Eq)]
pub struct Accepted {
    /// In seconds since the Unix epoch.
    pub time: u64,
    /// In tenths of a millimetre, at most 2,222,400,000 in each component.
    pub point: Point,
    /// Her report.
    pub report: PositionReport,
}
