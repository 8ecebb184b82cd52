//! A vessel under way.
use fixed_geometry::Point;

/// A vessel's point, her direction in tenths of a degree, and her speed in tenths of a knot.
#[derive(Clone, Copy)]
pub struct UnderWay {
    pub point: Point,
    pub direction: u16,
    pub speed: u16,
}
