//! Own ship, and the plans for a manoeuvre.
use hull_domains::Shape;
use lattice::Lattice;
use predictions::Predictions;

/// Own ship, and the plans for a manoeuvre.
#[derive(Drop)]
pub struct OwnPart {
    /// Her MMSI.
    pub mmsi: u32,
    pub lattice: Lattice,
    /// The fixed part of her domain's radius, in metres, 0 to 100,000.
    pub base: u32,
    /// The number of her lengths to add to the radius, 0 to 100.
    pub lengths: u32,
    /// The distance within which a vessel is a target, in metres, 1 to 100,000.
    pub range: u32,
    /// The predictions of other vessels; until then they keep their courses and speeds of now.
    pub predict: Predictions,
    /// The domain of a vessel with a direction; it turns with the vessel. `None` if the domain is the circle.
    pub shape: Option<Shape>,
}
