//! The numbers for judging reports.
use fixed_geometry::Reference;
use std::marker::Model;

/// The reference of the plane, the gap in seconds, and the greatest speed in tenths of a knot.
#[derive(Drop)]
pub(crate) struct GivenNumbers {
    pub(crate) reference: Reference,
    pub(crate) gap: u32,
    pub(crate) max_speed: u16,
}

impl Model for GivenNumbers {
    ghost use Rattle.tracks.specs.AcceptedReports as reports;

    ghost Value = { reports.JudgingNumbers };

    ghost view = { λ n. record { reference = n.reference; gap = n.gap; max_speed = n.max_speed } };
}
