//! The rest of the log of the drill, and its state.
ghost use Rattle.std.specs.Prelude.{◌≤◌, All};
ghost use Rattle.std.proofs.Props.{props};
ghost use Rattle.drill_log.specs.Inner.VesselFigures.{IsVessel};

use crate::vessel::Vessel;
use fixed_geometry::Reference;
use outside::PlainSource;
use std::alloc::Global;

/// The log of a drill, which makes the lines of a few minutes at a time.
#[derive(Drop)]
pub(crate) struct MinuteLog {
    pub(crate) alloc: Global,
    pub(crate) vessels: Vec<Vessel>,
    pub(crate) reference: Reference,
    pub(crate) start: u64,
    /// The number of reports of each vessel, one per minute.
    pub(crate) reports: u32,
    /// The number of reports made so far.
    pub(crate) made: u32,
    /// The lines made last.
    pub(crate) block: PlainSource,
    /// The number of times that memory ran out; it saturates.
    pub(crate) faults: u64,
    ghost figures: { All IsVessel vessels.items } by { Prim.hlevel props },
    ghost begun: { start ≤ 9999999999 },
    ghost within: { made ≤ reports },
    ghost few: { reports ≤ 20001 },
}
