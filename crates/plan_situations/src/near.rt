//! The vessels near own ship.
ghost use Rattle.std.specs.Prelude.{ℕ, ◌≡◌, ◌≤◌, ◌+◌, ◌*◌, ◌^◌, List, IfOk, IfSome, Some, All};
ghost use Rattle.std.specs.Option.{option_copied};
ghost use Rattle.fixed_geometry.specs.Sizes.{IsWithin};
ghost use Rattle.tracks.specs.AcceptedReports.{JudgingNumbers};
ghost use Rattle.tracks.specs.Standing.{IsAccepted, StandsFor};
ghost use Rattle.tracks.specs.VesselsHeld.{Sent};
ghost use Rattle.tracks.specs.declared.keeping.Keeping.TheVariants.{Tracks};
ghost use Rattle.plan_situations.specs.NearVessels.{is_within, near_by, near_of, point_now};
ghost use Rattle.plan_situations.specs.Inner.Facts.{IsFresh, IsNear};

use crate::prediction::predicted;
use crate::readiness::is_fresh;
use fixed_geometry::{Point, within};
use out_of_memory::Memory;
use std::alloc::Global;
use tracks::{Accepted, Book};

/// A vessel near own ship.
#[derive(Clone, Copy, PartialEq, Eq)]
pub struct Near {
    /// Her MMSI.
    pub mmsi: u32,
    /// Her latest accepted report.
    pub latest: Accepted,
}

/// Where a vessel is predicted to be at now, by a fresh report.
pub(crate) fn point_now(now: u64, latest: &Accepted) -> Point
    requires accepted { IsAccepted latest.now }
    requires fresh { IsFresh now latest.now }
    requires early { now ≤ 100000000000 }
    ensures value { result ≡ point_now now latest.now }
    ensures near { IsWithin (2222400000 + 3600 * 525763) result }
{
    predicted(latest, &[], now, now).point
}

/// Returns whether two points lie at most so far apart.
fn is_within(range: u64, a: Point, b: Point) -> bool
    requires a { IsWithin 7900640400 a }
    requires b { IsWithin 7900640400 b }
    ensures { result ≡ is_within range a b }
{
    within(a, b, range)
}

/// Around which point, how far, and when vessels are near.
#[derive(Clone, Copy)]
pub(crate) struct Circle {
    /// In seconds since the Unix epoch.
    pub(crate) time: u64,
    pub(crate) point: Point,
    /// In tenths of a millimetre.
    pub(crate) range: u64,
}

impl Circle {
    /// Returns the latest accepted report of a vessel, if she is near.
    fn near_by(&self, gap: u32, mmsi: u32, latest: Option<&Accepted>) -> Option<Near>
        requires gap { gap ≤ 3600 }
        requires early { self.now.time ≤ 100000000000 }
        requires range { self.now.range ≤ 1000000000 }
        requires point { IsWithin 7900640400 self.now.point }
        requires accepted { IfSome (option_copied latest) IsAccepted }
        ensures value { result
            ≡ near_by gap self.now.time self.now.range self.now.point mmsi
            (option_copied latest.entry) }
        ensures fresh { IfSome result
            (λ near. (near.mmsi ≡ mmsi) × (option_copied latest.entry ≡ Some near.latest)
            × IsAccepted near.latest × IsFresh self.now.time near.latest) }
    {
        let latest = latest?;
        if !is_fresh(gap, self.time, latest) {
            return None;
        }
        if !is_within(self.range, self.point, point_now(self.time, latest)) {
            return None;
        }
        Some(Near {
            mmsi,
            latest: *latest,
        })
    }

    /// Returns the vessels that are near, in the order of their MMSIs.
    pub(crate) fn vessels(&self, alloc: Global, gap: u32, book: &Book) -> Result<Vec<Near>, Memory>
        requires gap { gap ≤ 3600 }
        requires early { self.now.time ≤ 100000000000 }
        requires range { self.now.range ≤ 1000000000 }
        requires point { IsWithin 7900640400 self.now.point }
        requires keeping { book.now.keeping ≡ Tracks }
        requires same_gap { book.now.numbers.gap ≡ gap }
        ensures near { IfOk result
            (λ near. (numbers : JudgingNumbers) (messages : List Sent)
            → StandsFor book.now numbers messages
            → near.items ≡ near_of numbers messages self.now.time self.now.range self.now.point) }
        ensures each { IfOk result (λ near. All (IsNear self.now.time book.now) near.items) }
    {
        let mut near = Vec::new(alloc);
        for k in 0..book.vessels() {
            let mmsi = book.vessel(k);
            if let Some(vessel) = self.near_by(gap, mmsi, book.latest(mmsi)) {
                near.push(vessel)?;
            }
        }
        Ok(near)
    }
}
