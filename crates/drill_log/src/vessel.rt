//! The vessels of the drill, and their reports.
ghost use Rattle.std.specs.Prelude.{ℕ, pos, ◌≡◌, ◌+◌, ◌*◌, ◌<◌, ◌≤◌, ◌*ℤ◌, All, IfOk, map, unsigned_abs};
ghost use Rattle.std.specs.List.{range_with_len};
ghost use Rattle.ais_messages.specs.MessageFields.{IsReport};
ghost use Rattle.fixed_geometry.specs.Plane.{norm2_of};
ghost use Rattle.fixed_geometry.specs.Sizes.{IsWithin};
ghost use Rattle.drill_log.specs.DrillLog.{coordinate_after, root_of, speed_of, state_of};
ghost use Rattle.drill_log.specs.Inner.VesselFigures.{report_by, vessel_of, IsVessel};

use crate::numbers::DrawnNumbers;
use ais_messages::{PositionReport, place};
use fixed_geometry::{Point, Reference, bearing, isqrt, norm2};
use out_of_memory::Memory;
use std::alloc::Global;

/// The number of vessels.
pub(crate) const VESSELS: u32 = 40;

/// A vessel that keeps her course and speed. Arcs are in ten thousandths of a minute.
#[derive(Clone, Copy)]
pub(crate) struct Vessel {
    pub(crate) mmsi: u32,
    /// Her distance north of the reference at the start.
    pub(crate) north: i32,
    /// Her distance east of the reference at the start.
    pub(crate) east: i32,
    /// Her displacement in a minute.
    pub(crate) way: Point,
    /// In tenths of a knot.
    pub(crate) speed: u16,
    /// In tenths of a degree, if she moves.
    pub(crate) course: Option<u16>,
}

/// Returns the length of a displacement, rounded down.
fn length(way: Point) -> u64
    requires { IsWithin 1500 way }
    ensures value { result ≡ root_of (unsigned_abs (norm2_of way)) }
    ensures small { result ≤ 2121 }
{
    isqrt(norm2(way))
}

/// Returns the speed of a displacement per minute, in tenths of a knot: a minute of arc per hour is a knot.
fn speed(way: Point) -> u16
    requires { IsWithin 1500 way }
    ensures value { result ≡ speed_of way }
    ensures below { result < 1023 }
{
    (6 * length(way) / 100) as u16
}

fn product(minutes: u32, way: i64) -> i64
    requires minutes { minutes ≤ 20000 }
    requires way { unsigned_abs way ≤ 1500 }
    ensures { result ≡ pos minutes *ℤ way }
{
    i64::from(minutes) * way
}

/// Returns one component of the displacement in this many minutes.
fn gone(minutes: u32, way: i64) -> i64
    requires minutes { minutes ≤ 20000 }
    requires way { unsigned_abs way ≤ 1500 }
    ensures value { result ≡ pos minutes *ℤ way }
    ensures small { unsigned_abs result ≤ minutes * 1500 }
{
    product(minutes, way)
}

/// Returns a latitude or a longitude after this many minutes.
fn reached(reference: i32, start: i32, way: i64, minutes: u32) -> i32
    requires reference { unsigned_abs reference ≤ 108000000 }
    requires start { unsigned_abs start ≤ 20000 }
    requires way { unsigned_abs way ≤ 1500 }
    requires minutes { minutes ≤ 20000 }
    ensures { result ≡ coordinate_after reference start way minutes }
{
    (i64::from(reference) + i64::from(start) + gone(minutes, way)) as i32
}

impl Vessel {
    /// Returns the vessel with this MMSI, drawn with the next four numbers.
    fn draw(numbers: &mut DrawnNumbers, mmsi: u32) -> Vessel
        requires mmsi_from { 200000000 ≤ mmsi }
        requires mmsi_to { mmsi ≤ 799999999 }
        ensures state { (seed steps : ℕ) → numbers.old.state ≡ state_of seed steps
            → numbers.new.state ≡ state_of seed (steps + 4) }
        ensures figures { (seed vessel : ℕ) → numbers.old.state ≡ state_of seed (4 * vessel)
            → mmsi ≡ 200000001 + vessel → result ≡ vessel_of seed vessel }
        ensures ranges { IsVessel result }
    {
        let north = numbers.draw(20_000);
        let east = numbers.draw(20_000);
        let north_way = numbers.draw(1500);
        let east_way = numbers.draw(1500);
        let way = Point {
            x: i64::from(east_way),
            y: i64::from(north_way),
        };
        Vessel {
            mmsi,
            north,
            east,
            way,
            speed: speed(way),
            course: bearing(way),
        }
    }

    /// Returns her report this many minutes after tick 0.
    pub(crate) fn report(&self, reference: Reference, minutes: u32) -> PositionReport
        requires vessel { IsVessel self.now }
        requires minutes { minutes ≤ 20000 }
        ensures fields { result ≡ report_by self.now reference minutes }
        ensures ranges { IsReport result }
    {
        PositionReport {
            kind: 1,
            mmsi: self.mmsi,
            status: 0,
            place: place(
                reached(reference.lat(), self.north, self.way.y, minutes),
                reached(reference.lon(), self.east, self.way.x, minutes),
            ),
            sog: Some(self.speed),
            cog: self.course,
            heading: None,
            second: 0,
        }
    }
}

/// Returns the vessels of a seed.
pub(crate) fn vessels(alloc: Global, seed: u32) -> Result<Vec<Vessel>, Memory>
    requires { seed ≤ 999999 }
    ensures figures { IfOk result
        (λ vessels. vessels.items ≡ map (vessel_of seed) (range_with_len 0 40)) }
    ensures ranges { IfOk result (λ vessels. All IsVessel vessels.items) }
{
    let mut numbers = DrawnNumbers::new(seed);
    let mut vessels = Vec::with_capacity(alloc, VESSELS as usize)?;
    for number in 0..VESSELS {
        vessels.push(Vessel::draw(&mut numbers, 200_000_001 + number))?;
    }
    Ok(vessels)
}
