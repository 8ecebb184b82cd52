//! One leg, and the state of a vessel on it.
ghost use Rattle.std.specs.Prelude.{pos, ◌≡◌, ◌+◌, ◌*◌, ◌-◌, ◌<◌, ◌≤◌, ◌^◌, ◌*ℤ◌, unsigned_abs};
ghost use Rattle.fixed_geometry.specs.declared.projection.TheConstants.{REGION_SIZE};
ghost use Rattle.motion.specs.Between.{between};
ghost use Rattle.motion.specs.TickStates.{state_on, holds, IsLeg, IsTickState};

use fixed_geometry::{Point, round_quotient};

/// The greatest distance of a predicted or planned vessel from the origin in each component: the region plus three
/// hours at the greatest velocity.
pub const FARTHEST: u64 = 7_900_640_400;

/// A vessel's point at a time, and her last reported direction and speed.
#[derive(Clone, Copy, Debug, PartialEq, Eq)]
pub struct TickState {
    /// In tenths of a millimetre. A vessel seen on her legs is at most `REGION_SIZE` from the origin in each component,
    /// a predicted or planned one at most `FARTHEST`.
    pub point: Point,
    /// Tenths of a degree clockwise from north, below 3600.
    pub direction: Option<u16>,
    /// Tenths of a knot, at most 1022.
    pub speed: Option<u16>,
}

/// The straight track of a vessel from one report of hers to the next, an hour later at most. Times are seconds since the
/// Unix epoch, points in tenths of a millimetre, at most `REGION_SIZE` in each component.
#[derive(Clone, Copy, PartialEq, Eq)]
pub struct Leg {
    /// The time and the point at which the leg begins.
    pub t1: u64,
    pub p1: Point,
    /// The time and the point at which it ends.
    pub t2: u64,
    pub p2: Point,
    /// Her direction by the report at `t1`: tenths of a degree clockwise from north, below 3600.
    pub direction: Option<u16>,
    /// Her speed by the report at `t1`: tenths of a knot, at most 1022.
    pub speed: Option<u16>,
}

fn scale(length: i64, factor: u64) -> i64
    requires length_small { unsigned_abs length ≤ 2 ^ 33 }
    requires factor_small { factor ≤ 3600 }
    ensures value { result ≡ length *ℤ pos factor }
    ensures small { unsigned_abs result ≤ 2 ^ 33 * 3600 }
{
    length * factor as i64
}

/// Returns one component of the point after `since` of the leg's `whole` seconds.
fn between(from: i64, to: i64, since: u64, whole: u64) -> i64
    requires from_small { unsigned_abs from ≤ REGION_SIZE }
    requires to_small { unsigned_abs to ≤ REGION_SIZE }
    requires some { 0 < whole }
    requires short { whole ≤ 3600 }
    requires part { since ≤ whole }
    ensures value { result ≡ between from to since whole }
    ensures small { unsigned_abs result ≤ REGION_SIZE }
{
    from + round_quotient(scale(to - from, since), whole as u32)
}

impl Leg {
    /// Returns whether the leg contains the time, its two ends included.
    pub(crate) fn holds(&self, time: u64) -> bool
        ensures { result ≡ holds time self.now }
    {
        self.t1 <= time && time <= self.t2
    }

    /// Returns the vessel's state at a time within the leg.
    pub(crate) fn state(&self, time: u64) -> TickState
        requires leg { IsLeg self.now }
        requires begun { self.now.t1 ≤ time }
        requires not_over { time ≤ self.now.t2 }
        ensures value { result ≡ state_on time self.now }
        ensures state { IsTickState REGION_SIZE result }
    {
        let since = time - self.t1;
        let whole = self.t2 - self.t1;
        TickState {
            point: Point {
                x: between(self.p1.x, self.p2.x, since, whole),
                y: between(self.p1.y, self.p2.y, since, whole),
            },
            direction: self.direction,
            speed: self.speed,
        }
    }
}
