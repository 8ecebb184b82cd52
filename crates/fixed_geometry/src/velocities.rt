//! Velocities in the plane.
ghost use Rattle.std.specs.Prelude.{pos, ◌≡◌, ◌≤◌, ◌<◌, ◌*ℤ◌, unsigned_abs};
ghost use Rattle.fixed_geometry.specs.Rounding.{rounded};
ghost use Rattle.fixed_geometry.specs.Sizes.{IsWithin};
ghost use Rattle.fixed_geometry.specs.Velocity.{velocity_of};

use crate::compass::unit;
use crate::point::Point;
use crate::rounding::{round_quotient, scale};

/// The greatest component of a velocity, in tenths of a millimetre per second: 102.2 knots are 525,762.2.
pub const GREATEST_VELOCITY: u64 = 525_763;

/// Returns one component: a speed times a sine or a cosine. A tenth of a knot is 463 / 0.9 tenths of a millimetre per
/// second.
#[tactic(auto, unfolding(crate::specs::Rounding::rounded))]
fn component(speed: u16, millionths: i64) -> i64
    requires speed_small { speed ≤ 1022 }
    requires millionths_small { unsigned_abs millionths ≤ 1000000 }
    ensures value { result ≡ rounded (pos speed *ℤ millionths *ℤ pos 463) 900000 }
    ensures small { unsigned_abs result ≤ GREATEST_VELOCITY }
{
    round_quotient(463 * scale(i64::from(speed), millionths), 900_000)
}

/// Returns the velocity of a course in tenths of a degree, below 3600, and a speed in tenths of a knot, at most 1022,
/// the units of ITU-R M.1371-5, Annex 8, section 3.1: the displacement in a second, in tenths of a millimetre.
#[tactic(auto, unfolding(crate::specs::Velocity::velocity_of))]
pub fn velocity(course: u16, speed: u16) -> Point
    requires course { course < 3600 }
    requires speed { speed ≤ 1022 }
    ensures value { result ≡ velocity_of course speed }
    ensures small { IsWithin GREATEST_VELOCITY result }
{
    let direction = unit(course);
    Point {
        x: component(speed, direction.x),
        y: component(speed, direction.y),
    }
}
