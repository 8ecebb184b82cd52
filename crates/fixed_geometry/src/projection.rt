//! The projection of places on the Earth into the plane around a reference.
//!
//! Latitudes and longitudes are in ten thousandths of a minute, as ITU-R M.1371-5, Annex 8, section 3.1 gives them: a degree is
//! 600,000.
ghost use Rattle.std.specs.Prelude.{pos, ◌≡◌, ◌+◌, ◌≤◌, ◌*◌, ◌-ℤ◌, ◌*ℤ◌, ◌↔◌, IsSome, IfSome, unsigned_abs};
ghost use Rattle.fixed_geometry.specs.Compass.{cosine_of};
ghost use Rattle.fixed_geometry.specs.Projection.{IsInRegion, projection_of, east_of, tenths_of};
ghost use Rattle.fixed_geometry.specs.Sizes.{IsWithin};

use crate::compass::unit;
use crate::point::Point;
use crate::rounding::{difference, round_quotient, round_the_circle, scale};
use std::marker::Model;

/// The greatest distance of a point of the region from the reference in each component: 222,240 metres, in tenths of a
/// millimetre. This is the length of two degrees of latitude.
pub const REGION_SIZE: u64 = 2_222_400_000;

/// The place at the plane's origin, at most 75 degrees from the equator.
#[derive(Clone, Copy)]
pub struct Reference {
    latitude: i32,
    longitude: i32,
    /// The cosine of the latitude, in millionths. It is stored because each point needs it.
    cosine: i64,
}

impl Model for Reference {
    ghost use Rattle.std.specs.Prelude.{◌≡◌, ◌≤◌, unsigned_abs};
    ghost use Rattle.fixed_geometry.specs.Compass.{cosine_of};
    ghost use Rattle.fixed_geometry.specs.Place.{Place};
    ghost use Rattle.fixed_geometry.specs.Projection.{tenths_of};
    ghost use Rattle.fixed_geometry.specs.Inner.Places.{IsPlaceWithin};

    ghost Value = { Place };

    ghost view = { λ r. record { latitude = r.latitude; longitude = r.longitude } };

    ghost invariant = { λ r. IsPlaceWithin 45000000 108000000
        (record { latitude = r.latitude; longitude = r.longitude })
        × (r.cosine ≡ cosine_of (tenths_of r.latitude)) × (unsigned_abs r.cosine ≤ 1000000) };

    ghost inverse = { λ p.
        record {
          latitude = p.latitude;
          longitude = p.longitude;
          cosine = cosine_of
              (tenths_of p.latitude);
        } };
}

impl Reference {
    /// Returns a reference at a latitude and a longitude in ten thousandths of a minute, positive to the north and to
    /// the east. `None` beyond 75 degrees of latitude or 180 degrees of longitude.
    pub fn new(lat: i32, lon: i32) -> Option<Reference>
        ensures some { IsSome result
            ↔ (unsigned_abs lat ≤ 45000000 × unsigned_abs lon ≤ 108000000) }
        ensures value { IfSome result (λ r. r ≡ record { latitude = lat; longitude = lon }) }
    {
        if lat.unsigned_abs() > 45_000_000 || lon.unsigned_abs() > 108_000_000 {
            return None;
        }
        Some(Reference {
            latitude: lat,
            longitude: lon,
            cosine: latitude_cosine(lat),
        })
    }

    /// Returns the latitude of the origin, in ten thousandths of a minute, positive to the north.
    pub fn lat(&self) -> i32
        ensures value { result ≡ self.now.latitude }
        ensures small { unsigned_abs result ≤ 45000000 }
    {
        self.latitude
    }

    /// Returns the longitude of the origin, in ten thousandths of a minute, positive to the east.
    pub fn lon(&self) -> i32
        ensures value { result ≡ self.now.longitude }
        ensures small { unsigned_abs result ≤ 108000000 }
    {
        self.longitude
    }
}

/// Returns the length of an arc of latitude, whose minute is 1852 metres long.
fn length(arc: i64) -> i64
    requires { unsigned_abs arc ≤ 108000000 }
    ensures value { result ≡ arc *ℤ pos 1852 }
    ensures size { unsigned_abs result ≡ unsigned_abs arc * 1852 }
{
    arc * 1852
}

/// Returns the cosine of a latitude, to the nearest tenth of a degree, in millionths.
#[tactic(auto, unfolding(crate::specs::Rounding::rounded))]
fn latitude_cosine(latitude: i32) -> i64
    requires { unsigned_abs latitude ≤ 45000000 }
    ensures value { result ≡ cosine_of (tenths_of latitude) }
    ensures small { unsigned_abs result ≤ 1000000 }
{
    let tenths = (2 * latitude.unsigned_abs() + 60_000) / 120_000;
    unit(tenths as u16).y
}

/// Returns the distance of a longitude east of the reference, at the reference's latitude.
fn east(reference: Reference, lon: i32) -> i64
    requires { unsigned_abs lon ≤ 108000000 }
    ensures { result ≡ east_of reference.latitude reference.longitude lon }
{
    let arc = round_the_circle(difference(reference.longitude, lon), 108_000_000);
    round_quotient(scale(length(arc), reference.cosine), 1_000_000)
}

/// Returns the distance of a latitude north of the reference, as an arc.
fn north(reference: Reference, lat: i32) -> i64
    ensures value { result ≡ lat -ℤ reference.latitude }
    ensures small { unsigned_abs result ≤ unsigned_abs lat + 45000000 }
{
    difference(reference.latitude, lat)
}

/// Returns the point of a place, given by its latitude and its longitude in ten thousandths of a minute, at most 90 and
/// 180 degrees in size. `None` outside the region: more than 2 degrees of latitude, or 222,240 metres to the east or to
/// the west, from the reference.
#[inline(always)]
pub fn project(reference: Reference, lat: i32, lon: i32) -> Option<Point>
    requires lat { unsigned_abs lat ≤ 54000000 }
    requires lon { unsigned_abs lon ≤ 108000000 }
    ensures value { result ≡ projection_of reference.latitude reference.longitude lat lon }
    ensures region { IsSome result ↔ IsInRegion reference.latitude reference.longitude lat lon }
    ensures small { IfSome result (IsWithin REGION_SIZE) }
{
    let north = north(reference, lat);
    let x = east(reference, lon);
    if north.unsigned_abs() > 1_200_000 {
        return None;
    }
    if x.unsigned_abs() > REGION_SIZE {
        return None;
    }
    Some(Point {
        x,
        y: length(north),
    })
}
