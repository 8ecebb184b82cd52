//! Whether own ship is inside a target's shape at some instant of a step.
ghost use Rattle.std.specs.Prelude.{ℕ, ℤ, pos, ◌≡◌, ◌+◌, ◌^◌, ◌≤◌, ◌<◌, ◌↔◌, ◌+ℤ◌, ◌*ℤ◌, ◌<ℤ◌, ◌≤ℤ◌, IsNone, IfSome, IsTrue, unsigned_abs};
ghost use Rattle.closest_approach.specs.Separation.{IsSeparated};
ghost use Rattle.fixed_geometry.specs.Compass.{unit_of};
ghost use Rattle.fixed_geometry.specs.Sizes.{IsWithin};
ghost use Rattle.hull_domains.specs.Crossings.{mediant, entry_moment, side_of};
ghost use Rattle.hull_domains.specs.Domains.{IsInside, StaysOutside};
ghost use Rattle.hull_domains.specs.Inner.EdgeSides.{IsBound, IsLow};
ghost use Rattle.motion.specs.Steps.{RelativeMove};

use crate::shape::Shape;
use crate::sides::{Fraction, Side, earlier, is_less, later, side_beside, times};
use closest_approach::{Moment, separated};
use fixed_geometry::{Point, unit};
use motion::Step;

/// On which side of an edge of a shape own ship is, if the target heads `ahead`.
fn side_of(step: &Step, ahead: Point, shape: &Shape, k: usize) -> Side
    requires ahead { IsWithin 1000000 ahead }
    requires k { k < 6 }
    ensures value { (direction : ℕ) → direction < 3600 → ahead ≡ unit_of direction
        → result ≡ side_of step.now direction shape.now k }
    ensures low { IsLow result }
{
    side_beside(step, ahead, shape.edge(k))
}

/// Returns whether own ship is outside an edge all the time, beside which she moves.
fn stays_outside(side: Side) -> bool
    ensures { IsTrue result ↔ ((side.change ≡ pos 0) × (pos 0 ≤ℤ side.start)) }
{
    side.change == 0 && side.start >= 0
}

/// Returns the moment between two times.
fn mediant(from: Fraction, to: Fraction) -> Moment
    requires from { IsBound from }
    requires to { IsBound to }
    requires small { unsigned_abs (from.over +ℤ to.over) < 2 ^ 64 }
    ensures value { result ≡ mediant from to }
    ensures small { result.b < 2 ^ 60 }
{
    Moment {
        a: (from.over + to.over).unsigned_abs() as u64,
        b: from.under + to.under,
    }
}

/// Returns whether the distance along an axis is at least so much all the time: at the beginning it is more than that
/// by the whole change.
fn keeps_off(p: i64, w: i64, radius: u64) -> bool
    requires p { unsigned_abs p ≤ 2 ^ 34 }
    requires w { unsigned_abs w ≤ 2 ^ 26 }
    requires radius { radius < 2 ^ 31 }
    ensures { IsTrue result ↔ (radius + unsigned_abs w ≤ unsigned_abs p) }
{
    radius + w.unsigned_abs() <= p.unsigned_abs()
}

/// Returns whether the distance along one of the axes is at least so much all the time, in tenths of a millimetre.
#[tactic(auto, using(crate::proofs::Far::separated_along, crate::proofs::Far::separated_across))]
fn keeps_off_by_an_axis(step: &Step, radius: u64) -> bool
    requires { radius < 2 ^ 31 }
    ensures { IsTrue result → IsSeparated step.now radius }
{
    let (p, w) = (step.p(), step.w());
    keeps_off(p.x, w.x, radius) || keeps_off(p.y, w.y, radius)
}

/// Returns whether a step is separated by a radius in tenths of a millimetre. If it keeps off along an axis, that is
/// seen at once.
fn is_separated(step: &Step, radius: u64) -> bool
    requires { radius < 2 ^ 31 }
    ensures { IsTrue result ↔ IsSeparated step.now radius }
{
    if keeps_off_by_an_axis(step, radius) {
        return true;
    }
    separated(step, radius)
}

/// Returns the radius of a circle in which the whole shape lies, whatever the direction, in tenths of a millimetre.
pub fn radius_about(shape: &Shape) -> u64
    ensures small { result < 2 ^ 31 }
    ensures outside { (step : RelativeMove) → IsSeparated step result → (direction : ℕ)
        → direction < 3600 → StaysOutside step direction shape.now }
{
    10_000 * (u64::from(shape.longest_way()) + 2)
}

/// Returns whether own ship keeps off the whole shape along one of the axes, whatever the direction. This decides most
/// steps of a search at once; for the others [`enters`] decides.
#[inline(always)]
pub fn keeps_clear(step: &Step, shape: &Shape) -> bool
    ensures { IsTrue result → (direction : ℕ) → direction < 3600
        → StaysOutside step.now direction shape.now }
{
    keeps_off_by_an_axis(step, radius_about(shape))
}

/// Returns a moment of the step at which own ship is inside the shape of a target that heads in this direction, tenths
/// of a degree below 3600; `None` if there is none. It lies between the latest crossing inwards, or the beginning, and
/// the first one outwards, or the end: `(c1 + c2) / (d1 + d2)`, not reduced.
pub fn enters(step: &Step, direction: u16, shape: &Shape) -> Option<Moment>
    requires { direction < 3600 }
    ensures none { IsNone result ↔ StaysOutside step.now direction shape.now }
    ensures moment { IfSome result (λ moment. moment ≡ entry_moment step.now direction shape.now) }
    ensures instant { IfSome result
        (λ moment. (moment.a ≤ moment.b) × (0 < moment.b) × (moment.b < 2 ^ 60)) }
    ensures inside { IfSome result
        (λ moment. IsInside step.now direction shape.now moment.a moment.b) }
{
    // The circle takes a fraction of the time that the edges take.
    if is_separated(step, radius_about(shape)) {
        return None;
    }
    let ahead = unit(direction);
    let mut from = Fraction { over: 0, under: 1 };
    let mut to = Fraction { over: 1, under: 1 };
    for k in 0..6 {
        let side = side_of(step, ahead, shape, k);
        if stays_outside(side) {
            return None;
        }
        from = later(from, side);
        to = earlier(to, side);
    }
    if is_less(from, to) {
        Some(mediant(from, to))
    } else {
        None
    }
}

fn sum(a: i128, b: i128) -> i128
    requires a_small { unsigned_abs a ≤ 161500000000000000000000000000000000000 }
    requires b_small { unsigned_abs b ≤ 2 ^ 120 }
    ensures { result ≡ a +ℤ b }
{
    a + b
}

/// Returns whether own ship is inside an edge at a moment.
fn is_inside(side: Side, moment: Moment) -> bool
    requires side { IsLow side }
    requires a { moment.a ≤ moment.b }
    requires b { moment.b < 2 ^ 60 }
    ensures { IsTrue result
        ↔ ((pos moment.b *ℤ side.start +ℤ pos moment.a *ℤ side.change) <ℤ pos 0) }
{
    sum(times(side.start, moment.b), times(side.change, moment.a)) < 0
}

/// Returns whether own ship is inside the shape at a moment of the step. The target heads in this direction, tenths of
/// a degree below 3600.
pub fn inside(step: &Step, direction: u16, shape: &Shape, moment: &Moment) -> bool
    requires direction { direction < 3600 }
    requires a { moment.now.a ≤ moment.now.b }
    requires some { 0 < moment.now.b }
    requires b { moment.now.b < 2 ^ 60 }
    ensures { IsTrue result ↔ IsInside step.now direction shape.now moment.now.a moment.now.b }
{
    let ahead = unit(direction);
    for k in 0..6 {
        if !is_inside(side_of(step, ahead, shape, k), *moment) {
            return false;
        }
    }
    true
}
