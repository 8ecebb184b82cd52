//! The instant of least distance, and the square of the distance then.
ghost use Rattle.std.specs.Prelude.{ℕ, pos, ◌≡◌, ◌+◌, ◌*◌, ◌<◌, ◌≤◌, ◌^◌, ◌+ℤ◌, ◌*ℤ◌, unsigned_abs};
ghost use Rattle.fixed_geometry.specs.Plane.{dot_of, norm2_of, turn_of};
ghost use Rattle.closest_approach.specs.Inner.LongSteps.{IsSeparatedFor};
ghost use Rattle.closest_approach.specs.Separation.{displacement_at, nearest_of, IsNearer};

use fixed_geometry::{Point, dot, norm2, turn};
use motion::Step;

/// An instant of a step: `a / b` of a tick after its beginning, from 0 to 1.
#[derive(Clone, Copy, Debug, PartialEq, Eq)]
pub struct Moment {
    /// The elapsed parts of the tick.
    pub a: u64,
    /// The number of parts of a tick, above 0.
    pub b: u64,
}

/// The square of a distance: `over / under`.
#[derive(Clone, Copy)]
pub(crate) struct SquaredDistance {
    pub(crate) over: u128,
    pub(crate) under: u128,
}

/// Returns the dot product of the displacement and its change: below 0 if the vessels close.
fn along(step: &Step) -> i128
    ensures value { result ≡ dot_of step.now.p step.now.w }
    ensures small { unsigned_abs result ≤ 2 ^ 61 }
{
    dot(step.p(), step.w())
}

/// Returns the size of their cross product.
fn aside(step: &Step) -> u128
    ensures value { result ≡ unsigned_abs (turn_of step.now.p step.now.w) }
    ensures small { result ≤ 2 ^ 61 }
{
    turn(step.p(), step.w()).unsigned_abs()
}

/// Returns the square of the change.
fn length2(step: &Step) -> u128
    ensures value { pos result ≡ norm2_of step.now.w }
    ensures small { result ≤ 2 ^ 53 }
{
    norm2(step.w())
}

/// Returns one component of the displacement after whole ticks.
fn component(p: i64, w: i64, ticks: u64) -> i64
    requires p_small { unsigned_abs p ≤ 2 ^ 34 }
    requires w_small { unsigned_abs w ≤ 2 ^ 26 }
    requires ticks { ticks ≤ 7200 }
    ensures value { result ≡ p +ℤ w *ℤ pos ticks }
    ensures small { unsigned_abs result ≤ 2 ^ 40 }
{
    p + w * ticks as i64
}

/// Returns the square of the distance after whole ticks.
fn square_at_tick(step: &Step, ticks: u64) -> u128
    requires { ticks ≤ 7200 }
    ensures { pos result ≡ norm2_of (displacement_at step.now ticks 1) }
{
    let p = step.p();
    let w = step.w();
    norm2(Point {
        x: component(p.x, w.x, ticks),
        y: component(p.y, w.y, ticks),
    })
}

/// Returns the instant of least distance among those up to `ticks` ticks after the beginning.
pub(crate) fn nearest(step: &Step, ticks: u32) -> Moment
    requires { ticks ≤ 7200 }
    ensures value { result ≡ nearest_of step.now ticks }
    ensures small { result.b ≤ 2 ^ 53 }
{
    let along = along(step);
    if along >= 0 {
        return Moment { a: 0, b: 1 };
    }
    let back = along.unsigned_abs();
    let length2 = length2(step);
    if back >= u128::from(ticks) * length2 {
        return Moment {
            a: u64::from(ticks),
            b: 1,
        };
    }
    Moment {
        a: back as u64,
        b: length2 as u64,
    }
}

/// Returns the square of the least distance up to `ticks` ticks after the beginning. Within a tick it is the square of
/// the turn by that of the change, since `|w|^2 |b p + a w|^2 = (b p.w + a |w|^2)^2 + b^2 turn(p, w)^2`, where the
/// first square vanishes at the instant of least distance.
pub(crate) fn least_square(step: &Step, ticks: u32) -> SquaredDistance
    requires { ticks ≤ 7200 }
    ensures some { 0 < result.under }
    ensures small { result.under ≤ 2 ^ 53 }
    ensures apart { (r : ℕ) → r * r * result.under ≤ result.over → IsSeparatedFor step.now r ticks }
    ensures nearer { (r : ℕ) → result.over < r * r * result.under
        → IsNearer step.now r (nearest_of step.now ticks).a (nearest_of step.now ticks).b }
{
    let Moment { a, b } = nearest(step, ticks);
    if b == 1 {
        return SquaredDistance {
            over: square_at_tick(step, a),
            under: 1,
        };
    }
    let aside = aside(step);
    SquaredDistance {
        over: aside * aside,
        under: u128::from(b),
    }
}
