//! Whether two vessels are nearer than a radius at one instant of a step, exactly and within 128 bits.
ghost use Rattle.std.specs.Prelude.{◌≡◌, pos, ◌+◌, ◌*◌, ◌<◌, ◌≤◌, ◌^◌, ◌↔◌, ◌+ℤ◌, ◌*ℤ◌, IsTrue, unsigned_abs};
ghost use Rattle.fixed_geometry.specs.Plane.{dot_of, norm2_of, turn_of};
ghost use Rattle.closest_approach.specs.Separation.{IsNearer};

use closest_approach::Moment;
use fixed_geometry::{dot, norm2, turn};
use motion::Step;

/// Returns whether `(q b + m)^2 < b^2 d`, if `q^2 < d < (q + 1)^2`.
fn is_rest_below(q: u128, m: u128, b: u128, d: u128) -> bool
    requires m_small { m < b }
    requires b_small { b < 2 ^ 60 }
    requires d_small { d ≤ 2 ^ 115 }
    requires above { q * q < d }
    requires below { d < (q + 1) * (q + 1) }
    ensures { IsTrue result ↔ ((q * b + m) * (q * b + m) < b * b * d) }
{
    let over = b * (d - q * q);
    let under = 2 * q * m;
    if over <= under {
        return false;
    }
    let z = over - under;
    z >= b || m * m < b * z
}

/// Returns whether `x^2 < b^2 d`.
fn is_square_below(x: u128, b: u128, d: u128) -> bool
    requires some { 0 < b }
    requires b_small { b < 2 ^ 60 }
    requires x_small { x ≤ b * 2 ^ 62 }
    requires d_small { d ≤ 2 ^ 115 }
    ensures { IsTrue result ↔ (x * x < b * b * d) }
{
    let q = x / b;
    let m = x % b;
    if q * q >= d {
        return false;
    }
    if (q + 1) * (q + 1) <= d {
        return true;
    }
    is_rest_below(q, m, b, d)
}

/// Returns the dot product of the displacement and its change.
fn along(step: &Step) -> i128
    ensures value { result ≡ dot_of step.now.p step.now.w }
    ensures small { unsigned_abs result ≤ 2 ^ 61 }
{
    dot(step.p(), step.w())
}

/// Returns the square of the change.
fn length2(step: &Step) -> u128
    ensures value { pos result ≡ norm2_of step.now.w }
    ensures small { result ≤ 2 ^ 53 }
{
    norm2(step.w())
}

/// Returns the size of their cross product.
fn aside(step: &Step) -> u128
    ensures value { result ≡ unsigned_abs (turn_of step.now.p step.now.w) }
    ensures small { result ≤ 2 ^ 61 }
{
    turn(step.p(), step.w()).unsigned_abs()
}

fn times(a: u64, z: i128) -> i128
    requires a_small { a < 2 ^ 60 }
    requires z_small { unsigned_abs z ≤ 2 ^ 61 }
    ensures value { result ≡ pos a *ℤ z }
    ensures size { unsigned_abs result ≡ a * unsigned_abs z }
{
    i128::from(a) * z
}

fn size_of_sum(x: i128, y: i128) -> u128
    requires x_small { unsigned_abs x ≤ 2 ^ 122 }
    requires y_small { unsigned_abs y ≤ 2 ^ 122 }
    ensures value { result ≡ unsigned_abs (x +ℤ y) }
    ensures small { result ≤ unsigned_abs x + unsigned_abs y }
{
    (x + y).unsigned_abs()
}

/// Returns the size of `b p.w + a |w|^2`.
fn along_at(step: &Step, moment: Moment) -> u128
    requires a { moment.a ≤ moment.b }
    requires b { moment.b < 2 ^ 60 }
    ensures value { result
        ≡ unsigned_abs (pos moment.b *ℤ dot_of step.now.p step.now.w +ℤ pos moment.a *ℤ norm2_of
        step.now.w) }
    ensures small { result ≤ moment.b * 2 ^ 62 }
{
    size_of_sum(
        times(moment.b, along(step)),
        times(moment.a, length2(step) as i128),
    )
}

/// Returns whether the distance at an instant of the step is less than `r` tenths of a millimetre.
pub(crate) fn is_nearer(step: &Step, r: u64, moment: Moment) -> bool
    requires r { r < 2 ^ 31 }
    requires a { moment.a ≤ moment.b }
    requires some { 0 < moment.b }
    requires b { moment.b < 2 ^ 60 }
    ensures { IsTrue result ↔ IsNearer step.now r moment.a moment.b }
{
    let r2 = u128::from(r) * u128::from(r);
    let length2 = length2(step);
    if length2 == 0 {
        return norm2(step.p()) < r2;
    }
    let reach = r2 * length2;
    let aside = aside(step);
    let aside2 = aside * aside;
    if reach <= aside2 {
        return false;
    }
    is_square_below(along_at(step, moment), u128::from(moment.b), reach - aside2)
}
