//! Products and quotients of whole numbers, and differences on a circle.
ghost use Rattle.std.specs.Prelude.{pos, ◌≡◌, ◌+◌, ◌*◌, ◌<◌, ◌≤◌, ◌^◌, ◌-ℤ◌, ◌*ℤ◌, unsigned_abs};
ghost use Rattle.fixed_geometry.specs.Rounding.{rounded};
ghost use Rattle.fixed_geometry.specs.Circle.{shorter_arc};

/// Returns a length times a sine or a cosine.
pub(crate) fn scale(length: i64, millionths: i64) -> i64
    requires length_small { unsigned_abs length ≤ 2 ^ 38 }
    requires millionths_small { unsigned_abs millionths ≤ 1000000 }
    ensures value { result ≡ length *ℤ millionths }
    ensures small { unsigned_abs result ≤ 1000000 * unsigned_abs length }
{
    length * millionths
}

/// Returns the whole number nearest to `a / b`, halves upwards, for `a` at most 2^61 in size and `b` above 0. Every
/// rounding in the plane is this one.
#[tactic(auto, unfolding(crate::specs::Rounding::rounded))]
pub fn round_quotient(a: i64, b: u32) -> i64
    requires a_small { unsigned_abs a ≤ 2 ^ 61 }
    requires b_some { 0 < b }
    ensures { result ≡ rounded a b }
{
    let b = i64::from(b);
    let (twice, divisor) = (2 * a + b, 2 * b);
    let quotient = twice / divisor;
    // A test of the remainder's sign compiles to no branch. `div_euclid` would branch on the sign of `a`, which the
    // processor mispredicts for almost half of all reports.
    if twice % divisor < 0 {
        quotient - 1
    } else {
        quotient
    }
}

/// Returns `to` minus `from`.
pub(crate) fn difference(from: i32, to: i32) -> i64
    ensures value { result ≡ to -ℤ from }
    ensures small { unsigned_abs result ≤ unsigned_abs from + unsigned_abs to }
{
    i64::from(to) - i64::from(from)
}

/// Returns a difference of at most one turn along the shorter arc: above minus `half` a turn and at most `half` a turn.
#[tactic(auto, unfolding(crate::specs::Circle::shorter_arc))]
pub(crate) fn round_the_circle(difference: i64, half: u32) -> i64
    requires { unsigned_abs difference ≤ 2 * half }
    ensures value { result ≡ shorter_arc half difference }
    ensures small { unsigned_abs result ≤ half }
{
    let half = i64::from(half);
    if difference <= -half {
        difference + 2 * half
    } else if difference > half {
        difference - 2 * half
    } else {
        difference
    }
}
