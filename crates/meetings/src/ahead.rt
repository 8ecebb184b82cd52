//! Crossing ahead of a vessel.
ghost use Rattle.std.specs.Prelude.{◌≡◌, ◌^◌, ◌<◌, ◌≤◌, ◌-ℤ◌, unsigned_abs};
ghost use Rattle.fixed_geometry.specs.Plane.{dot_of, turn_of};
ghost use Rattle.fixed_geometry.specs.Sizes.{IsBelow, IsWithin};
ghost use Rattle.sectors.specs.Class.{opposite};
ghost use Rattle.meetings.specs.Ahead.{crosses, crosses_ahead, crosses_ahead_along, crosses_ahead_by, end_point, has_sign_of};

use fixed_geometry::{Point, dot, turn, unit};
use motion::Step;

fn crosses(g0: i64, g1: i64) -> bool
    ensures { result ≡ crosses g0 g1 }
{
    (g0 < 0 && 0 <= g1) || (g1 <= 0 && 0 < g0)
}

fn has_sign_of(a: i128, b: i64) -> bool
    ensures { result ≡ has_sign_of a b }
{
    (0 < a && 0 < b) || (a < 0 && b < 0)
}

/// Returns the same number, which is known to be small.
fn narrowed(n: i128) -> i64
    requires { unsigned_abs n ≤ 2 ^ 57 }
    ensures value { result ≡ n }
    ensures small { unsigned_abs result ≤ 2 ^ 57 }
{
    n as i64
}

fn minus(a: i64, b: i64) -> i64
    requires a_small { unsigned_abs a ≤ 2 ^ 57 }
    requires b_small { unsigned_abs b ≤ 2 ^ 57 }
    ensures { result ≡ a -ℤ b }
{
    a - b
}

/// Returns a point relative to a line: `x` to port of it, `y` ahead along it, in millionths.
fn along(u: Point, r: Point) -> Point
    requires u_small { IsWithin 1000000 u }
    requires r_small { IsBelow (2 ^ 35) r }
    ensures value { result ≡ record { x = turn_of u r; y = dot_of u r } }
    ensures small { IsWithin (2 ^ 57) result }
{
    Point {
        x: narrowed(turn(u, r)),
        y: narrowed(dot(u, r)),
    }
}

/// Returns whether a vessel crosses the line, from the first of these points along it to the second, strictly ahead.
fn crosses_ahead_by(first: Point, second: Point) -> bool
    requires first_small { IsWithin (2 ^ 57) first }
    requires second_small { IsWithin (2 ^ 57) second }
    ensures { result ≡ crosses_ahead_by first.y first.x second.y second.x }
{
    crosses(first.x, second.x) && has_sign_of(turn(first, second), minus(first.x, second.x))
}

fn opposite(r: Point) -> Point
    requires { IsBelow (2 ^ 35) r }
    ensures value { result ≡ opposite r }
    ensures small { IsBelow (2 ^ 35) result }
{
    Point { x: -r.x, y: -r.y }
}

/// Returns the displacement from A to B at the step's second tick.
fn end(step: &Step) -> Point
    ensures value { result ≡ end_point step.now }
    ensures small { IsBelow (2 ^ 35) result }
{
    let p = step.p();
    let w = step.w();
    Point {
        x: p.x + w.x,
        y: p.y + w.y,
    }
}

/// Returns whether A crosses ahead of B's bow within the step (Rule 15), if B has this direction, below 3600.
#[tactic(auto, unfolding(crate::specs::Ahead::crosses_ahead))]
pub(crate) fn crosses_ahead(direction: u16, step: &Step) -> bool
    requires { direction < 3600 }
    ensures { result ≡ crosses_ahead direction step.now }
{
    let u = unit(direction);
    let first = along(u, opposite(step.p()));
    let second = along(u, opposite(end(step)));
    crosses_ahead_by(first, second)
}
