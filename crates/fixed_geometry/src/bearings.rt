//! Bearings, and the angles between two directions.
ghost use Rattle.std.specs.Prelude.{pos, ◌≡◌, ◌+◌, ◌<◌, ◌≤◌, ◌^◌, ◌≤ℤ◌, ◌↔◌, None, IsNone, IfSome, int_le, int_lt, option_map, unsigned_abs};
ghost use Rattle.fixed_geometry.specs.Bearing.{bearing_of, has_turned, lies_to_port, quarter_angle, relative_of, swing_of};
ghost use Rattle.fixed_geometry.specs.Compass.{quarter_of, quarters_further};
ghost use Rattle.fixed_geometry.specs.Inner.Quarters.{IsInQuarter};
ghost use Rattle.fixed_geometry.specs.Plane.{turn_of};
ghost use Rattle.fixed_geometry.specs.Sizes.{IsWithin};

use crate::compass::quarter;
use crate::point::{Point, product, turn};
use crate::rounding::{difference, round_the_circle};

/// Returns whether a vector of `n` ahead and `e` to starboard has turned by `k` tenths of a degree or more.
fn has_turned(n: i64, e: i64, k: u16) -> bool
    requires n_small { unsigned_abs n ≤ 2 ^ 62 }
    requires e_small { unsigned_abs e ≤ 2 ^ 62 }
    requires k_below { k < 900 }
    ensures { result ≡ has_turned n e k }
{
    let Point { x, y } = quarter(k);
    product(x, n) <= product(y, e)
}

/// Returns the angle by which such a vector has turned. Within a quarter the sines rise and the cosines fall, so
/// bisection finds it.
fn quarter_angle(n: i64, e: i64) -> u16
    requires n_sign { pos 0 ≤ℤ n }
    requires n_small { unsigned_abs n ≤ 2 ^ 62 }
    requires e_sign { pos 0 ≤ℤ e }
    requires e_small { unsigned_abs e ≤ 2 ^ 62 }
    ensures value { result ≡ quarter_angle n e }
    ensures below { result < 900 }
{
    let mut low = 0;
    let mut high = 900;
    while low + 1 < high {
        let middle = (low + high) / 2;
        if has_turned(n, e, middle) {
            low = middle;
        } else {
            high = middle;
        }
    }
    low
}

/// A vector, given by its quarter of the circle.
#[derive(Drop)]
struct Quartered {
    /// The start of the quarter: 0, 900, 1800 or 2700.
    start: u16,
    /// The component along the quarter's beginning.
    ahead: i64,
    /// The component along its end.
    starboard: i64,
}

/// Returns the quarter of a vector. `None` if it has no length.
fn by_quarter(r: Point) -> Option<Quartered>
    requires { IsWithin (2 ^ 62) r }
    ensures some { IfSome result (IsInQuarter r) }
    ensures nowhere { IsNone result → bearing_of r ≡ None }
    ensures none { IsNone result ↔ (r ≡ record { x = pos 0; y = pos 0 }) }
{
    if r.y > 0 && r.x >= 0 {
        Some(Quartered {
            start: 0,
            ahead: r.y,
            starboard: r.x,
        })
    } else if r.x > 0 && r.y <= 0 {
        Some(Quartered {
            start: 900,
            ahead: r.x,
            starboard: -r.y,
        })
    } else if r.y < 0 && r.x <= 0 {
        Some(Quartered {
            start: 1800,
            ahead: -r.y,
            starboard: -r.x,
        })
    } else if r.x < 0 && r.y >= 0 {
        Some(Quartered {
            start: 2700,
            ahead: -r.x,
            starboard: r.y,
        })
    } else {
        None
    }
}

/// Returns the bearing of a vector by the compass, below 3600: the greatest whole tenth of a degree clockwise from
/// north that it has reached. `None` if it has no length. Components are at most 2^62 in size.
pub fn bearing(r: Point) -> Option<u16>
    requires { IsWithin (2 ^ 62) r }
    ensures value { result ≡ bearing_of r }
    ensures none { IsNone result ↔ (r ≡ record { x = pos 0; y = pos 0 }) }
    ensures below { IfSome result (λ b. b < 3600) }
{
    let Quartered {
        start,
        ahead,
        starboard,
    } = by_quarter(r)?;
    Some(start + quarter_angle(ahead, starboard))
}

/// Returns a vector that has been turned back by this number of quarters of the circle.
fn turned_back(r: Point, quarters: u16) -> Point
    requires small { IsWithin (2 ^ 62) r }
    requires quarters { quarters < 4 }
    ensures value { quarters_further quarters result ≡ r }
    ensures small { IsWithin (2 ^ 62) result }
{
    match quarters {
        0 => r,
        1 => Point { x: -r.y, y: r.x },
        2 => Point { x: -r.x, y: -r.y },
        _ => Point { x: r.y, y: -r.x },
    }
}

/// Returns whether a vector's bearing falls short of `k` tenths of a degree, by less than half a turn.
fn falls_short(r: Point, k: u16) -> bool
    requires small { IsWithin (2 ^ 62) r }
    requires k { k ≤ 900 }
    ensures { result ≡ int_lt (pos 0) (turn_of (quarter_of k) r) }
{
    turn(quarter(k), r) > 0
}

/// Returns whether it has reached the opposite of `k` tenths of a degree, and not passed it by more than half a turn.
fn reaches_opposite(r: Point, k: u16) -> bool
    requires small { IsWithin (2 ^ 62) r }
    requires k { k ≤ 900 }
    ensures { result ≡ int_le (pos 0) (turn_of (quarter_of k) r) }
{
    turn(quarter(k), r) >= 0
}

/// Returns whether a vector's bearing is on the port side of a vessel with this direction, neither right ahead nor
/// right astern: it falls short of right ahead, and has reached the first tenth of a degree past right astern. `None`
/// if the vector has no length.
pub fn to_port(r: Point, direction: u16) -> Option<bool>
    requires small { IsWithin (2 ^ 62) r }
    requires direction { direction < 3600 }
    ensures { result ≡ option_map (lies_to_port direction) (bearing_of r) }
{
    if r.x == 0 && r.y == 0 {
        return None;
    }
    let seen = turned_back(r, direction / 900);
    let tenths = direction % 900;
    Some(falls_short(seen, tenths) & reaches_opposite(seen, tenths + 1))
}

/// Returns a bearing relative to a vessel with this direction, in tenths of a degree below 3600: 0 is ahead, 900 on her
/// starboard beam, 1800 astern.
#[tactic(auto, unfolding(crate::specs::Bearing::relative_of))]
pub fn relative(bearing: u16, direction: u16) -> u16
    requires bearing { bearing < 3600 }
    requires direction { direction < 3600 }
    ensures value { result ≡ relative_of bearing direction }
    ensures below { result < 3600 }
{
    (bearing + 3600 - direction) % 3600
}

/// Returns the turn from one direction to another, in tenths of a degree from -1799 to 1800: positive to starboard.
/// Exactly half a turn is 1800, which is to starboard.
#[tactic(auto, unfolding(crate::specs::Bearing::swing_of))]
pub fn swing(from: u16, to: u16) -> i16
    requires from { from < 3600 }
    requires to { to < 3600 }
    ensures value { result ≡ swing_of from to }
    ensures small { unsigned_abs result ≤ 1800 }
{
    round_the_circle(difference(i32::from(from), i32::from(to)), 1800) as i16
}
