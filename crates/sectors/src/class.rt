//! The class of an encounter.
ghost use Rattle.std.specs.Prelude.{pos, ◌≡◌, ◌^◌, ◌<◌, ◌≤◌, ◌&&◌, neg_ℤ, int_lt, nat_le, unsigned_abs, IfSome};
ghost use Rattle.fixed_geometry.specs.Bearing.{swing_of};
ghost use Rattle.fixed_geometry.specs.Plane.{dot_of};
ghost use Rattle.sectors.specs.Class.{class_of, class_between, class_seen, is_abaft, is_ahead, is_in_port_sector, is_in_starboard_sector, opposite, reverse_of};

use crate::angles::Angles;
use fixed_geometry::{Point, bearing, dot, relative, swing};
use motion::Step;

/// The class of an encounter for the first of two vessels, A, in relation to the second, B.
#[derive(Clone, Copy, Debug, PartialEq, Eq)]
pub enum Class {
    /// A comes up with B from more than 22.5 degrees abaft B's beam (Rule 13).
    Overtaking,
    /// B comes up with A from there.
    Overtaken,
    /// They meet on reciprocal or nearly reciprocal courses, each ahead or nearly ahead of the other (Rule 14).
    HeadOn,
    /// They cross, and A has B on her own starboard side: A keeps out of the way (Rule 15).
    CrossingGives,
    /// They cross, and B has A on her own starboard side: A stands on (Rule 17).
    CrossingStands,
    /// None of these.
    Passing,
    /// A direction is unknown, or both are at the same point.
    Unclassified,
}

fn opposite(p: Point) -> Point
    requires x { unsigned_abs p.x < 2 ^ 34 }
    requires y { unsigned_abs p.y < 2 ^ 34 }
    ensures { result ≡ opposite p }
{
    Point { x: -p.x, y: -p.y }
}

fn is_closing(step: &Step) -> bool
    ensures { result ≡ int_lt (dot_of step.now.p step.now.w) (pos 0) }
{
    dot(step.p(), step.w()) < 0
}

fn reverse(direction: u16) -> u16
    requires { direction < 3600 }
    ensures value { result ≡ reverse_of direction }
    ensures below { result < 3600 }
{
    (direction + 1800) % 3600
}

fn angle_between(a: u16, b: u16) -> u16
    requires a { a < 3600 }
    requires b { b < 3600 }
    ensures { result ≡ unsigned_abs (swing_of a b) }
{
    swing(a, b).unsigned_abs()
}

fn is_abaft(doubt: u16, k: u16) -> bool
    requires { doubt ≤ 1124 }
    ensures { result ≡ is_abaft doubt k }
{
    1125 - doubt < k && k < 2475 + doubt
}

fn is_ahead(most: u16, k: u16) -> bool
    requires { k < 3600 }
    ensures { result ≡ is_ahead most k }
{
    angle_between(0, k) <= most
}

fn is_in_starboard_sector(k: u16) -> bool
    ensures { result ≡ is_in_starboard_sector k }
{
    k <= 1125
}

fn is_in_port_sector(k: u16) -> bool
    ensures { result ≡ is_in_port_sector k }
{
    2475 <= k || k == 0
}

fn is_head_on(beta: u16, alpha: u16, off: u16, angles: &Angles) -> bool
    requires beta { beta < 3600 }
    requires alpha { alpha < 3600 }
    ensures { result ≡ (is_ahead angles.now.ahead beta && is_ahead angles.now.ahead alpha
        && nat_le off angles.now.reciprocal) }
{
    is_ahead(angles.ahead, beta) && is_ahead(angles.ahead, alpha) && off <= angles.reciprocal
}

/// Returns the class by the relative bearings: B at `beta` from A, A at `alpha` from B; `off` is the angle between A's
/// direction and the reverse of B's.
#[tactic(auto, unfolding(crate::specs::Class::class_seen))]
fn class_seen(closing: bool, beta: u16, alpha: u16, off: u16, angles: &Angles) -> Class
    requires beta { beta < 3600 }
    requires alpha { alpha < 3600 }
    requires doubt { angles.now.doubt ≤ 1124 }
    ensures { result ≡ class_seen angles.now
        (record { closing = closing; beta = beta; alpha = alpha; off = off }) }
{
    if closing && is_abaft(angles.doubt, alpha) {
        Class::Overtaking
    } else if closing && is_abaft(angles.doubt, beta) {
        Class::Overtaken
    } else if is_head_on(beta, alpha, off, angles) {
        Class::HeadOn
    } else if is_in_starboard_sector(beta) && is_in_port_sector(alpha) {
        Class::CrossingGives
    } else if is_in_starboard_sector(alpha) && is_in_port_sector(beta) {
        Class::CrossingStands
    } else {
        Class::Passing
    }
}

/// Returns the class if both directions are known.
#[tactic(auto, unfolding(crate::specs::Class::class_between))]
fn class_between(step: &Step, a: u16, b: u16, angles: &Angles) -> Class
    requires a { a < 3600 }
    requires b { b < 3600 }
    requires doubt { angles.now.doubt ≤ 1124 }
    ensures { result ≡ class_between step.now a b angles.now }
{
    let p = step.p();
    match (bearing(p), bearing(opposite(p))) {
        (Some(to_b), Some(to_a)) => class_seen(
            is_closing(step),
            relative(to_b, a),
            relative(to_a, b),
            angle_between(a, reverse(b)),
            angles,
        ),
        _ => Class::Unclassified,
    }
}

/// Returns the class of A in relation to B at a step: the first row of the definition's table that applies. The
/// directions of A and B are tenths of a degree clockwise from north, below 3600; the angle of doubt is at most 1124.
pub fn class_of(step: &Step, a: Option<u16>, b: Option<u16>, angles: &Angles) -> Class
    requires a { IfSome a (λ d. d < 3600) }
    requires b { IfSome b (λ d. d < 3600) }
    requires doubt { angles.now.doubt ≤ 1124 }
    ensures { result ≡ class_of step.now a b angles.now }
{
    match (a, b) {
        (Some(a), Some(b)) => class_between(step, a, b, angles),
        _ => Class::Unclassified,
    }
}
