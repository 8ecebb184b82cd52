//! On which side of a target's edges own ship is in a step, and what each edge says of the time.
ghost use Rattle.std.specs.Prelude.{ℕ, ℤ, pos, ◌≡◌, ◌+◌, ◌*◌, ◌^◌, ◌≤◌, ◌<◌, ◌↔◌, neg_ℤ, ◌+ℤ◌, ◌*ℤ◌, ◌-ℤ◌, ◌<ℤ◌, ◌≤ℤ◌, IsTrue, unsigned_abs};
ghost use Rattle.fixed_geometry.specs.Plane.{dot_of};
ghost use Rattle.fixed_geometry.specs.Sizes.{IsWithin};
ghost use Rattle.hull_domains.specs.Crossings.{mediant, earlier, is_less, later, lower, upper};
ghost use Rattle.hull_domains.specs.Inner.EdgeSides.{side_by, normal_of, IsBound, IsLow, IsShort};

use crate::shape::Edge;
use closest_approach::Moment;
use fixed_geometry::{Point, dot, turn};
use motion::Step;

/// On which side of an edge own ship is in a step: below 0 inside it. It changes evenly.
#[derive(Clone, Copy, PartialEq, Eq)]
pub(crate) struct Side {
    pub(crate) start: i128,
    pub(crate) change: i128,
}

/// A time of a step, in parts of a tick.
#[derive(Clone, Copy, PartialEq, Eq)]
pub(crate) struct Fraction {
    pub(crate) over: i128,
    pub(crate) under: u64,
}

fn narrow(z: i128) -> i64
    requires { unsigned_abs z ≤ 2 ^ 60 }
    ensures { result ≡ z }
{
    z as i64
}

fn negated(z: i128) -> i128
    requires { unsigned_abs z ≤ 2 ^ 60 }
    ensures value { result ≡ neg_ℤ z }
    ensures small { unsigned_abs result ≤ unsigned_abs z }
{
    -z
}

/// Returns the vector at right angles to an edge, if the target heads `ahead`.
fn normal(along: Point, ahead: Point) -> Point
    requires along { IsWithin 4000 along }
    requires ahead { IsWithin 1000000 ahead }
    ensures value { result ≡ normal_of along ahead }
    ensures small { unsigned_abs result.x + unsigned_abs result.y ≤ 8000000000 }
{
    Point {
        x: narrow(turn(along, ahead)),
        y: narrow(negated(dot(along, ahead))),
    }
}

fn in_units(square_metres: i128) -> i128
    requires { unsigned_abs square_metres ≤ 16000000 }
    ensures value { result ≡ square_metres *ℤ pos 10000000000 }
    ensures small { unsigned_abs result ≤ 160000000000000000 }
{
    square_metres * 10000000000
}

fn minus(a: i128, b: i128) -> i128
    requires a_small { unsigned_abs a ≤ 2 ^ 100 }
    requires b_small { unsigned_abs b ≤ 2 ^ 100 }
    ensures value { result ≡ a -ℤ b }
    ensures small { unsigned_abs result ≤ unsigned_abs a + unsigned_abs b }
{
    a - b
}

/// Returns the dot product of the displacement at the beginning with a vector at right angles to an edge.
fn dot_at_start(step: &Step, normal: Point) -> i128
    requires { unsigned_abs normal.x + unsigned_abs normal.y ≤ 8000000000 }
    ensures value { result ≡ dot_of step.now.p normal }
    ensures small { unsigned_abs result ≤ 137438953464000000000 }
{
    dot(step.p(), normal)
}

/// That of its change.
fn dot_of_change(step: &Step, normal: Point) -> i128
    requires { unsigned_abs normal.x + unsigned_abs normal.y ≤ 8000000000 }
    ensures value { result ≡ dot_of step.now.w normal }
    ensures small { unsigned_abs result ≤ 536870904000000000 }
{
    dot(step.w(), normal)
}

fn side_from(start: i128, apart: i128, change: i128) -> Side
    requires start { unsigned_abs start ≤ 137438953464000000000 }
    requires apart { unsigned_abs apart ≤ 160000000000000000 }
    requires change { unsigned_abs change ≤ 536870904000000000 }
    ensures value { result ≡ record { start = start -ℤ apart; change = change } }
    ensures low { IsLow result }
{
    Side {
        start: minus(start, apart),
        change,
    }
}

/// On which side of an edge own ship is in a step.
#[tactic(auto, unfolding(crate::specs::Inner::EdgeSides::side_by))]
pub(crate) fn side_beside(step: &Step, ahead: Point, edge: Edge) -> Side
    requires edge { IsShort edge }
    requires ahead { IsWithin 1000000 ahead }
    ensures value { result ≡ side_by step.now ahead edge }
    ensures low { IsLow result }
{
    let normal = normal(edge.along, ahead);
    side_from(
        dot_at_start(step, normal),
        in_units(turn(edge.from, edge.along)),
        dot_of_change(step, normal),
    )
}

pub(crate) fn times(z: i128, n: u64) -> i128
    requires z_small { unsigned_abs z ≤ 140000000000000000000 }
    requires n_small { n < 2 ^ 60 }
    ensures value { result ≡ z *ℤ pos n }
    ensures size { unsigned_abs result ≡ unsigned_abs z * n }
{
    z * i128::from(n)
}

pub(crate) fn is_less(x: Fraction, y: Fraction) -> bool
    requires x { IsBound x }
    requires y { IsBound y }
    ensures { result ≡ is_less x y }
{
    times(x.over, y.under) < times(y.over, x.under)
}

/// Returns the bound that an edge sets from below.
fn lower(side: Side) -> Fraction
    requires low { IsLow side }
    requires falls { side.change <ℤ pos 0 }
    ensures value { result ≡ lower side }
    ensures bound { IsBound result }
{
    Fraction {
        over: side.start,
        under: side.change.unsigned_abs() as u64,
    }
}

/// Returns the bound that an edge sets from above.
fn upper(side: Side) -> Fraction
    requires low { IsLow side }
    requires rises { pos 0 <ℤ side.change }
    ensures value { result ≡ upper side }
    ensures bound { IsBound result }
{
    Fraction {
        over: -side.start,
        under: side.change.unsigned_abs() as u64,
    }
}

/// Returns the later of two bounds from below.
#[tactic(auto, unfolding(crate::specs::Crossings::later))]
pub(crate) fn later(from: Fraction, side: Side) -> Fraction
    requires from { IsBound from }
    requires side { IsLow side }
    ensures value { result ≡ later from side }
    ensures bound { IsBound result }
{
    if side.change < 0 {
        let lower = lower(side);
        if is_less(from, lower) {
            return lower;
        }
    }
    from
}

/// Returns the earlier of two bounds from above.
#[tactic(auto, unfolding(crate::specs::Crossings::earlier))]
pub(crate) fn earlier(to: Fraction, side: Side) -> Fraction
    requires to { IsBound to }
    requires side { IsLow side }
    ensures value { result ≡ earlier to side }
    ensures bound { IsBound result }
{
    if side.change > 0 {
        let upper = upper(side);
        if is_less(upper, to) {
            return upper;
        }
    }
    to
}
