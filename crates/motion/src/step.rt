//! One step of two vessels.
ghost use Rattle.std.specs.Prelude.{◌≡◌, ◌^◌, ◌↔◌, IsTrue, IsSome, IfSome};
ghost use Rattle.fixed_geometry.specs.Displacement.{displacement};
ghost use Rattle.fixed_geometry.specs.Sizes.{IsBelow};

use fixed_geometry::{Point, displacement};
use std::marker::Model;

fn is_below(p: Point, size: u64) -> bool
    ensures { IsTrue result ↔ IsBelow size p }
{
    p.x.unsigned_abs() < size && p.y.unsigned_abs() < size
}

/// A step from one tick to the next: the displacement `p` from vessel A to vessel B at the first tick, and its change
/// `w` to the second, in tenths of a millimetre. Between the ticks both move straight. Components of `p` are below 2^34
/// in size, those of `w` below 2^26.
#[derive(Clone, Copy, PartialEq, Eq)]
pub struct Step {
    p: Point,
    w: Point,
}

impl Model for Step {
    ghost use Rattle.std.specs.Prelude.{◌^◌};
    ghost use Rattle.fixed_geometry.specs.Sizes.{IsBelow};
    ghost use Rattle.motion.specs.Steps.{RelativeMove};

    ghost Value = { RelativeMove };

    ghost view = { λ s. record { p = s.p; w = s.w } };

    ghost invariant = { λ s. IsBelow (2 ^ 34) s.p × IsBelow (2 ^ 26) s.w };

    ghost inverse = { λ s. record { p = s.p; w = s.w } };
}

impl Step {
    /// Returns the step with this displacement and this change, or `None` if a component is too large: 2^34 or more in
    /// size for `p`, 2^26 or more for `w`.
    pub fn new(p: Point, w: Point) -> Option<Step>
        ensures value { IfSome result (λ s. s ≡ record { p = p; w = w }) }
        ensures some { IsSome result ↔ (IsBelow (2 ^ 34) p × IsBelow (2 ^ 26) w) }
    {
        if is_below(p, 1 << 34) && is_below(w, 1 << 26) {
            Some(Step { p, w })
        } else {
            None
        }
    }

    /// Returns the step of vessel A, from `a0` to `a1`, and vessel B, from `b0` to `b1`. Components of the points are
    /// below 2^33 in size, and each vessel moves by less than 2^25 in each.
    pub fn of(a0: Point, b0: Point, a1: Point, b1: Point) -> Step
        requires a0_small { IsBelow (2 ^ 33) a0 }
        requires b0_small { IsBelow (2 ^ 33) b0 }
        requires a1_small { IsBelow (2 ^ 33) a1 }
        requires b1_small { IsBelow (2 ^ 33) b1 }
        requires a_moves { IsBelow (2 ^ 25) (displacement a0 a1) }
        requires b_moves { IsBelow (2 ^ 25) (displacement b0 b1) }
        ensures p { result.p ≡ displacement a0 b0 }
        ensures w { result.w ≡ displacement (displacement a0 b0) (displacement a1 b1) }
    {
        let p = displacement(a0, b0);
        let later = displacement(a1, b1);
        Step {
            p,
            w: displacement(p, later),
        }
    }

    /// Returns the displacement from vessel A to vessel B at the first tick.
    pub fn p(&self) -> Point
        ensures value { result ≡ self.now.p }
        ensures small { IsBelow (2 ^ 34) result }
    {
        self.p
    }

    /// Returns the change of the displacement to the second tick.
    pub fn w(&self) -> Point
        ensures value { result ≡ self.now.w }
        ensures small { IsBelow (2 ^ 26) result }
    {
        self.w
    }
}
