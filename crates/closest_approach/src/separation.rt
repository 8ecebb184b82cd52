//! Predicates that the least distance decides.
ghost use Rattle.std.specs.Prelude.{ℕ, ◌≡◌, ◌*◌, ◌<◌, ◌≤◌, ◌^◌, ◌↔◌, IsTrue, IsNone, IfSome};
ghost use Rattle.closest_approach.specs.Separation.{nearest_of, EntersWithin, IsNearer, IsNearest, IsSeparated, IsSeparatedByEnds};

use crate::nearest::{Moment, SquaredDistance, least_square, nearest};
use fixed_geometry::{isqrt, square};
use motion::Step;

fn is_at_least(distance: SquaredDistance, r: u64) -> bool
    requires r_small { r < 2 ^ 31 }
    requires under_small { distance.under ≤ 2 ^ 53 }
    ensures { IsTrue result ↔ (r * r * distance.under ≤ distance.over) }
{
    square(r) * distance.under <= distance.over
}

/// Returns whether the distance is at least `r` tenths of a millimetre, below 2^31, at every rational instant of the
/// step. The two ends and one comparison of squares decide it.
pub fn separated(step: &Step, r: u64) -> bool
    requires { r < 2 ^ 31 }
    ensures exact { IsTrue result ↔ IsSeparated step.now r }
    ensures ends { IsTrue result ↔ IsSeparatedByEnds step.now r }
{
    is_at_least(least_square(step, 1), r)
}

/// Returns whether the distance is less than `r` tenths of a millimetre at some rational instant up to `ticks` ticks
/// after the beginning, at most 7200, if both vessels continue as in the step.
pub fn enters_within(step: &Step, r: u64, ticks: u32) -> bool
    requires r { r < 2 ^ 31 }
    requires ticks { ticks ≤ 7200 }
    ensures { IsTrue result ↔ EntersWithin step.now r ticks }
{
    !is_at_least(least_square(step, ticks), r)
}

/// Returns the greatest whole number of tenths of a millimetre by which the step is separated: it is separated by each
/// number up to this one, and by no greater.
pub fn least(step: &Step) -> u64
    ensures exact { (m : ℕ) → IsSeparated step.now m ↔ (m ≤ result) }
    ensures ends { (m : ℕ) → IsSeparatedByEnds step.now m ↔ (m ≤ result) }
{
    let square = least_square(step, 1);
    isqrt(square.over / square.under)
}

/// Returns the instant of least distance, at which the distance is less than `r` tenths of a millimetre: `0 / 1` if the
/// vessels draw apart, `1 / 1` if they close up to the end, and otherwise `-p.w / |w|^2`, not reduced. `None` if the
/// step is separated by `r`.
pub fn entry(step: &Step, r: u64) -> Option<Moment>
    requires { r < 2 ^ 31 }
    ensures none { IsNone result ↔ IsSeparated step.now r }
    ensures moment { IfSome result (λ moment. moment ≡ nearest_of step.now 1) }
    ensures instant { IfSome result (λ moment. (moment.a ≤ moment.b) × (0 < moment.b)) }
    ensures nearest { IfSome result (λ moment. IsNearest step.now moment) }
    ensures nearer { IfSome result (λ moment. IsNearer step.now r moment.a moment.b) }
{
    if separated(step, r) {
        None
    } else {
        Some(nearest(step, 1))
    }
}
