//! How far vessels move from one tick to the next, and how far apart they are.
ghost use Rattle.std.specs.Prelude.{ℕ, ◌≡◌, ◌*◌, ◌<◌, ◌≤◌, ◌^◌, get_or, length, true};
ghost use Rattle.fixed_geometry.specs.Sizes.{IsBelow};
ghost use Rattle.motion.specs.declared.leg.TickState.{TickState};
ghost use Rattle.traces.specs.Audited.{ArePlaced};
ghost use Rattle.traces.specs.Inner.Distances.{IsDrift, SeeTheSame, component_distance_of};

use fixed_geometry::Point;
use motion::TickState;

/// The drift if the vessels seen are not the same at both ticks. It is more than two vessels can be apart in a component.
const MOST_DRIFT: u64 = 1 << 36;

/// Returns the greater of the distances of two points in their two components.
#[inline(always)]
pub(crate) fn component_distance(a: &Point, b: &Point) -> u64
    requires a { IsBelow (2 ^ 33) a.now }
    requires b { IsBelow (2 ^ 33) b.now }
    ensures distance { result ≡ component_distance_of a.now b.now }
    ensures most { result < 2 ^ 34 }
{
    let east = (b.x - a.x).unsigned_abs();
    let north = (b.y - a.y).unsigned_abs();
    east.max(north)
}

/// Returns whether the same vessels are seen at both ticks.
pub(crate) fn see_the_same(before: &[(u32, TickState)], after: &[(u32, TickState)]) -> bool
    ensures { result ≡ true → SeeTheSame before.now after.now }
{
    if before.len() != after.len() {
        return false;
    }
    for index in 0..before.len() {
        if before[index].0 != after[index].0 {
            return false;
        }
    }
    true
}

/// Returns the greatest move of a vessel in a component. Each vessel has the same index at both ticks.
fn greatest_move(before: &[(u32, TickState)], after: &[(u32, TickState)]) -> u64
    requires before { ArePlaced before.now }
    requires after { ArePlaced after.now }
    requires many { length before.now ≡ length after.now }
    ensures most { result < 2 ^ 34 }
    ensures each { (k : ℕ) (d : ℕ × TickState) → k < length before.now
        → component_distance_of (get_or before.now k d).1.point (get_or after.now k d).1.point
        ≤ result }
{
    let mut greatest = 0;
    for index in 0..before.len() {
        let distance = component_distance(&before[index].1.point, &after[index].1.point);
        greatest = distance.max(greatest);
    }
    greatest
}

/// Returns the drift from one tick to the next: twice the greatest move of a vessel in a component, or `MOST_DRIFT` if the
/// vessels seen are not the same. The distance of two vessels in a component shrinks by at most the drift.
pub(crate) fn drift_between(before: &[(u32, TickState)], after: &[(u32, TickState)]) -> u64
    requires before { ArePlaced before.now }
    requires after { ArePlaced after.now }
    ensures most { result ≤ 2 ^ 36 }
    ensures drift { IsDrift result before.now after.now }
{
    if !see_the_same(before, after) {
        return MOST_DRIFT;
    }
    2 * greatest_move(before, after)
}
