//! Two vessels at a tick, and from one tick to the next.
ghost use Rattle.std.specs.Prelude.{◌≡◌, ◌↔◌, ◌≤◌, ◌^◌, IfSome, IsTrue};
ghost use Rattle.std.specs.Option.{option_copied};
ghost use Rattle.encounters.specs.Directions.{HasDirection, HaveDirections};
ghost use Rattle.fixed_geometry.specs.Sizes.{IsBelow};
ghost use Rattle.meetings.specs.Traces.{IsContact, IsPlaced, IsShortMove, step_between};

use encounters::PairStep;
use fixed_geometry::within;
use motion::{Step, TickState};

/// Returns whether A and B are at most `watch` apart: tenths of a millimetre, at most 10^9. Components of their points
/// are below 2^33 in size. A pair's trace begins at the first tick at which they are.
pub fn contact(a: &TickState, b: &TickState, watch: u64) -> bool
    requires a { IsBelow (2 ^ 33) a.now.point }
    requires b { IsBelow (2 ^ 33) b.now.point }
    requires watch { watch ≤ 1000000000 }
    ensures { IsTrue result ↔ IsContact watch a.now b.now }
{
    within(a.point, b.point, watch)
}

/// Returns the step of A and B from one tick with states `a0` and `b0` to the next with states `a1` and `b1`: `None` if
/// either vessel is not seen at either tick. Components of the points are below 2^33 in size, and each vessel moves by
/// less than 2^25 in each.
pub fn step_between(
    a0: Option<&TickState>,
    b0: Option<&TickState>,
    a1: Option<&TickState>,
    b1: Option<&TickState>,
) -> Option<PairStep>
    requires a0 { IsPlaced (option_copied a0) }
    requires b0 { IsPlaced (option_copied b0) }
    requires a1 { IsPlaced (option_copied a1) }
    requires b1 { IsPlaced (option_copied b1) }
    requires a_moves { IsShortMove (option_copied a0) (option_copied a1) }
    requires b_moves { IsShortMove (option_copied b0) (option_copied b1) }
    ensures value { result
        ≡ step_between (option_copied a0.entry) (option_copied b0.entry) (option_copied a1.entry)
        (option_copied b1.entry) }
    ensures directions { IfSome (option_copied a0.entry) HasDirection
        → IfSome (option_copied b0.entry) HasDirection → IfSome result HaveDirections }
{
    match (a0, b0, a1, b1) {
        (Some(a0), Some(b0), Some(a1), Some(b1)) => Some(PairStep {
            step: Step::of(a0.point, b0.point, a1.point, b1.point),
            a: *a0,
            b: *b0,
        }),
        _ => None,
    }
}
