//! Checks the preconditions of a search, for tests that make situations by hand or draw them.
ghost use Rattle.std.specs.Prelude.{ℕ, ◌≡◌, ◌+◌, ◌≤◌, ◌<◌, ◌^◌, ◌*◌, ◌-◌, ◌-ℤ◌, All, IfSome, IsSome, IsTrue, length, unsigned_abs};
ghost use Rattle.encounters.specs.Directions.{HasDirection};
ghost use Rattle.encounters.specs.Risk.{IsDetect};
ghost use Rattle.fixed_geometry.specs.Sizes.{IsBelow, IsWithin};
ghost use Rattle.lattice.specs.Grids.{positions_of};
ghost use Rattle.meetings.specs.Traces.{IsPlaced, IsShortMove};
ghost use Rattle.motion.specs.Displacement.{displacement};
ghost use Rattle.motion.specs.TickStates.{IsTickState};
ghost use Rattle.plan_situations.specs.Situations.{end_of, known_at, now_of, sighting, target_at, IsSituation, IsTarget, IsTracked};

use crate::compared::is_true;
use encounters::Detect;
use fixed_geometry::Point;
use motion::TickState;
use planner::{Situation, Target};
use std::process::Abort;

fn is_within(point: &Point, size: u64) -> bool
    ensures { IsTrue result → IsWithin size point.now }
{
    point.x.unsigned_abs() <= size && point.y.unsigned_abs() <= size
}

fn is_below(value: Option<u16>, limit: u16) -> bool
    ensures { IsTrue result → IfSome value (λ v. v < limit) }
{
    match value {
        Some(value) => value < limit,
        None => true,
    }
}

fn is_state(state: &TickState, size: u64) -> bool
    ensures { IsTrue result → IsTickState size state.now }
{
    is_within(&state.point, size) && is_below(state.direction, 3600) && is_below(state.speed, 1023)
}

fn is_seen_well(seen: &Option<TickState>) -> bool
    ensures placed { IsTrue result → IsPlaced seen.now }
    ensures heads { IsTrue result → IfSome seen.now HasDirection }
{
    match seen {
        Some(state) => is_within(&state.point, 7_900_640_400) && is_below(state.direction, 3600),
        None => true,
    }
}

fn is_near(from: i64, to: i64) -> bool
    ensures { IsTrue result → unsigned_abs (to -ℤ from) < 2 ^ 25 }
{
    (i128::from(to) - i128::from(from)).unsigned_abs() < 33_554_432
}

fn is_short_move(before: &Option<TickState>, after: &Option<TickState>) -> bool
    ensures { IsTrue result → IsShortMove before.now after.now }
{
    match (before, after) {
        (Some(before), Some(after)) => {
            is_near(before.point.x, after.point.x) && is_near(before.point.y, after.point.y)
        }
        _ => true,
    }
}

fn seen_at(past: &[Option<TickState>], k: usize) -> Option<TickState>
    ensures { result ≡ sighting past.now k }
{
    match past.get(k) {
        Some(seen) => *seen,
        None => None,
    }
}

fn own_known(situation: &Situation, now: usize, k: usize) -> Option<TickState>
    requires { now ≡ now_of situation.now }
    ensures { result ≡ known_at situation.now k }
{
    if k < now {
        seen_at(situation.own_past.as_slice(), k)
    } else {
        Some(situation.start)
    }
}

fn target_known(situation: &Situation, target: &Target, now: usize, k: usize) -> Option<TickState>
    requires { now ≡ now_of situation.now }
    ensures { result ≡ target_at situation.now target.now k }
{
    let _ = &situation.tick;
    if k < now {
        seen_at(target.past.as_slice(), k)
    } else {
        target.ahead.as_slice().get(k - now).copied()
    }
}

fn is_own_tracked(situation: &Situation, now: usize) -> bool
    requires now { now ≡ now_of situation.now }
    requires few { now < 2 ^ 32 }
    ensures { IsTrue result → IsTracked (now_of situation.now) (known_at situation.now) }
{
    for k in 0..now + 1 {
        if !is_seen_well(&own_known(situation, now, k)) {
            return false;
        }
    }
    for k in 0..now {
        if !is_short_move(
            &own_known(situation, now, k),
            &own_known(situation, now, k + 1),
        ) {
            return false;
        }
    }
    true
}

fn is_target_tracked(situation: &Situation, target: &Target, now: usize, end: usize) -> bool
    requires now { now ≡ now_of situation.now }
    requires end { end ≡ end_of situation.now }
    requires few { end < 2 ^ 32 }
    ensures { IsTrue result
        → IsTracked (end_of situation.now) (target_at situation.now target.now) }
{
    for k in 0..end + 1 {
        if !is_seen_well(&target_known(situation, target, now, k)) {
            return false;
        }
    }
    for k in 0..end {
        if !is_short_move(
            &target_known(situation, target, now, k),
            &target_known(situation, target, now, k + 1),
        ) {
            return false;
        }
    }
    true
}

fn is_target(situation: &Situation, target: &Target, now: usize, positions: usize) -> bool
    requires now { now ≡ now_of situation.now }
    requires few { now < 2 ^ 31 }
    requires positions { positions ≡ positions_of situation.now.lattice }
    requires short { positions ≤ 7200 }
    ensures { IsTrue result → IsTarget situation.now target.now }
{
    target.past.as_slice().len() == situation.own_past.as_slice().len()
        && target.ahead.as_slice().len() == positions + 1
        && target.domain.radius < 2_147_483_648
        && is_target_tracked(situation, target, now, now + positions)
}

fn is_detect(detect: &Detect) -> bool
    ensures { IsTrue result → IsDetect detect.now }
{
    detect.watch <= 1_000_000_000
        && detect.risk <= 1_000_000_000
        && detect.clear <= 1_000_000_000
        && detect.horizon <= 7200
        && detect.angles.doubt <= 1124
}

fn is_start(situation: &Situation, planned: u32) -> bool
    requires planned { planned ≡ positions_of situation.now.lattice * situation.now.tick }
    requires short { planned ≤ 7200 }
    ensures near { IsTrue result
        → IsTickState (7900640400
        - positions_of situation.now.lattice * situation.now.tick * 525763) situation.now.start }
    ensures course { IsTrue result → IsSome situation.now.start.direction }
    ensures speed { IsTrue result → IsSome situation.now.start.speed }
{
    situation.start.direction.is_some()
        && situation.start.speed.is_some()
        && is_state(
            &situation.start,
            7_900_640_400 - u64::from(planned) * 525_763,
        )
}

fn are_targets(situation: &Situation, now: usize, positions: usize) -> bool
    requires now { now ≡ now_of situation.now }
    requires few { now < 2 ^ 31 }
    requires positions { positions ≡ positions_of situation.now.lattice }
    requires short { positions ≤ 7200 }
    ensures { IsTrue result → All (IsTarget situation.now) situation.now.targets }
{
    for target in situation.targets.as_slice() {
        if !is_target(situation, target, now, positions) {
            return false;
        }
    }
    true
}

fn is_situation(situation: &Situation) -> bool
    ensures { IsTrue result → IsSituation situation.now }
{
    let seen = situation.own_past.as_slice().len();
    if seen < 2 || seen > 20_001 || situation.tick > 60 || situation.targets.as_slice().len() > 1 {
        return false;
    }
    let now = seen - 1;
    let positions = situation.lattice.positions();
    let _legs = situation.lattice.legs();
    let _choices = situation.lattice.choices();
    let planned = positions * situation.tick;
    planned <= 7200
        && is_start(situation, planned)
        && is_detect(&situation.detect)
        && is_own_tracked(situation, now)
        && are_targets(situation, now, positions as usize)
}

/// Checks that a search accepts the situation, which has at most one target.
pub(crate) fn is_checked(rt: &impl Abort, situation: &Situation)
    ensures { IsSituation situation.now }
{
    is_true(rt, is_situation(situation));
}
