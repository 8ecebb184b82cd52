//! The alterations of a vessel since an engagement began.
ghost use Rattle.std.specs.Prelude.{◌≡◌, ◌≤◌, ◌<◌, true, false, pos, neg_ℤ, int_le, int_lt, nat_le, nat_lt, unsigned_abs, Some, IfSome};
ghost use Rattle.std.specs.Option.{option_map};
ghost use Rattle.mtl_formulas.specs.VerdictOrder.{greatest};
ghost use Rattle.encounters.specs.Alterations.{alters, apparent, change_between, changes_of, to_port, to_starboard, turn_between, verdict_of};
ghost use Rattle.encounters.specs.Directions.{HasDirection, HaveDirectionsSince};

use crate::act::Act;
use crate::engagement_state::EngagementState;
use fixed_geometry::swing;
use motion::TickState;
use mtl_formulas::Verdict;

/// The alterations of the vessels of a pair (A, B) since their engagement began. A value is Open if a direction or a
/// speed that it needs is absent, and No if they are not engaged.
#[derive(Clone, Copy, Debug, PartialEq, Eq)]
pub struct Changes {
    /// A has not kept her course and speed (Rule 17).
    pub alters: Verdict,
    /// A has made a readily apparent alteration of course or speed (Rule 8 (b)).
    pub apparent: Verdict,
    /// A has made a readily apparent alteration of course to starboard.
    pub to_starboard: Verdict,
    /// A has altered course to port by more than a vessel that keeps her course (Rule 17 (c)).
    pub to_port: Verdict,
    /// B has made a readily apparent alteration of course or speed.
    pub other_apparent: Verdict,
}

fn greatest(a: Verdict, b: Verdict) -> Verdict
    ensures { result ≡ greatest a b }
{
    match (a, b) {
        (Verdict::Yes, _) | (_, Verdict::Yes) => Verdict::Yes,
        (Verdict::Open, _) | (_, Verdict::Open) => Verdict::Open,
        _ => Verdict::No,
    }
}

fn verdict(passes: Option<bool>) -> Verdict
    ensures { result ≡ verdict_of passes }
{
    match passes {
        None => Verdict::Open,
        Some(true) => Verdict::Yes,
        Some(false) => Verdict::No,
    }
}

/// Returns the turn since then, positive to starboard.
fn turn_between(was: Option<u16>, now: Option<u16>) -> Option<i16>
    requires was { IfSome was (λ d. d < 3600) }
    requires now { IfSome now (λ d. d < 3600) }
    ensures value { result ≡ turn_between was now }
    ensures small { IfSome result (λ d. unsigned_abs d ≤ 1800) }
{
    match (was, now) {
        (Some(was), Some(now)) => Some(swing(was, now)),
        _ => None,
    }
}

/// Returns the size of the change of speed since then.
fn change_between(was: Option<u16>, now: Option<u16>) -> Option<u16>
    ensures { result ≡ change_between was now }
{
    match (was, now) {
        (Some(was), Some(now)) => Some(now.abs_diff(was)),
        _ => None,
    }
}

fn alters(act: &Act, was: &TickState, now: &TickState) -> Verdict
    requires was { HasDirection was.now }
    requires now { HasDirection now.now }
    ensures { result ≡ alters act.now was.now now.now }
{
    let turn = turn_between(was.direction, now.direction);
    let change = change_between(was.speed, now.speed);
    greatest(
        verdict(turn.map(|d| d.unsigned_abs() > act.steady_turn)),
        verdict(change.map(|v| v > act.steady_speed)),
    )
}

fn apparent(act: &Act, was: &TickState, now: &TickState) -> Verdict
    requires was { HasDirection was.now }
    requires now { HasDirection now.now }
    ensures { result ≡ apparent act.now was.now now.now }
{
    let turn = turn_between(was.direction, now.direction);
    let change = change_between(was.speed, now.speed);
    greatest(
        verdict(turn.map(|d| d.unsigned_abs() >= act.apparent_turn)),
        verdict(change.map(|v| v >= act.apparent_speed)),
    )
}

fn to_starboard(act: &Act, was: &TickState, now: &TickState) -> Verdict
    requires was { HasDirection was.now }
    requires now { HasDirection now.now }
    ensures { result ≡ to_starboard act.now was.now now.now }
{
    let turn = turn_between(was.direction, now.direction);
    verdict(turn.map(|d| i32::from(d) >= i32::from(act.apparent_turn)))
}

fn to_port(act: &Act, was: &TickState, now: &TickState) -> Verdict
    requires was { HasDirection was.now }
    requires now { HasDirection now.now }
    ensures { result ≡ to_port act.now was.now now.now }
{
    let turn = turn_between(was.direction, now.direction);
    verdict(turn.map(|d| -i32::from(d) > i32::from(act.steady_turn)))
}

/// Returns the alterations of A and B from their states at the start of the engagement to these. Directions are below
/// 3600. A swing of exactly half a turn is to starboard.
#[inline(always)]
pub fn changes_since(
    act: &Act,
    state: &EngagementState,
    now_a: &TickState,
    now_b: &TickState,
) -> Changes
    requires since { HaveDirectionsSince state.now }
    requires now_a { HasDirection now_a.now }
    requires now_b { HasDirection now_b.now }
    ensures { result ≡ changes_of act.now state.now now_a.now now_b.now }
{
    match state {
        EngagementState::Apart => Changes {
            alters: Verdict::No,
            apparent: Verdict::No,
            to_starboard: Verdict::No,
            to_port: Verdict::No,
            other_apparent: Verdict::No,
        },
        EngagementState::Engaged { a, b, .. } => Changes {
            alters: alters(act, a, now_a),
            apparent: apparent(act, a, now_a),
            to_starboard: to_starboard(act, a, now_a),
            to_port: to_port(act, a, now_a),
            other_apparent: apparent(act, b, now_b),
        },
    }
}
