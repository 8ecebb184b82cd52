//! The values of the atoms at a step by the state of the engagement.
ghost use Rattle.std.specs.Prelude.{◌≡◌, ◌↔◌, ◌<◌, Option, IfSome, IsSomeAnd, IsTrue};
ghost use Rattle.std.specs.Option.{option_copied};
ghost use Rattle.encounters.specs.Directions.{HaveDirections, HaveDirectionsSince};
ghost use Rattle.encounters.specs.Risk.{HasRisk, IsDetect};
ghost use Rattle.encounters.specs.declared.detect.Detect.{Detect};
ghost use Rattle.encounters.specs.declared.engagement_state.EngagementState.{EngagementState};
ghost use Rattle.encounters.specs.declared.pair_step.PairStep.{PairStep};
ghost use Rattle.meetings.specs.Atoms.{AreAnswers};
ghost use Rattle.meetings.specs.Answers.{answer_of};
ghost use Rattle.meetings.specs.Inner.Tests.{direction_of, meeting_of, other_direction_of, step_of};
ghost use Rattle.meetings.specs.Ranks.{both_power_driven};
ghost use Rattle.meetings.specs.SinceBeginning.{changes_at};
ghost use Rattle.meetings.specs.Terms.{Terms};
ghost use Rattle.meetings.specs.declared.by_rank.ByRank.{ByRank};

use crate::atom_row::{AtomRow, Meeting};
use crate::by_rank::{BOTH_POWER_DRIVEN, ByRank};
use encounters::{Act, Changes, Detect, EngagementState, PairStep, changes_since, risk};
use motion::Step;
use mtl_formulas::Verdict;

fn meeting_of(state: &EngagementState) -> Option<Meeting>
    ensures { result ≡ meeting_of state.now }
{
    match state {
        EngagementState::Apart => None,
        EngagementState::Engaged { kind, age, .. } => Some(Meeting {
            kind: *kind,
            age: *age,
        }),
    }
}

#[inline(always)]
fn changes_at(act: &Act, state: &EngagementState, seen: Option<&PairStep>) -> Changes
    requires seen { IfSome (option_copied seen) HaveDirections }
    requires since { HaveDirectionsSince state.now }
    ensures { result ≡ changes_at act.now state.now (option_copied seen.entry) }
{
    match seen {
        Some(pair) => changes_since(act, state, &pair.a, &pair.b),
        None => Changes {
            alters: Verdict::No,
            apparent: Verdict::No,
            to_starboard: Verdict::No,
            to_port: Verdict::No,
            other_apparent: Verdict::No,
        },
    }
}

fn has_risk(detect: &Detect, seen: Option<&PairStep>) -> bool
    requires { IsDetect detect.now }
    ensures { IsTrue result
        ↔ IsSomeAnd (option_copied seen.entry) (λ pair. HasRisk detect.now pair.step) }
{
    match seen {
        None => false,
        Some(pair) => risk(detect, &pair.step),
    }
}

fn step_of(seen: Option<&PairStep>) -> Option<Step>
    ensures { result ≡ step_of (option_copied seen.entry) }
{
    match seen {
        None => None,
        Some(pair) => Some(pair.step),
    }
}

fn direction(seen: Option<&PairStep>) -> Option<u16>
    requires { IfSome (option_copied seen) HaveDirections }
    ensures value { result ≡ direction_of (option_copied seen.entry) }
    ensures below { IfSome result (λ d. d < 3600) }
{
    seen?.a.direction
}

fn other_direction(seen: Option<&PairStep>) -> Option<u16>
    requires { IfSome (option_copied seen) HaveDirections }
    ensures value { result ≡ other_direction_of (option_copied seen.entry) }
    ensures below { IfSome result (λ d. d < 3600) }
{
    seen?.b.direction
}

/// The inputs of a row besides its step: the limits for alterations, the seconds of a tick, and the duties by rank at
/// the start of the engagement.
#[derive(Clone, Copy)]
pub(crate) struct Telling {
    pub(crate) act: Act,
    pub(crate) tick: u32,
    pub(crate) by_rank: ByRank,
}

/// Returns the row of a step, given whether there is risk, and the duties by rank at the start of the engagement.
#[inline(always)]
pub(crate) fn row_at(
    state: &EngagementState,
    seen: Option<&PairStep>,
    risk: bool,
    telling: &Telling,
) -> AtomRow
    requires seen { IfSome (option_copied seen) HaveDirections }
    requires since { HaveDirectionsSince state.now }
    ensures { (detect : Detect)
        → (IsTrue risk ↔ IsSomeAnd (option_copied seen.entry) (λ pair. HasRisk detect pair.step))
        → AreAnswers (record { detect = detect; act = telling.now.act; tick = telling.now.tick })
        telling.now.by_rank state.now (option_copied seen.entry) (answer_of result) }
{
    AtomRow {
        step: step_of(seen),
        direction: direction(seen),
        other_direction: other_direction(seen),
        risk,
        meeting: meeting_of(state),
        tick: telling.tick,
        changes: changes_at(&telling.act, state, seen),
        by_rank: telling.by_rank,
    }
}

/// Returns the row of a step of an ordered pair (A, B), both power-driven; `state` is the state of their engagement at
/// the step. A step of an engagement is seen; if the step is not seen, the alterations are No. This computes risk and
/// the alterations; the row computes everything else on demand. A tick lasts `tick` seconds. Directions are below 3600.
pub fn atoms_at(
    detect: &Detect,
    state: &EngagementState,
    seen: Option<&PairStep>,
    act: &Act,
    tick: u32,
) -> AtomRow
    requires detect { IsDetect detect.now }
    requires seen { IfSome (option_copied seen) HaveDirections }
    requires since { HaveDirectionsSince state.now }
    ensures { AreAnswers
        (record { detect = detect.now; act = act.now; tick = tick }) both_power_driven state.now
        (option_copied seen.entry) (answer_of result) }
{
    let telling = Telling {
        act: *act,
        tick,
        by_rank: BOTH_POWER_DRIVEN,
    };
    row_at(state, seen, has_risk(detect, seen), &telling)
}

/// Returns the same row with these ranks at the start of the engagement: whether A gives way to B by rank (Rule 18),
/// whether B gives way to A, and whether both are power-driven.
pub fn with_ranks(row: &AtomRow, gives: bool, stands: bool, both_power: bool) -> AtomRow
    ensures { (terms : Terms) (before : ByRank) (state : EngagementState) (seen : Option PairStep)
        → AreAnswers terms before state seen (answer_of row.now)
        → AreAnswers terms
        (record { gives = gives; stands = stands; both_power = both_power }) state seen
        (answer_of result) }
{
    AtomRow {
        by_rank: ByRank {
            gives,
            stands,
            both_power,
        },
        ..*row
    }
}
