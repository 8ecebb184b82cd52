//! The engagement of an ordered pair of vessels, step by step.
ghost use Rattle.std.specs.Prelude.{ℕ, ◌≡◌, ◌↔◌, ◌<◌, ◌^◌, ◌++◌, ◌∷◌, [], List, Option, length, IfSome, IsSomeAnd, IsTrue};
ghost use Rattle.std.specs.Option.{option_copied};
ghost use Rattle.encounters.specs.declared.detect.Detect.{Detect};
ghost use Rattle.encounters.specs.declared.pair_step.PairStep.{PairStep};
ghost use Rattle.encounters.specs.declared.engagement_state.EngagementState.TheVariants.{Engaged};
ghost use Rattle.encounters.specs.Directions.{HaveDirections, HaveDirectionsSince};
ghost use Rattle.encounters.specs.Engagement.{IsState, class_at};
ghost use Rattle.encounters.specs.Inner.Following.{Follows};
ghost use Rattle.encounters.specs.Risk.{HasRisk, IsDetect};
ghost use Rattle.encounters.specs.Standing.{IsStateAfter, StandsFor};

use crate::detect::Detect;
use crate::detection::{is_past_clear, risk};
use crate::engagement_state::EngagementState;
use crate::pair_step::PairStep;
use sectors::class_of;
use std::marker::Model;

/// Returns the state at the beginning of an engagement.
fn engaged_at(detect: &Detect, pair: &PairStep) -> EngagementState
    requires detect { IsDetect detect.now }
    requires pair { HaveDirections pair.now }
    ensures begins { result ≡ Engaged (class_at detect.now pair.now) 0 pair.now.a pair.now.b }
    ensures directions { HaveDirectionsSince result }
{
    EngagementState::Engaged {
        kind: class_of(
            &pair.step,
            pair.a.direction,
            pair.b.direction,
            &detect.angles,
        ),
        age: 0,
        a: pair.a,
        b: pair.b,
    }
}

/// Takes a step at which both are seen, given whether there is risk.
fn take_seen(state: &mut EngagementState, detect: &Detect, pair: &PairStep, risk: bool)
    requires detect { IsDetect detect.now }
    requires pair { HaveDirections pair.now }
    requires risk { IsTrue risk ↔ HasRisk detect.now pair.now.step }
    requires state { HaveDirectionsSince state.old }
    ensures follows { Follows detect.now state.old pair.now state.new }
    ensures directions { HaveDirectionsSince state.new }
{
    match state {
        EngagementState::Apart => {
            if risk {
                *state = engaged_at(detect, pair);
            }
        }
        EngagementState::Engaged { age, .. } => {
            if is_past_clear(detect, &pair.step, risk) {
                *state = EngagementState::Apart;
            } else {
                *age = age.saturating_add(1);
            }
        }
    }
}

/// Takes a step; returns whether there is risk at it.
fn take_step(state: &mut EngagementState, detect: &Detect, seen: Option<&PairStep>) -> bool
    requires detect { IsDetect detect.now }
    requires seen { IfSome (option_copied seen) HaveDirections }
    requires state { HaveDirectionsSince state.old }
    ensures risk { IsTrue result
        ↔ IsSomeAnd (option_copied seen.entry) (λ pair. HasRisk detect.now pair.step) }
    ensures state { (steps : List (Option PairStep)) → length steps < 2 ^ 31
        → IsStateAfter detect.now steps state.old
        → IsState detect.now (steps ++ option_copied seen.entry ∷ []) (length steps) state.new }
    ensures directions { HaveDirectionsSince state.new }
{
    match seen {
        None => {
            *state = EngagementState::Apart;
            false
        }
        Some(pair) => {
            let risk = risk(detect, &pair.step);
            take_seen(state, detect, pair, risk);
            risk
        }
    }
}

/// The engagement of an ordered pair (A, B), which takes the steps one after the other. Its model is its state, which
/// stands for its numbers and the list of the steps so far.
#[derive(Clone, Copy)]
pub struct Engagement {
    detect: Detect,
    latest: EngagementState,
}

impl Model for Engagement {
    ghost use Rattle.encounters.specs.Directions.{HaveDirectionsSince};
    ghost use Rattle.encounters.specs.Risk.{IsDetect};
    ghost use Rattle.encounters.specs.Standing.{Kept};

    ghost Value = { Kept };

    ghost view = { λ e. record { detect = e.detect; latest = e.latest } };

    ghost invariant = { λ e. IsDetect e.detect × HaveDirectionsSince e.latest };

    ghost inverse = { λ k. record { detect = k.detect; latest = k.latest } };
}

impl Engagement {
    /// Returns an engagement before its first step, with these numbers.
    pub fn new(detect: Detect) -> Engagement
        requires { IsDetect detect }
        ensures { StandsFor result detect [] }
    {
        Engagement {
            detect,
            latest: EngagementState::Apart,
        }
    }

    /// Returns its numbers.
    pub fn detect(&self) -> Detect
        ensures value { result ≡ self.now.detect }
        ensures numbers { IsDetect result }
    {
        self.detect
    }

    /// Returns the state at the latest step; apart before the first.
    pub fn state(&self) -> EngagementState
        ensures { (detect : Detect) (steps : List (Option PairStep))
            → StandsFor self.now detect steps → IsStateAfter detect steps result }
    {
        self.latest
    }

    /// Returns a reference to the same state.
    pub fn latest(&self) -> &EngagementState
        ensures value { result.now ≡ self.now.latest }
        ensures directions { HaveDirectionsSince result.now }
    {
        &self.latest
    }

    /// Takes the next step, at which both are seen or not; returns whether there is risk of collision at it. Over fewer
    /// than 2^31 steps the state is the definition's: the vessels are engaged if some step had risk, all steps since
    /// are seen, and none after it is past and clear; the kind is the class when the engagement began (Rule 13 (d): a
    /// later change of bearing does not make an overtaking vessel a crossing one). Directions are below 3600.
    #[inline(always)]
    pub fn take(&mut self, seen: Option<&PairStep>) -> bool
        requires { IfSome (option_copied seen) HaveDirections }
        ensures risk { IsTrue result
            ↔ IsSomeAnd (option_copied seen.entry) (λ pair. HasRisk self.old.detect pair.step) }
        ensures state { (detect : Detect) (steps : List (Option PairStep)) → length steps < 2 ^ 31
            → StandsFor self.old detect steps
            → IsState detect (steps ++ option_copied seen.entry ∷ [])
            (length steps) self.new.latest }
        ensures stands { (detect : Detect) (steps : List (Option PairStep)) → length steps < 2 ^ 31
            → StandsFor self.old detect steps
            → StandsFor self.new detect (steps ++ option_copied seen.entry ∷ []) }
    {
        take_step(&mut self.latest, &self.detect, seen)
    }

    /// Takes the next step and returns the state at it.
    pub fn step(&mut self, seen: Option<&PairStep>) -> EngagementState
        requires { IfSome (option_copied seen) HaveDirections }
        ensures state { (detect : Detect) (steps : List (Option PairStep)) → length steps < 2 ^ 31
            → StandsFor self.old detect steps
            → IsState detect (steps ++ option_copied seen.entry ∷ []) (length steps) result }
        ensures stands { (detect : Detect) (steps : List (Option PairStep)) → length steps < 2 ^ 31
            → StandsFor self.old detect steps
            → StandsFor self.new detect (steps ++ option_copied seen.entry ∷ []) }
        ensures directions { HaveDirectionsSince result }
    {
        self.take(seen);
        self.latest
    }
}
