//! A pair's rows, one at a time.
ghost use Rattle.std.specs.Prelude.{ℕ, ◌≡◌, ◌<◌, ◌^◌, ◌++◌, ◌∷◌, [], List, Option, length, IfSome};
ghost use Rattle.std.specs.Option.{option_copied};
ghost use Rattle.encounters.specs.Directions.{HaveDirections, HaveDirectionsSince};
ghost use Rattle.encounters.specs.Risk.{IsDetect};
ghost use Rattle.encounters.specs.Standing.{IsStateAfter};
ghost use Rattle.encounters.specs.declared.pair_step.PairStep.{PairStep};
ghost use Rattle.meetings.specs.Atoms.{IsAtomRow, IsRankedRow};
ghost use Rattle.meetings.specs.Answers.{answer_of};
ghost use Rattle.meetings.specs.Inner.Beginning.{since_beginning};
ghost use Rattle.meetings.specs.Ranks.{SaysOnly};
ghost use Rattle.meetings.specs.SinceBeginning.{age_of};
ghost use Rattle.meetings.specs.Standing.{Follows, FollowsRanked};
ghost use Rattle.meetings.specs.Terms.{Terms};
ghost use Rattle.meetings.specs.declared.by_rank.ByRank.{ByRank};

use crate::atom_row::AtomRow;
use crate::atoms::{Telling, row_at};
use crate::by_rank::{BOTH_POWER_DRIVEN, ByRank};
use encounters::{Act, Detect, Engagement, EngagementState, PairStep};
use std::marker::Model;

/// Follows an ordered pair (A, B) step by step, and returns the row of each step. Its model is its numbers and the list
/// of the steps so far, with the duties by rank at each.
#[derive(Clone, Copy)]
pub struct Follower {
    telling: Telling,
    engagement: Engagement,
}

impl Model for Follower {
    ghost use Rattle.meetings.specs.Standing.{Following};

    ghost Value = { Following };

    ghost view = { λ f.
        record {
          act = f.telling.act;
          tick = f.telling.tick;
          engagement = f.engagement;
          by_rank = f.telling.by_rank;
        } };

    ghost inverse = { λ f.
        record {
          telling = record { act = f.act; tick = f.tick; by_rank = f.by_rank };
          engagement = f.engagement;
        } };
}

/// Stores the duties by rank now, if an engagement begins. It asks for them only then, because this must find two
/// vessels.
#[inline(always)]
fn keep_at_beginning<F: FnOnce() -> ByRank>(kept: &mut ByRank, state: &EngagementState, now: F)
    requires { age_of state.now ≡ Some 0 → F.pre now }
    ensures { (said : ByRank) → SaysOnly (F.post now) said
        → kept.new ≡ since_beginning state.now kept.old said }
{
    if let EngagementState::Engaged { age: 0, .. } = state {
        *kept = now();
    }
}

impl Follower {
    /// Returns a pair before its first step. A tick lasts `tick` seconds.
    pub fn new(detect: Detect, act: Act, tick: u32) -> Follower
        requires { IsDetect detect }
        ensures { Follows result (record { detect = detect; act = act; tick = tick }) [] }
    {
        Follower {
            telling: Telling {
                act,
                tick,
                by_rank: BOTH_POWER_DRIVEN,
            },
            engagement: Engagement::new(detect),
        }
    }

    /// Takes the next step, at which both are seen or not, of vessels with unknown ranks; returns its row. Over fewer
    /// than 2^31 steps the row has the atoms' values at that step, with both vessels power-driven. Directions are below
    /// 3600.
    #[inline(always)]
    pub fn step(&mut self, seen: Option<&PairStep>) -> AtomRow
        requires { IfSome (option_copied seen) HaveDirections }
        ensures row { (terms : Terms) (steps : List (Option PairStep)) → length steps < 2 ^ 31
            → Follows self.old terms steps
            → IsAtomRow terms (steps ++ option_copied seen.entry ∷ []) (length steps)
            (answer_of result) }
        ensures follows { (terms : Terms) (steps : List (Option PairStep)) → length steps < 2 ^ 31
            → Follows self.old terms steps
            → Follows self.new terms (steps ++ option_copied seen.entry ∷ []) }
    {
        self.step_ranked(seen, || BOTH_POWER_DRIVEN)
    }

    /// Takes the next step, at which both are seen or not; returns its row. `by_rank` returns the duties by rank at the
    /// step and is called only if an engagement begins. Over fewer than 2^31 steps the row has the atoms' values at
    /// that step, by the ranks at the step at which the engagement began. Directions are below 3600.
    #[inline(always)]
    pub fn step_ranked<F: FnOnce() -> ByRank>(
        &mut self,
        seen: Option<&PairStep>,
        by_rank: F,
    ) -> AtomRow
        requires directions { IfSome (option_copied seen) HaveDirections }
        requires by_rank { F.pre by_rank }
        ensures row { (terms : Terms) (ranks : ℕ → ByRank) (steps : List (Option PairStep))
            → length steps < 2 ^ 31 → SaysOnly (F.post by_rank) (ranks (length steps))
            → FollowsRanked self.old terms ranks steps
            → IsRankedRow terms ranks (steps ++ option_copied seen.entry ∷ []) (length steps)
            (answer_of result) }
        ensures follows { (terms : Terms) (ranks : ℕ → ByRank) (steps : List (Option PairStep))
            → length steps < 2 ^ 31 → SaysOnly (F.post by_rank) (ranks (length steps))
            → FollowsRanked self.old terms ranks steps
            → FollowsRanked self.new terms ranks (steps ++ option_copied seen.entry ∷ []) }
    {
        let risk = self.engagement.take(seen);
        let state = self.engagement.latest();
        keep_at_beginning(&mut self.telling.by_rank, state, by_rank);
        row_at(state, seen, risk, &self.telling)
    }

    /// Returns the state of the engagement at the latest step; apart before the first.
    pub fn state(&self) -> EngagementState
        ensures { (terms : Terms) (ranks : ℕ → ByRank) (steps : List (Option PairStep)) →
            FollowsRanked self.now terms ranks steps → IsStateAfter terms.detect steps result }
    {
        self.engagement.state()
    }
}
