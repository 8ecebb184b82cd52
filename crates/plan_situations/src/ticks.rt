//! Own ship and a target, tick by tick.
ghost use Rattle.std.specs.Prelude.{ℕ, ◌≡◌, ◌+◌, ◌≤◌, ◌<◌, ◌^◌, ◌↔◌, IfSome, IsTrue, Some};
ghost use Rattle.encounters.specs.Directions.{HasDirection, HaveDirections};
ghost use Rattle.fixed_geometry.specs.Sizes.{IsBelow};
ghost use Rattle.motion.specs.Displacement.{displacement};
ghost use Rattle.lattice.specs.Grids.{choices_of, positions_of};
ghost use Rattle.lattice.specs.PlanNumbers.{IsPlan};
ghost use Rattle.meetings.specs.Traces.{IsContactAt, IsPlaced, IsShortMove, step_at};
ghost use Rattle.plan_situations.specs.Situations.{end_of, now_of, own_at, planned_state, target_at, IsSituation, IsTarget};

use crate::situation::{Situation, Target};
use encounters::PairStep;
use lattice::Plan;
use meetings::{contact, step_between};
use motion::TickState;

impl Situation {
    /// Returns the tick of now.
    pub fn now(&self) -> u32
        requires { IsSituation self.now }
        ensures value { result ≡ now_of self.now }
        ensures some { 1 ≤ result }
        ensures few { result ≤ 20000 }
    {
        self.own_past.as_slice().len() as u32 - 1
    }

    /// Returns the last planned tick.
    pub fn end(&self) -> u32
        requires { IsSituation self.now }
        ensures value { result ≡ end_of self.now }
        ensures few { result ≤ 27200 }
    {
        self.now() + self.lattice.positions()
    }

    /// Own ship's state under a plan, this many ticks after now.
    pub fn own_ahead(&self, plan: &Plan, k: u32) -> TickState
        requires situation { IsSituation self.now }
        requires plan { IsPlan (choices_of self.now.lattice) self.now.lattice.legs plan.now }
        requires planned { k ≤ positions_of self.now.lattice }
        ensures value { result ≡ planned_state self.now plan.now k }
        ensures placed { IsBelow (2 ^ 33) result.point }
        ensures heads { HasDirection result }
        ensures moves { (before : ℕ) → k ≡ before + 1
            → IsBelow (2 ^ 25)
            (displacement (planned_state self.now plan.now before).point result.point) }
    {
        self.lattice.own_motion(&self.start, plan, self.tick, k)
    }

    /// Own ship's state at a tick under a plan.
    pub fn own_at(&self, plan: &Plan, k: u32) -> Option<TickState>
        requires situation { IsSituation self.now }
        requires plan { IsPlan (choices_of self.now.lattice) self.now.lattice.legs plan.now }
        requires planned { k ≤ end_of self.now }
        ensures value { result ≡ own_at self.now plan.now k }
        ensures placed { IsPlaced result }
        ensures heads { IfSome result HasDirection }
        ensures moves { (before : ℕ) → k ≡ before + 1
            → IsShortMove (own_at self.now plan.now before) result }
    {
        let now = self.now();
        if k < now {
            self.own_past.as_slice()[k as usize]
        } else {
            Some(self.own_ahead(plan, k - now))
        }
    }

    /// Returns a target's state this many ticks after now.
    pub(crate) fn target_ahead(&self, target: &Target, k: u32) -> TickState
        requires target { IsTarget self.now target.now }
        requires planned { k ≤ positions_of self.now.lattice }
        ensures { target_at self.now target.now (now_of self.now + k) ≡ Some result }
    {
        target.ahead.as_slice()[k as usize]
    }

    /// Returns a target's state at a tick.
    pub fn target_at(&self, target: &Target, k: u32) -> Option<TickState>
        requires situation { IsSituation self.now }
        requires target { IsTarget self.now target.now }
        requires planned { k ≤ end_of self.now }
        ensures { result ≡ target_at self.now target.now k }
    {
        let now = self.now();
        if k < now {
            target.past.as_slice()[k as usize]
        } else {
            Some(self.target_ahead(target, k - now))
        }
    }

    /// Returns the step of both from a tick to the next.
    pub fn step_at(&self, plan: &Plan, target: &Target, k: u32) -> Option<PairStep>
        requires situation { IsSituation self.now }
        requires plan { IsPlan (choices_of self.now.lattice) self.now.lattice.legs plan.now }
        requires target { IsTarget self.now target.now }
        requires planned { k < end_of self.now }
        ensures value { result
            ≡ step_at (own_at self.now plan.now) (target_at self.now target.now) k }
        ensures heads { IfSome result HaveDirections }
    {
        let own = self.own_at(plan, k);
        let own_next = self.own_at(plan, k + 1);
        let other = self.target_at(target, k);
        let other_next = self.target_at(target, k + 1);
        step_between(
            own.as_ref(),
            other.as_ref(),
            own_next.as_ref(),
            other_next.as_ref(),
        )
    }

    /// Returns whether both are seen at a tick, near enough that a trace begins.
    pub fn are_in_contact(&self, plan: &Plan, target: &Target, k: u32) -> bool
        requires situation { IsSituation self.now }
        requires plan { IsPlan (choices_of self.now.lattice) self.now.lattice.legs plan.now }
        requires target { IsTarget self.now target.now }
        requires planned { k ≤ end_of self.now }
        ensures { IsTrue result
            ↔ IsContactAt (own_at self.now plan.now)
            (target_at self.now target.now) self.now.detect.watch k }
    {
        match (self.own_at(plan, k), self.target_at(target, k)) {
            (Some(own), Some(other)) => contact(&own, &other, self.detect.watch),
            _ => false,
        }
    }
}
