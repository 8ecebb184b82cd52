//! Own ship's path in a leg, and a target's beside it.
ghost use Rattle.std.specs.Prelude.{ℕ, ◌≡◌, ◌+◌, ◌-◌, ◌<◌, ◌≤◌, ◌↔◌, IfSome, IsTrue, List, length};
ghost use Rattle.encounters.specs.Directions.{HaveDirections};
ghost use Rattle.lattice.specs.Grids.{choices_of, positions_of};
ghost use Rattle.lattice.specs.PlanNumbers.{IsPlan};
ghost use Rattle.meetings.specs.Traces.{IsContactAt, step_at};
ghost use Rattle.plan_situations.specs.Boxes.{ahead_from, HoldsPath};
ghost use Rattle.plan_situations.specs.FailingPlans.{EntersAt};
ghost use Rattle.plan_situations.specs.Paths.{EntersAlong, HasReached, IsPath, IsTrack};
ghost use Rattle.plan_situations.specs.Situations.{now_of, own_at, target_at, IsSituation, IsTarget};

use crate::boxes::Bounds;
use crate::situation::{Situation, Target};
use encounters::PairStep;
use lattice::{Plan, UnderWay};
use meetings::{contact, step_between};
use motion::TickState;

impl Situation {
    /// Where own ship is, and how she heads and moves, this many steps after now.
    pub fn own_after(&self, plan: &Plan, steps: u32) -> UnderWay
        requires situation { IsSituation self.now }
        requires plan { IsPlan (choices_of self.now.lattice) self.now.lattice.legs plan.now }
        requires planned { steps ≤ positions_of self.now.lattice }
        ensures { HasReached self.now plan.now steps result }
    {
        self.lattice
            .motion_after(&self.start, plan, self.tick, steps)
    }

    /// Fills in own ship's states under a plan at the ticks from this one on, counted from now. `own` is where she is there.
    #[inline(always)]
    pub fn fill_path(&self, plan: &Plan, first: u32, own: UnderWay, path: &mut [TickState])
        requires situation { IsSituation self.now }
        requires plan { IsPlan (choices_of self.now.lattice) self.now.lattice.legs plan.now }
        requires planned { first + length path.old ≤ positions_of self.now.lattice + 1 }
        requires some { 1 ≤ length path.old }
        requires own { HasReached self.now plan.now first own }
        ensures count { length path.new ≡ length path.old }
        ensures path { IsPath self.now plan.now first path.new }
        ensures track { IsTrack path.new }
    {
        self.lattice
            .fill_motion(&self.start, plan, self.tick, first, own, path);
    }

    /// Returns the step of a path that begins at a tick, counted from now, and of a target, this many ticks later.
    #[inline(always)]
    pub fn step_on(
        &self,
        path: &[TickState],
        target: &Target,
        first: u32,
        j: usize,
    ) -> Option<PairStep>
        requires situation { IsSituation self.now }
        requires target { IsTarget self.now target.now }
        requires track { IsTrack path.now }
        requires planned { first + length path.now ≤ positions_of self.now.lattice + 1 }
        requires step { j + 1 < length path.now }
        ensures value { (plan : List ℕ) → IsPath self.now plan first path.now
            → result ≡ step_at (own_at self.now plan) (target_at self.now target.now)
            (now_of self.now + first + j) }
        ensures heads { IfSome result HaveDirections }
    {
        let ahead = first + j as u32;
        let other = self.target_ahead(target, ahead);
        let other_next = self.target_ahead(target, ahead + 1);
        step_between(
            Some(&path[j]),
            Some(&other),
            Some(&path[j + 1]),
            Some(&other_next),
        )
    }

    /// Returns the step of both from a tick to the next, by own ship's path from now on. The search does not ask this:
    /// it stands apart, so that hers stays as it is.
    #[inline(never)]
    pub fn step_along(
        &self,
        plan: &Plan,
        path: &[TickState],
        target: &Target,
        k: u32,
    ) -> Option<PairStep>
        requires situation { IsSituation self.now }
        requires plan { IsPlan (choices_of self.now.lattice) self.now.lattice.legs plan.now }
        requires path { IsPath self.now plan.now 0 path.now }
        requires track { IsTrack path.now }
        requires planned { length path.now ≤ positions_of self.now.lattice + 1 }
        requires target { IsTarget self.now target.now }
        requires within { k + 1 < now_of self.now + length path.now }
        ensures value { result
            ≡ step_at (own_at self.now plan.now) (target_at self.now target.now) k }
        ensures heads { IfSome result HaveDirections }
    {
        let now = self.now();
        if k < now {
            self.step_at(plan, target, k)
        } else {
            self.step_on(path, target, 0, (k - now) as usize)
        }
    }

    /// Returns whether both are in contact there.
    pub fn is_contact_on(&self, path: &[TickState], target: &Target, first: u32, j: usize) -> bool
        requires situation { IsSituation self.now }
        requires target { IsTarget self.now target.now }
        requires track { IsTrack path.now }
        requires planned { first + length path.now ≤ positions_of self.now.lattice + 1 }
        requires tick { j < length path.now }
        ensures { (plan : List ℕ) → IsPath self.now plan first path.now
            → (IsTrue result ↔ IsContactAt (own_at self.now plan)
            (target_at self.now target.now) self.now.detect.watch (now_of self.now + first + j)) }
    {
        let other = self.target_ahead(target, first + j as u32);
        contact(&path[j], &other, self.detect.watch)
    }

    /// Returns whether own ship enters the target's domain in that step.
    fn enters_on(&self, path: &[TickState], target: &Target, first: u32, j: usize) -> bool
        requires situation { IsSituation self.now }
        requires target { IsTarget self.now target.now }
        requires track { IsTrack path.now }
        requires planned { first + length path.now ≤ positions_of self.now.lattice + 1 }
        requires step { j + 1 < length path.now }
        ensures { (plan : List ℕ) → IsPath self.now plan first path.now
            → (IsTrue result ↔ EntersAt self.now plan target.now (now_of self.now + first + j)) }
    {
        match self.step_on(path, target, first, j) {
            Some(pair) => self.enters(target, &pair),
            None => false,
        }
    }

    /// Returns whether she enters it in some step of the path.
    pub fn enters_along(&self, path: &[TickState], target: &Target, first: u32) -> bool
        requires situation { IsSituation self.now }
        requires target { IsTarget self.now target.now }
        requires track { IsTrack path.now }
        requires planned { first + length path.now ≤ positions_of self.now.lattice + 1 }
        requires some { 1 ≤ length path.now }
        ensures { (plan : List ℕ) → IsPath self.now plan first path.now
            → (IsTrue result ↔ EntersAlong self.now plan target.now (now_of self.now + first)
            (length path.now - 1)) }
    {
        for j in 0..path.len() - 1 {
            if self.enters_on(path, target, first, j) {
                return true;
            }
        }
        false
    }

    /// The same, by boxes first: one that holds the path, and one that holds the target at the same ticks. If they lie further apart than her
    /// domain reaches, no step is asked.
    pub fn enters_beside(
        &self,
        path: &[TickState],
        target: &Target,
        first: u32,
        bounds: &Bounds,
        beside: &Bounds,
    ) -> bool
        requires situation { IsSituation self.now }
        requires target { IsTarget self.now target.now }
        requires track { IsTrack path.now }
        requires planned { first + length path.now ≤ positions_of self.now.lattice + 1 }
        requires some { 1 ≤ length path.now }
        requires bounds { HoldsPath bounds.now path.now }
        requires beside { HoldsPath beside.now (ahead_from target.now first (length path.now)) }
        ensures { (plan : List ℕ) → IsPath self.now plan first path.now
            → (IsTrue result ↔ EntersAlong self.now plan target.now (now_of self.now + first)
            (length path.now - 1)) }
    {
        if bounds.lie_apart(beside, self.reach(target)) {
            return false;
        }
        self.enters_along(path, target, first)
    }
}
