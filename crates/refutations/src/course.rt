//! Own ship's path under a plan.
ghost use Rattle.std.specs.Prelude.{ℕ, ◌≡◌, ◌<◌, ◌≤◌, ◌+◌, ◌*◌, IfOk, IfSome, List, length};
ghost use Rattle.encounters.specs.Directions.{HaveDirections};
ghost use Rattle.lattice.specs.Grids.{choices_of, positions_of};
ghost use Rattle.lattice.specs.PlanNumbers.{IsPlan};
ghost use Rattle.meetings.specs.Traces.{step_at};
ghost use Rattle.plan_situations.specs.Paths.{HasReached, IsPath, IsTrack};
ghost use Rattle.plan_situations.specs.Situations.{end_of, own_at, target_at, IsSituation, IsTarget};
ghost use Rattle.refutations.specs.Inner.Replays.{AreBeginnings, AreSteeredAlike};

use crate::prefix::legs_in_common;
use encounters::PairStep;
use lattice::{Plan, UnderWay};
use motion::TickState;
use out_of_memory::Memory;
use plan_situations::{Situation, Target};
use std::alloc::Global;

/// A plan of a situation, and own ship's path under it from now on. Neighbours in a list have most legs in common, so a path is filled in again
/// only from the first leg that differs.
#[derive(Drop)]
pub(crate) struct Course<'a> {
    pub(crate) situation: &'a Situation,
    pub(crate) plan: Plan,
    path: Vec<TickState>,
    /// Where own ship is, and how she heads and moves, as each leg begins.
    beginnings: Vec<UnderWay>,
    /// How many of the first beginnings are those of the plan.
    known: usize,
}

/// Fills in own ship's states under a plan from a tick on, at which she is at `own`. The states before it stay.
fn refill(situation: &Situation, plan: &Plan, first: u32, own: UnderWay, path: &mut [TickState])
    requires situation { IsSituation situation.now }
    requires plan { IsPlan (choices_of situation.now.lattice) situation.now.lattice.legs plan.now }
    requires whole { length path.old ≡ positions_of situation.now.lattice + 1 }
    requires planned { first ≤ positions_of situation.now.lattice }
    requires own { HasReached situation.now plan.now first own }
    ensures whole { length path.new ≡ length path.old }
    ensures path { (other : List ℕ) → IsPath situation.now other 0 path.old
        → AreSteeredAlike situation.now other plan.now first
        → IsPath situation.now plan.now 0 path.new }
    ensures track { (other : List ℕ) → IsPath situation.now other 0 path.old → IsTrack path.old
        → AreSteeredAlike situation.now other plan.now first → IsTrack path.new }
{
    situation.fill_path(plan, first, own, &mut path[first as usize..]);
}

impl<'a> Course<'a> {
    ghost use Rattle.refutations.specs.Inner.Replays.{situation_in, IsCourse};

    /// Returns the course of the first plan.
    pub(crate) fn first(alloc: Global, situation: &'a Situation) -> Result<Course<'a>, Memory>
        requires { IsSituation situation.now }
        ensures course { IfOk result IsCourse }
        ensures situation { IfOk result (λ course. situation_in course ≡ situation.now) }
    {
        let plan = situation.lattice.plan(0);
        let own = situation.own_after(&plan, 0);
        let ticks = situation.lattice.positions() as usize + 1;
        let mut path = vec![in alloc; situation.start; ticks]?;
        situation.fill_path(&plan, 0, own, &mut path);
        let beginnings = vec![in alloc; own; usize::from(situation.lattice.legs())]?;
        Ok(Course {
            situation,
            plan,
            path,
            beginnings,
            known: 1,
        })
    }

    /// Returns where own ship is, and how she heads and moves, as the leg with this index begins. The later beginnings are forgotten.
    fn reach(&mut self, leg: usize) -> UnderWay
        requires situation { IsSituation (situation_in self.old) }
        requires plan { IsPlan (choices_of (situation_in self.old).lattice)
            (situation_in self.old).lattice.legs self.old.plan }
        requires legs { length self.old.beginnings.items ≡ (situation_in self.old).lattice.legs }
        requires leg { leg < (situation_in self.old).lattice.legs }
        requires known { self.old.known ≤ leg + 1 }
        requires beginnings { AreBeginnings (situation_in self.old) self.old.plan self.old.known
            self.old.beginnings.items }
        ensures situation { situation_in self.new ≡ situation_in self.old }
        ensures plan { self.new.plan ≡ self.old.plan }
        ensures path { self.new.path ≡ self.old.path }
        ensures legs { length self.new.beginnings.items ≡ length self.old.beginnings.items }
        ensures known { self.new.known ≡ leg + 1 }
        ensures beginnings { AreBeginnings (situation_in self.new) self.new.plan self.new.known
            self.new.beginnings.items }
        ensures own { HasReached (situation_in self.old) self.old.plan
            (leg * (situation_in self.old).lattice.leg_ticks) result }
    {
        for k in self.known..leg + 1 {
            let begins = k as u32 * self.situation.lattice.leg_ticks();
            self.beginnings[k] = self.situation.own_after(&self.plan, begins);
        }
        self.known = leg + 1;
        self.beginnings[leg]
    }

    /// Switches to another plan. This takes no memory.
    pub(crate) fn turn_to(&mut self, plan: Plan)
        requires course { IsCourse self.old }
        requires plan { IsPlan (choices_of (situation_in self.old).lattice)
            (situation_in self.old).lattice.legs plan }
        ensures course { IsCourse self.new }
        ensures situation { situation_in self.new ≡ situation_in self.old }
        ensures plan { self.new.plan ≡ plan }
    {
        let legs = legs_in_common(self.plan.choices(), plan.choices());
        let leg = legs.min(self.beginnings.len() - 1);
        self.known = self.known.min(leg + 1);
        self.plan = plan;
        let own = self.reach(leg);
        let first = leg as u32 * self.situation.lattice.leg_ticks();
        refill(self.situation, &self.plan, first, own, &mut self.path);
    }

    /// Returns the step of both from a tick to the next.
    pub(crate) fn step_at(&self, target: &Target, k: u32) -> Option<PairStep>
        requires course { IsCourse self.now }
        requires target { IsTarget (situation_in self.now) target.now }
        requires planned { k < end_of (situation_in self.now) }
        ensures value { result
            ≡ step_at (own_at (situation_in self.now) self.now.plan)
            (target_at (situation_in self.now) target.now) k }
        ensures heads { IfSome result HaveDirections }
    {
        self.situation
            .step_along(&self.plan, self.path.as_slice(), target, k)
    }
}
