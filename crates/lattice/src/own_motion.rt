//! Own ship's motion under a plan.
ghost use Rattle.std.specs.Prelude.{◌≡◌, ◌+◌, ◌-◌, ◌*◌, ◌<◌, ◌≤◌, ℕ, length, get_or, unsigned_abs, IfSome, IsSome};
ghost use Rattle.fixed_geometry.specs.Displacement.{displacement};
ghost use Rattle.fixed_geometry.specs.Sizes.{IsWithin};
ghost use Rattle.fixed_geometry.specs.declared.velocities.TheConstants.{GREATEST_VELOCITY};
ghost use Rattle.motion.specs.TickStates.{IsTickState};
ghost use Rattle.motion.specs.declared.leg.TickState.{TickState};
ghost use Rattle.motion.specs.declared.leg.TheConstants.{FARTHEST};
ghost use Rattle.lattice.specs.Grids.{choices_of, positions_of};
ghost use Rattle.lattice.specs.OwnMotion.{own_state, point_after};
ghost use Rattle.lattice.specs.Inner.Passages.{IsPassage};
ghost use Rattle.lattice.specs.PlanNumbers.{IsPlan};
ghost use Rattle.lattice.specs.UnderWays.{HasAdvanced, IsReached, IsUnderWay};
ghost use Rattle.lattice.specs.declared.passage.TheConstants.{LONGEST_TICK};

use crate::lattice::Lattice;
use crate::passage::Passage;
use crate::plan::Plan;
use crate::under_way::UnderWay;
use motion::TickState;

impl Lattice {
    /// Returns her place, heading and speed `steps` steps after now.
    fn advanced(&self, plan: &Plan, start: UnderWay, tick: u32, steps: u32) -> UnderWay
        requires plan { IsPlan (choices_of self.now) self.now.legs plan.now }
        requires planned { steps ≤ positions_of self.now }
        requires tick { tick ≤ LONGEST_TICK }
        requires near { steps * (tick * GREATEST_VELOCITY) ≤ FARTHEST }
        requires start { IsUnderWay (FARTHEST - steps * (tick * GREATEST_VELOCITY)) start }
        ensures value { HasAdvanced self.now plan.now tick start steps result }
        ensures moved { (step : ℕ) → steps ≡ step + 1
            → IsWithin (tick * GREATEST_VELOCITY)
            (displacement (point_after self.now plan.now tick start.point start.direction
            start.speed step) result.point) }
        ensures within { IsUnderWay FARTHEST result }
        ensures near_x { unsigned_abs result.point.x
            ≤ unsigned_abs start.point.x + steps * (tick * GREATEST_VELOCITY) }
        ensures near_y { unsigned_abs result.point.y
            ≤ unsigned_abs start.point.y + steps * (tick * GREATEST_VELOCITY) }
    {
        let mut passage = self.passage(plan, start, start, tick, 0);
        for step in 0..steps {
            passage = self.stepped(plan, start, passage, tick, step);
        }
        passage.vessel
    }

    /// Returns her state at a tick, and her passage after its step; at the last planned tick no step begins.
    #[inline(always)]
    fn tick_on(
        &self,
        plan: &Plan,
        start: UnderWay,
        passage: Passage,
        tick: u32,
        k: u32,
    ) -> (TickState, Passage)
        requires plan { IsPlan (choices_of self.now) self.now.legs plan.now }
        requires tick { tick ≤ LONGEST_TICK }
        requires planned { k ≤ positions_of self.now }
        requires start { IsUnderWay FARTHEST start }
        requires passage { IsPassage self.now plan.now tick start k passage }
        requires point { IsWithin FARTHEST passage.vessel.point }
        ensures value { HasAdvanced self.now plan.now tick start k passage.vessel
            → result.0 ≡ own_state self.now plan.now tick start.point start.direction start.speed
            k }
        ensures state { IsTickState FARTHEST result.0 }
        ensures point { result.0.point ≡ passage.vessel.point }
        ensures advanced { HasAdvanced self.now plan.now tick start k passage.vessel
            → k < positions_of self.now
            → HasAdvanced self.now plan.now tick start (k + 1) result.1.vessel }
        ensures passage { k < positions_of self.now
            → IsPassage self.now plan.now tick start (k + 1) result.1 }
        ensures moved { IsWithin (tick * GREATEST_VELOCITY)
            (displacement passage.vessel.point result.1.vessel.point) }
        ensures near_x { unsigned_abs result.1.vessel.point.x
            ≤ unsigned_abs passage.vessel.point.x + tick * GREATEST_VELOCITY }
        ensures near_y { unsigned_abs result.1.vessel.point.y
            ≤ unsigned_abs passage.vessel.point.y + tick * GREATEST_VELOCITY }
    {
        let next = if k < self.positions() {
            self.stepped(plan, start, passage, tick, k)
        } else {
            passage
        };
        let state = TickState {
            point: passage.vessel.point,
            direction: Some(next.vessel.direction),
            speed: Some(next.vessel.speed),
        };
        (state, next)
    }

    /// Returns her state `k` ticks after now.
    fn state_at(&self, plan: &Plan, start: UnderWay, tick: u32, k: u32) -> TickState
        requires plan { IsPlan (choices_of self.now) self.now.legs plan.now }
        requires planned { k ≤ positions_of self.now }
        requires near { positions_of self.now * (tick * GREATEST_VELOCITY) ≤ FARTHEST }
        requires start { IsUnderWay
            (FARTHEST - positions_of self.now * (tick * GREATEST_VELOCITY)) start }
        ensures value { result
            ≡ own_state self.now plan.now tick start.point start.direction start.speed k }
        ensures moved { (step : ℕ) → k ≡ step + 1
            → IsWithin (tick * GREATEST_VELOCITY)
            (displacement (point_after self.now plan.now tick start.point start.direction
            start.speed step) result.point) }
        ensures state { IsTickState FARTHEST result }
    {
        let _some = self.positions();
        let reached = self.advanced(plan, start, tick, k);
        let passage = self.passage(plan, start, reached, tick, k);
        self.tick_on(plan, start, passage, tick, k).0
    }

    /// Returns her place, heading and speed after `steps` planned steps.
    fn reached_by(&self, plan: &Plan, start: UnderWay, tick: u32, steps: u32) -> UnderWay
        requires plan { IsPlan (choices_of self.now) self.now.legs plan.now }
        requires planned { steps ≤ positions_of self.now }
        requires near { positions_of self.now * (tick * GREATEST_VELOCITY) ≤ FARTHEST }
        requires start { IsUnderWay
            (FARTHEST - positions_of self.now * (tick * GREATEST_VELOCITY)) start }
        ensures { IsReached self.now plan.now tick start steps result }
    {
        let _some = self.positions();
        self.advanced(plan, start, tick, steps)
    }

    /// Fills in her states from tick `first`, given her place then.
    #[inline(always)]
    fn fill(
        &self,
        plan: &Plan,
        start: UnderWay,
        tick: u32,
        first: u32,
        reached: UnderWay,
        path: &mut [TickState],
    )
        requires plan { IsPlan (choices_of self.now) self.now.legs plan.now }
        requires begun { first ≤ positions_of self.now }
        requires planned { first + length path.old ≤ positions_of self.now + 1 }
        requires near { positions_of self.now * (tick * GREATEST_VELOCITY) ≤ FARTHEST }
        requires start { IsUnderWay
            (FARTHEST - positions_of self.now * (tick * GREATEST_VELOCITY)) start }
        requires reached { IsReached self.now plan.now tick start first reached }
        ensures count { length path.new ≡ length path.old }
        ensures value { (j : ℕ) (d : TickState) → j < length path.new
            → get_or path.new j d
            ≡ own_state self.now plan.now tick start.point start.direction start.speed (first + j) }
        ensures moved { (j : ℕ) (d : TickState) → j + 1 < length path.new
            → IsWithin (tick * GREATEST_VELOCITY)
            (displacement (get_or path.new j d).point (get_or path.new (j + 1) d).point) }
        ensures states { (j : ℕ) (d : TickState) → j < length path.new
            → IsTickState FARTHEST (get_or path.new j d) }
    {
        let _some = self.positions();
        let mut passage = self.passage(plan, start, reached, tick, first);
        for j in 0..path.len() {
            let (state, next) = self.tick_on(plan, start, passage, tick, first + j as u32);
            path[j] = state;
            passage = next;
        }
    }

    /// Returns own ship's place, heading and speed after this many planned steps. `start` is as for `own_motion`.
    pub fn motion_after(&self, start: &TickState, plan: &Plan, tick: u32, steps: u32) -> UnderWay
        requires plan { IsPlan (choices_of self.now) self.now.legs plan.now }
        requires course { IsSome start.now.direction }
        requires speed { IsSome start.now.speed }
        requires planned { steps ≤ positions_of self.now }
        requires near { positions_of self.now * tick * GREATEST_VELOCITY ≤ FARTHEST }
        requires start { IsTickState
            (FARTHEST - positions_of self.now * tick * GREATEST_VELOCITY) start.now }
        ensures { IfSome start.now.direction
            (λ course. IfSome start.now.speed
            (λ speed. IsReached self.now plan.now tick
            (record { point = start.now.point; direction = course; speed = speed }) steps result)) }
    {
        let start = UnderWay {
            point: start.point,
            direction: start.direction.unwrap(),
            speed: start.speed.unwrap(),
        };
        self.reached_by(plan, start, tick, steps)
    }

    /// Fills the path with own ship's states at the ticks from `first`, each equal to that of `own_motion` but computed
    /// from the previous one. `reached` is the result of `motion_after` for `first` steps.
    #[inline(always)]
    pub fn fill_motion(
        &self,
        start: &TickState,
        plan: &Plan,
        tick: u32,
        first: u32,
        reached: UnderWay,
        path: &mut [TickState],
    )
        requires plan { IsPlan (choices_of self.now) self.now.legs plan.now }
        requires course { IsSome start.now.direction }
        requires speed { IsSome start.now.speed }
        requires begun { first ≤ positions_of self.now }
        requires planned { first + length path.old ≤ positions_of self.now + 1 }
        requires near { positions_of self.now * tick * GREATEST_VELOCITY ≤ FARTHEST }
        requires start { IsTickState
            (FARTHEST - positions_of self.now * tick * GREATEST_VELOCITY) start.now }
        requires reached { IfSome start.now.direction
            (λ course. IfSome start.now.speed
            (λ speed. IsReached self.now plan.now tick
            (record { point = start.now.point; direction = course; speed = speed }) first
            reached)) }
        ensures count { length path.new ≡ length path.old }
        ensures value { IfSome start.now.direction
            (λ course. IfSome start.now.speed
            (λ speed. (j : ℕ) (d : TickState) → j < length path.new
            → get_or path.new j d
            ≡ own_state self.now plan.now tick start.now.point course speed (first + j))) }
        ensures moved { (j : ℕ) (d : TickState) → j + 1 < length path.new
            → IsWithin (tick * GREATEST_VELOCITY)
            (displacement (get_or path.new j d).point (get_or path.new (j + 1) d).point) }
        ensures states { (j : ℕ) (d : TickState) → j < length path.new
            → IsTickState FARTHEST (get_or path.new j d) }
    {
        let start = UnderWay {
            point: start.point,
            direction: start.direction.unwrap(),
            speed: start.speed.unwrap(),
        };
        self.fill(plan, start, tick, first, reached, path);
    }

    /// Returns own ship's state `k` ticks of `tick` seconds after now, under a plan of this lattice. `start` has her
    /// point, her course as direction and her speed at now.
    ///
    /// Each component of that point is at most `FARTHEST` minus `GREATEST_VELOCITY` per planned second in size, so that
    /// she stays within `FARTHEST`. From tick to tick she moves by at most `tick * GREATEST_VELOCITY` in each
    /// component.
    pub fn own_motion(&self, start: &TickState, plan: &Plan, tick: u32, k: u32) -> TickState
        requires plan { IsPlan (choices_of self.now) self.now.legs plan.now }
        requires course { IsSome start.now.direction }
        requires speed { IsSome start.now.speed }
        requires planned { k ≤ positions_of self.now }
        requires near { positions_of self.now * tick * GREATEST_VELOCITY ≤ FARTHEST }
        requires start { IsTickState
            (FARTHEST - positions_of self.now * tick * GREATEST_VELOCITY) start.now }
        ensures value { IfSome start.now.direction (λ course. IfSome start.now.speed (λ speed.
            result ≡ own_state self.now plan.now tick start.now.point course speed k)) }
        ensures moved { IfSome start.now.direction
            (λ course. IfSome start.now.speed
            (λ speed. (step : ℕ) → k ≡ step + 1
            → IsWithin (tick * GREATEST_VELOCITY)
            (displacement (point_after self.now plan.now tick start.now.point course speed step)
            result.point))) }
        ensures state { IsTickState FARTHEST result }
    {
        let start = UnderWay {
            point: start.point,
            direction: start.direction.unwrap(),
            speed: start.speed.unwrap(),
        };
        self.state_at(plan, start, tick, k)
    }
}
