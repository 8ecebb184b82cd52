//! The trace of own ship and a target, as far as it was needed.
ghost use Rattle.std.specs.Prelude.{ℕ, ◌≡◌, ◌+◌, ◌-◌, ◌<◌, ◌≤◌, ◌↔◌, List, IfOk, IfSome, IsTrue, MatchOption, OnOk, length, take};
ghost use Rattle.std.specs.Option.{option_copied};
ghost use Rattle.meetings.specs.Standing.{Follows};
ghost use Rattle.meetings.specs.Traces.{steps_from, IsContactAt};
ghost use Rattle.rule_set.specs.NamedTrees.{rule_at};
ghost use Rattle.plan_situations.specs.FailingPlans.{BeginsAt, BreaksAt};
ghost use Rattle.plan_situations.specs.Situations.{end_of, now_of, own_at, target_at, terms_of, IsSituation, IsTarget};
ghost use Rattle.plan_situations.specs.declared.situation.Situation.{Situation};
ghost use Rattle.plan_situations.specs.declared.situation.Target.{Target};

use crate::course::Course;
use crate::goodness::horizon;
use crate::prefix::{Prefix, legs_in_common};
use meetings::{AtomRow, Follower};
use out_of_memory::Memory;
use plan_situations::{Situation, Target};
use std::alloc::Global;

/// The rows of the trace under a plan, from the tick at which it begins, and what follows both vessels after each. No row is kept of a trace that has
/// not begun.
#[derive(Drop)]
pub(crate) struct TraceSoFar {
    plan: Prefix,
    start: u32,
    rows: Vec<AtomRow>,
    followers: Vec<Follower>,
}

impl TraceSoFar {
    ghost use Rattle.refutations.specs.Inner.Replays.{situation_in, told_to, IsCourse, IsTraceSoFar};

    /// Returns a trace without rows.
    pub(crate) fn new(alloc: Global, course: &Course<'_>) -> TraceSoFar
        requires { IsCourse course.now }
        ensures { (target : Target)
            → IsTraceSoFar (situation_in course.now) result.plan target result }
    {
        TraceSoFar {
            plan: Prefix::of(alloc, course.plan.choices()),
            start: 0,
            rows: Vec::new(alloc),
            followers: Vec::new(alloc),
        }
    }

    /// Drops the rows of the steps after a tick.
    fn shorten(&mut self, end: u32)
        ensures trace { (situation : Situation) (plan : List ℕ) (target : Target)
            → IsTraceSoFar situation plan target self.old
            → IsTraceSoFar situation plan target self.new }
        ensures short { told_to self.new ≤ end }
        ensures plan { self.new.plan ≡ self.old.plan }
    {
        if end < self.start {
            self.start = end;
            self.rows.truncate(0);
            self.followers.truncate(0);
            return;
        }
        let left = (end - self.start) as usize;
        self.rows.truncate(left);
        self.followers.truncate(left);
    }

    /// Changes to the plan of a course, and keeps what the common legs determine.
    pub(crate) fn turn_to(&mut self, alloc: Global, course: &Course<'_>)
        requires course { IsCourse course.now }
        ensures trace { (target : Target)
            → IsTraceSoFar (situation_in course.now) self.old.plan target self.old
            → IsTraceSoFar (situation_in course.now) course.now.plan target self.new }
        ensures plan { self.new.plan ≡ course.now.plan }
    {
        let legs = legs_in_common(self.plan.choices(), course.plan.choices());
        self.shorten(horizon(course.situation, legs));
        self.plan = Prefix::of(alloc, course.plan.choices());
    }

    /// Returns the tick at which the trace begins, if there is one up to the horizon.
    fn begun(&mut self, course: &Course<'_>, target: &Target, until: u32) -> Option<u32>
        requires course { IsCourse course.now }
        requires target { IsTarget (situation_in course.now) target.now }
        requires trace { IsTraceSoFar
            (situation_in course.now) course.now.plan target.now self.old }
        requires until { until ≤ end_of (situation_in course.now) }
        ensures trace { IsTraceSoFar (situation_in course.now) course.now.plan target.now self.new }
        ensures begins { MatchOption result
            ((k : ℕ) → k < until
            → ¬ IsContactAt (own_at (situation_in course.now) course.now.plan)
            (target_at (situation_in course.now) target.now)
            (situation_in course.now).detect.watch k)
            (BeginsAt (situation_in course.now) course.now.plan until target.now) }
        ensures start { IfSome result (λ start. self.new.start ≡ start) }
        ensures plan { self.new.plan ≡ self.old.plan }
    {
        if self.rows.is_empty() {
            self.start = course.situation.trace_start(&course.plan, target, until)?;
        }
        if self.start < until {
            Some(self.start)
        } else {
            None
        }
    }

    /// What follows both after the last row.
    fn follower(&self, situation: &Situation) -> Follower
        requires { IsSituation situation.now }
        ensures { (plan : List ℕ) (target : Target)
            → IsTraceSoFar situation.now plan target self.now
            → Follows result (terms_of situation.now)
            (steps_from (own_at situation.now plan) (target_at situation.now target) self.now.start
            (length self.now.rows.items)) }
    {
        match self.followers.as_slice().last() {
            Some(follower) => *follower,
            None => Follower::new(situation.detect, situation.act, situation.tick),
        }
    }

    /// Adds the rows of the steps up to a horizon to those of a trace that has begun.
    fn follow(&mut self, course: &Course<'_>, target: &Target, until: u32) -> Result<(), Memory>
        requires course { IsCourse course.now }
        requires target { IsTarget (situation_in course.now) target.now }
        requires trace { IsTraceSoFar
            (situation_in course.now) course.now.plan target.now self.old }
        requires begins { BeginsAt
            (situation_in course.now) course.now.plan until target.now self.old.start }
        requires until { until ≤ end_of (situation_in course.now) }
        ensures trace { OnOk result
            (IsTraceSoFar (situation_in course.now) course.now.plan target.now self.new) }
        ensures long { OnOk result (until ≤ told_to self.new) }
        ensures start { OnOk result (self.new.start ≡ self.old.start) }
        ensures plan { OnOk result (self.new.plan ≡ self.old.plan) }
    {
        let mut follower = self.follower(course.situation);
        for k in self.start + self.rows.len() as u32..until {
            let row = follower.step(course.step_at(target, k).as_ref());
            self.rows.push(row)?;
            self.followers.push(follower)?;
        }
        Ok(())
    }

    /// Returns the rows up to a horizon.
    fn rows_up_to(&self, until: u32) -> &[AtomRow]
        requires from { self.now.start ≤ until }
        requires long { until ≤ told_to self.now }
        ensures { result.now ≡ take (until - self.now.start) self.now.rows.items }
    {
        &self.rows[..(until - self.start) as usize]
    }

    /// Returns whether the rule with an index is newly broken at the position of the step that begins at a tick. The
    /// trace is that under the course's plan.
    pub(crate) fn breaks_at(
        &mut self,
        course: &Course<'_>,
        target: &Target,
        until: u32,
        rule: usize,
        step: u32,
    ) -> Result<bool, Memory>
        requires course { IsCourse course.now }
        requires target { IsTarget (situation_in course.now) target.now }
        requires trace { IsTraceSoFar
            (situation_in course.now) course.now.plan target.now self.old }
        requires from_now { now_of (situation_in course.now) ≤ until }
        requires until { until ≤ end_of (situation_in course.now) }
        requires known { rule < length (situation_in course.now).rules }
        ensures trace { OnOk result
            (IsTraceSoFar (situation_in course.now) course.now.plan target.now self.new) }
        ensures plan { OnOk result (self.new.plan ≡ self.old.plan) }
        ensures breaks { IfOk result
            (λ breaks. IsTrue breaks
            ↔ BreaksAt (situation_in course.now) course.now.plan until target.now
            (rule_at (situation_in course.now).rules rule).tree step) }
    {
        if step >= until {
            return Ok(false);
        }
        let Some(start) = self.begun(course, target, until) else {
            return Ok(false);
        };
        if step < start {
            return Ok(false);
        }
        self.follow(course, target, until)?;
        let cut = course.situation.now().saturating_sub(start) as usize;
        let position = (step - start) as usize;
        let rows = self.rows_up_to(until);
        Ok(
            course
                .situation
                .is_newly_broken_in(rows, cut, rule, position),
        )
    }
}
