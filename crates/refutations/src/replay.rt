//! The state that is reused from one entry of a list to the next, because neighbours have most legs in common.
ghost use Rattle.std.specs.Prelude.{◌≡◌, ◌<◌, ◌≤◌, ◌↔◌, get_or, IfOk, IfSome, IsTrue, OnOk, length};
ghost use Rattle.encounters.specs.Directions.{HaveDirections};
ghost use Rattle.lattice.specs.Grids.{choices_of};
ghost use Rattle.lattice.specs.PlanNumbers.{IsPlan};
ghost use Rattle.rule_set.specs.NamedTrees.{rule_at};
ghost use Rattle.plan_situations.specs.FailingPlans.{BreaksAt};
ghost use Rattle.plan_situations.specs.Situations.{end_of, now_of, IsSituation};
ghost use Rattle.plan_situations.specs.declared.situation.Target.{Target};

use crate::course::Course;
use crate::trace_so_far::TraceSoFar;
use lattice::Plan;
use out_of_memory::Memory;
use plan_situations::Situation;
use std::alloc::Global;

/// Own ship's course by the latest plan, and of each target the trace so far, computed under a plan of its own.
#[derive(Drop)]
pub(crate) struct Replay<'a> {
    pub(crate) course: Course<'a>,
    traces: Vec<TraceSoFar>,
}

impl<'a> Replay<'a> {
    ghost use Rattle.refutations.specs.Inner.Replays.{situation_in, IsReplay};

    /// Returns the state before the first entry.
    pub(crate) fn new(alloc: Global, situation: &'a Situation) -> Result<Replay<'a>, Memory>
        requires { IsSituation situation.now }
        ensures replay { IfOk result IsReplay }
        ensures situation { IfOk result (λ replay. situation_in replay.course ≡ situation.now) }
    {
        let course = Course::first(alloc, situation)?;
        let mut traces = Vec::new(alloc);
        for _target in situation.targets.as_slice() {
            traces.push(TraceSoFar::new(alloc, &course))?;
        }
        Ok(Replay { course, traces })
    }

    /// Switches to another plan.
    pub(crate) fn turn_to(&mut self, plan: Plan)
        requires replay { IsReplay self.old }
        requires plan { IsPlan (choices_of (situation_in self.old.course).lattice)
            (situation_in self.old.course).lattice.legs plan }
        ensures replay { IsReplay self.new }
        ensures situation { situation_in self.new.course ≡ situation_in self.old.course }
        ensures plan { self.new.course.plan ≡ plan }
    {
        self.course.turn_to(plan);
    }

    /// Returns whether the rule with an index is newly broken, towards the target with an index, at the position of the
    /// step that begins at a tick.
    pub(crate) fn breaks_at(
        &mut self,
        alloc: Global,
        target: usize,
        until: u32,
        rule: usize,
        step: u32,
    ) -> Result<bool, Memory>
        requires replay { IsReplay self.old }
        requires target { target < length (situation_in self.old.course).targets }
        requires from_now { now_of (situation_in self.old.course) ≤ until }
        requires until { until ≤ end_of (situation_in self.old.course) }
        requires known { rule < length (situation_in self.old.course).rules }
        ensures replay { OnOk result (IsReplay self.new) }
        ensures course { self.new.course ≡ self.old.course }
        ensures breaks { IfOk result
            (λ breaks. (d : Target)
            → IsTrue breaks ↔ BreaksAt (situation_in self.old.course) self.old.course.plan until
            (get_or (situation_in self.old.course).targets target d)
            (rule_at (situation_in self.old.course).rules rule).tree step) }
    {
        let towards = &self.course.situation.targets.as_slice()[target];
        let trace = &mut self.traces[target];
        trace.turn_to(alloc, &self.course);
        let breaks = trace.breaks_at(&self.course, towards, until, rule, step)?;
        Ok(breaks)
    }
}
