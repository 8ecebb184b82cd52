//! Following own ship's path in a leg towards a target.
ghost use Rattle.std.specs.Prelude.{◌≡◌, ◌+◌, ◌<◌, ◌↔◌, IsTrue, false, length};
ghost use Rattle.mtl_monitor.specs.Following.{Fits, HasRoom};
ghost use Rattle.mtl_formulas.specs.Traces.{Trace};
ghost use Rattle.planner.specs.Inner.Legs.{IsPathIn, IsPlannedLeg};
ghost use Rattle.planner.specs.Inner.Watching.{IsCut, IsEarly, IsFollowed, IsReady, IsTowards, Stands};
ghost use Rattle.plan_situations.specs.Boxes.{ahead_from, HoldsPath};
ghost use Rattle.plan_situations.specs.FailingPlans.{EntersDomain, FailsTowards};
ghost use Rattle.meetings.specs.Traces.{IsContactAt};
ghost use Rattle.plan_situations.specs.Prefixes.{reached};
ghost use Rattle.plan_situations.specs.Situations.{now_of, own_at, target_at};

use crate::already::Already;
use crate::legs::PlannedLeg;
use crate::watched::Watched;
use motion::TickState;
use mtl_monitor::{Program, TraceState};
use plan_situations::{Bounds, Situation, Target};

/// A target of a situation, the rules as one program, and what is broken at now towards her.
#[derive(Clone, Copy)]
pub(crate) struct Towards<'a> {
    pub(crate) situation: &'a Situation,
    pub(crate) program: &'a Program,
    /// Whether no rule is broken at a position before all rows came that it reaches.
    pub(crate) no_last: bool,
    pub(crate) target: &'a Target,
    pub(crate) already: &'a Already,
}

impl Towards<'_> {
    /// Returns whether both are in contact at a step of the path. A trace that has begun needs no contact: then it is not asked.
    #[inline(always)]
    fn is_contact(&self, leg: &PlannedLeg, path: &[TickState], begun: bool, j: usize) -> bool
        requires towards { IsTowards self.now }
        requires path { IsPathIn self.now.situation.now leg.now path.now }
        requires tick { j < length path.now }
        ensures { begun ≡ false
            → (IsTrue result ↔ IsContactAt (own_at self.now.situation.now leg.now.plan)
            (target_at self.now.situation.now self.now.target.now)
            self.now.situation.now.detect.watch
            (now_of self.now.situation.now + leg.now.begins + j)) }
    {
        if begun {
            return true;
        }
        self.situation
            .is_contact_on(path, self.target, leg.begins, j)
    }

    /// Follows own ship's path in a leg. Returns whether some row decides a position as newly
    /// broken.
    fn follow(&self, leg: &PlannedLeg, path: &[TickState], watched: &mut Watched) -> bool
        requires towards { IsTowards self.now }
        requires leg { IsPlannedLeg self.now.situation.now leg.now }
        requires path { IsPathIn self.now.situation.now leg.now path.now }
        requires ready { IsReady self.now.program.now watched.old }
        requires early { IsEarly (reached self.now.situation.now leg.now.index) watched.old }
        ensures ready { IsReady self.now.program.now watched.new }
        ensures early { result ≡ false
            → IsEarly (reached self.now.situation.now (leg.now.index + 1)) watched.new }
        ensures followed { IsFollowed self.now leg.now.plan
            (reached self.now.situation.now leg.now.index)
            (reached self.now.situation.now (leg.now.index + 1)) watched.old watched.new result }
    {
        for j in 0..path.len() - 1 {
            let in_contact = self.is_contact(leg, path, watched.has_begun(), j);
            let seen = self.situation.step_on(path, self.target, leg.begins, j);
            if watched.take_planned(self, in_contact, seen.as_ref()) {
                return true;
            }
        }
        false
    }

    /// The same from what is kept of the target after other legs, which is taken over first.
    pub(crate) fn follow_from(
        &self,
        leg: &PlannedLeg,
        path: &[TickState],
        from: &Watched,
        watched: &mut Watched,
    ) -> bool
        requires towards { IsTowards self.now }
        requires leg { IsPlannedLeg self.now.situation.now leg.now }
        requires path { IsPathIn self.now.situation.now leg.now path.now }
        requires from { IsReady self.now.program.now from.now }
        requires early { IsEarly (reached self.now.situation.now leg.now.index) from.now }
        requires ready { IsReady self.now.program.now watched.old }
        ensures ready { IsReady self.now.program.now watched.new }
        ensures early { result ≡ false
            → IsEarly (reached self.now.situation.now (leg.now.index + 1)) watched.new }
        ensures followed { IsFollowed self.now leg.now.plan
            (reached self.now.situation.now leg.now.index)
            (reached self.now.situation.now (leg.now.index + 1)) from.now watched.new result }
    {
        watched.copy_from(self.program, from);
        self.follow(leg, path, watched)
    }

    /// Returns whether a plan fails towards the target by the end of one of its legs, if own ship did not enter the
    /// domain before. What is kept of the target after other legs is taken over first. `ending` is another state of the
    /// program, whose places serve for a look at the trace's end.
    pub(crate) fn fails_by(
        &self,
        leg: &PlannedLeg,
        path: &[TickState],
        from: &Watched,
        watched: &mut Watched,
        ending: &mut TraceState,
        bounds: &Bounds,
        beside: &Bounds,
    ) -> bool
        requires towards { IsTowards self.now }
        requires leg { IsPlannedLeg self.now.situation.now leg.now }
        requires path { IsPathIn self.now.situation.now leg.now path.now }
        requires from { IsReady self.now.program.now from.now }
        requires early { IsEarly (reached self.now.situation.now leg.now.index) from.now }
        requires ready { IsReady self.now.program.now watched.old }
        requires fits { Fits self.now.program.now ending.old }
        requires room { HasRoom self.now.program.now ending.old }
        requires bounds { HoldsPath bounds.now path.now }
        requires beside { HoldsPath beside.now
            (ahead_from self.now.target.now leg.now.begins (length path.now)) }
        ensures ready { IsReady self.now.program.now watched.new }
        ensures fits { Fits self.now.program.now ending.new }
        ensures room { HasRoom self.now.program.now ending.new }
        ensures early { result ≡ false
            → IsEarly (reached self.now.situation.now (leg.now.index + 1)) watched.new }
        ensures stands { result ≡ false → (cut : Trace) → IsCut self.now cut
            → Stands self.now.program.now self.now.situation.now leg.now.plan self.now.target.now
            cut (reached self.now.situation.now leg.now.index) from.now
            → Stands self.now.program.now self.now.situation.now leg.now.plan self.now.target.now
            cut (reached self.now.situation.now (leg.now.index + 1)) watched.new }
        ensures fails { (cut : Trace) → IsCut self.now cut
            → Stands self.now.program.now self.now.situation.now leg.now.plan self.now.target.now
            cut (reached self.now.situation.now leg.now.index) from.now
            → (¬ EntersDomain self.now.situation.now leg.now.plan
            (reached self.now.situation.now leg.now.index) self.now.target.now)
            → IsTrue result ↔ FailsTowards self.now.situation.now leg.now.plan
            (reached self.now.situation.now (leg.now.index + 1)) self.now.target.now }
    {
        if self
            .situation
            .enters_beside(path, self.target, leg.begins, bounds, beside)
        {
            return true;
        }
        if self.follow_from(leg, path, from, watched) {
            return true;
        }
        watched.ends_newly_broken(self, ending)
    }
}
