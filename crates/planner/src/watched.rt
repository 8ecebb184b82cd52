//! The state of a target while a plan is followed.
ghost use Rattle.std.specs.Prelude.{ℕ, ◌≡◌, ◌+◌, ◌<◌, ◌≤◌, ◌^◌, ◌↔◌, ◌||◌, IfOk, IfSome, IsTrue, List, false, true};
ghost use Rattle.std.specs.Option.{option_copied};
ghost use Rattle.encounters.specs.Directions.{HaveDirections};
ghost use Rattle.encounters.specs.Risk.{IsDetect};
ghost use Rattle.mtl_formulas.specs.FormulaTree.{FormulaTree};
ghost use Rattle.mtl_monitor.specs.Following.{count_of, fed_of, past_of, AreStatesOf, Fits, Follows, HasRoom, IsProgramOf};
ghost use Rattle.mtl_formulas.specs.Traces.{Trace};
ghost use Rattle.plan_situations.specs.FailingPlans.{BreaksARule};
ghost use Rattle.planner.specs.Inner.Breaking.{formulas_of, Tells};
ghost use Rattle.planner.specs.Inner.Watching.{IsCopyOf, IsCut, IsFollowed, IsReady, IsStepAt, IsTowards, Stands, StandsFor};
ghost use Rattle.plan_situations.specs.Situations.{now_of};
ghost use Rattle.plan_situations.specs.declared.situation.Situation.{Situation};
ghost use Rattle.plan_situations.specs.declared.situation.Target.{Target};

use crate::already::{Already, is_calm_now};
use crate::towards::Towards;
use encounters::{Act, Detect, PairStep};
use meetings::Follower;
use mtl_monitor::{Program, TraceState};
use out_of_memory::Memory;
use std::alloc::Global;

/// The trace towards a target: whether it has begun, the engagement, the values of the rules' formulas, and how many rows have come
/// from now on.
#[derive(Drop)]
pub(crate) struct Watched {
    begun: bool,
    /// Whether it is known that each rule has a last value, and that none of these is No.
    calm: bool,
    follower: Follower,
    values: TraceState,
    since_now: u32,
}

/// Returns whether the trace has begun once a step is taken.
fn begins(before: bool, in_contact: bool) -> bool
    ensures { result ≡ (before || in_contact) }
{
    before || in_contact
}

/// Returns whether no last value is No after a row, by whether none was No before and whether the row may change one.
fn stays_calm(calm: bool, changes: bool) -> bool
    ensures { IsTrue result → IsTrue calm × (changes ≡ false) }
{
    calm && !changes
}

impl Watched {
    /// Returns the state before the first step.
    pub(crate) fn new(
        alloc: Global,
        program: &Program,
        detect: Detect,
        act: Act,
        tick: u32,
    ) -> Result<Watched, Memory>
        requires { IsDetect detect }
        ensures ready { IfOk result (IsReady program.now) }
        ensures fed { IfOk result (λ watched. fed_of watched.values ≡ 0) }
        ensures since { IfOk result (λ watched. watched.since_now ≡ 0) }
        ensures stands { IfOk result
            (λ watched. (situation : Situation) (plan : List ℕ) (target : Target)
            → IsProgramOf program.now (formulas_of situation) → situation.detect ≡ detect
            → situation.act ≡ act → situation.tick ≡ tick
            → StandsFor program.now situation plan target 0 watched) }
    {
        Ok(Watched {
            begun: false,
            calm: false,
            follower: Follower::new(detect, act, tick),
            values: TraceState::new(alloc, program)?,
            since_now: 0,
        })
    }

    /// Returns whether the trace has begun.
    pub(crate) fn has_begun(&self) -> bool
        ensures { result ≡ self.now.begun }
    {
        self.begun
    }

    /// Takes over what is kept of the same target after other steps. This takes no memory. The rules are asked again at the next row.
    pub(crate) fn copy_from(&mut self, program: &Program, other: &Watched)
        requires { AreStatesOf program.now self.old.values other.now.values }
        ensures { IsCopyOf self.new other.now }
    {
        self.begun = other.begun;
        self.calm = false;
        self.follower = other.follower;
        self.values.copy_from(program, &other.values);
        self.since_now = other.since_now;
    }

    /// Takes a step. The vessels are in contact at its first tick, or are not, which counts until the trace has begun; it is seen, or is not.
    pub(crate) fn take(&mut self, program: &Program, in_contact: bool, seen: Option<&PairStep>)
        requires ready { IsReady program.now self.old }
        requires few { fed_of self.old.values < 2 ^ 31 }
        requires heads { IfSome (option_copied seen) HaveDirections }
        ensures ready { IsReady program.now self.new }
        ensures since { self.new.since_now ≡ self.old.since_now }
        ensures fed { self.new.begun ≡ true → fed_of self.new.values ≡ fed_of self.old.values + 1 }
        ensures unfed { self.new.begun ≡ false → fed_of self.new.values ≡ fed_of self.old.values }
        ensures stands { (situation : Situation) (plan : List ℕ) (target : Target) (at : ℕ)
            → StandsFor program.now situation plan target at self.old
            → IsStepAt situation plan target at self.old.begun in_contact (option_copied seen.entry)
            → StandsFor program.now situation plan target (at + 1) self.new }
    {
        self.begun = begins(self.begun, in_contact);
        if self.begun {
            let row = self.follower.step(seen);
            let changes = self.values.feed(program, &row);
            self.calm = stays_calm(self.calm, changes);
        }
    }

    /// Takes a step from now on, and returns whether it decides some position as newly broken.
    pub(crate) fn take_planned(
        &mut self,
        towards: &Towards<'_>,
        in_contact: bool,
        seen: Option<&PairStep>,
    ) -> bool
        requires towards { IsTowards towards.now }
        requires ready { IsReady towards.now.program.now self.old }
        requires few { fed_of self.old.values < 2 ^ 30 }
        requires since { self.old.since_now < 2 ^ 30 }
        requires heads { IfSome (option_copied seen) HaveDirections }
        ensures ready { IsReady towards.now.program.now self.new }
        ensures since { self.new.since_now ≤ self.old.since_now + 1 }
        ensures fed { fed_of self.new.values ≤ fed_of self.old.values + 1 }
        ensures followed { (plan : List ℕ) (at : ℕ) → now_of towards.now.situation.now ≤ at
            → IsStepAt towards.now.situation.now plan towards.now.target.now at self.old.begun
            in_contact (option_copied seen.entry)
            → IsFollowed towards.now plan at (at + 1) self.old self.new result }
    {
        self.take(towards.program, in_contact, seen);
        if !self.begun {
            return false;
        }
        let index = self.since_now;
        self.since_now = index + 1;
        self.calm = is_calm_now(self.calm, towards.program, &self.values);
        if self.calm {
            return false;
        }
        towards
            .already
            .is_newly_broken(towards.program, &self.values, index)
    }

    /// Returns whether some position is newly broken if the trace ends here. `ending` is another state of the program,
    /// whose places serve here.
    pub(crate) fn ends_newly_broken(&self, towards: &Towards<'_>, ending: &mut TraceState) -> bool
        requires towards { IsTowards towards.now }
        requires ready { IsReady towards.now.program.now self.now }
        requires few { fed_of self.now.values < 2 ^ 30 }
        requires since { self.now.since_now < 2 ^ 30 }
        requires fits { Fits towards.now.program.now ending.old }
        requires room { HasRoom towards.now.program.now ending.old }
        ensures fits { Fits towards.now.program.now ending.new }
        ensures room { HasRoom towards.now.program.now ending.new }
        ensures breaks { (plan : List ℕ) (cut : Trace) (at : ℕ)
            → now_of towards.now.situation.now ≤ at → IsCut towards.now cut
            → Stands towards.now.program.now towards.now.situation.now plan towards.now.target.now
            cut at self.now → (IsTrue result
            ↔ BreaksARule towards.now.situation.now plan at towards.now.target.now) }
    {
        if !self.begun {
            return false;
        }
        if towards.no_last {
            return false;
        }
        ending.copy_from(towards.program, &self.values);
        for past in 0..towards.program.reach() {
            ending.pass_end(towards.program);
            let index = self.since_now + past;
            if towards
                .already
                .is_newly_broken(towards.program, ending, index)
            {
                return true;
            }
        }
        false
    }

    /// What is broken at now, after the steps before it.
    pub(crate) fn already(
        &self,
        alloc: Global,
        program: &Program,
        ending: &mut TraceState,
    ) -> Result<Already, Memory>
        requires ready { IsReady program.now self.now }
        requires few { fed_of self.now.values ≤ 2 ^ 31 }
        requires rules { count_of program.now ≤ 17 }
        requires fits { Fits program.now ending.old }
        requires room { HasRoom program.now ending.old }
        ensures fits { Fits program.now ending.new }
        ensures room { HasRoom program.now ending.new }
        ensures tells { IfOk result
            (λ already. (formulas : List FormulaTree) (rows : Trace)
            → Follows program.now self.now.values formulas rows → Tells formulas rows already) }
    {
        Already::of(alloc, program, &self.values, ending)
    }
}
