//! Why a plan fails towards a target. Each reason is asked up to a horizon, any tick from now to the last planned one: the planned trace is cut
//! there, and the horizon of a prefix of legs is the tick up to which it determines the steps.
ghost use Rattle.std.specs.Prelude.{ℕ, ◌≡◌, ◌+◌, ◌-◌, ◌≤◌, ◌<◌, ◌↔◌, length, map, IfOk, IfSome, IsSome, IsSomeAnd, IsTrue, MatchOption};
ghost use Rattle.lattice.specs.Grids.{choices_of, positions_of};
ghost use Rattle.lattice.specs.PlanNumbers.{IsPlan};
ghost use Rattle.meetings.specs.Answers.{answer_of};
ghost use Rattle.meetings.specs.Traces.{IsContactAt, step_at};
ghost use Rattle.mtl_formulas.specs.FormulaMeasures.{IsValid};
ghost use Rattle.mtl_formulas.specs.FormulaTree.{tree_of};
ghost use Rattle.mtl_formulas.specs.declared.verdict.Verdict.TheVariants.{No};
ghost use Rattle.mtl_formulas.specs.Traces.{value_in};
ghost use Rattle.rule_set.specs.NamedTrees.{rule_at};
ghost use Rattle.plan_situations.specs.Domains.{IsEntry};
ghost use Rattle.plan_situations.specs.FailingPlans.{AreTraceRows, BeginsAt, BreaksARule, BreaksAt, EntersAt, EntersDomain, IsNewlyBrokenHere};
ghost use Rattle.plan_situations.specs.Inner.FirstBroken.{IsFirstOfAll, IsFirstThere, IsRuleBroken};
ghost use Rattle.plan_situations.specs.Paths.{IsPath, IsTrack};
ghost use Rattle.plan_situations.specs.Situations.{end_of, now_of, own_at, target_at, IsSituation, IsTarget};

use crate::situation::{Situation, Target};
use closest_approach::Moment;
use lattice::Plan;
use meetings::{AtomRow, Follower};
use motion::TickState;
use mtl_formulas::{Formula, Verdict, value};
use out_of_memory::Memory;
use std::alloc::Global;

/// A rule that is newly broken.
#[derive(Clone, Copy, Debug, PartialEq, Eq)]
pub struct BrokenRule {
    /// The tick at which the step of the broken position begins.
    pub step: u32,
    /// The rule's index.
    pub rule: usize,
}

/// A domain that own ship enters.
#[derive(Clone, Copy, Debug, PartialEq, Eq)]
pub struct DomainEntry {
    /// The tick at which the step begins.
    pub step: u32,
    /// An instant of the step at which she is inside, given by numbers below 2^60: for a circle that of least distance.
    pub moment: Moment,
}

/// Returns the value of a formula at a position of a trace.
fn value_at(formula: &Formula, rows: &[AtomRow], position: usize) -> Verdict
    requires { IsValid (tree_of formula.now) }
    ensures { result ≡ value_in (map answer_of rows.now) (tree_of formula.now) position }
{
    value(formula, rows, position)
}

/// Returns whether it is No there.
fn is_broken(formula: &Formula, rows: &[AtomRow], position: usize) -> bool
    requires { IsValid (tree_of formula.now) }
    ensures { IsTrue result
        ↔ (value_in (map answer_of rows.now) (tree_of formula.now) position ≡ No) }
{
    value_at(formula, rows, position) == Verdict::No
}

/// Returns whether it is No there, and is not if the trace is cut off after this many positions.
fn is_newly_broken(formula: &Formula, rows: &[AtomRow], cut: usize, position: usize) -> bool
    requires valid { IsValid (tree_of formula.now) }
    requires cut { cut ≤ length rows.now }
    ensures { IsTrue result
        ↔ IsNewlyBrokenHere cut (map answer_of rows.now) (tree_of formula.now) position }
{
    if !is_broken(formula, rows, position) {
        return false;
    }
    !is_broken(formula, &rows[..cut], position)
}

impl Situation {
    ghost use Rattle.plan_situations.specs.Reasons.{IsFirstBroken, IsFirstEntry};

    /// Returns the tick at which the planned trace towards a target begins, if there is one up to the horizon.
    pub fn trace_start(&self, plan: &Plan, target: &Target, until: u32) -> Option<u32>
        requires situation { IsSituation self.now }
        requires plan { IsPlan (choices_of self.now.lattice) self.now.lattice.legs plan.now }
        requires target { IsTarget self.now target.now }
        requires until { until ≤ end_of self.now }
        ensures { MatchOption result
            ((k : ℕ) → k < until
            → ¬ IsContactAt (own_at self.now plan.now)
            (target_at self.now target.now) self.now.detect.watch k)
            (BeginsAt self.now plan.now until target.now) }
    {
        for k in 0..until {
            if self.are_in_contact(plan, target, k) {
                return Some(k);
            }
        }
        None
    }

    /// Own ship's states under a plan from now up to a horizon, each found from the one before.
    #[inline(never)]
    fn path_up_to(&self, alloc: Global, plan: &Plan, until: u32) -> Result<Vec<TickState>, Memory>
        requires situation { IsSituation self.now }
        requires plan { IsPlan (choices_of self.now.lattice) self.now.lattice.legs plan.now }
        requires from_now { now_of self.now ≤ until }
        requires until { until ≤ end_of self.now }
        ensures count { IfOk result (λ path. now_of self.now + length path.items ≡ until + 1) }
        ensures path { IfOk result (λ path. IsPath self.now plan.now 0 path.items) }
        ensures track { IfOk result (λ path. IsTrack path.items) }
    {
        let count = (until - self.now()) as usize + 1;
        let mut path = vec![in alloc; self.start; count]?;
        self.fill_path(plan, 0, self.own_after(plan, 0), &mut path);
        Ok(path)
    }

    /// Returns the rows of that trace.
    fn trace_rows(
        &self,
        alloc: Global,
        plan: &Plan,
        target: &Target,
        start: u32,
        until: u32,
    ) -> Result<Vec<AtomRow>, Memory>
        requires situation { IsSituation self.now }
        requires plan { IsPlan (choices_of self.now.lattice) self.now.lattice.legs plan.now }
        requires target { IsTarget self.now target.now }
        requires start { start < until }
        requires from_now { now_of self.now ≤ until }
        requires until { until ≤ end_of self.now }
        ensures rows { IfOk result
            (λ rows. AreTraceRows self.now plan.now until target.now start
            (map answer_of rows.items)) }
        ensures count { IfOk result (λ rows. length rows.items ≡ until - start) }
    {
        let path = self.path_up_to(alloc, plan, until)?;
        let mut follower = Follower::new(self.detect, self.act, self.tick);
        let mut rows = Vec::new(alloc);
        for k in start..until {
            rows.push(follower.step(self.step_along(plan, &path, target, k).as_ref()))?;
        }
        Ok(rows)
    }

    /// Returns whether the rule with an index is newly broken at a position of a trace that has these rows. The cut
    /// keeps those of the steps before now.
    pub fn is_newly_broken_in(
        &self,
        rows: &[AtomRow],
        cut: usize,
        rule: usize,
        position: usize,
    ) -> bool
        requires cut { cut ≤ length rows.now }
        requires known { rule < length self.now.rules }
        ensures { IsTrue result
            ↔ IsNewlyBrokenHere cut (map answer_of rows.now)
            (rule_at self.now.rules rule).tree position }
    {
        is_newly_broken(self.rules.formula(rule), rows, cut, position)
    }

    /// Returns the first rule that is newly broken at a position of a trace.
    fn first_rule(&self, rows: &[AtomRow], cut: usize, position: usize) -> Option<usize>
        requires { cut ≤ length rows.now }
        ensures { MatchOption result
            ((rule : ℕ) → ¬ IsRuleBroken self.now.rules cut (map answer_of rows.now) position rule)
            (IsFirstThere self.now.rules cut (map answer_of rows.now) position) }
    {
        for rule in 0..self.rules.len() {
            if self.is_newly_broken_in(rows, cut, rule, position) {
                return Some(rule);
            }
        }
        None
    }

    /// Returns the first position of a trace at which a rule is newly broken, and the first such rule.
    fn first_broken(&self, rows: &[AtomRow], cut: usize) -> Option<(usize, usize)>
        requires { cut ≤ length rows.now }
        ensures first { MatchOption result
            ((position rule : ℕ)
            → ¬ IsRuleBroken self.now.rules cut (map answer_of rows.now) position rule)
            (λ found. IsFirstOfAll self.now.rules cut (map answer_of rows.now) found.0 found.1) }
        ensures within { IfSome result (λ found. found.0 < length rows.now) }
    {
        for position in 0..rows.len() {
            if let Some(rule) = self.first_rule(rows, cut, position) {
                return Some((position, rule));
            }
        }
        None
    }

    /// Returns the rule that is newly broken first towards a target, by the step and then by the rule's index. `None`
    /// exactly if none is.
    pub fn newly_broken(
        &self,
        alloc: Global,
        plan: &Plan,
        target: &Target,
        until: u32,
    ) -> Result<Option<BrokenRule>, Memory>
        requires situation { IsSituation self.now }
        requires plan { IsPlan (choices_of self.now.lattice) self.now.lattice.legs plan.now }
        requires target { IsTarget self.now target.now }
        requires from_now { now_of self.now ≤ until }
        requires until { until ≤ end_of self.now }
        ensures { IfOk result
            (λ found. MatchOption found (¬ BreaksARule self.now plan.now until target.now)
            (IsFirstBroken self.now plan.now until target.now)) }
    {
        let Some(start) = self.trace_start(plan, target, until) else {
            return Ok(None);
        };
        let rows = self.trace_rows(alloc, plan, target, start, until)?;
        let cut = self.now().saturating_sub(start) as usize;
        match self.first_broken(&rows, cut) {
            Some((position, rule)) => Ok(Some(BrokenRule {
                step: start + position as u32,
                rule,
            })),
            None => Ok(None),
        }
    }

    /// Returns the moment at which own ship is in the target's domain in a step, by her path from now on, if she enters
    /// it there.
    fn entry_at(
        &self,
        plan: &Plan,
        path: &[TickState],
        target: &Target,
        step: u32,
    ) -> Option<Moment>
        requires situation { IsSituation self.now }
        requires plan { IsPlan (choices_of self.now.lattice) self.now.lattice.legs plan.now }
        requires path { IsPath self.now plan.now 0 path.now }
        requires track { IsTrack path.now }
        requires planned { length path.now ≤ positions_of self.now.lattice + 1 }
        requires target { IsTarget self.now target.now }
        requires within { step + 1 < now_of self.now + length path.now }
        ensures { MatchOption result (¬ EntersAt self.now plan.now target.now step)
            (λ moment. IsSomeAnd
            (step_at (own_at self.now plan.now) (target_at self.now target.now) step)
            (λ pair. IsEntry self.now target.now pair moment)) }
    {
        let pair = self.step_along(plan, path, target, step)?;
        self.entry(target, &pair)
    }

    /// Returns the first step from now on in which own ship enters a target's domain. `None` exactly if there is none.
    pub fn entered(
        &self,
        alloc: Global,
        plan: &Plan,
        target: &Target,
        until: u32,
    ) -> Result<Option<DomainEntry>, Memory>
        requires situation { IsSituation self.now }
        requires plan { IsPlan (choices_of self.now.lattice) self.now.lattice.legs plan.now }
        requires target { IsTarget self.now target.now }
        requires from_now { now_of self.now ≤ until }
        requires until { until ≤ end_of self.now }
        ensures { IfOk result
            (λ found. MatchOption found (¬ EntersDomain self.now plan.now until target.now)
            (IsFirstEntry self.now plan.now until target.now)) }
    {
        let path = self.path_up_to(alloc, plan, until)?;
        for step in self.now()..until {
            if let Some(moment) = self.entry_at(plan, path.as_slice(), target, step) {
                return Ok(Some(DomainEntry { step, moment }));
            }
        }
        Ok(None)
    }
}
