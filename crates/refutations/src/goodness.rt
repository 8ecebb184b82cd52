//! Whether an entry is good.
ghost use Rattle.std.specs.Prelude.{ℕ, ◌≡◌, ◌≢◌, ◌≤◌, ◌<◌, ◌↔◌, length, get_or, take, AllPairs, IfOk, IsTrue, MatchOption, OnOk};
ghost use Rattle.std.specs.Int.Digits.{AllBelowBase};
ghost use Rattle.encounters.specs.Directions.{HaveDirections};
ghost use Rattle.lattice.specs.Grids.{choices_of};
ghost use Rattle.lattice.specs.PlanNumbers.{IsPlan};
ghost use Rattle.plan_situations.specs.Domains.{IsInsideAt};
ghost use Rattle.plan_situations.specs.Prefixes.{reached};
ghost use Rattle.plan_situations.specs.Situations.{end_of, now_of, IsSituation, IsTarget};
ghost use Rattle.plan_situations.specs.declared.situation.Target.{Target};
ghost use Rattle.refutations.specs.GoodEntries.{Holds, IsGood, IsInsideIn, IsInsideThen, IsInstant};
ghost use Rattle.refutations.specs.Inner.Replays.{situation_in, IsCourse, IsReplay};
ghost use Rattle.refutations.specs.RightLists.{IsEntry, KnowsRule};

use crate::course::Course;
use crate::entry::{Reason, WhyEntry};
use crate::instants::is_nearer;
use crate::laws::plans_agree_on_reasons;
use crate::replay::Replay;
use closest_approach::Moment;
use encounters::PairStep;
use hull_domains::inside;
use lattice::Plan;
use lattice::laws::numbers_and_plans_are_inverse;
use out_of_memory::Memory;
use plan_situations::laws::prefixes_are_blocks;
use plan_situations::{Situation, Target};
use std::alloc::Global;

/// Returns whether a moment is an instant of a step, with numbers that are small enough to compute with.
fn is_instant(moment: &Moment) -> bool
    ensures { IsTrue result ↔ IsInstant moment.now }
{
    moment.a <= moment.b && 0 < moment.b && moment.b < 1 << 60
}

/// Returns whether own ship is inside a target's domain at an instant of a step of both.
fn is_inside(situation: &Situation, target: &Target, pair: &PairStep, moment: &Moment) -> bool
    requires target { IsTarget situation.now target.now }
    requires heads { HaveDirections pair.now }
    requires instant { IsInstant moment.now }
    ensures { IsTrue result
        ↔ IsInsideAt situation.now target.now pair.now moment.now.a moment.now.b }
{
    match (&situation.shape, pair.b.direction) {
        (Some(shape), Some(direction)) => inside(&pair.step, direction, shape, moment),
        _ => is_nearer(&pair.step, target.domain.radius, *moment),
    }
}

/// Returns whether she is inside at an instant of the step that begins at a tick.
fn is_inside_then(course: &Course<'_>, target: &Target, step: u32, moment: &Moment) -> bool
    requires course { IsCourse course.now }
    requires target { IsTarget (situation_in course.now) target.now }
    requires planned { step < end_of (situation_in course.now) }
    requires instant { IsInstant moment.now }
    ensures { IsTrue result
        ↔ IsInsideThen (situation_in course.now) course.now.plan target.now step moment.now }
{
    match course.step_at(target, step) {
        Some(pair) => is_inside(course.situation, target, &pair, moment),
        None => false,
    }
}

/// Returns whether the step is one from now up to a horizon, the moment an instant of it, and she is inside then.
fn is_inside_in(
    course: &Course<'_>,
    target: &Target,
    until: u32,
    step: u32,
    moment: &Moment,
) -> bool
    requires course { IsCourse course.now }
    requires target { IsTarget (situation_in course.now) target.now }
    requires until { until ≤ end_of (situation_in course.now) }
    ensures { IsTrue result
        ↔ IsInsideIn (situation_in course.now) course.now.plan until target.now step moment.now }
{
    if step < course.situation.now() || step >= until || !is_instant(moment) {
        return false;
    }
    is_inside_then(course, target, step, moment)
}

/// Returns whether a reason holds under the latest plan towards the target with an index, up to a horizon.
fn holds(
    alloc: Global,
    replay: &mut Replay<'_>,
    target: usize,
    until: u32,
    reason: Reason,
) -> Result<bool, Memory>
    requires replay { IsReplay replay.old }
    requires target { target < length (situation_in replay.old.course).targets }
    requires from_now { now_of (situation_in replay.old.course) ≤ until }
    requires until { until ≤ end_of (situation_in replay.old.course) }
    requires known { KnowsRule (situation_in replay.old.course) reason }
    ensures replay { OnOk result (IsReplay replay.new) }
    ensures course { replay.new.course ≡ replay.old.course }
    ensures holds { IfOk result
        (λ holds. (d : Target)
        → IsTrue holds ↔ Holds (situation_in replay.old.course) replay.old.course.plan until
        (get_or (situation_in replay.old.course).targets target d) reason) }
{
    match reason {
        Reason::Domain { step, moment } => {
            let towards = &replay.course.situation.targets.as_slice()[target];
            Ok(is_inside_in(&replay.course, towards, until, step, &moment))
        }
        Reason::Rule { index, step } => {
            replay.breaks_at(alloc, target, until, index as usize, step)
        }
    }
}

/// Returns the horizon of this number of legs of a plan: the tick up to which they determine the steps.
pub fn horizon(situation: &Situation, legs: usize) -> u32
    requires { IsSituation situation.now }
    ensures value { result ≡ reached situation.now legs }
    ensures from_now { now_of situation.now ≤ result }
    ensures within { result ≤ end_of situation.now }
{
    let lattice = &situation.lattice;
    if legs < usize::from(lattice.legs()) {
        situation.now() + legs as u32 * lattice.leg_ticks()
    } else {
        situation.end()
    }
}

/// Returns the first plan that extends a prefix.
pub(crate) fn first_plan(situation: &Situation, prefix: &[u16]) -> Plan
    requires few { length prefix.now ≤ situation.now.lattice.legs }
    requires below { AllBelowBase (choices_of situation.now.lattice) prefix.now }
    ensures plan { IsPlan (choices_of situation.now.lattice) situation.now.lattice.legs result }
    ensures extends { take (length prefix.now) result ≡ prefix.now }
{
    prefixes_are_blocks(situation);
    numbers_and_plans_are_inverse(&situation.lattice);
    let (first, _) = situation.lattice.block(prefix);
    situation.lattice.plan(first)
}

/// Returns the index of the target with an MMSI, in whose order they are.
fn index_of(targets: &[Target], mmsi: u32) -> Option<usize>
    requires { AllPairs (λ (a b : Target). a.mmsi < b.mmsi) targets.now }
    ensures { MatchOption result
        ((k : ℕ) (d : Target) → k < length targets.now → (get_or targets.now k d).mmsi ≢ mmsi)
        (λ k. (k < length targets.now) × ((d : Target) → (get_or targets.now k d).mmsi ≡ mmsi)) }
{
    let mut low = 0;
    let mut high = targets.len();
    while low < high {
        let middle = low + (high - low) / 2;
        let found = targets[middle].mmsi;
        if found == mmsi {
            return Some(middle);
        }
        if found < mmsi {
            low = middle + 1;
        } else {
            high = middle;
        }
    }
    None
}

/// Returns whether an entry is good.
pub(crate) fn is_good(
    alloc: Global,
    situation: &Situation,
    replay: &mut Replay<'_>,
    entry: &WhyEntry,
) -> Result<bool, Memory>
    requires situation { IsSituation situation.now }
    requires replay { IsReplay replay.old }
    requires same { situation_in replay.old.course ≡ situation.now }
    requires entry { IsEntry situation.now entry.now }
    ensures replay { OnOk result (IsReplay replay.new) }
    ensures same { situation_in replay.new.course ≡ situation.now }
    ensures good { IfOk result (λ good. IsTrue good ↔ IsGood situation.now entry.now) }
{
    plans_agree_on_reasons(situation);
    let prefix = entry.prefix.choices();
    let until = horizon(situation, prefix.len());
    let Some(target) = index_of(situation.targets.as_slice(), entry.target) else {
        return Ok(false);
    };
    replay.turn_to(first_plan(situation, prefix));
    holds(alloc, replay, target, until, entry.reason)
}
