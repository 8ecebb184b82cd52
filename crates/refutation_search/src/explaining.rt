//! The canonical list: a walk over the prefixes.
ghost use Rattle.std.specs.Prelude.{◌≡◌, ◌+◌, ◌*◌, ◌-◌, ◌^◌, ◌≤◌, ◌<◌, ◌↔◌, false, take, All, IfOk, IfSome, IsNone, IsTrue, OnOk};
ghost use Rattle.lattice.specs.Grids.{choices_of, plans_of};
ghost use Rattle.lattice.specs.PlanNumbers.{IsPlan};
ghost use Rattle.planner.specs.Walks.{HavePlaces, IsFirstFailing, IsGround, Keeps};
ghost use Rattle.plan_situations.specs.FailingPlans.{FailsTowards};
ghost use Rattle.plan_situations.specs.LeastPlans.{numbered};
ghost use Rattle.plan_situations.specs.Prefixes.{reached, PrefixFails};
ghost use Rattle.plan_situations.specs.Situations.{end_of, now_of, IsSituation, IsTarget};
ghost use Rattle.refutation_search.specs.CanonicalLists.{IsCanonical, IsFirstGood, SomePlanPasses};
ghost use Rattle.refutation_search.specs.Inner.Walks.{first_extension, IsFirstTowards, IsWalkedTo, NoneIsShorter};
ghost use Rattle.refutations.specs.RightLists.{IsEntry, IsRight};

use lattice::Plan;
use out_of_memory::Memory;
use plan_situations::laws::failing_has_a_reason;
use plan_situations::{Situation, Target};
use planner::{Level, SearchBasis, Walk};
use refutations::laws::a_right_list_refutes;
use refutations::{Prefix, Reason, WhyEntry, horizon};
use std::alloc::Global;

/// The situation of a walk, and the data that stays the same during it.
#[derive(Clone, Copy)]
struct Walked<'a> {
    situation: &'a Situation,
    basis: &'a SearchBasis,
}

/// Returns the first reason towards a target under a plan that fails towards her, up to a horizon.
fn first_towards(
    alloc: Global,
    situation: &Situation,
    plan: &Plan,
    target: &Target,
    until: u32,
) -> Result<Reason, Memory>
    requires situation { IsSituation situation.now }
    requires plan { IsPlan (choices_of situation.now.lattice) situation.now.lattice.legs plan.now }
    requires target { IsTarget situation.now target.now }
    requires from_now { now_of situation.now ≤ until }
    requires until { until ≤ end_of situation.now }
    requires fails { FailsTowards situation.now plan.now until target.now }
    ensures { IfOk result (IsFirstTowards situation.now plan.now until target.now) }
{
    let entered = situation.entered(alloc, plan, target, until)?;
    if let Some(entry) = entered {
        return Ok(Reason::Domain {
            step: entry.step,
            moment: entry.moment,
        });
    }
    let _rules = situation.rules.len();
    let found = situation.newly_broken(alloc, plan, target, until)?;
    let broken = found.unwrap();
    Ok(Reason::Rule {
        index: broken.rule as u32,
        step: broken.step,
    })
}

/// Returns the number of the first plan that extends the prefix with this number of legs and this number.
fn first_number(situation: &Situation, legs: u8, number: u32) -> u32
    requires legs { legs ≤ situation.now.lattice.legs }
    requires number { number < choices_of situation.now.lattice ^ legs }
    ensures value { result
        ≡ number * choices_of situation.now.lattice ^ (situation.now.lattice.legs - legs) }
    ensures known { result < plans_of situation.now.lattice }
{
    let left = situation.lattice.legs() - legs;
    number * situation.lattice.choices().pow(u32::from(left))
}

/// Returns the first good entry of the prefix with this number of legs and this number: towards the first target
/// towards which it fails, which has this index.
fn first_entry(
    alloc: Global,
    situation: &Situation,
    legs: u8,
    number: u32,
    target: usize,
) -> Result<WhyEntry, Memory>
    requires situation { IsSituation situation.now }
    requires some { 1 ≤ legs }
    requires legs { legs ≤ situation.now.lattice.legs }
    requires number { number < choices_of situation.now.lattice ^ legs }
    requires target { IsFirstFailing situation.now
        (numbered situation.now (first_extension situation.now legs number))
        (reached situation.now legs) target }
    ensures first { IfOk result (IsFirstGood situation.now) }
    ensures prefix { IfOk result
        (λ entry. entry.prefix
        ≡ take legs (numbered situation.now (first_extension situation.now legs number))) }
    ensures entry { IfOk result (IsEntry situation.now) }
{
    let plan = situation
        .lattice
        .plan(first_number(situation, legs, number));
    let until = horizon(situation, usize::from(legs));
    let towards = &situation.targets.as_slice()[target];
    let reason = first_towards(alloc, situation, &plan, towards, until)?;
    Ok(WhyEntry {
        prefix: Prefix::of(alloc, &plan.choices()[..usize::from(legs)]),
        target: towards.mmsi,
        reason,
    })
}

/// Adds the first good entry of the prefix with this number of legs and this number. No shorter prefix has one.
fn list_first(
    alloc: Global,
    situation: &Situation,
    legs: u8,
    number: u32,
    target: usize,
    list: &mut Vec<WhyEntry>,
) -> Result<(), Memory>
    requires situation { IsSituation situation.now }
    requires some { 1 ≤ legs }
    requires legs { legs ≤ situation.now.lattice.legs }
    requires number { number < choices_of situation.now.lattice ^ legs }
    requires target { IsFirstFailing situation.now
        (numbered situation.now (first_extension situation.now legs number))
        (reached situation.now legs) target }
    requires so_far { IsWalkedTo situation.now list.old.items
        (first_extension situation.now legs number) }
    requires above { NoneIsShorter situation.now legs
        (numbered situation.now (first_extension situation.now legs number)) }
    ensures { OnOk result
        (IsWalkedTo situation.now list.new.items
        (first_extension situation.now legs (number + 1))) }
{
    let entry = first_entry(alloc, situation, legs, number, target)?;
    list.push(entry)?;
    Ok(())
}

/// Lists the canonical entries of the plans that extend a prefix, until one plan does not fail. Neither this prefix nor
/// a shorter one has a good entry. `from` is the level after its legs, and `below` has the levels for the remaining
/// legs.
fn explore(
    alloc: Global,
    walked: &Walked<'_>,
    from: &Level,
    below: &mut [Level],
    legs: u8,
    number: u32,
    list: &mut Vec<WhyEntry>,
) -> Result<bool, Memory>
    requires situation { IsSituation walked.now.situation.now }
    requires basis { IsGround walked.now.situation.now walked.now.basis.now }
    requires places { HavePlaces walked.now.situation.now walked.now.basis.now legs below.old }
    requires number { number < choices_of walked.now.situation.now.lattice ^ legs }
    requires from { Keeps walked.now.situation.now walked.now.basis.now legs number from.now }
    requires so_far { IsWalkedTo walked.now.situation.now list.old.items
        (first_extension walked.now.situation.now legs number) }
    requires above { NoneIsShorter walked.now.situation.now legs
        (numbered walked.now.situation.now (first_extension walked.now.situation.now legs number)) }
    requires passes { 1 ≤ legs
        → ¬ PrefixFails walked.now.situation.now
        (take legs (numbered walked.now.situation.now
        (first_extension walked.now.situation.now legs number))) }
    ensures places { IfOk result
        (λ all. IsTrue all
        → HavePlaces walked.now.situation.now walked.now.basis.now legs below.new) }
    ensures list { IfOk result
        (λ all. IsTrue all
        → IsWalkedTo walked.now.situation.now list.new.items
        (first_extension walked.now.situation.now legs (number + 1))) }
    ensures passes { IfOk result (λ all. all ≡ false → SomePlanPasses walked.now.situation.now) }
{
    let situation = walked.situation;
    failing_has_a_reason(situation);
    let Some((to, rest)) = below.split_first_mut() else {
        return Ok(false);
    };
    let choices = situation.lattice.choices();
    for choice in 0..choices {
        let longer = number * choices + choice;
        let found = to.first_failing(situation, walked.basis, from, legs, longer);
        if let Some(target) = found {
            list_first(alloc, situation, legs + 1, longer, target, list)?;
        } else if !explore(alloc, walked, to, rest, legs + 1, longer, list)? {
            return Ok(false);
        }
    }
    Ok(true)
}

/// Returns why there is no plan: the canonical list, which is right. `None` exactly if some plan does not fail.
pub fn explain(alloc: Global, situation: &Situation) -> Result<Option<Vec<WhyEntry>>, Memory>
    requires { IsSituation situation.now }
    ensures none { IfOk result (λ list. IsNone list ↔ SomePlanPasses situation.now) }
    ensures list { IfOk result
        (λ list. IfSome list (λ entries. IsCanonical situation.now entries.items)) }
    ensures entries { IfOk result
        (λ list. IfSome list (λ entries. All (IsEntry situation.now) entries.items)) }
    ensures right { IfOk result
        (λ list. IfSome list (λ entries. IsRight situation.now entries.items)) }
{
    a_right_list_refutes(situation);
    let mut walk = Walk::new(alloc, situation)?;
    let walked = Walked {
        situation,
        basis: &walk.basis,
    };
    let mut list = Vec::new(alloc);
    let whole = explore(
        alloc,
        &walked,
        &walk.start,
        &mut walk.below,
        0,
        0,
        &mut list,
    );
    drop(walk);
    if whole? {
        Ok(Some(list))
    } else {
        drop(list);
        Ok(None)
    }
}
