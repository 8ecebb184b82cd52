//! The legs of a situation's plans: the start and length of each, and own ship's place then.
ghost use Rattle.std.specs.Prelude.{◌≡◌, ◌+◌, ◌*◌, ◌/◌, ◌^◌, ◌<◌, ◌≤◌, ◌↔◌, IsTrue, take};
ghost use Rattle.lattice.specs.Grids.{choices_of};
ghost use Rattle.lattice.specs.PlanNumbers.{plan_of, IsPlan};
ghost use Rattle.planner.specs.Inner.Legs.{lasts, IsPlannedLeg};
ghost use Rattle.plan_situations.specs.Paths.{HasReached};
ghost use Rattle.plan_situations.specs.Situations.{IsSituation};

use lattice::{Plan, UnderWay};
use plan_situations::Situation;

/// One leg of a plan, as it is followed.
#[derive(Drop)]
pub(crate) struct PlannedLeg {
    /// The first leg has index 0.
    pub(crate) index: u8,
    /// The number of the prefix that ends with it.
    pub(crate) number: u32,
    /// The first of the plans that begin with that prefix.
    pub(crate) plan: Plan,
    /// The tick at which it begins, counted from now.
    pub(crate) begins: u32,
    /// Own ship's place, heading and speed then.
    pub(crate) own: UnderWay,
    /// Whether no leg follows it.
    pub(crate) is_last: bool,
}

/// Returns the first of the plans that begin with the legs of this number, which are this many.
fn first_plan(situation: &Situation, legs: u8, number: u32) -> Plan
    requires legs { legs ≤ situation.now.lattice.legs }
    requires number { number < choices_of situation.now.lattice ^ legs }
    ensures plan { IsPlan (choices_of situation.now.lattice) situation.now.lattice.legs result }
    ensures begins { take legs result ≡ plan_of (choices_of situation.now.lattice) legs number }
{
    let left = situation.lattice.legs() - legs;
    let place = situation.lattice.choices().pow(u32::from(left));
    situation.lattice.plan(number * place)
}

/// How many ticks after now a leg begins.
pub(crate) fn leg_begins(situation: &Situation, leg: u8) -> u32
    requires { leg < situation.now.lattice.legs }
    ensures { result ≡ leg * situation.now.lattice.leg_ticks }
{
    u32::from(leg) * situation.lattice.leg_ticks()
}

/// Where own ship is, and how she heads and moves, where a leg begins after the legs of this number.
pub(crate) fn own_at_leg(situation: &Situation, leg: u8, number: u32) -> UnderWay
    requires situation { IsSituation situation.now }
    requires leg { leg < situation.now.lattice.legs }
    requires number { number < choices_of situation.now.lattice ^ leg }
    ensures { HasReached situation.now (plan_of (choices_of situation.now.lattice) leg number)
        (leg * situation.now.lattice.leg_ticks) result }
{
    let plan = first_plan(situation, leg, number);
    situation.own_after(&plan, leg_begins(situation, leg))
}

/// Returns whether no leg follows it.
fn is_last(situation: &Situation, leg: u8) -> bool
    requires { leg < situation.now.lattice.legs }
    ensures { IsTrue result ↔ (leg + 1 ≡ situation.now.lattice.legs) }
{
    let legs = situation.lattice.legs();
    leg + 1 == legs
}

/// How many ticks it lasts, with the tail after the last one.
pub(crate) fn leg_lasts(situation: &Situation, leg: u8) -> u32
    requires { leg < situation.now.lattice.legs }
    ensures value { result ≡ lasts situation.now leg }
    ensures few { result ≤ 7200 }
{
    let legs = situation.lattice.legs();
    if leg + 1 < legs {
        situation.lattice.leg_ticks()
    } else {
        situation.lattice.positions() - leg_begins(situation, leg)
    }
}

impl PlannedLeg {
    /// Returns the last leg of the prefix that has this number. `own` is where own ship is after the legs before it.
    pub(crate) fn new(situation: &Situation, index: u8, number: u32, own: UnderWay) -> PlannedLeg
        requires situation { IsSituation situation.now }
        requires index { index < situation.now.lattice.legs }
        requires number { number < choices_of situation.now.lattice ^ (index + 1) }
        requires own { HasReached situation.now
            (plan_of (choices_of situation.now.lattice) index
            (number / choices_of situation.now.lattice))
            (index * situation.now.lattice.leg_ticks) own }
        ensures leg { IsPlannedLeg situation.now result }
        ensures index { result.index ≡ index }
        ensures number { result.number ≡ number }
    {
        PlannedLeg {
            index,
            number,
            plan: first_plan(situation, index + 1, number),
            begins: leg_begins(situation, index),
            own,
            is_last: is_last(situation, index),
        }
    }
}
