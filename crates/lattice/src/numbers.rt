//! The numbers of plans.
ghost use Rattle.std.specs.Prelude.{◌≡◌, ◌+◌, ◌-◌, ◌*◌, ◌<◌, ◌≤◌, ◌^◌, length};
ghost use Rattle.std.specs.Int.Digits.{AllBelowBase};
ghost use Rattle.lattice.specs.PlanNumbers.{number_of, plan_of, IsPlan};

use crate::plan::Plan;
use std::alloc::Global;

/// Returns the plan with this number, among `plans` plans.
pub(crate) fn plan_of(alloc: Global, choices: u32, legs: u8, plans: u32, number: u32) -> Plan
    requires some_choice { 1 ≤ choices }
    requires few_choices { choices ≤ 512 }
    requires few_legs { legs ≤ 8 }
    requires plans { plans ≡ choices ^ legs }
    requires number { number < plans }
    ensures value { result ≡ plan_of choices legs number }
    ensures plan { IsPlan choices legs result }
{
    let mut plan = Plan::new(alloc);
    let mut weight = plans;
    for _leg in 0..legs {
        weight /= choices;
        plan.push((number / weight % choices) as u16);
    }
    plan
}

/// Returns the number of a plan, or of only its first legs.
pub(crate) fn number_of(choices: u32, legs: &[u16]) -> u32
    requires some_choice { 1 ≤ choices }
    requires below { AllBelowBase choices legs.now }
    requires few_plans { choices ^ length legs.now ≤ 2 ^ 30 }
    ensures value { result ≡ number_of choices legs.now }
    ensures within { result < choices ^ length legs.now }
{
    let mut number = 0;
    for choice in legs {
        number = number * choices + u32::from(*choice);
    }
    number
}

/// Returns the block of a prefix: the number of the first of the plans that extend it, and the number after the last
/// one.
pub(crate) fn block_of(choices: u32, legs: u8, prefix: &[u16]) -> (u32, u32)
    requires some_choice { 1 ≤ choices }
    requires few_legs { length prefix.now ≤ legs }
    requires below { AllBelowBase choices prefix.now }
    requires few_plans { choices ^ legs ≤ 2 ^ 30 }
    ensures first { result.0 ≡ number_of choices prefix.now * choices ^ (legs - length prefix.now) }
    ensures behind { result.1
        ≡ (number_of choices prefix.now + 1) * choices ^ (legs - length prefix.now) }
    ensures some { result.0 < result.1 }
    ensures within { result.1 ≤ choices ^ legs }
{
    let extensions = choices.pow(u32::from(legs) - prefix.len() as u32);
    let number = number_of(choices, prefix);
    (number * extensions, (number + 1) * extensions)
}
