//! The sizes of own ship's plans: their number and length.
ghost use Rattle.std.specs.Prelude.{◌≡◌, ◌≤◌, codes, length, pos, true};
ghost use Rattle.toml.specs.View.{table_view};
ghost use Rattle.scenario_keys.specs.KeyValues.{list_at, natural_at};
ghost use Rattle.scenario.specs.PlanFaults.{are_few, are_in_range, are_short, plans_cause, sizes_of};

use crate::listed::array;
use scenario_keys::{Cause, element_count, integer_found};
use toml::Table;

/// The numbers that determine how many plans own ship has, and how long they last.
#[derive(Clone, Copy, PartialEq, Eq)]
pub struct PlanSizes {
    /// The numbers of changes of course and of speed that a leg may choose.
    pub courses: u64,
    pub speeds: u64,
    pub legs: u64,
    /// The ticks of a leg, and for how many more the last leg is held.
    pub leg_ticks: u64,
    pub tail: u64,
}

/// Returns a number of own ship, 0 if there is none.
pub(crate) fn natural_at(document: &Table, name: &str) -> u64
    ensures { result ≡ natural_at (codes "own") name.now (table_view document.now) }
{
    match integer_found(document, "own", name) {
        Some(number) if 0 <= number => number as u64,
        _ => 0,
    }
}

#[tactic(auto, unfolding(scenario_keys::specs::KeyValues::list_at))]
fn count_at(document: &Table, name: &str) -> u64
    ensures { result ≡ length (list_at (codes "own") name.now (table_view document.now)) }
{
    match array(document, "own", name) {
        Some(list) => element_count(list) as u64,
        None => 0,
    }
}

#[tactic(auto, unfolding(crate::specs::PlanFaults::sizes_of))]
pub(crate) fn sizes_of(document: &Table) -> PlanSizes
    ensures { result ≡ sizes_of (table_view document.now) }
{
    PlanSizes {
        courses: count_at(document, "courses"),
        speeds: count_at(document, "speeds"),
        legs: natural_at(document, "legs"),
        leg_ticks: natural_at(document, "leg_ticks"),
        tail: natural_at(document, "tail"),
    }
}

fn are_in_range(sizes: PlanSizes) -> bool
    ensures { result ≡ are_in_range sizes }
{
    sizes.courses <= 32
        && sizes.speeds <= 16
        && sizes.legs <= 8
        && sizes.leg_ticks <= 7200
        && sizes.tail <= 7200
}

fn are_few(sizes: PlanSizes) -> bool
    requires { are_in_range sizes ≡ true }
    ensures { result ≡ are_few sizes }
{
    let choices = sizes.courses * sizes.speeds;
    match choices.checked_pow(sizes.legs as u32) {
        Some(plans) => plans <= 1 << 30,
        None => false,
    }
}

fn are_short(tick: u32, sizes: PlanSizes) -> bool
    requires { are_in_range sizes ≡ true }
    ensures { result ≡ are_short tick sizes }
{
    (sizes.legs * sizes.leg_ticks + sizes.tail) * u64::from(tick) <= 7200
}

pub(crate) fn plans_cause(tick: u32, sizes: PlanSizes) -> Option<Cause>
    ensures { result ≡ plans_cause tick sizes }
{
    if are_in_range(sizes) && !(are_few(sizes) && are_short(tick, sizes)) {
        return Some(Cause::Product);
    }
    None
}
