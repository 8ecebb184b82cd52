//! The changes of a vessel's course and speed, and their faults.
ghost use Rattle.std.specs.Prelude.{◌≡◌, ◌≤◌, ◌%◌, ◌==◌, option_map, map, unsigned_abs};
ghost use Rattle.std.specs.List.{list_all};
ghost use Rattle.toml.specs.Data.{as_integer};
ghost use Rattle.toml.specs.View.{array_view, view};
ghost use Rattle.scenario_keys.specs.KeyValues.{integer_of};
ghost use Rattle.scenario_keys.specs.ListFaults.{elements, is_integer_list};
ghost use Rattle.predictions.specs.PredictFaults.{after_of, ascend, are_changes, are_on_ticks, change_numbers, changes_cause, is_change_of, is_from_0_to, list_cause, change_numbers_at};
ghost use Rattle.predictions.specs.Inner.{exceeds};

use scenario_keys::{Cause, element_count, integer_of, is_integer_list};
use std::marker::Model;
use toml::Value;
use toml::value::Array;

/// A predicted change of a vessel.
#[derive(Clone, Copy, Debug, PartialEq, Eq)]
pub struct Change {
    /// The seconds after now, 0 to 7200, a multiple of the tick.
    pub after: u32,
    /// The course after that, 0 to 3599 tenths of a degree.
    pub course: u16,
    /// The speed after that, 0 to 1022 tenths of a knot.
    pub speed: u16,
}

/// The changes of a vessel, 1 to 16, in the order of their times. Their model is a list.
#[derive(Debug, Drop)]
pub struct Changes {
    list: Vec<Change>,
}

impl Model for Changes {
    ghost use Rattle.std.specs.Prelude.{List};
    ghost use Rattle.predictions.specs.declared.changes.Change.{Change};

    ghost Value = { List Change };

    ghost view = { λ s. s.list.items };
}

impl Changes {
    ghost use Rattle.std.specs.Prelude.{◌≡◌};

    /// Returns the changes of a list. This takes no memory.
    pub fn new(list: Vec<Change>) -> Changes
        ensures { result ≡ list.items }
    {
        Changes { list }
    }

    pub fn as_slice(&self) -> &[Change]
        ensures { result.now ≡ self.now }
    {
        self.list.as_slice()
    }
}

/// The three numbers of a change, with any values.
#[derive(Clone, Copy, PartialEq, Eq)]
pub struct ChangeNumbers {
    pub after: i64,
    pub course: i64,
    pub speed: i64,
}

fn are_integer_lists(list: &Array) -> bool
    ensures { result ≡ list_all (λ v. is_integer_list (view v)) list.now.items }
{
    list.iter().all(|found| is_integer_list(found))
}

/// Returns the numbers of a list of three.
#[tactic(auto, using(crate::proofs::Lists::three_numbers, crate::proofs::Lists::other_numbers))]
fn three_numbers(list: &Array) -> Option<ChangeNumbers>
    ensures { result ≡ change_numbers (map (λ v. integer_of (as_integer (view v))) list.now.items) }
{
    if list.len() != 3 {
        return None;
    }
    Some(ChangeNumbers {
        after: integer_of(&list[0]),
        course: integer_of(&list[1]),
        speed: integer_of(&list[2]),
    })
}

/// Returns the three numbers of a change, if there are three.
#[tactic(auto, using(crate::proofs::Lists::mapped_seen))]
pub(crate) fn numbers_of(found: &Value) -> Option<ChangeNumbers>
    ensures { result ≡ change_numbers_at (view found.now) }
{
    match found.as_array() {
        Some(list) => three_numbers(list),
        None => None,
    }
}

fn is_from_0_to(most: u16, number: i64) -> bool
    ensures { result ≡ is_from_0_to most number }
{
    0 <= number && number <= i64::from(most)
}

fn is_change(found: &Value) -> bool
    ensures { result ≡ is_change_of (change_numbers_at (view found.now)) }
{
    match numbers_of(found) {
        Some(numbers) => {
            is_from_0_to(7200, numbers.after)
                && is_from_0_to(3599, numbers.course)
                && is_from_0_to(1022, numbers.speed)
        }
        None => false,
    }
}

fn after_of(found: &Value) -> i64
    ensures { result ≡ after_of (change_numbers_at (view found.now)) }
{
    match numbers_of(found) {
        Some(numbers) => numbers.after,
        None => 0,
    }
}

fn all_changes(list: &Array) -> bool
    ensures { result ≡ list_all (λ v. is_change_of (change_numbers_at (view v))) list.now.items }
{
    list.iter().all(|found| is_change(found))
}

/// Returns whether a number is greater than the previous one, if there is one.
fn exceeds(before: Option<i64>, number: i64) -> bool
    ensures { result ≡ exceeds before number }
{
    match before {
        Some(before) => before < number,
        None => true,
    }
}

/// Returns whether each change comes after the one before.
fn ascend(list: &Array) -> bool
    ensures { result ≡ ascend (map (λ v. after_of (change_numbers_at (view v))) list.now.items) }
{
    let mut before = None;
    for found in list.iter() {
        let after = after_of(found);
        if !exceeds(before, after) {
            return false;
        }
        before = Some(after);
    }
    true
}

fn is_on_tick(tick: u32, found: &Value) -> bool
    requires { 1 ≤ tick }
    ensures { result ≡ (unsigned_abs (after_of (change_numbers_at (view found.now))) % tick == 0) }
{
    after_of(found).unsigned_abs() % u64::from(tick) == 0
}

fn are_on_ticks(tick: u32, list: &Array) -> bool
    requires { 1 ≤ tick }
    ensures { result ≡ list_all
        (λ v. unsigned_abs (after_of (change_numbers_at (view v))) % tick == 0) list.now.items }
{
    list.iter().all(|found| is_on_tick(tick, found))
}

#[tactic(auto, using(crate::proofs::Lists::all_seen, crate::proofs::Lists::mapped_seen, crate::proofs::Lists::count_seen))]
fn are_changes(list: &Array) -> bool
    ensures { result ≡ are_changes (elements (array_view list.now)) }
{
    let length = element_count(list);
    1 <= length && length <= 16 && all_changes(list) && ascend(list)
}

#[tactic(auto, unfolding(crate::specs::PredictFaults::list_cause), using(crate::proofs::Lists::all_seen))]
fn list_cause(tick: u32, list: &Array) -> Option<Cause>
    requires { 1 ≤ tick }
    ensures { result ≡ list_cause tick (elements (array_view list.now)) }
{
    if !are_integer_lists(list) {
        return Some(Cause::Type_);
    }
    if !are_changes(list) {
        return Some(Cause::Range);
    }
    if !are_on_ticks(tick, list) {
        return Some(Cause::Multiple);
    }
    None
}

/// Returns why the changes of a vessel are refused, if they are.
pub(crate) fn changes_cause(tick: u32, found: Option<&Value>) -> Option<Cause>
    requires { 1 ≤ tick }
    ensures { result ≡ changes_cause tick (option_map (λ v. view v.now) found.entry) }
{
    match found {
        Some(found) => match found.as_array() {
            Some(list) => list_cause(tick, list),
            None => Some(Cause::Type_),
        },
        None => Some(Cause::Missing),
    }
}
