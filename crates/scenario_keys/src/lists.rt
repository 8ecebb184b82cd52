//! The faults of lists.
ghost use Rattle.std.specs.Prelude.{◌≡◌, length, option_map, position};
ghost use Rattle.toml.specs.View.{array_view, view};
ghost use Rattle.std.specs.List.{list_all};
ghost use Rattle.scenario_keys.specs.ListFaults.{elements, elements_fault, is_in_range, is_integer, is_integer_list, is_no_integer, is_no_table, is_out_of_range, length_fault, list_fault, tables_fault, tables_fault_in};

use crate::cause::Cause;
use crate::rows::ListRange;
use toml::Value;
use toml::value::Array;

fn is_in_range(range: ListRange, number: i64) -> bool
    ensures { result ≡ is_in_range range number }
{
    range.low <= number && number <= range.high
}

fn is_out_of_range(range: ListRange, found: &Value) -> bool
    ensures { result ≡ is_out_of_range range (view found.now) }
{
    match found.as_integer() {
        Some(number) => !is_in_range(range, number),
        None => false,
    }
}

fn first_no_integer(list: &Array) -> Option<usize>
    ensures { result ≡ position (λ v. is_no_integer (view v)) list.now.items }
{
    list.iter().position(|found| !found.is_integer())
}

fn first_out_of_range(range: ListRange, list: &Array) -> Option<usize>
    ensures { result ≡ position (λ v. is_out_of_range range (view v)) list.now.items }
{
    list.iter().position(|found| is_out_of_range(range, found))
}

#[tactic(auto, using(crate::proofs::Elements::count_seen))]
pub fn element_count(list: &Array) -> usize
    ensures { result ≡ length (elements (array_view list.now)) }
{
    list.len()
}

/// Returns the fault of a list's length, which must be from `fewest` to `most`.
pub fn length_fault(fewest: usize, most: usize, length: usize) -> Option<(usize, Cause)>
    ensures { result ≡ length_fault fewest most length }
{
    if fewest <= length && length <= most {
        None
    } else {
        Some((0, Cause::Range))
    }
}

#[tactic(auto, unfolding(crate::specs::ListFaults::elements_fault), using(crate::proofs::Elements::position_seen))]
fn elements_fault(range: ListRange, list: &Array) -> Option<(usize, Cause)>
    ensures { result ≡ elements_fault range (elements (array_view list.now)) }
{
    if let Some(item) = first_no_integer(list) {
        return Some((item, Cause::Type_));
    }
    if let Some(fault) = length_fault(range.fewest, range.most, element_count(list)) {
        return Some(fault);
    }
    match first_out_of_range(range, list) {
        Some(item) => Some((item, Cause::Range)),
        None => None,
    }
}

/// Returns the fault of a list of integers, and its item.
pub fn list_fault(range: ListRange, found: Option<&Value>) -> Option<(usize, Cause)>
    ensures { result ≡ list_fault range (option_map (λ v. view v.now) found.entry) }
{
    match found {
        Some(found) => match found.as_array() {
            Some(list) => elements_fault(range, list),
            None => Some((0, Cause::Type_)),
        },
        None if range.is_optional => None,
        None => Some((0, Cause::Missing)),
    }
}

fn first_no_table(list: &Array) -> Option<usize>
    ensures { result ≡ position (λ v. is_no_table (view v)) list.now.items }
{
    list.iter().position(|found| !found.is_table())
}

#[tactic(auto, unfolding(crate::specs::ListFaults::tables_fault_in), using(crate::proofs::Elements::position_seen))]
fn tables_fault_in(most: usize, list: &Array) -> Option<(usize, Cause)>
    ensures { result ≡ tables_fault_in most (elements (array_view list.now)) }
{
    if let Some(item) = first_no_table(list) {
        return Some((item, Cause::Type_));
    }
    length_fault(0, most, element_count(list))
}

/// Returns the fault of an optional list of tables, and its item.
pub fn tables_fault(most: usize, found: Option<&Value>) -> Option<(usize, Cause)>
    ensures { result ≡ tables_fault most (option_map (λ v. view v.now) found.entry) }
{
    match found {
        Some(found) => match found.as_array() {
            Some(list) => tables_fault_in(most, list),
            None => Some((0, Cause::Type_)),
        },
        None => None,
    }
}

fn are_integers(list: &Array) -> bool
    ensures { result ≡ list_all (λ v. is_integer (view v)) list.now.items }
{
    list.iter().all(|found| found.is_integer())
}

/// Returns whether the value is a list of integers.
#[tactic(auto, using(crate::proofs::Elements::all_seen))]
pub fn is_integer_list(found: &Value) -> bool
    ensures { result ≡ is_integer_list (view found.now) }
{
    match found.as_array() {
        Some(list) => are_integers(list),
        None => false,
    }
}
