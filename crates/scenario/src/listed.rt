//! The lists of a document without a fault.
ghost use Rattle.std.specs.Prelude.{◌≡◌, ◌≤◌, ◌≤ℤ◌, codes, negsuc, unsigned_abs, pos, map, length, option_map, All, IfOk, true};
ghost use Rattle.toml.specs.Data.{as_integer};
ghost use Rattle.toml.specs.View.{array_view, table_view, view};
ghost use Rattle.scenario.specs.Inner.KnownKeys.{fewest_in, high_in, is_own, list_range_at, lists_lie_in, longest_in, low_in};
ghost use Rattle.scenario.specs.Inner.WithinBounds.{IsWithin};
ghost use Rattle.scenario_keys.specs.KeyValues.{array_in, found_in, integer_of, integers_at, list_at, natural_of, naturals_at, table_at};
ghost use Rattle.scenario.specs.KeyFaults.{basis_of};
ghost use Rattle.scenario.specs.Inner.NoFaults.{HaveNoFault};

use scenario_keys::found;
use std::alloc::{AllocError, Global};
use toml::value::Array;
use toml::{Table, Value};

/// Returns the array at a key.
pub(crate) fn array<'a>(document: &'a Table, table: &str, name: &str) -> Option<&'a Array>
    ensures { option_map (λ a. array_view a.now) result
        ≡ array_in (found_in name.now (table_at table.now (table_view document.now))) }
{
    match found(document, table, name) {
        Some(found) => found.as_array(),
        None => None,
    }
}

/// Returns the values of the list at a key of the document, or none without the key.
#[tactic(auto, using(crate::proofs::ListsHeld::values_at, crate::proofs::ListsHeld::nothing_at))]
pub(crate) fn values_at<'a>(document: &'a Table, name: &str) -> &'a [Value]
    ensures { map view result.now ≡ list_at (codes "") name.now (table_view document.now) }
{
    match array(document, "", name) {
        Some(list) => list.as_slice(),
        None => &[],
    }
}

fn natural_in(found: &Value) -> u32
    requires { IsWithin (pos 0) (pos 4294967295) (view found.now) }
    ensures { result ≡ natural_of (as_integer (view found.now)) }
{
    match found.as_integer() {
        Some(number) => number as u32,
        None => 0,
    }
}

fn naturals_in(alloc: Global, list: &Array) -> Result<Vec<u32>, AllocError>
    requires { All (λ v. IsWithin (pos 0) (pos 4294967295) (view v)) list.now.items }
    ensures { IfOk result
        (λ v. v.items ≡ map (λ v. natural_of (as_integer (view v))) list.now.items) }
{
    let mut naturals = Vec::new(alloc);
    for found in list.iter() {
        naturals.push(natural_in(found))?;
    }
    Ok(naturals)
}

fn naturals_found(
    alloc: Global,
    document: &Table,
    table: &str,
    name: &str,
) -> Result<Vec<u32>, AllocError>
    requires { All (IsWithin (pos 0) (pos 4294967295))
        (list_at table.now name.now (table_view document.now)) }
    ensures { IfOk result
        (λ v. v.items ≡ naturals_at table.now name.now (table_view document.now)) }
{
    match array(document, table, name) {
        Some(list) => naturals_in(alloc, list),
        None => Ok(Vec::new(alloc)),
    }
}

/// Returns the integers of the list at a key, none of them below 0, in a document without a fault.
pub(crate) fn naturals(
    alloc: Global,
    document: &Table,
    table: &str,
    name: &str,
) -> Result<Vec<u32>, AllocError>
    requires faultless { HaveNoFault (is_own table.now) (table_view document.now) }
    requires known { lists_lie_in (pos 0) (pos 4294967295)
        (list_range_at (basis_of (is_own table.now) (table_view document.now)) table.now name.now)
        ≡ true }
    ensures values { IfOk result
        (λ v. v.items ≡ naturals_at table.now name.now (table_view document.now)) }
    ensures in_range { IfOk result
        (λ v. All (λ n. (unsigned_abs
        (low_in (list_range_at
        (basis_of (is_own table.now) (table_view document.now)) table.now name.now)) ≤ n)
        × (n ≤ unsigned_abs
        (high_in (list_range_at
        (basis_of (is_own table.now) (table_view document.now)) table.now name.now)))) v.items) }
    ensures fewest { IfOk result
        (λ v. fewest_in (list_range_at
        (basis_of (is_own table.now) (table_view document.now)) table.now name.now)
        ≤ length v.items) }
    ensures most { IfOk result
        (λ v. length v.items
        ≤ longest_in (list_range_at
        (basis_of (is_own table.now) (table_view document.now)) table.now name.now)) }
{
    naturals_found(alloc, document, table, name)
}

fn short_in(found: &Value) -> i16
    requires { IsWithin (negsuc 32767) (pos 32767) (view found.now) }
    ensures { result ≡ integer_of (as_integer (view found.now)) }
{
    match found.as_integer() {
        Some(number) => number as i16,
        None => 0,
    }
}

fn shorts_in(alloc: Global, list: &Array) -> Result<Vec<i16>, AllocError>
    requires { All (λ v. IsWithin (negsuc 32767) (pos 32767) (view v)) list.now.items }
    ensures { IfOk result
        (λ v. v.items ≡ map (λ v. integer_of (as_integer (view v))) list.now.items) }
{
    let mut shorts = Vec::new(alloc);
    for found in list.iter() {
        shorts.push(short_in(found))?;
    }
    Ok(shorts)
}

fn shorts_found(
    alloc: Global,
    document: &Table,
    table: &str,
    name: &str,
) -> Result<Vec<i16>, AllocError>
    requires { All (IsWithin (negsuc 32767) (pos 32767))
        (list_at table.now name.now (table_view document.now)) }
    ensures { IfOk result
        (λ v. v.items ≡ integers_at table.now name.now (table_view document.now)) }
{
    match array(document, table, name) {
        Some(list) => shorts_in(alloc, list),
        None => Ok(Vec::new(alloc)),
    }
}

/// Returns the integers of the list at a key, which fit 16 bits, in a document without a fault.
pub(crate) fn shorts(
    alloc: Global,
    document: &Table,
    table: &str,
    name: &str,
) -> Result<Vec<i16>, AllocError>
    requires faultless { HaveNoFault (is_own table.now) (table_view document.now) }
    requires known { lists_lie_in (negsuc 32767) (pos 32767)
        (list_range_at (basis_of (is_own table.now) (table_view document.now)) table.now name.now)
        ≡ true }
    ensures values { IfOk result
        (λ v. v.items ≡ integers_at table.now name.now (table_view document.now)) }
    ensures in_range { IfOk result
        (λ v. All (λ z. (low_in
        (list_range_at (basis_of (is_own table.now) (table_view document.now)) table.now name.now)
        ≤ℤ z) × (z ≤ℤ high_in
        (list_range_at (basis_of (is_own table.now) (table_view document.now)) table.now name.now)))
        v.items) }
    ensures fewest { IfOk result
        (λ v. fewest_in (list_range_at
        (basis_of (is_own table.now) (table_view document.now)) table.now name.now)
        ≤ length v.items) }
    ensures most { IfOk result
        (λ v. length v.items
        ≤ longest_in (list_range_at
        (basis_of (is_own table.now) (table_view document.now)) table.now name.now)) }
{
    shorts_found(alloc, document, table, name)
}
