//! The integers of a document without a fault.
ghost use Rattle.std.specs.Prelude.{◌≡◌, ◌≤◌, ◌%◌, ◌≤ℤ◌, pos, negsuc, unsigned_abs, MatchOption, Some, true};
ghost use Rattle.toml.specs.View.{table_view};
ghost use Rattle.scenario.specs.Inner.KnownKeys.{are_ticks, begins_with_the_tick, is_own, least_in, lies_in, may_lie_in, most_in, range_at};
ghost use Rattle.scenario_keys.specs.KeyValues.{found_in, integer_at, integer_or, natural_at, optional_at, table_at};
ghost use Rattle.scenario.specs.KeyFaults.{basis_of, tick_of};
ghost use Rattle.scenario.specs.Inner.NoFaults.{HaveNoFault};

use scenario_keys::{found, integer_found};
use toml::Table;

/// Returns the integer at a key that has no fault, if the key has one. Its range is within the two numbers.
fn known(document: &Table, table: &str, name: &str, low: i64, high: i64) -> Option<i64>
    requires faultless { HaveNoFault (is_own table.now) (table_view document.now) }
    requires known { lies_in low high
        (range_at (basis_of (is_own table.now) (table_view document.now)) table.now name.now)
        ≡ true }
    ensures value { result ≡ integer_at table.now name.now (table_view document.now) }
    ensures held { MatchOption result ⊥ (λ n. (low ≤ℤ n) × (n ≤ℤ high)) }
    ensures in_range { MatchOption result ⊥
        (λ n. (least_in (range_at
        (basis_of (is_own table.now) (table_view document.now)) table.now name.now) ≤ℤ n)
        × (n ≤ℤ most_in (range_at
        (basis_of (is_own table.now) (table_view document.now)) table.now name.now))) }
    ensures tick { begins_with_the_tick
        (range_at (basis_of (is_own table.now) (table_view document.now)) table.now name.now) ≡ true
        → MatchOption result ⊥ (λ n. pos (tick_of (table_view document.now)) ≤ℤ n) }
    ensures ticks { are_ticks
        (range_at (basis_of (is_own table.now) (table_view document.now)) table.now name.now) ≡ true
        → MatchOption result ⊥ (λ n. unsigned_abs n % tick_of (table_view document.now) ≡ 0) }
{
    integer_found(document, table, name)
}

/// Returns the integer at a key whose range is within the two numbers, in a document without a fault.
fn integer(document: &Table, table: &str, name: &str, low: i64, high: i64) -> i64
    requires faultless { HaveNoFault (is_own table.now) (table_view document.now) }
    requires known { lies_in low high
        (range_at (basis_of (is_own table.now) (table_view document.now)) table.now name.now)
        ≡ true }
    ensures value { integer_at table.now name.now (table_view document.now) ≡ Some result }
    ensures low { low ≤ℤ result }
    ensures high { result ≤ℤ high }
    ensures least { least_in
        (range_at (basis_of (is_own table.now) (table_view document.now)) table.now name.now)
        ≤ℤ result }
    ensures most { result
        ≤ℤ most_in (range_at
        (basis_of (is_own table.now) (table_view document.now)) table.now name.now) }
    ensures tick { begins_with_the_tick
        (range_at (basis_of (is_own table.now) (table_view document.now)) table.now name.now) ≡ true
        → pos (tick_of (table_view document.now)) ≤ℤ result }
    ensures ticks { are_ticks
        (range_at (basis_of (is_own table.now) (table_view document.now)) table.now name.now) ≡ true
        → unsigned_abs result % tick_of (table_view document.now) ≡ 0 }
{
    match known(document, table, name, low, high) {
        Some(number) => number,
        None => low,
    }
}

/// Returns the same for a key whose integers fit 32 bits.
pub(crate) fn small_integer(document: &Table, table: &str, name: &str) -> i32
    requires faultless { HaveNoFault (is_own table.now) (table_view document.now) }
    requires known { lies_in (negsuc 2147483647) (pos 2147483647)
        (range_at (basis_of (is_own table.now) (table_view document.now)) table.now name.now)
        ≡ true }
    ensures value { integer_at table.now name.now (table_view document.now) ≡ Some result }
    ensures least { least_in
        (range_at (basis_of (is_own table.now) (table_view document.now)) table.now name.now)
        ≤ℤ result }
    ensures most { result
        ≤ℤ most_in (range_at
        (basis_of (is_own table.now) (table_view document.now)) table.now name.now) }
{
    integer(
        document,
        table,
        name,
        i64::from(i32::MIN),
        i64::from(i32::MAX),
    ) as i32
}

/// Returns the same for a key whose integers fit 32 bits and are not negative.
pub(crate) fn natural(document: &Table, table: &str, name: &str) -> u32
    requires faultless { HaveNoFault (is_own table.now) (table_view document.now) }
    requires known { lies_in (pos 0) (pos 4294967295)
        (range_at (basis_of (is_own table.now) (table_view document.now)) table.now name.now)
        ≡ true }
    ensures there { integer_at table.now name.now (table_view document.now) ≡ Some (pos result) }
    ensures value { result ≡ natural_at table.now name.now (table_view document.now) }
    ensures least { unsigned_abs
        (least_in (range_at
        (basis_of (is_own table.now) (table_view document.now)) table.now name.now)) ≤ result }
    ensures most { result
        ≤ unsigned_abs (most_in
        (range_at (basis_of (is_own table.now) (table_view document.now)) table.now name.now)) }
    ensures tick { begins_with_the_tick
        (range_at (basis_of (is_own table.now) (table_view document.now)) table.now name.now) ≡ true
        → tick_of (table_view document.now) ≤ result }
    ensures ticks { are_ticks
        (range_at (basis_of (is_own table.now) (table_view document.now)) table.now name.now) ≡ true
        → result % tick_of (table_view document.now) ≡ 0 }
{
    integer(document, table, name, 0, i64::from(u32::MAX)) as u32
}

/// Returns the same for a key whose integers fit 16 bits.
pub(crate) fn short_natural(document: &Table, table: &str, name: &str) -> u16
    requires faultless { HaveNoFault (is_own table.now) (table_view document.now) }
    requires known { lies_in (pos 0) (pos 65535)
        (range_at (basis_of (is_own table.now) (table_view document.now)) table.now name.now)
        ≡ true }
    ensures value { result ≡ natural_at table.now name.now (table_view document.now) }
    ensures least { unsigned_abs
        (least_in (range_at
        (basis_of (is_own table.now) (table_view document.now)) table.now name.now)) ≤ result }
    ensures most { result
        ≤ unsigned_abs (most_in
        (range_at (basis_of (is_own table.now) (table_view document.now)) table.now name.now)) }
{
    integer(document, table, name, 0, i64::from(u16::MAX)) as u16
}

/// Returns the same for a key whose integers do not fit 32 bits.
pub(crate) fn long_natural(document: &Table, table: &str, name: &str) -> u64
    requires faultless { HaveNoFault (is_own table.now) (table_view document.now) }
    requires known { lies_in (pos 0) (pos 9223372036854775807)
        (range_at (basis_of (is_own table.now) (table_view document.now)) table.now name.now)
        ≡ true }
    ensures value { result ≡ natural_at table.now name.now (table_view document.now) }
    ensures most { result
        ≤ unsigned_abs (most_in
        (range_at (basis_of (is_own table.now) (table_view document.now)) table.now name.now)) }
{
    integer(document, table, name, 0, i64::MAX) as u64
}

fn integer_or(document: &Table, table: &str, name: &str, otherwise: i64) -> Option<i64>
    ensures { result ≡ integer_or otherwise
        (found_in name.now (table_at table.now (table_view document.now))) }
{
    match found(document, table, name) {
        Some(found) => found.as_integer(),
        None => Some(otherwise),
    }
}

/// Returns the integer at a key that has no fault, or the other number if the key is left out.
fn known_or(
    document: &Table,
    table: &str,
    name: &str,
    low: i64,
    high: i64,
    otherwise: i64,
) -> Option<i64>
    requires faultless { HaveNoFault (is_own table.now) (table_view document.now) }
    requires known { may_lie_in low high otherwise
        (range_at (basis_of (is_own table.now) (table_view document.now)) table.now name.now)
        ≡ true }
    ensures value { result
        ≡ integer_or otherwise (found_in name.now (table_at table.now (table_view document.now))) }
    ensures held { MatchOption result ⊥ (λ n. (low ≤ℤ n) × (n ≤ℤ high)) }
    ensures in_range { MatchOption result ⊥
        (λ n. (least_in (range_at
        (basis_of (is_own table.now) (table_view document.now)) table.now name.now) ≤ℤ n)
        × (n ≤ℤ most_in (range_at
        (basis_of (is_own table.now) (table_view document.now)) table.now name.now))) }
{
    integer_or(document, table, name, otherwise)
}

/// Returns the integer at an optional key, or its default, in a document without a fault.
#[tactic(auto, unfolding(scenario_keys::specs::KeyValues::optional_at))]
pub(crate) fn optional(document: &Table, table: &str, name: &str, otherwise: u32) -> u32
    requires faultless { HaveNoFault (is_own table.now) (table_view document.now) }
    requires known { may_lie_in (pos 0) (pos 4294967295) (pos otherwise)
        (range_at (basis_of (is_own table.now) (table_view document.now)) table.now name.now)
        ≡ true }
    ensures value { result ≡ optional_at table.now name.now otherwise (table_view document.now) }
    ensures least { unsigned_abs
        (least_in (range_at
        (basis_of (is_own table.now) (table_view document.now)) table.now name.now)) ≤ result }
    ensures most { result
        ≤ unsigned_abs (most_in
        (range_at (basis_of (is_own table.now) (table_view document.now)) table.now name.now)) }
{
    match known_or(
        document,
        table,
        name,
        0,
        i64::from(u32::MAX),
        i64::from(otherwise),
    ) {
        Some(number) => number as u32,
        None => otherwise,
    }
}
