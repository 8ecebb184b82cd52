//! The faults of integers.
ghost use Rattle.std.specs.Prelude.{◌≡◌, ◌≤◌, option_map, Some};
ghost use Rattle.toml.specs.View.{view};
ghost use Rattle.scenario_keys.specs.IntegerFaults.{bounds_of, integer_cause, is_multiple, is_in_bounds, number_cause};

use crate::cause::Cause;
use crate::rows::Range;
use toml::Value;

/// The integers that a key may have, and the default of an optional key.
#[derive(Clone, Copy, PartialEq, Eq)]
pub struct Bounds {
    pub low: i64,
    pub high: i64,
    /// The integer must be a multiple of this; 1 for any integer.
    pub step: u32,
    pub otherwise: Option<i64>,
}

pub fn bounds_of(range: Range, tick: u32) -> Bounds
    requires { 1 ≤ tick }
    ensures bounds { result ≡ bounds_of tick range }
    ensures step { 1 ≤ result.step }
{
    let (low, high, step, otherwise) = match range {
        Range::FromTo(low, high) => (low, high, 1, None),
        Range::FromTheTickTo(high) => (i64::from(tick), high, 1, None),
        Range::TicksFromOneTo(high) => (i64::from(tick), high, tick, None),
        Range::TicksTo(high) => (0, high, tick, None),
        Range::Optional(low, high, otherwise) => (low, high, 1, Some(otherwise)),
    };
    Bounds {
        low,
        high,
        step,
        otherwise,
    }
}

fn is_within(bounds: Bounds, number: i64) -> bool
    ensures { result ≡ is_in_bounds bounds number }
{
    bounds.low <= number && number <= bounds.high
}

fn is_multiple(step: u32, number: i64) -> bool
    requires { 1 ≤ step }
    ensures { result ≡ is_multiple step number }
{
    number.unsigned_abs() % u64::from(step) == 0
}

fn integer_cause(bounds: Bounds, number: i64) -> Option<Cause>
    requires { 1 ≤ bounds.step }
    ensures { result ≡ integer_cause bounds (Some number) }
{
    if !is_within(bounds, number) {
        return Some(Cause::Range);
    }
    if !is_multiple(bounds.step, number) {
        return Some(Cause::Multiple);
    }
    None
}

pub fn number_cause(bounds: Bounds, found: Option<&Value>) -> Option<Cause>
    requires { 1 ≤ bounds.step }
    ensures { result ≡ number_cause bounds (option_map (λ v. view v.now) found.entry) }
{
    match found {
        Some(found) => match found.as_integer() {
            Some(number) => integer_cause(bounds, number),
            None => Some(Cause::Type_),
        },
        None => match bounds.otherwise {
            Some(_) => None,
            None => Some(Cause::Missing),
        },
    }
}
