//! The first fault of the predictions.
ghost use Rattle.std.specs.Prelude.{◌≡◌, ◌≤◌, ◌==◌, option_map, codes, map};
ghost use Rattle.std.specs.List.{list_any};
ghost use Rattle.toml.specs.View.{view};
ghost use Rattle.scenario_keys.specs.KeyValues.{integer_found, natural_of};
ghost use Rattle.scenario_keys.specs.IntegerFaults.{number_cause};
ghost use Rattle.predictions.specs.PredictFaults.{is_ship_taken, predicted_mmsi, predict_fault, ship_cause, ships, table_fault};

use crate::changes::changes_cause;
use scenario_keys::{Bounds, Cause, Key, fault_at, member, number_cause};
use toml::Value;

/// The MMSIs of ships.
const SHIPS: Bounds = Bounds {
    low: 200_000_000,
    high: 799_999_999,
    step: 1,
    otherwise: None,
};

/// Returns the integer that was found, or 0 if there is none or it is negative.
fn natural_in(found: Option<&Value>) -> u64
    ensures { result ≡ natural_of (integer_found (option_map (λ v. view v.now) found.entry)) }
{
    match found {
        Some(found) => match found.as_integer() {
            Some(number) if 0 <= number => number as u64,
            _ => 0,
        },
        None => 0,
    }
}

/// Returns the MMSI of a table, 0 if it has none.
pub(crate) fn mmsi_of(table: &Value) -> u64
    ensures { result ≡ predicted_mmsi (view table.now) }
{
    natural_in(member(table, "mmsi"))
}

fn is_before(tables: &[Value], mmsi: u64) -> bool
    ensures { result ≡ list_any (λ v. predicted_mmsi (view v) == mmsi) tables.now }
{
    tables.iter().any(|table| mmsi_of(table) == mmsi)
}

/// Returns whether own ship or an earlier table has the MMSI.
#[tactic(auto, using(crate::proofs::Lists::any_seen))]
fn is_taken(own: u64, before: &[Value], mmsi: u64) -> bool
    ensures { result ≡ is_ship_taken own (map view before.now) mmsi }
{
    own == mmsi || is_before(before, mmsi)
}

fn ship_cause(own: u64, before: &[Value], found: Option<&Value>) -> Option<Cause>
    ensures { result ≡ ship_cause own (map view before.now)
        (option_map (λ v. view v.now) found.entry) }
{
    if let Some(cause) = number_cause(SHIPS, found) {
        return Some(cause);
    }
    if is_taken(own, before, natural_in(found)) {
        return Some(Cause::Range);
    }
    None
}

/// Returns the fault of a table after others: the fault of its ship, otherwise that of its changes.
#[tactic(auto, unfolding(crate::specs::PredictFaults::table_fault), using(crate::proofs::Lists::many_seen))]
fn table_fault(tick: u32, own: u64, before: &[Value], table: &Value) -> Option<(Key, Cause)>
    requires { 1 ≤ tick }
    ensures { result ≡ table_fault tick own (map view before.now, view table.now) }
{
    let item = before.len();
    if let Some(cause) = ship_cause(own, before, member(table, "mmsi")) {
        return fault_at(46, item, Some(cause));
    }
    fault_at(47, item, changes_cause(tick, member(table, "changes")))
}

/// Returns the first fault of the tables of `predict`: in each table first that of its ship and then that of its
/// changes. A ship must differ from own ship, whose MMSI is given, and from the ships of earlier tables. Changes are at
/// most 16 lists of three integers: the seconds after now, ascending multiples of the tick, the course and the speed.
pub fn predict_fault(tick: u32, own: u64, tables: &[Value]) -> Option<(Key, Cause)>
    requires { 1 ≤ tick }
    ensures { result ≡ predict_fault tick own (map view tables.now) }
{
    for k in 0..tables.len() {
        if let Some(fault) = table_fault(tick, own, &tables[..k], &tables[k]) {
            return Some(fault);
        }
    }
    None
}
