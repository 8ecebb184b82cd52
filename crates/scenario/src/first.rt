//! The first fault of a document's keys, except those of formulas, in the order of their table.
ghost use Rattle.std.specs.Prelude.{◌≡◌, ◌≤◌, map};
ghost use Rattle.toml.specs.View.{table_view};
ghost use Rattle.rule_set.specs.declared.ranking.Ranking.{Ranking};
ghost use Rattle.scenario_keys.specs.FirstFaults.{IsFound};
ghost use Rattle.scenario_keys.specs.FirstOf.{first_of};
ghost use Rattle.scenario_keys.specs.Inner.SeenRows.{seen};
ghost use Rattle.scenario_keys.specs.ScenarioKeys.{first_rows, own_rows};
ghost use Rattle.scenario.specs.DocumentFaults.{IsTold};
ghost use Rattle.scenario.specs.KeyFaults.{fault_of};

use crate::basis::{Basis, counts};
use crate::listed::values_at;
use crate::plan_sizes::{natural_at, plans_cause, sizes_of};
use crate::shapes::shape_fault;
use predictions::predict_fault;
use scenario_keys::{
    Cause, Key, KeyRow, Kind, bounds_of, fault_by, fault_listed, first_rows, list_fault,
    number_cause, own_rows, table_of, tables_fault, value,
};
use toml::Table;

/// Returns the fault of a key, if it counts and has one.
#[tactic(auto, unfolding(crate::specs::KeyFaults::fault_of))]
fn fault_of(basis: Basis, document: &Table, row: &KeyRow) -> Option<(Key, Cause)>
    requires { 1 ≤ basis.tick }
    ensures { result ≡ fault_of basis (table_view document.now) (seen row.now) }
{
    if !counts(basis, row.when) {
        return None;
    }
    let table = match table_of(document, row.table) {
        Ok(table) => table,
        Err(cause) => return fault_by(row.number, Some(cause)),
    };
    match row.kind {
        Kind::Document
        | Kind::FormulaName
        | Kind::FormulaText
        | Kind::Formulas
        | Kind::PredictedChanges => None,
        Kind::PredictedShip => predict_fault(
            basis.tick,
            natural_at(table, "mmsi"),
            values_at(table, "predict"),
        ),
        Kind::Plans => fault_by(row.number, plans_cause(basis.tick, sizes_of(table))),
        Kind::Number(range) => fault_by(
            row.number,
            number_cause(bounds_of(range, basis.tick), value(table, row.name)),
        ),
        Kind::Numbers(range) => {
            fault_listed(row.number, list_fault(range, value(table, row.name)))
        }
        Kind::Tables(most) => {
            fault_listed(row.number, tables_fault(most, value(table, row.name)))
        }
        Kind::Shape => fault_listed(row.number, shape_fault(value(table, row.name))),
    }
}

/// Returns the fault of the first key that has one, among some keys.
fn first_among(basis: Basis, document: &Table, rows: &[KeyRow]) -> Option<(Key, Cause)>
    requires { 1 ≤ basis.tick }
    ensures { result ≡ first_of
        (map (λ row. fault_of basis (table_view document.now) (seen row)) rows.now) }
{
    for row in rows {
        if let Some(fault) = fault_of(basis, document, row) {
            return Some(fault);
        }
    }
    None
}

/// Returns the first fault of the keys before those of formulas.
pub(crate) fn first_fault(basis: Basis, document: &Table) -> Option<(Key, Cause)>
    requires { 1 ≤ basis.tick }
    ensures { (ranks : Ranking)
        → IsFound (IsTold basis ranks (table_view document.now)) first_rows result }
{
    first_among(basis, document, first_rows())
}

/// Returns the first fault of the keys of own ship.
pub(crate) fn own_fault(basis: Basis, document: &Table) -> Option<(Key, Cause)>
    requires { 1 ≤ basis.tick }
    ensures { (ranks : Ranking)
        → IsFound (IsTold basis ranks (table_view document.now)) own_rows result }
{
    first_among(basis, document, own_rows())
}
