//! Reads predictions from tables without a fault.
ghost use Rattle.std.specs.Prelude.{◌≡◌, ◌≤◌, ℕ, option_map, codes, length, map, All, IfOk, None, true};
ghost use Rattle.std.specs.List.{list_all};
ghost use Rattle.toml.specs.View.{array_view, view};
ghost use Rattle.scenario_keys.specs.KeyValues.{array_in, member_at};
ghost use Rattle.predictions.specs.PredictFaults.{is_change_of, predicted_mmsi, change_numbers_at, predict_fault, HaveNoFault};
ghost use Rattle.predictions.specs.PredictValues.{change_of, predicted_changes, predict_of, predictions_of, ArePredictions};
ghost use Rattle.predictions.specs.Inner.{AreReadable, IsReadable};

use crate::changes::{Change, Changes, numbers_of};
use crate::faults::mmsi_of;
use crate::predictions::{Predict, Predictions};
use scenario_keys::member;
use std::alloc::{AllocError, Global};
use toml::Value;
use toml::value::Array;

fn change_in(found: &Value) -> Change
    requires { is_change_of (change_numbers_at (view found.now)) ≡ true }
    ensures { result ≡ change_of (change_numbers_at (view found.now)) }
{
    match numbers_of(found) {
        Some(numbers) => Change {
            after: numbers.after as u32,
            course: numbers.course as u16,
            speed: numbers.speed as u16,
        },
        None => Change {
            after: 0,
            course: 0,
            speed: 0,
        },
    }
}

fn changes_in(alloc: Global, list: &Array) -> Result<Vec<Change>, AllocError>
    requires { list_all (λ v. is_change_of (change_numbers_at (view v))) list.now.items ≡ true }
    ensures { IfOk result
        (λ changes. changes.items
        ≡ map (λ v. change_of (change_numbers_at (view v))) list.now.items) }
{
    let mut changes = Vec::new(alloc);
    for found in list.iter() {
        changes.push(change_in(found))?;
    }
    Ok(changes)
}

fn array_in(found: Option<&Value>) -> Option<&Array>
    ensures { option_map (λ a. array_view a.now) result
        ≡ array_in (option_map (λ v. view v.now) found.entry) }
{
    match found {
        Some(found) => found.as_array(),
        None => None,
    }
}

/// Returns the changes of a table.
fn changes_of(alloc: Global, found: Option<&Value>) -> Result<Changes, AllocError>
    requires { AreReadable (option_map (λ v. view v.now) found) }
    ensures { IfOk result
        (λ changes. changes ≡ predicted_changes (option_map (λ v. view v.now) found.entry)) }
{
    match array_in(found) {
        Some(list) => Ok(Changes::new(changes_in(alloc, list)?)),
        None => Ok(Changes::new(Vec::new(alloc))),
    }
}

fn predict_in(alloc: Global, table: &Value) -> Result<Predict, AllocError>
    requires { IsReadable (view table.now) }
    ensures { IfOk result (λ predict. predict ≡ predict_of (view table.now)) }
{
    let changes = changes_of(alloc, member(table, "changes"))?;
    Ok(Predict {
        mmsi: mmsi_of(table) as u32,
        changes,
    })
}

fn predicts_in(alloc: Global, tables: &[Value]) -> Result<Vec<Predict>, AllocError>
    requires { All (λ v. IsReadable (view v)) tables.now }
    ensures { IfOk result (λ list. list.items ≡ map (λ v. predict_of (view v)) tables.now) }
{
    let mut list = Vec::new(alloc);
    for table in tables {
        list.push(predict_in(alloc, table)?)?;
    }
    Ok(list)
}

/// Returns the predictions of at most 64 tables that have no fault at some tick and some MMSI of own ship. For this
/// tick and MMSI the values are in range.
pub fn predictions_of(alloc: Global, tables: &[Value]) -> Result<Predictions, AllocError>
    requires few { length tables.now ≤ 64 }
    requires faultless { HaveNoFault (map view tables.now) }
    ensures values { IfOk result (λ p. p ≡ predictions_of (map view tables.now)) }
    ensures in_range { (tick own : ℕ) → predict_fault tick own (map view tables.now) ≡ None
        → IfOk result (ArePredictions tick own) }
{
    let list = predicts_in(alloc, tables)?;
    Ok(Predictions::new(list))
}
