//! Own ship, and the plans for a manoeuvre.
ghost use Rattle.std.specs.Prelude.{◌≡◌, ◌≤◌, ◌*◌, neg_ℤ, pos, unsigned_abs, codes, length, map, All, IfOk, IfSome, true};
ghost use Rattle.toml.specs.View.{table_view, view};
ghost use Rattle.lattice.specs.Grids.{positions_of};
ghost use Rattle.scenario.specs.KeyFaults.{tick_of};
ghost use Rattle.scenario.specs.Inner.NoFaults.{HaveNoFault};
ghost use Rattle.scenario_keys.specs.KeyValues.{integers_at, list_at, natural_at};
ghost use Rattle.predictions.specs.PredictValues.{predictions_of, ArePredictions};
ghost use Rattle.scenario.specs.ScenarioValues.{grid_of, own_of, own_where};
ghost use Rattle.scenario_values.specs.ValueRanges.{IsOwnPart};

use crate::integers::{natural, optional};
use crate::listed::{shorts, values_at};
use crate::shapes::shape_at;
use lattice::Lattice;
use predictions::{Predictions, predictions_of};
use scenario_values::OwnPart;
use std::alloc::{AllocError, Global};
use toml::{Table, Value};

#[tactic(auto, unfolding(crate::specs::Inner::KnownKeys::kind_at, scenario_keys::specs::ScenarioKeys::own_rows))]
fn courses_in(alloc: Global, document: &Table) -> Result<Vec<i16>, AllocError>
    requires { HaveNoFault true (table_view document.now) }
    ensures values { IfOk result
        (λ v. v.items ≡ integers_at (codes "own") (codes "courses") (table_view document.now)) }
    ensures in_range { IfOk result (λ v. All (λ z. unsigned_abs z ≤ 1800) v.items) }
    ensures some { IfOk result (λ v. 1 ≤ length v.items) }
    ensures most { IfOk result (λ v. length v.items ≤ 32) }
{
    shorts(alloc, document, "own", "courses")
}

#[tactic(auto, unfolding(crate::specs::Inner::KnownKeys::kind_at, scenario_keys::specs::ScenarioKeys::own_rows))]
fn speeds_in(alloc: Global, document: &Table) -> Result<Vec<i16>, AllocError>
    requires { HaveNoFault true (table_view document.now) }
    ensures values { IfOk result
        (λ v. v.items ≡ integers_at (codes "own") (codes "speeds") (table_view document.now)) }
    ensures in_range { IfOk result (λ v. All (λ z. unsigned_abs z ≤ 1022) v.items) }
    ensures some { IfOk result (λ v. 1 ≤ length v.items) }
    ensures most { IfOk result (λ v. length v.items ≤ 16) }
{
    shorts(alloc, document, "own", "speeds")
}

/// Returns the lattice of these changes of course and of speed, with the other numbers of the document.
#[tactic(auto, unfolding(crate::specs::ScenarioValues::grid_of, crate::specs::Inner::KnownKeys::kind_at, scenario_keys::specs::ScenarioKeys::own_rows))]
fn lattice_of(alloc: Global, document: &Table, courses: &[i16], speeds: &[i16]) -> Lattice
    requires faultless { HaveNoFault true (table_view document.now) }
    requires courses { courses.now
        ≡ integers_at (codes "own") (codes "courses") (table_view document.now) }
    requires speeds { speeds.now
        ≡ integers_at (codes "own") (codes "speeds") (table_view document.now) }
    requires some_courses { 1 ≤ length courses.now }
    requires few_courses { length courses.now ≤ 32 }
    requires course_changes { All (λ z. unsigned_abs z ≤ 1800) courses.now }
    requires some_speeds { 1 ≤ length speeds.now }
    requires few_speeds { length speeds.now ≤ 16 }
    requires speed_changes { All (λ z. unsigned_abs z ≤ 1022) speeds.now }
    ensures value { result ≡ grid_of (table_view document.now) }
    ensures time { positions_of result * tick_of (table_view document.now) ≤ 7200 }
{
    let legs = natural(document, "own", "legs");
    let leg_ticks = natural(document, "own", "leg_ticks");
    let tail = natural(document, "own", "tail");
    let turn_rate = optional(document, "own", "turn_rate", 1800);
    let speed_rate = optional(document, "own", "speed_rate", 1022);
    Lattice::new(
        alloc,
        courses,
        speeds,
        legs as u8,
        leg_ticks,
        tail,
        turn_rate as u16,
        speed_rate as u16,
    )
}

fn lattice_in(alloc: Global, document: &Table) -> Result<Lattice, AllocError>
    requires { HaveNoFault true (table_view document.now) }
    ensures value { IfOk result (λ l. l ≡ grid_of (table_view document.now)) }
    ensures time { IfOk result (λ l. positions_of l * tick_of (table_view document.now) ≤ 7200) }
{
    let courses = courses_in(alloc, document)?;
    let speeds = speeds_in(alloc, document)?;
    Ok(lattice_of(alloc, document, &courses, &speeds))
}

/// Returns the tables of `predict`, or none without the key.
fn predict_tables(document: &Table) -> &[Value]
    requires { HaveNoFault true (table_view document.now) }
    ensures tables { map view result.now
        ≡ list_at (codes "") (codes "predict") (table_view document.now) }
    ensures few { length result.now ≤ 64 }
{
    values_at(document, "predict")
}

/// Returns the predictions of other vessels.
fn predictions_in(alloc: Global, document: &Table) -> Result<Predictions, AllocError>
    requires { HaveNoFault true (table_view document.now) }
    ensures values { IfOk result
        (λ p. p ≡ predictions_of (list_at (codes "") (codes "predict") (table_view document.now))) }
    ensures in_range { IfOk result
        (ArePredictions (tick_of (table_view document.now))
        (natural_at (codes "own") (codes "mmsi") (table_view document.now))) }
{
    predictions_of(alloc, predict_tables(document))
}

/// Returns own ship with this lattice and these predictions.
#[tactic(auto, unfolding(crate::specs::ScenarioValues::own_of, crate::specs::Inner::KnownKeys::kind_at, scenario_keys::specs::ScenarioKeys::own_rows))]
fn own_with(document: &Table, lattice: Lattice, predict: Predictions) -> OwnPart
    requires faultless { HaveNoFault true (table_view document.now) }
    requires lattice { lattice ≡ grid_of (table_view document.now) }
    requires time { positions_of lattice * tick_of (table_view document.now) ≤ 7200 }
    requires predict { predict
        ≡ predictions_of (list_at (codes "") (codes "predict") (table_view document.now)) }
    requires predicted { ArePredictions (tick_of (table_view document.now))
        (natural_at (codes "own") (codes "mmsi") (table_view document.now)) predict }
    ensures values { result ≡ own_of (table_view document.now) }
    ensures in_range { IsOwnPart (tick_of (table_view document.now)) result }
{
    OwnPart {
        mmsi: natural(document, "own", "mmsi"),
        lattice,
        base: natural(document, "own", "base"),
        lengths: natural(document, "own", "lengths"),
        range: natural(document, "own", "range"),
        predict,
        shape: shape_at(document),
    }
}

/// Returns own ship of a document without a fault.
fn own_in(alloc: Global, document: &Table) -> Result<OwnPart, AllocError>
    requires { HaveNoFault true (table_view document.now) }
    ensures values { IfOk result (λ o. o ≡ own_of (table_view document.now)) }
    ensures in_range { IfOk result (IsOwnPart (tick_of (table_view document.now))) }
{
    let lattice = lattice_in(alloc, document)?;
    let predict = predictions_in(alloc, document)?;
    Ok(own_with(document, lattice, predict))
}

/// Returns own ship of a document without a fault, if she is needed.
pub(crate) fn own_where(
    alloc: Global,
    document: &Table,
    need_own: bool,
) -> Result<Option<OwnPart>, AllocError>
    requires { HaveNoFault need_own (table_view document.now) }
    ensures values { IfOk result (λ o. o ≡ own_where need_own (table_view document.now)) }
    ensures in_range { IfOk result (λ o. IfSome o (IsOwnPart (tick_of (table_view document.now)))) }
{
    if !need_own {
        return Ok(None);
    }
    let own = own_in(alloc, document)?;
    Ok(Some(own))
}
