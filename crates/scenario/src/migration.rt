//! Turns a scenario of version 1 into one of version 2 with the same meaning.
ghost use Rattle.std.specs.Prelude.{◌≡◌, ◌⊎◌, ◌≤◌, codes, map, option_map, false, Bool, IfErr, IfOk, OnOk};
ghost use Rattle.std.specs.Cmp.Lexicographic.{slice_cmp};
ghost use Rattle.std.specs.Ordering.{nat_cmp};
ghost use Rattle.std.specs.declared.cmp.Ordering.TheVariants.{Greater};
ghost use Rattle.toml.specs.Data.{members_depth, no_members};
ghost use Rattle.toml.specs.Text.{IsDocumentText};
ghost use Rattle.scenario.specs.DocumentFaults.{IsFaultless};
ghost use Rattle.scenario.specs.KeyFaults.{is_version_two};
ghost use Rattle.toml.specs.View.{array_view, items_of, table_view, view};
ghost use Rattle.scenario_keys.specs.Inner.SeenRows.{seen};
ghost use Rattle.scenario_keys.specs.ListFaults.{elements};
ghost use Rattle.scenario_keys.specs.ToldFaults.{IfFault};
ghost use Rattle.scenario_keys.specs.declared.key.Key.{Key};
ghost use Rattle.scenario_keys.specs.declared.cause.Cause.{Cause};
ghost use Rattle.scenario.specs.Migration.{for_migration, found_at, has_own, kept, kept_by, known_members, new_value, table_names, two_of, IsMigrated, IsNotMigrated, MeansTheSame};
ghost use Rattle.scenario.specs.Inner.PutTogether.{keys_of, migrated, with_found, with_key, with_keys, with_member, with_table, with_tables};
ghost use Rattle.scenario.specs.ScenarioReading.{Means, Reads};
ghost use Rattle.scenario_values.specs.declared.values.Scenario.{Scenario};

use crate::basis::is_version_two;
use crate::purpose::Purpose;
use crate::reading::{document_of, values_of};
use rule_set::Ranking;
use scenario_keys::{
    Cause, Key, KeyRow, Kind, ScenarioFault, When, first_rows, found, member, own_rows, value,
};
use std::alloc::{AllocError, Global};
use toml::value::Array;
use toml::{Table, Value};

/// The tables that contain keys.
const TABLES: [&str; 7] = [
    "window",
    "reference",
    "log",
    "detect",
    "act",
    "rules",
    "own",
];

/// Returns whether the document has own ship.
#[tactic(auto, unfolding(crate::specs::Migration::has_own))]
fn has_own(document: &Table) -> bool
    ensures { result ≡ has_own (table_view document.now) }
{
    value(document, "own").is_some()
}

/// Returns the purpose for which everything in the document counts: own ship's keys, and ranks if it asks for them.
fn for_migration(document: &Table) -> Purpose
    ensures { result ≡ for_migration (table_view document.now) }
{
    Purpose {
        need_own: has_own(document),
        ranks: Ranking::Counted,
    }
}

/// Adds a member.
fn put(alloc: Global, members: &mut Table, name: &str, value: Value) -> Result<(), AllocError>
    ensures { OnOk result
        (table_view members.new ≡ with_member name.now (view value) (table_view members.old)) }
{
    let name = String::from_str(alloc, name)?;
    members.insert(name, value)?;
    Ok(())
}

/// Adds a copy of a value, if there is one.
fn put_found(
    alloc: Global,
    members: &mut Table,
    name: &str,
    found: Option<&Value>,
) -> Result<(), AllocError>
    ensures { OnOk result
        (table_view members.new
        ≡ with_found name.now (option_map (λ v. view v.now) found.entry) (table_view members.old)) }
{
    match found {
        Some(found) => put(alloc, members, name, found.clone()?),
        None => Ok(()),
    }
}

/// Returns a table with only the members of these two names, in ascending order.
fn two_of(alloc: Global, here: &Value, first: &str, second: &str) -> Result<Value, AllocError>
    requires { slice_cmp nat_cmp second.now first.now ≡ Greater }
    ensures { IfOk result (λ v. view v ≡ two_of first.now second.now (view here.now)) }
{
    let mut members = Table::new(alloc);
    put_found(alloc, &mut members, first, member(here, first))?;
    put_found(alloc, &mut members, second, member(here, second))?;
    Ok(Value::Table(members))
}

/// Returns a table of `formula` or `predict` with only its known members.
fn known_members(alloc: Global, list: &str, here: &Value) -> Result<Value, AllocError>
    ensures { IfOk result (λ v. view v ≡ known_members list.now (view here.now)) }
{
    if list == "formula" {
        return two_of(alloc, here, "name", "text");
    }
    two_of(alloc, here, "changes", "mmsi")
}

fn known_tables(alloc: Global, list: &str, tables: &Array) -> Result<Array, AllocError>
    ensures { IfOk result
        (λ a. map view a.items ≡ map (λ v. known_members list.now (view v)) tables.now.items) }
{
    let mut known = Vec::new(alloc);
    for here in tables.iter() {
        known.push(known_members(alloc, list, here)?)?;
    }
    Ok(known)
}

/// Returns the part of a key's value that migration keeps.
fn kept(alloc: Global, row: &KeyRow, found: &Value) -> Result<Value, AllocError>
    ensures { IfOk result (λ v. view v ≡ kept_by row.now.kind row.now.name.now (view found.now)) }
{
    match row.kind {
        Kind::Tables(_) => match found.as_array() {
            Some(tables) => Ok(Value::Array(known_tables(alloc, row.name, tables)?)),
            None => found.clone(),
        },
        _ => found.clone(),
    }
}

fn kept_at(alloc: Global, document: &Table, row: &KeyRow) -> Result<Option<Value>, AllocError>
    ensures { IfOk result
        (λ v. option_map view v
        ≡ kept (seen row.now)
        (found_at row.now.table.now row.now.name.now (table_view document.now))) }
{
    match found(document, row.table, row.name) {
        Some(found) => Ok(Some(kept(alloc, row, found)?)),
        None => Ok(None),
    }
}

/// Returns the safe distance of version 1.
fn safe_at(document: &Table) -> Result<Option<Value>, AllocError>
    ensures { IfOk result
        (λ v. option_map view v
        ≡ found_at (codes "rules") (codes "safe") (table_view document.now)) }
{
    match found(document, "rules", "safe") {
        Some(found) => Ok(Some(found.clone()?)),
        None => Ok(None),
    }
}

/// Returns the value of a key in version 2, if the document has one.
#[tactic(auto, unfolding(crate::specs::Migration::new_value))]
fn new_value(alloc: Global, document: &Table, row: &KeyRow) -> Result<Option<Value>, AllocError>
    ensures { IfOk result
        (λ v. option_map view v ≡ new_value (table_view document.now) (seen row.now)) }
{
    match row.when {
        When::InVersionTwo => safe_at(document),
        When::ForOwnShip => {
            if has_own(document) {
                kept_at(alloc, document, row)
            } else {
                Ok(None)
            }
        }
        When::Always | When::InVersionOne => {
            if row.number == 1 {
                Ok(Some(Value::Integer(2)))
            } else {
                kept_at(alloc, document, row)
            }
        }
    }
}

/// Adds a key, if it belongs to the table.
fn put_key(
    alloc: Global,
    document: &Table,
    table: &str,
    row: &KeyRow,
    members: &mut Table,
) -> Result<(), AllocError>
    ensures { OnOk result
        (table_view members.new
        ≡ with_key (table_view document.now) table.now (seen row.now) (table_view members.old)) }
{
    let is_key = matches!(
        row.kind,
        Kind::Number(_) | Kind::Numbers(_) | Kind::Tables(_) | Kind::Shape
    );
    if !is_key || row.table != table {
        return Ok(());
    }
    match new_value(alloc, document, row)? {
        Some(value) => put(alloc, members, row.name, value),
        None => Ok(()),
    }
}

fn with_keys(
    alloc: Global,
    document: &Table,
    table: &str,
    rows: &[KeyRow],
    members: Table,
) -> Result<Table, AllocError>
    ensures { IfOk result
        (λ t. table_view t
        ≡ with_keys (table_view document.now) table.now (map seen rows.now) (table_view members)) }
{
    let mut members = members;
    for row in rows {
        put_key(alloc, document, table, row, &mut members)?;
    }
    Ok(members)
}

/// Returns the keys of a table, with their values in version 2.
#[tactic(auto, unfolding(crate::specs::Inner::PutTogether::keys_of))]
fn keys_of(alloc: Global, document: &Table, table: &str) -> Result<Table, AllocError>
    ensures { IfOk result (λ t. table_view t ≡ keys_of (table_view document.now) table.now) }
{
    let members = with_keys(alloc, document, table, first_rows(), Table::new(alloc))?;
    with_keys(alloc, document, table, own_rows(), members)
}

/// Adds a table, if the document has it.
fn put_table(
    alloc: Global,
    document: &Table,
    name: &str,
    members: &mut Table,
) -> Result<(), AllocError>
    ensures { OnOk result
        (table_view members.new
        ≡ with_table (table_view document.now) name.now (table_view members.old)) }
{
    if value(document, name).is_none() {
        return Ok(());
    }
    let keys = keys_of(alloc, document, name)?;
    put(alloc, members, name, Value::Table(keys))
}

fn with_tables(
    alloc: Global,
    document: &Table,
    names: &[&str],
    members: Table,
) -> Result<Table, AllocError>
    ensures { IfOk result
        (λ t. table_view t
        ≡ with_tables (table_view document.now) (map (λ name. name.now) names.now)
        (table_view members)) }
{
    let mut members = members;
    for name in names {
        put_table(alloc, document, name, &mut members)?;
    }
    Ok(members)
}

/// Returns the document of version 2.
#[tactic(auto, unfolding(crate::specs::Inner::PutTogether::migrated))]
fn migrated(alloc: Global, document: &Table) -> Result<Table, AllocError>
    ensures { IfOk result (λ t. table_view t ≡ migrated (table_view document.now)) }
{
    let members = keys_of(alloc, document, "")?;
    with_tables(alloc, document, &TABLES, members)
}

/// Returns the text of a document. Its values include no dates, so only memory may run out.
fn text_of(alloc: Global, document: &Table) -> Result<Vec<u8>, ScenarioFault>
    requires { members_depth (table_view document.now) ≤ 5 }
    ensures printed { IfOk result (λ v. IsDocumentText false (table_view document.now) v.items) }
    ensures read_again { IfOk result (λ v. Reads v.items (table_view document.now)) }
    ensures memory { IfErr result (λ fault. fault ≡ ScenarioFault.Memory) }
{
    match toml::table_to_string(alloc, document) {
        Ok(text) => Ok(text.into_bytes()),
        Err(_) => Err(ScenarioFault::Memory),
    }
}

/// Returns the text of version 2 of a document of version 1 without a fault.
fn migrated_text(alloc: Global, document: &Table) -> Result<Vec<u8>, ScenarioFault>
    requires version_one { is_version_two (table_view document.now) ≡ false }
    requires faultless { IsFaultless (for_migration (table_view document.now))
        (table_view document.now) }
    ensures printed { IfOk result
        (λ v. IsDocumentText false (migrated (table_view document.now)) v.items) }
    ensures read_again { IfOk result (λ v. Reads v.items (migrated (table_view document.now))) }
    ensures memory { IfErr result (λ fault. fault ≡ ScenarioFault.Memory) }
{
    let migrated = migrated(alloc, document)?;
    text_of(alloc, &migrated)
}

/// Migrates a scenario, without the rest of the contract of `migrate`.
fn migration(alloc: Global, bytes: &[u8]) -> Result<Vec<u8>, ScenarioFault>
    ensures migrated { IfOk result (λ v. IsMigrated bytes.now v.items) }
    ensures refused { IfErr result (IfFault (λ told. IsNotMigrated bytes.now told.0 told.1)) }
{
    let document = document_of(alloc, bytes)?;
    if is_version_two(&document) {
        return Err(ScenarioFault::Fault(Key { row: 1, item: 0 }, Cause::Range));
    }
    drop(values_of(alloc, &document, for_migration(&document))?);
    migrated_text(alloc, &document)
}

/// Turns a scenario of version 1 into one of version 2 with the same meaning, or returns the exact reason why it
/// cannot: the scenario already has version 2, or it has a fault. Memory may run out instead.
///
/// The text has only the known keys, without comments. It keeps own ship's keys and ranks if the scenario has them, and
/// predictions of other vessels only with own ship. Each kind of encounter has the single safe distance of the
/// scenario. If this makes the rules too heavy, reading the text returns the fault `formulas: product`.
pub fn migrate(alloc: Global, bytes: &[u8]) -> Result<Vec<u8>, ScenarioFault>
    ensures migrated { IfOk result (λ text. IsMigrated bytes.now text.items) }
    ensures same { IfOk result
        (λ text. (need_own : Bool) (scenario : Scenario) → Means need_own bytes.now scenario
        → MeansTheSame need_own scenario text.items) }
    ensures refused { (key : Key) (cause : Cause) → result ≡ Err (ScenarioFault.Fault key cause)
        → IsNotMigrated bytes.now key cause }
    // The converse: only out of memory needs no cause.
    ensures told { (key : Key) (cause : Cause) → IsNotMigrated bytes.now key cause
        → (result ≡ Err (ScenarioFault.Fault key cause)) ⊎ (result ≡ Err ScenarioFault.Memory) }
{
    migration(alloc, bytes)
}
