//! The values at the keys of a document.
ghost use Rattle.std.specs.Prelude.{◌≡◌, option_map};
ghost use Rattle.toml.specs.Data.{as_integer, get_member};
ghost use Rattle.toml.specs.View.{table_view, view};
ghost use Rattle.scenario_keys.specs.Inner.ViewedResults.{viewed};
ghost use Rattle.scenario_keys.specs.KeyValues.{found_in, integer_at, integer_of, member_at, table_at};

use crate::cause::Cause;
use toml::{Table, Value};

pub fn value<'a>(table: &'a Table, name: &str) -> Option<&'a Value>
    ensures { option_map (λ v. view v.now) result ≡ get_member name.now (table_view table.now) }
{
    table.get(name)
}

/// Returns the table of a name, or the document itself if the name is empty.
pub fn table_of<'a>(document: &'a Table, name: &str) -> Result<&'a Table, Cause>
    ensures { viewed (λ t. table_view t.now) result ≡ table_at name.now (table_view document.now) }
{
    if name.is_empty() {
        return Ok(document);
    }
    match value(document, name) {
        Some(found) => match found.as_table() {
            Some(table) => Ok(table),
            None => Err(Cause::Type_),
        },
        None => Err(Cause::Missing),
    }
}

/// Returns the value at a key.
pub fn found<'a>(document: &'a Table, table: &str, name: &str) -> Option<&'a Value>
    ensures { option_map (λ v. view v.now) result
        ≡ found_in name.now (table_at table.now (table_view document.now)) }
{
    match table_of(document, table) {
        Ok(table) => value(table, name),
        Err(_) => None,
    }
}

/// Returns the integer at a key.
#[tactic(auto, unfolding(crate::specs::KeyValues::integer_at))]
pub fn integer_found(document: &Table, table: &str, name: &str) -> Option<i64>
    ensures { result ≡ integer_at table.now name.now (table_view document.now) }
{
    match found(document, table, name) {
        Some(found) => found.as_integer(),
        None => None,
    }
}

/// Returns the integer of a value, or 0 if it is not an integer.
pub fn integer_of(found: &Value) -> i64
    ensures { result ≡ integer_of (as_integer (view found.now)) }
{
    match found.as_integer() {
        Some(number) => number,
        None => 0,
    }
}

/// Returns the value at a name in one of the tables of a list.
pub fn member<'a>(table: &'a Value, name: &str) -> Option<&'a Value>
    ensures { option_map (λ v. view v.now) result ≡ member_at name.now (view table.now) }
{
    match table.as_table() {
        Some(table) => value(table, name),
        None => None,
    }
}
