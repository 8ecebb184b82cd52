//! The keys of a scenario: their table, the value at a key of a TOML document, and the fault of one integer or one
//! list.
//!
//! A fault has a key and a cause, such as `log.gap: range`.
//!
//! In the table `[log]`, `gap = 9` is reported as `log.gap: range`, `gap = {}` as `log.gap: type`, and a missing gap as
//! `log.gap: missing`. Out of scope: the meaning of the values, and faults that depend on two keys.
#![tactic(auto)]

mod at_keys;
mod cause;
mod fault;
mod key;
mod lists;
mod numbers;
mod rows;
mod told;

pub use at_keys::{found, integer_found, integer_of, member, table_of, value};
pub use cause::Cause;
pub use fault::ScenarioFault;
pub use key::Key;
pub use lists::{element_count, is_integer_list, length_fault, list_fault, tables_fault};
pub use numbers::{Bounds, bounds_of, number_cause};
pub use rows::{KeyRow, Kind, ListRange, Range, When, first_rows, own_rows};
pub use told::{fault_at, fault_by, fault_listed};
