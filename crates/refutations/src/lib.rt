//! Why there is no plan, in a form that can be checked without a search.
//!
//! A list of entries says for every plan of own ship why it fails. An entry is a prefix of plans, the choices of their first legs, with a target and a
//! reason: own ship is inside the target's domain at an instant of a step, or a rule is newly broken at a step. It is good if its reason holds in the
//! part of the trace that the prefix determines, and then every plan that extends the prefix fails for that reason. [`check`] judges any list without a
//! search. [`EntryRows`] writes entries as rows, and [`read_entry`] reads one.
//!
//! With ten choices in each of two legs an entry of the prefix (3) is about the plans 30 to 39, and one of the prefix (3, 4) about plan 34. A list that
//! goes from the prefix (3) to the prefix (5) leaves ten plans out, and is refused at the second of these entries.
//! How a plan is searched for, and how such a list is found, is out of scope.
#![tactic(auto)]

mod check_list;
mod course;
mod entry;
mod entry_reading;
mod entry_row;
mod goodness;
mod instants;
pub mod laws;
mod prefix;
mod replay;
mod trace_so_far;

pub use check_list::check;
pub use entry::{Checked, Reason, WhyEntry};
pub use entry_reading::read_entry;
pub use entry_row::EntryRows;
pub use goodness::horizon;
pub use prefix::Prefix;
