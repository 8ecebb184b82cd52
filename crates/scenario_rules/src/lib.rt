//! The rules of a scenario: those of the COLREGs 1972 with its numbers, eleven, or with ranks twelve, followed by the
//! formulas of its tables; or the first fault of these.
//!
//! For a scenario with ranks and two tables `formula` the list has fourteen rules: eleven, `r18`, and the two in their order.
#![tactic(auto)]

mod formula_names;
mod formula_texts;
mod scenario_rules;

pub use scenario_rules::rules_with;
