//! The rules of an audit: the formulas of the duties in the COLREGs 1972 (Rules 8 and 13 to 17) with the numbers of a
//! scenario, and then the formulas that the scenario adds.
//!
//! The first of the eleven rules is `r8b` and the last is `r17c`; with ranks, `r18` follows them. A scenario's formula
//! with the name `slow` follows all of these, under its name. The meaning of the atoms is out of scope: `meetings`
//! computes their values.
#![tactic(auto)]

mod draft;
mod duties;
mod name;
mod numbers;
mod ranking;
mod rule;
mod rule_set;
mod words;

pub use name::Name;
pub use numbers::{RuleNumbers, Safe};
pub use ranking::Ranking;
pub use rule_set::{MOST_RULES, RuleSet};
