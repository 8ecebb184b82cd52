//! Why there is no plan: finds the canonical list of entries by the planner's walk.
//!
//! If every plan fails, [`explain`] repeats: it takes the lowest-numbered plan that no entry covers yet, its shortest prefix for which some entry
//! is good, and the first of these entries. If some plan passes, there is no list. [`refutations::check`] judges any list without a search.
//!
//! With ten choices in each of two legs, if choice 0 of the first leg already fails towards a target, the list begins
//! with one entry of the prefix (0), about the plans 0 to 9. The definition of a good entry is out of scope.
#![tactic(auto)]

mod explaining;

pub use explaining::explain;
