//! The planner: the search for the lowest-numbered plan of own ship that newly breaks no rule and enters no domain. `plan_situations` defines
//! plans, their situation and the predictions in it; this crate re-exports them.
//!
//! In the shipped encounter of giving way a leg has 10 choices, and so there are 100 plans of two legs. If the first leg's choice 0 already
//! fails, so do the plans 0 to 9, and the search continues with plan 10. Its answer is plan 80: to starboard by 60 degrees, and back.
//! What makes a plan fail is out of scope.
#![tactic(auto)]

mod already;
mod basis;
mod explore;
mod legs;
mod level;
mod search;
mod towards;
mod walk;
mod watched;

pub use basis::SearchBasis;
pub use level::Level;
pub use plan_situations::{
    Ahead, Domain, Past, Situation, Target, Targets, laws, least_plan, predicted,
};
pub use search::Search;
pub use walk::Walk;
