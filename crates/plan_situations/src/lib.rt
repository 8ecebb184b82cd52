//! The situation of a plan: what is known of own ship and of her targets at now, and what is predicted; when a plan of hers fails in it; and
//! the lowest-numbered plan that does not, found plan by plan. It is made of a scenario and a book of vessels if own ship is ready.
//!
//! Own ship heads north at 18 knots, with a target dead ahead that lies still and whose domain reaches 300 m. The plan that keeps on fails: it
//! enters the domain, at a rational instant within the first step that does. One that turns away in time does not.
//! How all plans are searched quickly is out of scope: `planner` and `refutations` do that, over the definitions here.
#![tactic(auto)]

mod boxes;
mod domain;
mod flat;
pub mod laws;
mod lists;
mod near;
mod path;
mod prediction;
mod preparation;
mod readiness;
mod reasons;
mod situation;
mod targets;
mod ticks;
mod track;

pub use boxes::Bounds;
pub use domain::Domain;
pub use flat::least_plan;
pub use lists::{Ahead, Past, Targets};
pub use near::Near;
pub use prediction::predicted;
pub use preparation::{MOST_TARGETS, PrepareFault, Prepared, prepare};
pub use readiness::{Ready, Unready};
pub use reasons::{BrokenRule, DomainEntry};
pub use situation::{Situation, Target};
