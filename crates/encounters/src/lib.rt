//! Encounters of two vessels: risk of collision, past and clear, the engagement between the two, and the vessels'
//! alterations since it began.
//!
//! Rules 7 and 13 to 17 of the COLREGs 1972 speak of risk of collision and of being "finally past and clear" in words;
//! the numbers are the scenario's. Distances are tenths of a millimetre, angles tenths of a degree, speeds tenths of a
//! knot, and times ticks. No function takes memory.
//!
//! Both head north, and from A vessel B is at `p` `(-3000000, 20000000 - 1000000 i)` at step `i`, with `w` `(0, -1000000)`. With risk
//! within 500 metres and 60 ticks there is risk at step 0, where A is `Overtaking`. At step 19 the class alone is
//! `CrossingStands`, and the engagement's kind is still `Overtaking`, at age 19.
#![tactic(auto)]

mod act;
mod changes;
mod detect;
mod detection;
mod engagement;
mod engagement_state;
pub mod laws;
mod pair_step;

pub use act::Act;
pub use changes::{Changes, changes_since};
pub use detect::Detect;
pub use detection::{opening, past_clear, risk};
pub use engagement::Engagement;
pub use engagement_state::EngagementState;
pub use pair_step::PairStep;
