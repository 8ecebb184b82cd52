//! The values of a scenario, separate from their text, so that code that uses them depends on no reader.
//!
//! A window that starts at 1,700,000,000 with a tick of 10 s has its tick 3 at 1,700,000,030 ([`Window::time`]). The
//! names of keys and their faults are out of scope: `scenario_keys` and `scenario` define them.
#![tactic(auto)]

mod own_part;
mod subjects;
mod values;

pub use own_part::OwnPart;
pub use subjects::Subjects;
pub use values::{LogNumbers, Scenario, Window};
