//! The rows of an audit and the alarms of a watch that a prefix of a growing log already decides.
//!
//! A tick is settled once the clock of the lines is past it by more than the gap and the slack: the vessels seen then
//! are the same whatever lines follow. A row is decided once enough ticks after its last step are settled; the decided
//! rows are a prefix of the report's rows. A `SettledAudit` audits each tick once it is settled, and returns each row
//! once it is decided. An alarm is decided once the tick at the end of its deciding step is settled; a `SettledWatch`
//! watches the ticks, and returns the alarms.
//!
//! With a gap of 60 seconds and a slack of 30, the tick at second 1700000000 is settled by the first line with a stamp past 1700000090.
//! The text of a row is out of scope: rows and alarms are values.
#![tactic(auto)]

pub mod laws;
mod lists;
mod settled;
mod settled_audit;
mod settled_watch;

pub use settled::{Settled, TickTaker};
pub use settled_audit::SettledAudit;
pub use settled_watch::SettledWatch;
