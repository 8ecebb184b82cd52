//! The audit of a window of ticks: which ordered pairs of vessels met, from which step to which, and at which steps
//! each rule's formula is broken or stays undecided.
//!
//! The caller passes the vessels seen at each tick, one tick after the other. The audit returns the rows in the order
//! of the report, each as soon as no later tick can change it.
//!
//! In the shipped head-on encounter each of the two vessels breaks `r14a` at step 23 and `r8d` from step 56 to step 62, and has a meeting as
//! `head_on` from step 23 to step 66. The rows come in this order, that of their last steps. The total of `r8d` has 134 positions: 120
//! hold and 14 are broken, in 2 stretches.
//! Reports, clocks and files are out of scope: a tick is a list of vessels with their states.
#![tactic(auto)]

mod audit;
mod audit_keeper;
mod counting;
pub mod laws;
mod total;
mod trace;

pub use audit::{Audit, AuditEnd};
pub use audit_keeper::begin_tracks;
pub use audit_rows::Row;
pub use counting::totals_of;
pub use total::Total;
pub use trace::AuditTrace;
pub use traces::{MOST_TRACES, NextRow, TickFault as AuditFault};
