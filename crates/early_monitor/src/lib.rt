//! Early answers of formulas of metric temporal logic (Koymans 1990): the caller feeds the rows of a trace one by one,
//! and the monitor returns each position with its value at the first row that makes the value Yes or No.
//!
//! `F[0,20] risk` at a tick of 10 seconds looks two positions ahead. Over two rows without risk and one with risk, an
//! early monitor returns nothing after the first two, and `(0, Yes)`, `(1, Yes)`, `(2, Yes)` after the third.
//!
//! A watch over a window of ticks returns the alarms of all traces: each breach of a rule at the step that decides it.
//! Most rules can be No only with the last row that they reach. An ordinary monitor answers these in time; early
//! monitors watch the others.
#![tactic(auto)]

mod alarm;
mod alarm_set;
mod early_monitor;
mod early_program;
mod early_rule;
mod known;
pub mod laws;
mod pass_program;
mod pass_state;
mod rule_lists;
mod watch;
mod watch_keeper;
mod watched_rules;
mod watched_trace;

pub use alarm::Alarm;
pub use early_monitor::EarlyMonitor;
pub use rule_program::{Lags, is_no_last, lags_of};
pub use traces::TickFault as WatchFault;
pub use watch::Watch;
