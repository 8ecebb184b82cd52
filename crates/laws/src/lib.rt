//! Laws over the definitions. Each is a function whose contract is the law, and nothing of the program depends on them.
//!
//! - `checks`: rows with the right reasons why there is no plan have no first wrong row.
//! - `reports`: a request has at most one report on a log, further lines never change bytes that are already settled, and at most one
//!   answer of a run is due.
//! - `existence`: such a report, settled text, canonical list, and list of rows or alarms always exist (in double
//! negation).
//! - `inert`: removing a line of noise without a time stamp changes the report by one count only.
//! - `shares`: when the joined reports of several audits are the report of one. A long audit runs in shares: by
//! subjects (one log, a group of vessels each), by time (one log, a window each) or by vessels (the lines of some
//! vessels, and of the others what keeps the clock). The laws say which rows of a share are rows of the whole, and
//! which part of each share a join must use.
//!
//! The one law that `run` itself needs, that a log has at most one outcome, is `sessions::laws::one_answer`.
#![tactic(auto)]

pub mod checks;
pub mod existence;
pub mod inert;
pub mod reports;
pub mod shares;
