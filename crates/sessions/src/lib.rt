//! Reports on a log of AIS sentences that comes in pieces.
//!
//! A [`Session`] takes a log in pieces, however it is cut, and returns the part of its mode's report that the bytes so far decide: with
//! `points` the rows of the accepted reports, with `audit` those of the stretches that no later line can change, with `watch` those of
//! the alarms. At the log's end it returns the rest of the report, or why there is none. `specs/Endings.antt` defines the reports,
//! `specs/SettledText.antt` what a front of a log decides of them, and `specs/Refusals.antt` what ends a session before the log's end.
//!
//! For example, a session `points` takes a log of two reports in two pieces; the first ends within the second line. The first piece results
//! in the row of the first report, the second piece in that of the second, and the end in the 21 counts. In a session `plan` no piece results
//! in anything.
//! Out of scope: where a log comes from and where a report goes. That is `colregs_program`.
#![tactic(auto)]

mod asked;
mod audit;
mod drill;
mod ending;
pub mod laws;
mod plan;
mod points;
mod reasons;
mod recheck;
mod session;
mod session_fault;
mod watch;
mod work;

pub use asked::Asked;
pub use ending::Ending;
pub use session::Session;
pub use session_fault::SessionFault;
pub use tasks::Mode;
