//! The program as one call: a scenario and a log of AIS sentences in, the report of one task out.
//!
//! `run` reads the scenario from a shelf and the log from a source, block by block. It feeds each block to a session of the crate
//! `sessions`, and writes to a sink what the session decides by it. What a finished run has written is the report that
//! `sessions/specs/Endings.antt` defines from the scenario and the log, however the reads are cut. A drill makes its own log, and reads none.
//!
//! Over an empty log `points` writes 21 rows, each with the count 0, from `lines,empty,0` to `lines,point,0`, however the scenario's reads
//! are cut. A scenario without a version writes nothing, and is answered by the fault `version: missing`.
//! Out of scope: what a report says, and the world. The caller gives shelf, source and sink.
#![tactic(auto)]

mod fault_line;
mod fetching;
mod migrate;
mod program;
mod report;
mod set_up;
mod status;
mod stream_status;
mod streaming;
mod telling;

pub use drill_log::drill_log;
pub use plan_situations::Unready;
pub use program::run;
pub use scenario::{Cause, Key, LogNumbers, Scenario, Window};
pub use sessions::{Ending, Session, SessionFault};
pub use status::{Status, Which};
pub use tasks::Mode;
