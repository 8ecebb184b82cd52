//! The tasks of the program, and their inputs.
//!
//! A [`Task`] is a request about a log, with its inputs besides the log; its [`Mode`] is its kind. `specs/Modes.antt`
//! has the only table, with one row per mode, from which the program's behaviour for a mode follows. For example, a
//! `plan` reads the given log, needs own ship, and checks no rows. Making reports is out of scope: see `sessions`. A
//! migration reports on no log, so it is not a task.
#![tactic(auto)]

mod mode;
mod task;

pub use mode::{Mode, needs_own, needs_rows, reads_log};
pub use task::Task;
