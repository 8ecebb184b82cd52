//! Online monitors of formulas of metric temporal logic (Koymans 1990): the rows of a trace are fed one by one, and each
//! position's value comes as soon as no further row can change it, at a cost that no window changes.
//!
//! A `Program` holds several formulas, with equal parts once; a `TraceState` holds what is known of one trace; a `Monitor` is
//! a program of one formula with one state. `F[0,20] risk` at a tick of 10 seconds looks two positions ahead, so over four
//! rows without risk a monitor answers `None`, `None`, `(0, No)`, `(1, No)`, and then at the trace's end `(2, Open)`,
//! `(3, Open)`, `None`.
#![tactic(auto)]

mod building;
mod copying;
mod delay_line;
mod idle;
mod keeping;
mod left;
mod lookahead;
mod marks;
mod monitor;
mod node;
mod outlook;
mod passing;
mod program;
mod reading;
mod sameness;
mod starting;
mod trace_state;
mod triggers;
mod verdicts;

pub use left::Left;
pub use monitor::Monitor;
pub use program::Program;
pub use trace_state::TraceState;
