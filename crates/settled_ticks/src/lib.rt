//! The ticks of a window that the lines of a log so far settle, and the vessels seen at each, with their ranks if ranks
//! count.
//!
//! A tick is settled once the clock of the lines is past it by more than the gap and the slack: the vessels seen then,
//! and their ranks, are the same whatever lines follow. `SettledTicks` returns one settled tick after the other, and at
//! the log's end the remaining ticks.
//!
//! With a gap of 60 seconds, a slack of 30 and ticks of 10 seconds from second 1700000000, a clock of 1700000101 has
//! settled the ticks 0 and 1, but not the tick 2 at second 1700000020. The use of a tick is out of scope:
//! `SettledTicks` returns the vessels seen, with their states.
#![tactic(auto)]

mod guesses;
mod last_reports;
pub mod laws;
mod settled_ticks;
mod vessel_ranks;

pub use self::settled_ticks::SettledTicks;
