//! The traces of ordered pairs of vessels: which of those seen at a tick are in contact, when the trace of each audited pair begins,
//! and each trace's rows of atoms, one step after the other.
//!
//! At each tick every trace takes its next step, which gives a row of atoms, and then the tick is taken, which begins
//! the traces of the pairs that are in contact for the first time. If the ticks have ranks of vessels, the atoms of
//! ranks use those at the tick at which the engagement began; without ranks all vessels are power-driven.
//!
//! Two vessels that are in contact at tick 5 for the first time have two traces from step 5, one for each order of the
//! two. After tick 8, each has had three rows: those of the steps 5, 6 and 7. `TraceWindow` does this for a keeper of
//! traces, which defines what happens when a trace begins, takes a row and ends. Marks, rules and rows of reports are
//! out of scope: an audit and a watch are keepers of these traces.
#![tactic(auto)]

mod all_traces;
mod contact_pairs;
mod drift;
mod each_trace;
mod fault;
mod followed_trace;
mod known_pairs;
pub mod laws;
mod next_row;
mod pair_ranks;
mod sightings;
mod trace_keeper;
mod trace_window;

pub use all_traces::{AllTraces, MOST_TRACES};
pub use contact_pairs::contacts;
pub use fault::TickFault;
pub use next_row::NextRow;
pub use pair_ranks::by_rank;
pub use sightings::state_of;
pub use trace_keeper::TraceKeeper;
pub use trace_window::TraceWindow;
