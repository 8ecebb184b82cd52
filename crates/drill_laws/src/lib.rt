//! The fleet of a drill: forty vessels, so that a drill exceeds no limit of vessels or traces.
//!
//! If the program refuses a run that makes its own log, the cause is in the bytes of the log; the law states why. Forty
//! vessels have 1560 ordered pairs, and an audit follows at most 4096 traces. A log from a file has no such law.
#![tactic(auto)]

pub mod laws;
