//! The log of the drill: forty vessels that keep course and speed around the reference of a scenario, each with one
//! report per minute. With it, users can try an audit without a log of their own.
//!
//! A seed determines the vessels' start places, courses and speeds; the same scenario and seed give the same bytes.
//! With the reference at 0 north and 0 east and the seed 1, vessel 200000001 starts at latitude 10547 and longitude
//! 14188 in ten thousandths of a minute and makes 7.6 knots on course 308.4.
#![tactic(auto)]

pub mod laws;
mod log;
mod making;
mod minute_log;
mod numbers;
mod source;
mod vessel;

pub use log::drill_log;
pub use source::DrillSource;
