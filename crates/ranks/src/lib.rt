//! Ranks: the kind of a vessel by Rule 18 of the COLREGs, and who gives way by rank.
//!
//! The navigational status of a vessel's last accepted report at or before a time gives her rank at that time: 2 is
//! `NotUnderCommand`, 3 `Restricted`, 7 `Fishing` and 8 `Sailing`. At status 15, which means not defined, her ship type
//! counts: 30 is `Fishing`, 36 `Sailing`. Everything else is `Power`. `Ranks` takes the ship types in the order of
//! their lines. Among lines up to the requested time, the last one in the log counts, even if an earlier line has a
//! later time.
//!
//! It stores only the changes of a vessel's rank by ship type. A vessel that was never a fishing or a sailing vessel by
//! type takes no memory.
#![tactic(auto)]

mod change;
mod changes;
pub mod laws;
mod rank;
mod ranks;
mod reading;

pub use change::Change;
pub use rank::{Rank, gives};
pub use ranks::Ranks;
