//! The tracks of vessels: their accepted position reports, the legs between these, and the static data of each ship.
//!
//! A `Book` takes the messages one after the other. A position report is dropped if it has no place (`NoPos`), is
//! outside the region (`Far`), is no later than the latest accepted report of its vessel (`Back`), repeats it
//! (`Repeat`), or would have the vessel move faster than she can (`Jump`); otherwise it is accepted. Accepted reports
//! that follow each other within the gap are joined by a leg. The result of a message depends only on the latest
//! accepted report, so the caller chooses whether a new book stores all reports with the legs, or only the latest. A
//! book may later forget data before a time. Times are in whole seconds since the Unix epoch, lengths in tenths of a
//! millimetre.
//!
//! Of three reports of one vessel, the first at second 1700000000, the same again 5 seconds later and one from another place 10
//! seconds later, 20,000,000 away, the first is accepted, the second is a `Repeat` and the third a `Jump`.
#![tactic(auto)]

mod accepted;
mod book;
mod counts;
mod direction;
mod entry;
mod given;
mod guesses;
mod held_vessel;
mod judging;
mod keeping;
pub mod laws;
mod parts;
mod places;
mod statics;
mod vessel;

pub use accepted::Accepted;
pub use book::{Book, MOST_VESSELS};
pub use counts::Counts;
pub use direction::reported_direction;
pub use entry::{BookFault, Entry, ReportCause};
pub use held_vessel::HeldVessel;
pub use keeping::Keeping;
pub use statics::Statics;
