//! The lines of a log, and the outcome of each of them.
//!
//! A log is split into lines, and each line has exactly one outcome: it is dropped for a cause, it is a part of a
//! message, or its message is judged by the messages before it. The judge takes the lines one after the other and
//! stores the times, the open messages, the book of vessels and, if ranks count, the ship types that vessels reported.
//!
//! A log arrives in chunks, and a line may span any number of them. `StreamedLines` passes each
//! line to the judge when its line feed arrives, and reports whether a line is still open. At the
//! end of the log, the caller may end that line as if by a line feed. `OpenLine` stores the bytes
//! after the last line feed, at most enough of them to know that the line is too long, so its
//! memory is bounded whatever the log holds.
//!
//! Given a line `x` and then the two sentences of a message in two parts, the first line is dropped
//! as `other`, the second is a `part`, and the third has the outcome of the message: `static` if it
//! reports a ship's static data. The same two sentences in the other order are an `orphan` and a
//! `part`. Ticks, pairs and rows are out of scope: the crates above make them from the reports.
#![tactic(auto)]

mod judge;
mod judged;
pub mod laws;
mod line_feeds;
mod line_times;
mod open_line;
mod outcome;
mod ship_types;
mod streamed;
mod told_static;

pub use judge::Judge;
pub use judged::Judged;
pub use line_feeds::{first_line_feed, strip_carriage_return};
pub use open_line::OpenLine;
pub use outcome::LineOutcome;
pub use streamed::StreamedLines;
pub use told_static::ToldStatic;
