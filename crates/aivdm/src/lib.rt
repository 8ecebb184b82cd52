//! The lines of an AIS log: tag blocks (NMEA 0183 4.10), the VDM and VDO sentences of IEC 61162-1:2010, and the messages of
//! ITU-R M.1371-5 that they carry as bits.
//!
//! The line
//!
//! ```text
//! \c:1700000000*5F\!AIVDM,1,1,,A,15P5TL0P2l00001wwHt000000000,0*5C
//! ```
//!
//! was received 1700000000 seconds after the Unix epoch, on channel A. It is the only sentence of its message, without a
//! sequential identifier. Its payload of 28 bytes carries 168 bits, none of them fill: of message type 1 (bits 0 to 5), from the
//! station of MMSI 369190000 (bits 8 to 37).
//!
//! [`read_line`] reads a line, a [`Joiner`] makes messages of the sentences, and [`write_sentence`] writes a message again.
#![tactic(auto)]

mod armour;
mod bit_slice;
mod bits;
mod checksum;
mod fields;
mod joiner;
pub mod laws;
mod line;
mod search;
mod sentence;
mod tag_block;
mod writer;

pub use bit_slice::{BitSlice, SentenceRoom};
pub use bits::Bits;
pub use joiner::{Joined, Joiner};
pub use line::read_line;
pub use sentence::{Body, LineCause, Reading, Sentence};
pub use writer::write_sentence;
