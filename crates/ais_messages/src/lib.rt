//! The messages of ITU-R M.1371-5 that report where a vessel is and what she is, read from their bits and written to
//! bits.
//!
//! Messages 1, 2, 3, 18, 19 and 27 report a position, messages 5, 19 and 24 what the ship is. `decode` reads them all by the
//! tables
//! of `specs/MessageFields.antt`. The message 1 of `!AIVDM,1,1,,B,177KQJ5000G?tO`K>RA1wUbN0TKH,0*5C` is of ship 477553000, moored
//! at 28549700 north and -73407500 east in 1/10000 minute, with her heading at 181 degrees.
#![tactic(auto)]

mod decoding;
mod encoding;
mod identity;
mod message;
mod text;

pub use decoding::{decode, place, position};
pub use encoding::encode_position;
pub use identity::is_ship;
pub use message::{Decoded, Message, MessageCause, PositionReport, ShipData, StaticReport};
pub use text::{Text20, text6};
