//! The content of a message.
use crate::text::Text20;

/// A vessel's report of her position and motion (ITU-R M.1371-5, annex 8, messages 1 to 3, 18, 19 and 27). The fields
/// of one byte are next to each other to save padding, because a log has many reports.
#[derive(Clone, Copy, Debug, PartialEq, Eq)]
pub struct PositionReport {
    /// The Maritime Mobile Service Identity, 200000000 to 799999999 for a ship.
    pub mmsi: u32,
    /// Latitude, at most 54000000 in size, and longitude, at most 108000000, in 1/10000 minute, north and east positive.
    pub place: Option<(i32, i32)>,
    /// Speed over ground in 1/10 knot, at most 1022, which stands for 102.2 knots or more.
    pub sog: Option<u16>,
    /// Course over ground in 1/10 degree, below 3600.
    pub cog: Option<u16>,
    /// True heading in whole degrees, below 360.
    pub heading: Option<u16>,
    /// The type of the message: 1, 2, 3, 18, 19 or 27.
    pub kind: u8,
    /// The navigational status, 0 to 15; 15 if the type has none.
    pub status: u8,
    /// The UTC second of the report, below 64. Values from 60 on say why it is missing.
    pub second: u8,
}

/// A ship's hull from her static report (ITU-R M.1371-5, annex 8, messages 5, 19 and 24 B).
#[derive(Clone, Copy, Debug, PartialEq, Eq)]
pub struct ShipData {
    /// Type of ship and cargo, 0 to 255 (annex 8, table 53).
    pub kind: u8,
    /// From the antenna to the bow, in metres, 0 to 511.
    pub bow: u16,
    /// From the antenna to the stern, in metres, 0 to 511.
    pub stern: u16,
    /// From the antenna to the port side, in metres, 0 to 63.
    pub port: u8,
    /// From the antenna to the starboard side, in metres, 0 to 63.
    pub starboard: u8,
}

/// A ship's static data, which does not change as she moves (ITU-R M.1371-5, annex 8, messages 5, 19 and 24).
#[derive(Debug, Drop, PartialEq)]
pub struct StaticReport {
    /// The Maritime Mobile Service Identity, 200000000 to 799999999 for a ship.
    pub mmsi: u32,
    /// Her name, if the message has one.
    pub name: Option<Text20>,
    /// Her type and size, if the message has them.
    pub ship: Option<ShipData>,
}

/// A message that was read.
#[derive(Debug, Drop, PartialEq)]
pub enum Message {
    /// Messages 1, 2, 3, 18 and 27.
    Position(PositionReport),
    /// Messages 5 and 24.
    Static(StaticReport),
    /// Message 19.
    Both(PositionReport, StaticReport),
}

/// Why a message was not read.
#[derive(Clone, Copy, Debug, PartialEq, Eq)]
pub enum MessageCause {
    /// The message has fewer bits than its type needs, or too few for its type and sender.
    Short,
    /// The program does not read its type.
    Kind,
    /// Its sender is not a ship.
    NotShip,
}

/// The result of reading the bits of a message.
#[derive(Debug, Drop, PartialEq)]
pub enum Decoded {
    Message(Message),
    Dropped(MessageCause),
}
