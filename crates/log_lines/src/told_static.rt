//! The static data of a vessel in a line.
ghost use Rattle.std.specs.Prelude.{◌≡◌};
ghost use Rattle.log_lines.specs.StaticReports.{static_told, type_told};

use ais_messages::{Message, ShipData, StaticReport};

/// The content of a static report: the vessel, the time, and the type of ship.
#[derive(Clone, Copy, Debug, PartialEq, Eq)]
pub struct ToldStatic {
    /// The vessel's MMSI.
    pub mmsi: u32,
    /// The time of the line that completes the report, in seconds since 1970.
    pub time: u64,
    /// The type of ship and cargo, 0 to 255 (ITU-R M.1371-5, annex 8, table 53), if the report has
    /// it.
    pub kind: Option<u8>,
}

/// Returns the type of ship and cargo, if the report has it.
fn type_told(ship: Option<ShipData>) -> Option<u8>
    ensures { result ≡ type_told ship }
{
    match ship {
        Some(ship) => Some(ship.kind),
        None => None,
    }
}

/// Returns the static data in a message of this time, if it has a static report.
pub(crate) fn static_told(message: &Message, time: u64) -> Option<ToldStatic>
    ensures { result ≡ static_told (record { message = message.now; time = time }) }
{
    match message {
        Message::Position(_) => None,
        Message::Static(report) | Message::Both(_, report) => Some(ToldStatic {
            mmsi: report.mmsi,
            time,
            kind: type_told(report.ship),
        }),
    }
}
