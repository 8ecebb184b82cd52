//! The parts of a message.
ghost use Rattle.std.specs.Prelude.{◌≡◌, IfSome};
ghost use Rattle.std.specs.Option.{option_copied};
ghost use Rattle.ais_messages.specs.MessageFields.{IsMessage, IsStatic};
ghost use Rattle.tracks.specs.VesselsHeld.{report_in, sender_of, static_in};

use ais_messages::{Message, PositionReport, StaticReport};

/// Returns the MMSI of the sender.
pub(crate) fn sender(message: &Message) -> u32
    ensures { result ≡ sender_of message.now }
{
    match message {
        Message::Position(report) => report.mmsi,
        Message::Static(report) => report.mmsi,
        Message::Both(report, _) => report.mmsi,
    }
}

/// Returns the position report, if the message has one.
pub(crate) fn position_report(message: &Message) -> Option<&PositionReport>
    ensures { option_copied result ≡ report_in message.now }
{
    match message {
        Message::Position(report) => Some(report),
        Message::Static(_) => None,
        Message::Both(report, _) => Some(report),
    }
}

/// Returns the static report, if the message has one.
pub(crate) fn static_report(message: &Message) -> Option<&StaticReport>
    ensures value { option_copied result ≡ static_in message.now }
    ensures ranges { IsMessage message.now → IfSome (option_copied result) IsStatic }
{
    match message {
        Message::Position(_) => None,
        Message::Static(report) => Some(report),
        Message::Both(_, report) => Some(report),
    }
}
