//! From bits to messages.
ghost use Rattle.std.specs.Prelude.{◌≡◌, ◌<◌, ◌≤◌, ◌+◌, ◌*◌, length, unsigned_abs, IfOk, IfSome, IsTrue};
ghost use Rattle.ais_messages.specs.MessageFields.{below, tenfold_below, class_a_of, class_b_of, coarse_place_of, decoded_of, layout_of, least_bits, long_range_of, message_of, mmsi_of, part_layout, place_of, position_in, ship_at, IfMessage, IsMessage, IsReport, IsShipData};
ghost use Rattle.ais_messages.specs.ShipIdentities.{is_ship};
ghost use Rattle.ais_messages.specs.Inner.Readings.{decoded_by};
ghost use Rattle.ais_messages.specs.declared.message.Decoded.TheVariants as decoded;

use crate::identity::is_ship;
use crate::message::{Decoded, Message, MessageCause, PositionReport, ShipData, StaticReport};
use crate::text::text_in;
use aivdm::{BitSlice, Bits};

/// The layouts of messages. Message 24 has two.
#[derive(Clone, Copy, PartialEq, Eq)]
pub(crate) enum Layout {
    /// Messages 1, 2 and 3.
    ClassA,
    /// Message 5.
    Voyage,
    /// Message 18.
    ClassB,
    /// Message 19.
    ExtendedClassB,
    /// Message 24, part 0.
    NamePart,
    /// Message 24, part 1.
    ShipPart,
    /// Message 27.
    LongRange,
}

impl Layout {
    /// Returns the least number of bits.
    fn least_bits(self) -> usize
        ensures { result ≡ least_bits self }
    {
        match self {
            Layout::ClassA | Layout::ClassB => 168,
            Layout::LongRange => 96,
            Layout::Voyage => 422,
            Layout::ExtendedClassB => 312,
            Layout::NamePart => 160,
            Layout::ShipPart => 162,
        }
    }

    /// Returns the layout of a message, or why it has none.
    #[tactic(auto, unfolding(crate::specs::MessageFields::layout_of))]
    fn of(bits: &BitSlice<'_>) -> Result<Layout, MessageCause>
        requires { 38 ≤ length bits.now }
        ensures { result ≡ layout_of bits.now }
    {
        match bits.unsigned(0, 6) {
            1..=3 => Ok(Layout::ClassA),
            5 => Ok(Layout::Voyage),
            18 => Ok(Layout::ClassB),
            19 => Ok(Layout::ExtendedClassB),
            24 => part_layout(bits),
            27 => Ok(Layout::LongRange),
            _ => Err(MessageCause::Kind),
        }
    }
}

/// Returns the layout of a message 24.
fn part_layout(bits: &BitSlice<'_>) -> Result<Layout, MessageCause>
    ensures { result ≡ part_layout bits.now }
{
    if bits.len() < 40 {
        return Err(MessageCause::Short);
    }
    match bits.unsigned(38, 2) {
        0 => Ok(Layout::NamePart),
        1 => Ok(Layout::ShipPart),
        _ => Err(MessageCause::Kind),
    }
}

/// Returns the layout for reading a message, or the cause to drop it.
#[inline(always)]
#[tactic(auto, unfolding(crate::specs::MessageFields::decoded_of))]
fn readable(bits: &BitSlice<'_>) -> Result<Layout, MessageCause>
    ensures layout { decoded_by bits.now result ≡ decoded_of bits.now }
    ensures long { IfOk result (λ layout. least_bits layout ≤ length bits.now) }
    ensures ship { IfOk result (λ _. IsTrue (is_ship (mmsi_of bits.now))) }
{
    if bits.len() < 38 {
        return Err(MessageCause::Short);
    }
    let layout = Layout::of(bits)?;
    if bits.len() < layout.least_bits() {
        return Err(MessageCause::Short);
    }
    if !is_ship(bits.unsigned(8, 30)) {
        return Err(MessageCause::NotShip);
    }
    Ok(layout)
}

/// Reads a message. If there are several causes to drop it, the first counts: fewer than 38 bits are `Short`; a type other
/// than 1, 2,
/// 3, 5, 18, 19, 24 and 27 is `Kind`; a message 24 of fewer than 40 bits is `Short`, and one of a part other than 0 and 1 is
/// `Kind`; fewer bits than its type needs are `Short`; and an MMSI outside 200000000 to 799999999 is `NotShip`.
pub fn decode(bits: &Bits) -> Decoded
    ensures fields { result ≡ decoded_of bits.now }
    ensures ranges { IfMessage result IsMessage }
{
    let bits = bits.as_slice();
    match readable(&bits) {
        Ok(layout) => Decoded::Message(message(&bits, layout)),
        Err(cause) => Decoded::Dropped(cause),
    }
}

/// Returns the position report of a message with no other content: messages 1, 2, 3, 18 and 27.
#[inline(always)]
pub fn position(bits: &BitSlice<'_>) -> Option<PositionReport>
    ensures report { result ≡ position_in (decoded_of bits.now) }
    ensures ranges { IfSome result IsReport }
{
    match readable(bits) {
        Ok(layout) => position_by(bits, layout),
        Err(_) => None,
    }
}

/// Returns the position report of a message of this layout, if the layout has no other content.
#[inline(always)]
#[tactic(auto, unfolding(crate::specs::MessageFields::message_of))]
fn position_by(bits: &BitSlice<'_>, layout: Layout) -> Option<PositionReport>
    requires long { least_bits layout ≤ length bits.now }
    requires ship { IsTrue (is_ship (mmsi_of bits.now)) }
    ensures report { result ≡ position_in (decoded.Message (message_of layout bits.now)) }
    ensures ranges { IfSome result IsReport }
{
    match layout {
        Layout::ClassA => Some(class_a(bits)),
        Layout::ClassB => Some(class_b(bits)),
        Layout::LongRange => Some(long_range(bits)),
        Layout::Voyage | Layout::ExtendedClassB | Layout::NamePart | Layout::ShipPart => None,
    }
}

/// Reads the message that this ship sent.
#[tactic(auto, unfolding(crate::specs::MessageFields::message_of))]
fn message(bits: &BitSlice<'_>, layout: Layout) -> Message
    requires long { least_bits layout ≤ length bits.now }
    requires ship { IsTrue (is_ship (mmsi_of bits.now)) }
    ensures fields { result ≡ message_of layout bits.now }
    ensures ranges { IsMessage result }
{
    match layout {
        Layout::ClassA => Message::Position(class_a(bits)),
        Layout::ClassB => Message::Position(class_b(bits)),
        Layout::LongRange => Message::Position(long_range(bits)),
        Layout::Voyage => Message::Static(StaticReport {
            mmsi: bits.unsigned(8, 30),
            name: Some(text_in(bits, 112, 20)),
            ship: Some(ship(bits, 232, 240, 249, 258, 264)),
        }),
        Layout::ExtendedClassB => Message::Both(
            class_b(bits),
            StaticReport {
                mmsi: bits.unsigned(8, 30),
                name: Some(text_in(bits, 143, 20)),
                ship: Some(ship(bits, 263, 271, 280, 289, 295)),
            },
        ),
        Layout::NamePart => Message::Static(StaticReport {
            mmsi: bits.unsigned(8, 30),
            name: Some(text_in(bits, 40, 20)),
            ship: None,
        }),
        Layout::ShipPart => Message::Static(StaticReport {
            mmsi: bits.unsigned(8, 30),
            name: None,
            ship: Some(ship(bits, 40, 132, 141, 150, 156)),
        }),
    }
}

/// Returns the fields of messages 1, 2 and 3.
#[inline(always)]
#[tactic(auto, unfolding(crate::specs::MessageFields::class_a_of))]
fn class_a(bits: &BitSlice<'_>) -> PositionReport
    requires long { 168 ≤ length bits.now }
    requires ship { IsTrue (is_ship (mmsi_of bits.now)) }
    ensures fields { result ≡ class_a_of bits.now }
    ensures ranges { IsReport result }
{
    PositionReport {
        kind: bits.unsigned(0, 6) as u8,
        mmsi: bits.unsigned(8, 30),
        status: bits.unsigned(38, 4) as u8,
        place: place(bits.signed(89, 27), bits.signed(61, 28)),
        sog: below(1023, bits.unsigned(50, 10) as u16),
        cog: below(3600, bits.unsigned(116, 12) as u16),
        heading: below(360, bits.unsigned(128, 9) as u16),
        second: bits.unsigned(137, 6) as u8,
    }
}

/// Returns the position's fields of messages 18 and 19.
#[tactic(auto, unfolding(crate::specs::MessageFields::class_b_of))]
fn class_b(bits: &BitSlice<'_>) -> PositionReport
    requires long { 168 ≤ length bits.now }
    requires ship { IsTrue (is_ship (mmsi_of bits.now)) }
    ensures fields { result ≡ class_b_of bits.now }
    ensures ranges { IsReport result }
{
    PositionReport {
        kind: bits.unsigned(0, 6) as u8,
        mmsi: bits.unsigned(8, 30),
        status: 15,
        place: place(bits.signed(85, 27), bits.signed(57, 28)),
        sog: below(1023, bits.unsigned(46, 10) as u16),
        cog: below(3600, bits.unsigned(112, 12) as u16),
        heading: below(360, bits.unsigned(124, 9) as u16),
        second: bits.unsigned(133, 6) as u8,
    }
}

/// Returns the fields of message 27.
#[tactic(auto, unfolding(crate::specs::MessageFields::long_range_of))]
fn long_range(bits: &BitSlice<'_>) -> PositionReport
    requires long { 96 ≤ length bits.now }
    requires ship { IsTrue (is_ship (mmsi_of bits.now)) }
    ensures fields { result ≡ long_range_of bits.now }
    ensures ranges { IsReport result }
{
    PositionReport {
        kind: bits.unsigned(0, 6) as u8,
        mmsi: bits.unsigned(8, 30),
        status: bits.unsigned(40, 4) as u8,
        place: coarse_place(bits.signed(62, 17), bits.signed(44, 18)),
        sog: tenfold_below(63, bits.unsigned(79, 6) as u16),
        cog: tenfold_below(360, bits.unsigned(85, 9) as u16),
        heading: None,
        second: 60,
    }
}

/// Returns a ship's type and size, from the bits at which the five fields begin.
fn ship(
    bits: &BitSlice<'_>,
    kind: usize,
    bow: usize,
    stern: usize,
    port: usize,
    starboard: usize,
) -> ShipData
    requires kind { kind + 8 ≤ length bits.now }
    requires bow { bow + 9 ≤ length bits.now }
    requires stern { stern + 9 ≤ length bits.now }
    requires port { port + 6 ≤ length bits.now }
    requires starboard { starboard + 6 ≤ length bits.now }
    ensures fields { result ≡ ship_at bits.now kind bow stern port starboard }
    ensures ranges { IsShipData result }
{
    ShipData {
        kind: bits.unsigned(kind, 8) as u8,
        bow: bits.unsigned(bow, 9) as u16,
        stern: bits.unsigned(stern, 9) as u16,
        port: bits.unsigned(port, 6) as u8,
        starboard: bits.unsigned(starboard, 6) as u8,
    }
}

/// Returns a latitude and a longitude in 1/10000 minute, if both are on the Earth: at most 90 and 180 degrees in size.
pub fn place(latitude: i32, longitude: i32) -> Option<(i32, i32)>
    ensures value { result ≡ place_of latitude longitude }
    ensures range { IfSome result
        (λ place. (unsigned_abs place.0 ≤ 54000000) × (unsigned_abs place.1 ≤ 108000000)) }
{
    if latitude.unsigned_abs() <= 54000000 && longitude.unsigned_abs() <= 108000000 {
        Some((latitude, longitude))
    } else {
        None
    }
}

/// Returns the same from 1/10 minute.
fn coarse_place(latitude: i32, longitude: i32) -> Option<(i32, i32)>
    ensures value { result ≡ coarse_place_of latitude longitude }
    ensures range { IfSome result
        (λ place. (unsigned_abs place.0 ≤ 54000000) × (unsigned_abs place.1 ≤ 108000000)) }
{
    if latitude.unsigned_abs() <= 54000 && longitude.unsigned_abs() <= 108000 {
        Some((1000 * latitude, 1000 * longitude))
    } else {
        None
    }
}

/// Returns the value, if it is below `limit`; values from there on mean "not available".
fn below(limit: u16, value: u16) -> Option<u16>
    ensures value { result ≡ below limit value }
    ensures range { IfSome result (λ value. value < limit) }
{
    if value < limit { Some(value) } else { None }
}

/// Returns ten times the value, if it is below `limit`; values from there on mean "not available".
fn tenfold_below(limit: u16, value: u16) -> Option<u16>
    requires { limit ≤ 360 }
    ensures value { result ≡ tenfold_below limit value }
    ensures range { IfSome result (λ tenfold. tenfold < limit * 10) }
{
    if value < limit {
        Some(value * 10)
    } else {
        None
    }
}
