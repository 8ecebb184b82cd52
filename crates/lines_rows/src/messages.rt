//! Messages with known fields.
use crate::compared::is;
use crate::sentences::{are_written, joined};
use ais_messages::{
    Decoded, Message, MessageCause, PositionReport, ShipData, StaticReport, decode,
    encode_position, is_ship,
};
use aivdm::{Bits, Joined, Joiner};
use out_of_memory::Memory;
use std::alloc::Global;
use std::process::Abort;

/// The content of a static report: the ship's MMSI, her name, and her type and size.
type Told<'a> = (u32, Option<&'a [u8]>, Option<ShipData>);

fn told(report: &StaticReport) -> Told<'_> {
    match &report.name {
        Some(name) => (report.mmsi, Some(name.bytes()), report.ship),
        None => (report.mmsi, None, report.ship),
    }
}

/// The content of a message: its position report, and its static report.
type Said<'a> = (Option<PositionReport>, Option<Told<'a>>);

/// Returns the content of a message, or why it was not read.
fn said(decoded: &Decoded) -> Result<Said<'_>, MessageCause> {
    match decoded {
        Decoded::Message(Message::Position(position)) => Ok((Some(*position), None)),
        Decoded::Message(Message::Static(report)) => Ok((None, Some(told(report)))),
        Decoded::Message(Message::Both(position, report)) => {
            Ok((Some(*position), Some(told(report))))
        }
        Decoded::Dropped(cause) => Err(*cause),
    }
}

/// The lines of one message, those before the last one and the last one, and its content.
struct Row {
    shows: &'static str,
    first: &'static [&'static [u8]],
    last: &'static [u8],
    says: Result<Said<'static>, MessageCause>,
}

/// One minute south of the equator, 18 knots on course 0.
const UNDER_WAY: PositionReport = PositionReport {
    kind: 1,
    mmsi: 369190000,
    status: 0,
    place: Some((-10000, 0)),
    sog: Some(180),
    cog: Some(0),
    heading: Some(0),
    second: 0,
};

/// A report without place, speed and direction.
const UNKNOWN: PositionReport = PositionReport {
    kind: 1,
    mmsi: 200000000,
    status: 0,
    place: None,
    sog: None,
    cog: None,
    heading: None,
    second: 59,
};

/// The first part of a message 5 off the air.
const FIRST: &[u8] =
    b"!AIVDM,2,1,3,B,55P5TL01VIaAL@7WKO@mBplU@<PDhh000000001S;AJ::4A80?4i@E53,0*3E";

/// MT.MITCHELL, a vessel of type 99, 180 metres long and 20 wide.
const MITCHELL: Told<'static> = (
    369190000,
    Some(b"MT.MITCHELL"),
    Some(ShipData {
        kind: 99,
        bow: 90,
        stern: 90,
        port: 10,
        starboard: 10,
    }),
);

static ROWS: [&Row; 13] = [
    &Row {
        shows: "a moored ship",
        first: &[],
        last: b"!AIVDM,1,1,,B,177KQJ5000G?tO`K>RA1wUbN0TKH,0*5C",
        says: Ok((
            Some(PositionReport {
                kind: 1,
                mmsi: 477553000,
                status: 5,
                place: Some((28549700, -73407500)),
                sog: Some(0),
                cog: Some(510),
                heading: Some(181),
                second: 15,
            }),
            None,
        )),
    },
    &Row {
        shows: "a ship under way",
        first: &[],
        last: b"!AIVDM,1,1,,A,15P5TL0P2l00001wwHt000000000,0*5C",
        says: Ok((Some(UNDER_WAY), None)),
    },
    &Row {
        shows: "a long-range report, in 96 bits",
        first: &[],
        last: b"!AIVDM,1,1,,A,K5P5TL0000?ws900,0*27",
        says: Ok((
            Some(PositionReport {
                kind: 27,
                heading: None,
                second: 60,
                ..UNDER_WAY
            }),
            None,
        )),
    },
    // The payloads of the next four come from an encoder in Python.
    &Row {
        shows: "the greatest values that say something",
        first: &[],
        last: b"!AIVDM,1,1,,A,12vg200P?v<ovH0kOqP>3s?n0000,0*68",
        says: Ok((
            Some(PositionReport {
                place: Some((54000000, 108000000)),
                sog: Some(1022),
                cog: Some(3599),
                heading: Some(359),
                ..UNKNOWN
            }),
            None,
        )),
    },
    &Row {
        shows: "the least values",
        first: &[],
        last: b"!AIVDM,1,1,,A,12vg200P00C81`1<P6P0001n0000,0*28",
        says: Ok((
            Some(PositionReport {
                place: Some((-54000000, -108000000)),
                sog: Some(0),
                cog: Some(0),
                heading: Some(0),
                ..UNKNOWN
            }),
            None,
        )),
    },
    &Row {
        shows: "the first values behind the greatest, and a place too far north",
        first: &[],
        last: b"!AIVDM,1,1,,A,12vg200P?w<ovH0kOqPN4;An0000,0*28",
        says: Ok((Some(UNKNOWN), None)),
    },
    &Row {
        shows: "the first values behind the greatest, and a place too far west",
        first: &[],
        last: b"!AIVDM,1,1,,A,12vg200P?wC81Ww<P6P>4;An0000,0*60",
        says: Ok((Some(UNKNOWN), None)),
    },
    &Row {
        shows: "a ship by her name and size",
        first: &[FIRST],
        last: b"!AIVDM,2,2,3,B,1@0000000000000,2*55",
        says: Ok((None, Some(MITCHELL))),
    },
    &Row {
        shows: "the same message with the 422 bits that a message 5 needs",
        first: &[FIRST],
        last: b"!AIVDM,2,2,3,B,1@0000000000000,4*53",
        says: Ok((None, Some(MITCHELL))),
    },
    &Row {
        shows: "the same message with one bit fewer",
        first: &[FIRST],
        last: b"!AIVDM,2,2,3,B,1@0000000000000,5*52",
        says: Err(MessageCause::Short),
    },
    // The next three are off the air, from the samples of GPSD.
    &Row {
        shows: "place and name in one message 19: CAPT.J.RIMES",
        first: &[],
        last: b"!AIVDM,1,1,,B,C5N3SRgPEnJGEBT>NhWAwwo862PaLELTBJ:V00000000S0D:R220,0*0B",
        says: Ok((
            Some(PositionReport {
                kind: 19,
                mmsi: 367059850,
                status: 15,
                place: Some((17726217, -53286235)),
                sog: Some(87),
                cog: Some(3359),
                heading: None,
                second: 46,
            }),
            Some((
                367059850,
                Some(b"CAPT.J.RIMES"),
                Some(ShipData {
                    kind: 70,
                    bow: 5,
                    stern: 21,
                    port: 4,
                    starboard: 4,
                }),
            )),
        )),
    },
    &Row {
        shows: "the name of PROGUY in the first part of a message 24",
        first: &[],
        last: b"!AIVDM,1,1,,A,H42O55i18tMET00000000000000,2*6D",
        says: Ok((None, Some((271041815, Some(b"PROGUY"), None)))),
    },
    &Row {
        shows: "her size in the second part",
        first: &[],
        last: b"!AIVDM,1,1,,A,H42O55lti4hhhilD3nink000?050,0*40",
        says: Ok((
            None,
            Some((
                271041815,
                None,
                Some(ShipData {
                    kind: 60,
                    bow: 0,
                    stern: 15,
                    port: 0,
                    starboard: 5,
                }),
            )),
        )),
    },
];

/// Compares the content of a message.
fn is_said(rt: &impl Abort, row: &Row, decoded: &Decoded) {
    is(rt, (row.shows, said(decoded)), (row.shows, row.says));
}

/// Compares the result of the last of some lines.
fn is_completed(rt: &impl Abort, row: &Row, joined: Option<Joined>) {
    match joined {
        Some(Joined::Message(bits)) => is_said(rt, row, &decode(&bits)),
        _ => is(rt, (row.shows, false), (row.shows, true)),
    }
}

/// Passes the lines of a row to a joiner.
fn are_received(rt: &impl Abort, joiner: &mut Joiner, row: &Row) {
    for first in row.first {
        drop(joined(joiner, first, 0));
    }
    is_completed(rt, row, joined(joiner, row.last, 0));
}

/// Compares the content of the lines of each row.
fn say(rt: &impl Abort, alloc: Global, rows: &[&Row]) {
    for row in rows {
        are_received(rt, &mut Joiner::new(alloc), row);
    }
}

#[test]
fn what_messages_say(rt: HostRuntime) {
    say(&rt, rt.alloc(), &ROWS);
}

/// Compares the report that is read from bits.
fn is_read_again(rt: &impl Abort, bits: &Bits, report: &PositionReport) {
    is(rt, bits.len(), 168);
    let wanted = Decoded::Message(Message::Position(*report));
    is(rt, decode(bits), wanted);
}

static WRITTEN: PositionReport = UNDER_WAY;

#[test]
fn report_written_as_a_sentence(rt: HostRuntime) -> Result<(), Memory> {
    let bits = encode_position(rt.alloc(), &WRITTEN)?;
    is_read_again(&rt, &bits, &WRITTEN);
    are_written(&rt, rt.alloc(), &bits);
    Ok(())
}

static ABSENT: PositionReport = PositionReport {
    kind: 18,
    mmsi: 799999999,
    status: 15,
    second: 63,
    ..UNKNOWN
};

// Writes and reads a report without place, speed, course and heading.
#[test]
fn absent_fields_are_read_as_absent(rt: HostRuntime) -> Result<(), Memory> {
    let bits = encode_position(rt.alloc(), &ABSENT)?;
    is_read_again(&rt, &bits, &ABSENT);
    Ok(())
}

/// MMSIs, and whether they belong to ships.
static IDENTITIES: [(u32, bool); 6] = [
    (2006, false),
    (199999999, false),
    (200000000, true),
    (369190000, true),
    (799999999, true),
    (800000000, false),
];

// The first three digits of a ship's MMSI are a country code, from 200 to 799.
#[test]
fn identities_of_ships(rt: HostRuntime) {
    for (mmsi, ship) in &IDENTITIES {
        is(&rt, (*mmsi, is_ship(*mmsi)), (*mmsi, *ship));
    }
}
