//! The results of reports in a book of vessels.
ghost use Rattle.std.specs.Prelude.{◌≡◌, ◌≤◌, ◌<◌, IfOk, IfSome, unsigned_abs};
ghost use Rattle.ais_messages.specs.MessageFields.{IsMessage, IsReport, IsStatic};
ghost use Rattle.tracks.specs.declared.keeping.Keeping.TheVariants.{Tracks};

use crate::compared::{is, is_true};
use ais_messages::{Decoded, Message, PositionReport, ShipData, StaticReport, decode};
use aivdm::{Body, Joined, Joiner, read_line};
use fixed_geometry::{Point, Reference};
use motion::TickState;
use std::alloc::Global;
use std::process::Abort;
use std::test::Fail;
use tracks::{
    Book, BookFault, Counts, Entry, HeldVessel, Keeping, ReportCause, laws, reported_direction,
};

/// Returns a report of a vessel at a latitude in 1/10000 minute, on the meridian of Greenwich.
fn report(mmsi: u32, latitude: i32) -> PositionReport
    requires low { 200000000 ≤ mmsi }
    requires high { mmsi ≤ 799999999 }
    requires latitude { unsigned_abs latitude ≤ 54000000 }
    ensures { IsReport result }
{
    PositionReport {
        kind: 1,
        mmsi,
        status: 0,
        place: Some((latitude, 0)),
        sog: Some(180),
        cog: Some(0),
        heading: None,
        second: 0,
    }
}

/// Returns a static report with a vessel's ship data.
fn hull(mmsi: u32, bow: u16) -> StaticReport
    requires low { 200000000 ≤ mmsi }
    requires high { mmsi ≤ 799999999 }
    requires bow { bow < 512 }
    ensures { IsStatic result }
{
    StaticReport {
        mmsi,
        name: None,
        ship: Some(ShipData {
            kind: 70,
            bow,
            stern: 90,
            port: 10,
            starboard: 10,
        }),
    }
}

/// Returns a book about the place at 0 north and 0 east, with a gap of 900 seconds.
fn book_of(alloc: Global, keeping: Keeping, max_speed: u16) -> Result<Book, Fail>
    requires some_speed { 1 ≤ max_speed }
    requires max_speed { max_speed ≤ 1022 }
    ensures { IfOk result (λ book. book.keeping ≡ keeping) }
{
    let reference = Reference::new(0, 0).ok_or("a reference")?;
    Ok(Book::with_keeping(alloc, keeping, reference, 900, max_speed))
}

/// Returns such a book that stores all accepted reports and the legs between them.
fn book(alloc: Global, max_speed: u16) -> Result<Book, Fail>
    requires some_speed { 1 ≤ max_speed }
    requires max_speed { max_speed ≤ 1022 }
    ensures { IfOk result (λ book. book.keeping ≡ Tracks) }
{
    book_of(alloc, Keeping::Tracks, max_speed)
}

const OWN: u32 = 369190000;

const OTHER: u32 = 477553000;

/// A position report of a ship: her MMSI, her latitude, its time, and its result.
type Reported = (u32, i32, u64, Entry);

/// Returns the point on the meridian this many millimetres north.
fn at(y: i64) -> Entry {
    Entry::Point(Point { x: 0, y })
}

/// Returns the result of a position report, if it has a ship and a place on the Earth.
fn entry(book: &mut Book, mmsi: u32, latitude: i32, time: u64) -> Option<Result<Entry, BookFault>> {
    if mmsi < 200000000 || 799999999 < mmsi || 54000000 < latitude.unsigned_abs() {
        return None;
    }
    Some(book.take(&Message::Position(report(mmsi, latitude)), time))
}

/// Compares the results of position reports, each with its time.
fn are_entered(rt: &impl Abort, book: &mut Book, reports: &[Reported]) {
    for (mmsi, latitude, time, wanted) in reports {
        let found = entry(book, *mmsi, *latitude, *time);
        is(rt, (*time, found), (*time, Some(Ok(*wanted))));
    }
}

/// Returns the number of stored reports and legs of a ship, if the book has her.
fn kept(book: &Book, mmsi: u32) -> Option<(usize, usize)> {
    let legs = book.legs(mmsi)?;
    Some((book.points(mmsi).len(), legs.len()))
}

#[test]
fn repeats_and_jumps(rt: HostRuntime) -> Result<(), Fail> {
    let mut book = book(rt.alloc(), 500)?;
    let reports = [
        (OWN, 0, 1700000000, at(0)),
        (OWN, 0, 1700000005, Entry::Dropped(ReportCause::Repeat)),
        (OWN, 10800, 1700000010, Entry::Dropped(ReportCause::Jump)),
    ];
    are_entered(&rt, &mut book, &reports);
    is(&rt, kept(&book, OWN), Some((1, 0)));
    is(&rt, book.vessels(), 1);
    Ok(())
}

#[test]
fn equal_reports_30_and_31_seconds_apart(rt: HostRuntime) -> Result<(), Fail> {
    let mut book = book(rt.alloc(), 500)?;
    let reports = [
        (OWN, 0, 1000, at(0)),
        (OWN, 0, 1000, Entry::Dropped(ReportCause::Back)),
        (OWN, 0, 1030, Entry::Dropped(ReportCause::Repeat)),
        (OWN, 0, 1031, at(0)),
    ];
    are_entered(&rt, &mut book, &reports);
    is(&rt, kept(&book, OWN), Some((2, 1)));
    Ok(())
}

#[test]
fn the_greatest_speed_exactly(rt: HostRuntime) -> Result<(), Fail> {
    let mut book = book(rt.alloc(), 18)?;
    let reports = [
        (OWN, 0, 1000, at(0)),
        (OTHER, 0, 1000, at(0)),
        (OWN, 5, 1001, at(9260)),
        (OTHER, 6, 1001, Entry::Dropped(ReportCause::Jump)),
    ];
    are_entered(&rt, &mut book, &reports);
    Ok(())
}

#[test]
fn more_than_the_gap_later_is_no_jump(rt: HostRuntime) -> Result<(), Fail> {
    let mut book = book(rt.alloc(), 18)?;
    let reports = [
        (OWN, 0, 1000, at(0)),
        (OWN, 1000000, 1900, Entry::Dropped(ReportCause::Jump)),
        (OWN, 1000000, 1901, at(1852000000)),
    ];
    are_entered(&rt, &mut book, &reports);
    is(&rt, kept(&book, OWN), Some((2, 0)));
    Ok(())
}

#[test]
fn a_dropped_position_leaves_its_static_part(rt: HostRuntime) -> Result<(), Fail> {
    let mut book = book(rt.alloc(), 500)?;
    let far = (OTHER, 1200001, 1000, Entry::Dropped(ReportCause::Far));
    are_entered(&rt, &mut book, &[far]);
    is(&rt, book.vessels(), 0);
    let lost = PositionReport {
        place: None,
        ..report(OWN, 0)
    };
    let both = Message::Both(lost, hull(OWN, 90));
    is(
        &rt,
        book.take(&both, 1000),
        Ok(Entry::Dropped(ReportCause::NoPos)),
    );
    is(&rt, book.vessels(), 1);
    is(&rt, kept(&book, OWN), Some((0, 0)));
    let statics = book.statics(OWN).ok_or("the vessel is held")?;
    is_true(&rt, statics.name.is_none());
    is(&rt, statics.ship, hull(OWN, 90).ship);
    is_true(&rt, book.statics(OTHER).is_none());
    Ok(())
}

/// Returns all stored data of the vessel at an index.
fn held(book: &Book, k: usize) -> Option<HeldVessel<'_>> {
    if k < book.vessels() {
        return Some(book.held(k));
    }
    None
}

/// Returns her MMSI, the numbers of her stored reports and legs, and her length.
fn numbers(vessel: &HeldVessel<'_>) -> (u32, usize, usize, u32) {
    let (points, legs) = (vessel.points.len(), vessel.legs.len());
    (vessel.mmsi, points, legs, vessel.statics.length())
}

#[test]
fn all_that_is_kept_of_a_vessel(rt: HostRuntime) -> Result<(), Fail> {
    let mut book = book(rt.alloc(), 500)?;
    let reports = [
        (OTHER, 0, 1000, at(0)),
        (OWN, 0, 1000, at(0)),
        (OWN, 10, 1100, at(18520)),
    ];
    are_entered(&rt, &mut book, &reports);
    let told = Message::Static(hull(OWN, 90));
    is(&rt, book.take(&told, 1100), Ok(Entry::Static));
    is(&rt, book.vessels(), 2);
    let own = held(&book, 0).ok_or("own ship is held")?;
    is(&rt, numbers(&own), (OWN, 2, 1, 180));
    let other = held(&book, 1).ok_or("the other ship is held")?;
    is(&rt, numbers(&other), (OTHER, 1, 0, 0));
    let found = book.find(OTHER).ok_or("the other ship is found")?;
    is(&rt, (found.mmsi, found.points), (OTHER, other.points));
    is_true(&rt, book.find(200000000).is_none());
    Ok(())
}

// The heading takes precedence over the course, and is in whole degrees.
#[test]
fn directions_by_heading_or_course(rt: HostRuntime) {
    for (heading, cog, direction) in [
        (Some(271), Some(905), Some(2710)),
        (Some(0), None, Some(0)),
        (None, Some(905), Some(905)),
        (None, None, None),
    ] {
        let told = PositionReport {
            heading,
            cog,
            ..report(OWN, 0)
        };
        is(&rt, reported_direction(&told), direction);
    }
}

/// Returns what a line completes, if it is a sentence.
fn joined(joiner: &mut Joiner, line: &[u8]) -> Option<Joined> {
    match read_line(line).body {
        Body::Sentence(sentence) => joiner.take(&sentence, 0).ok(),
        Body::Dropped(_) => None,
    }
}

/// Returns the message of a line that has one.
fn message_of(alloc: Global, line: &[u8]) -> Option<Message>
    ensures { IfSome result IsMessage }
{
    let mut joiner = Joiner::new(alloc);
    let Some(Joined::Message(bits)) = joined(&mut joiner, line) else {
        return None;
    };
    match decode(&bits) {
        Decoded::Message(message) => Some(message),
        Decoded::Dropped(_) => None,
    }
}

#[test]
fn a_name_stays_when_ship_data_comes(rt: HostRuntime) -> Result<(), Fail> {
    let mut book = book(rt.alloc(), 500)?;
    let name = b"!AIVDM,1,1,,A,H42O55i18tMET000000000000000,0*5F";
    let name = message_of(rt.alloc(), name).ok_or("it gives a name")?;
    let ship = b"!AIVDM,1,1,,A,H42O55lti4hhhilD3nink000?050,0*40";
    let ship = message_of(rt.alloc(), ship).ok_or("it gives ship's data")?;
    is(&rt, book.take(&name, 1000), Ok(Entry::Static));
    is(&rt, book.take(&ship, 1000), Ok(Entry::Static));
    is(&rt, book.vessels(), 1);
    let statics = book.statics(271041815).ok_or("the vessel is held")?;
    let name = statics.name.as_ref().ok_or("she told her name")?;
    is(&rt, name.bytes(), b"PROGUY".as_slice());
    let ship = statics.ship.ok_or("she told her size")?;
    is(&rt, ship.kind, 60);
    is(&rt, ship.stern, 15);
    Ok(())
}

/// Returns the MMSI of the vessel at an index.
fn vessel(book: &Book, k: usize) -> Option<u32> {
    if k < book.vessels() {
        return Some(book.vessel(k));
    }
    None
}

#[test]
fn vessels_in_ascending_order(rt: HostRuntime) -> Result<(), Fail> {
    let mut book = book(rt.alloc(), 500)?;
    for (mmsi, bow) in [(OTHER, 20), (OWN, 90), (OTHER, 30)] {
        let told = Message::Static(hull(mmsi, bow));
        is(&rt, book.take(&told, 1000), Ok(Entry::Static));
    }
    is(&rt, book.vessels(), 2);
    is(&rt, vessel(&book, 0), Some(OWN));
    is(&rt, vessel(&book, 1), Some(OTHER));
    Ok(())
}

/// Returns the state of a vessel by her reports on the meridian, this far north.
fn state(north: i64) -> TickState {
    TickState {
        point: Point { x: 0, y: north },
        direction: Some(0),
        speed: Some(180),
    }
}

/// Compares the vessels seen at a time, and their places.
fn are_seen(
    rt: &impl Abort,
    book: &Book,
    seen: &mut Vec<(u32, TickState)>,
    time: u64,
    wanted: &[(u32, TickState)],
) {
    is(rt, book.look(time, seen), Ok(()));
    is(rt, seen.as_slice(), wanted);
}

#[test]
fn vessels_seen_in_ascending_order(rt: HostRuntime) -> Result<(), Fail> {
    let mut book = book(rt.alloc(), 500)?;
    book.comes_to_latest(OTHER);
    let reports = [
        (OTHER, 0, 1000, at(0)),
        (OWN, 0, 1000, at(0)),
        (OWN, 0, 1050, at(0)),
        (OTHER, 10, 1100, at(18520)),
    ];
    are_entered(&rt, &mut book, &reports);
    book.moves_little();
    let mut seen = Vec::new(rt.alloc());
    let both = [(OWN, state(0)), (OTHER, state(9260))];
    are_seen(&rt, &book, &mut seen, 1050, &both);
    are_seen(&rt, &book, &mut seen, 1100, &[(OTHER, state(18520))]);
    Ok(())
}

/// Returns the numbers of stored reports and legs of a ship, and her total counts.
fn counted(book: &Book, mmsi: u32) -> Option<(usize, usize, Counts)> {
    let vessel = book.find(mmsi)?;
    Some((vessel.points.len(), vessel.legs.len(), vessel.counts))
}

#[test]
fn what_lies_before_a_time_is_forgotten_but_counted(rt: HostRuntime) -> Result<(), Fail> {
    let mut book = book(rt.alloc(), 500)?;
    let reports = [
        (OWN, 0, 1000, at(0)),
        (OWN, 10, 1100, at(18520)),
        (OWN, 20, 1200, at(37040)),
        (OWN, 30, 1300, at(55560)),
    ];
    are_entered(&rt, &mut book, &reports);
    book.forget(1200);
    let all = Counts {
        reports: 4,
        legs: 3,
    };
    // The report of second 1100 is the last one before that time.
    is(&rt, counted(&book, OWN), Some((3, 2, all)));
    let mut seen = Vec::new(rt.alloc());
    are_seen(&rt, &book, &mut seen, 1200, &[(OWN, state(37040))]);
    Ok(())
}

/// Passes position reports of own ship to two books, and compares the results, each with its time.
fn take_in_both(rt: &impl Abort, latest: &mut Book, tracks: &mut Book, reports: &[(i32, u64)]) {
    for (latitude, time) in reports {
        let found = entry(latest, OWN, *latitude, *time);
        let wanted = entry(tracks, OWN, *latitude, *time);
        is(rt, (*time, found), (*time, wanted));
    }
}

/// Compares the stored data of own ship in a book of the latest reports and in one of all reports.
fn keep_as_told(rt: &impl Abort, latest: &Book, tracks: &Book) {
    is(rt, latest.vessels(), 1);
    is(rt, kept(tracks, OWN), Some((5, 2)));
    is(rt, kept(latest, OWN), Some((1, 0)));
    is(rt, latest.points(OWN).last(), tracks.points(OWN).last());
    is(rt, latest.statics(OWN), tracks.statics(OWN));
}

#[test]
fn the_latest_report_alone_serves_to_judge(rt: HostRuntime) -> Result<(), Fail> {
    let mut latest = book_of(rt.alloc(), Keeping::Latest, 500)?;
    let mut tracks = book_of(rt.alloc(), Keeping::Tracks, 500)?;
    // A first report, a repeat, a jump, a repeat, the same half a minute later, back, a second report, and one past the gap.
    let reports = [
        (0, 1000),
        (0, 1005),
        (10800, 1010),
        (0, 1030),
        (0, 1031),
        (10, 1020),
        (10, 1100),
        (10800, 2001),
    ];
    take_in_both(&rt, &mut latest, &mut tracks, &reports);
    let moved = report(OWN, 10);
    is(
        &rt,
        latest.take_report(&moved, 3000),
        tracks.take_report(&moved, 3000),
    );
    let lost = PositionReport {
        place: None,
        ..moved
    };
    let both = Message::Both(lost, hull(OWN, 90));
    is(&rt, latest.take(&both, 3100), tracks.take(&both, 3100));
    keep_as_told(&rt, &latest, &tracks);
    Ok(())
}

/// Passes a report of each of this many vessels to the book; returns the number of refusals.
fn take_many(rt: &impl Abort, book: &mut Book, count: u32) -> u32
    requires { count ≤ 10000 }
{
    let mut refused = 0u32;
    for k in 0..count {
        let entry = entry(book, 200000000 + k, 0, 1000);
        if entry == Some(Err(BookFault::TooManyVessels)) {
            refused = refused.saturating_add(1);
        } else {
            is_true(rt, matches!(entry, Some(Ok(_))));
        }
    }
    refused
}

#[test]
fn laws_do_nothing() {
    laws::one_accepted_list();
    laws::equal_reports();
    laws::vessels_are_listed();
    laws::the_past_stays();
}

#[test]
fn vessel_4097_is_refused(rt: HostRuntime) -> Result<(), Fail> {
    let mut book = book(rt.alloc(), 500)?;
    is(&rt, take_many(&rt, &mut book, 4096), 0);
    is(&rt, take_many(&rt, &mut book, 4097), 1);
    is(&rt, book.vessels(), 4096);
    Ok(())
}
