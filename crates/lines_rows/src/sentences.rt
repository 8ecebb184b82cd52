//! Lines as sentences, and sentences joined to messages.
use crate::compared::{is, is_true};
use aivdm::{Bits, Body, Joined, Joiner, LineCause, read_line, write_sentence};
use out_of_memory::Memory;
use std::alloc::Global;
use std::process::Abort;

/// Returns what a line received at a time completes.
pub(crate) fn joined(joiner: &mut Joiner, line: &[u8], time: u64) -> Option<Joined> {
    match read_line(line).body {
        Body::Sentence(sentence) => joiner.take(&sentence, time).ok(),
        Body::Dropped(_) => None,
    }
}

/// A message of this many bits, or why a line completes none.
type Completes = Result<usize, &'static str>;

/// Returns the bits of the message that a line completes, or why it completes none.
fn completion_of(joined: &Option<Joined>) -> Completes {
    match joined {
        Some(Joined::Message(bits)) => Ok(bits.len()),
        Some(Joined::Waiting) => NOTHING_YET,
        Some(Joined::Orphan) => NOTHING,
        None => Err("no sentence, or no memory"),
    }
}

const NOTHING_YET: Completes = Err("nothing yet");

const NOTHING: Completes = Err("nothing");

/// The form of a number in bits.
#[derive(Clone, Copy)]
enum Form {
    Unsigned,
    Signed,
}

/// A number in some bits: the first bit, the number of bits, its form, and the number.
type Field = (usize, u32, Form, i64);

/// Returns the number in some bits, if there are that many bits.
fn number(bits: &Bits, first: usize, width: u32, form: Form) -> Option<i64> {
    let short = bits.len() < first || bits.len() - first < width as usize;
    if width == 0 || 32 < width || short {
        return None;
    }
    Some(match form {
        Form::Unsigned => i64::from(bits.unsigned(first, width)),
        Form::Signed => i64::from(bits.signed(first, width)),
    })
}

/// Compares the numbers in a message, each with its first bit.
fn hold(rt: &impl Abort, shows: &str, bits: &Bits, fields: &[Field]) {
    for (first, width, form, wanted) in fields {
        let found = number(bits, *first, *width, *form);
        is(rt, (shows, *first, found), (shows, *first, Some(*wanted)));
    }
}

/// A line, the second of its reception, what it completes, and numbers in the message.
type Received = (&'static [u8], u64, Completes, &'static [Field]);

/// Lines for one joiner, with a title.
struct Row {
    shows: &'static str,
    lines: &'static [Received],
}

static ROWS: [Row; 5] = [
    // The sentence of the AIVDM/AIVDO protocol decoding page of gpsd (Eric S. Raymond), and its fields there.
    Row {
        shows: "a sentence off the air",
        lines: &[(
            b"!AIVDM,1,1,,B,177KQJ5000G?tO`K>RA1wUbN0TKH,0*5C",
            0,
            Ok(168),
            &[
                (0, 6, Form::Unsigned, 1),
                (8, 30, Form::Unsigned, 477553000),
                (38, 4, Form::Unsigned, 5),
                (61, 28, Form::Signed, -73407500),
                (89, 27, Form::Signed, 28549700),
                (116, 12, Form::Unsigned, 510),
            ],
        )],
    },
    // The two sentences of a message 5 of that page: the ship MT.MITCHELL, of type 99.
    Row {
        shows: "a message of two sentences, which is closed by the second",
        lines: &[
            (
                b"!AIVDM,2,1,3,B,55P5TL01VIaAL@7WKO@mBplU@<PDhh000000001S;AJ::4A80?4i@E53,0*3E",
                0,
                NOTHING_YET,
                &[],
            ),
            (
                b"!AIVDM,2,2,3,B,1@0000000000000,2*55",
                0,
                Ok(424),
                &[
                    (0, 6, Form::Unsigned, 5),
                    (8, 30, Form::Unsigned, 369190000),
                    (232, 8, Form::Unsigned, 99),
                ],
            ),
            (b"!AIVDM,2,2,3,B,1@0000000000000,2*55", 0, NOTHING, &[]),
        ],
    },
    // 1 and 3 in six bits each, and 2 and 4, without the last two bits.
    Row {
        shows: "two keys interleaved",
        lines: &[
            (b"!AIVDM,2,1,3,A,1,0*27", 0, NOTHING_YET, &[]),
            (b"!AIVDM,2,1,3,B,2,0*27", 0, NOTHING_YET, &[]),
            (
                b"!AIVDM,2,2,3,A,3,2*24",
                0,
                Ok(10),
                &[(0, 10, Form::Unsigned, 0b000001_0000)],
            ),
            (
                b"!AIVDM,2,2,3,B,4,2*20",
                0,
                Ok(10),
                &[(0, 10, Form::Unsigned, 0b000010_0001)],
            ),
        ],
    },
    Row {
        shows: "nine parts",
        lines: &[
            (b"!AIVDM,9,1,5,A,w,0*6C", 0, NOTHING_YET, &[]),
            (b"!AIVDM,9,2,5,A,0,0*28", 0, NOTHING_YET, &[]),
            (b"!AIVDM,9,3,5,A,w,0*6E", 0, NOTHING_YET, &[]),
            (b"!AIVDM,9,4,5,A,0,0*2E", 0, NOTHING_YET, &[]),
            (b"!AIVDM,9,5,5,A,w,0*68", 0, NOTHING_YET, &[]),
            (b"!AIVDM,9,6,5,A,0,0*2C", 0, NOTHING_YET, &[]),
            (b"!AIVDM,9,7,5,A,w,0*6A", 0, NOTHING_YET, &[]),
            (b"!AIVDM,9,8,5,A,0,0*22", 0, NOTHING_YET, &[]),
            (
                b"!AIVDM,9,9,5,A,w,0*64",
                0,
                Ok(54),
                &[
                    (0, 18, Form::Unsigned, 0b111111_000000_111111),
                    (36, 18, Form::Unsigned, 0b111111_000000_111111),
                ],
            ),
        ],
    },
    // A part may be older than the first one.
    Row {
        shows: "thirty seconds from the first part on",
        lines: &[
            (b"!AIVDM,3,1,,B,5,0*12", 1000, NOTHING_YET, &[]),
            (b"!AIVDM,3,2,,B,5,0*11", 1020, NOTHING_YET, &[]),
            (b"!AIVDM,3,3,,B,5,0*10", 1031, NOTHING, &[]),
            (b"!AIVDM,3,1,,B,5,0*12", 2000, NOTHING_YET, &[]),
            (b"!AIVDM,3,2,,B,5,0*11", 2030, NOTHING_YET, &[]),
            (b"!AIVDM,3,3,,B,5,0*10", 1000, Ok(18), &[]),
        ],
    },
];

/// Compares the result of a line.
fn is_completed(rt: &impl Abort, shows: &str, joined: &Option<Joined>, received: &Received) {
    let (_, time, completes, fields) = received;
    let found = (shows, *time, completion_of(joined));
    is(rt, found, (shows, *time, *completes));
    if let Some(Joined::Message(bits)) = joined {
        hold(rt, shows, bits, fields);
    }
}

/// Passes the lines of a row to a joiner.
fn are_received(rt: &impl Abort, joiner: &mut Joiner, row: &Row) {
    for received in row.lines {
        let joined = joined(joiner, received.0, received.1);
        is_completed(rt, row.shows, &joined, received);
    }
}

/// Passes the lines of each row to a new joiner.
fn complete(rt: &impl Abort, alloc: Global, rows: &[Row]) {
    for row in rows {
        are_received(rt, &mut Joiner::new(alloc), row);
    }
}

#[test]
fn what_sentences_complete(rt: HostRuntime) {
    complete(&rt, rt.alloc(), &ROWS);
}

/// Returns why a line is not a sentence.
fn cause_of(body: &Body<'_>) -> Option<LineCause> {
    match body {
        Body::Sentence(_) => None,
        Body::Dropped(cause) => Some(*cause),
    }
}

/// Lines that are not sentences, their stamps, and the causes.
static DROPPED: [(&str, &[u8], Option<u64>, LineCause); 5] = [
    (
        "a stamp among other fields",
        b"\\g:1-2-73,s:r00,c:1700000000*3E\\$GPGGA,092750.000*76",
        Some(1700000000),
        LineCause::Other,
    ),
    (
        "the last stamp in seconds",
        b"\\c:99999999999*60\\",
        Some(99999999999),
        LineCause::Other,
    ),
    (
        "from 10^11 on the number is one of milliseconds",
        b"\\c:100000000000*58\\",
        Some(100000000),
        LineCause::Other,
    ),
    (
        "the second time is not of its form",
        b"\\s:r00,c:1700000000,c:17x*43\\!AIVDM,2,1,3,A,1,0*27",
        None,
        LineCause::Tag,
    ),
    (
        "the sum of another sentence",
        b"!AIVDM,1,1,,B,177KQJ5000G?tO`K>RA1wUbN0TKH,0*5D",
        None,
        LineCause::Sum,
    ),
];

/// Compares the stamp of a line that is not a sentence, and the cause.
fn is_dropped(rt: &impl Abort, shows: &str, line: &[u8], stamp: Option<u64>, cause: LineCause) {
    let reading = read_line(line);
    is(rt, (shows, reading.stamp), (shows, stamp));
    is(rt, (shows, cause_of(&reading.body)), (shows, Some(cause)));
}

#[test]
fn stamps_of_lines_that_are_no_sentences(rt: HostRuntime) {
    for (shows, line, stamp, cause) in &DROPPED {
        is_dropped(&rt, shows, line, *stamp, *cause);
    }
}

/// Compares a written line.
fn is_line(rt: &impl Abort, written: &Result<Vec<u8>, Memory>, wanted: &[u8]) {
    match written {
        Ok(line) => is(rt, line.as_slice(), wanted),
        Err(_) => is_true(rt, false),
    }
}

/// The sentence of a report in the worked rows of the documents.
const PLAIN: &[u8] = b"!AIVDM,1,1,,A,15P5TL0P2l00001wwHt000000000,0*5C";

/// The same sentence with a time.
const STAMPED: &[u8] = b"\\c:1700000000*5F\\!AIVDM,1,1,,A,15P5TL0P2l00001wwHt000000000,0*5C";

/// Writes a message as these two sentences.
pub(crate) fn are_written(rt: &impl Abort, alloc: Global, bits: &Bits) {
    is(rt, bits.len(), 168);
    if bits.len() == 168 {
        is_line(rt, &write_sentence(alloc, None, bits, b'A'), PLAIN);
        let stamped = write_sentence(alloc, Some(1700000000), bits, b'A');
        is_line(rt, &stamped, STAMPED);
    }
}

/// Writes the message of the sentence.
fn is_written_again(rt: &impl Abort, alloc: Global, joined: &Option<Joined>) {
    match joined {
        Some(Joined::Message(bits)) => are_written(rt, alloc, bits),
        _ => is_true(rt, false),
    }
}

#[test]
fn message_written_again(rt: HostRuntime) {
    let joined = joined(&mut Joiner::new(rt.alloc()), PLAIN, 0);
    is_written_again(&rt, rt.alloc(), &joined);
}

static APPENDED: [Field; 4] = [
    (0, 6, Form::Unsigned, 1),
    (6, 32, Form::Unsigned, 0xffff_ffff),
    (38, 1, Form::Unsigned, 0),
    (6, 4, Form::Signed, -1),
];

#[test]
fn numbers_appended(rt: HostRuntime) {
    let mut bits = Bits::new(rt.alloc());
    is_true(&rt, bits.is_empty());
    is(&rt, bits.append(1, 6), Ok(()));
    is(&rt, bits.append(0xffff_ffff, 32), Ok(()));
    is(&rt, bits.append(0, 1), Ok(()));
    is(&rt, bits.len(), 39);
    hold(&rt, "numbers appended", &bits, &APPENDED);
}
