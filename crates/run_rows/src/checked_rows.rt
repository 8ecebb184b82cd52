//! The reports of a recheck of rows.
use crate::logs::{HEAD_ON_NOW, ONE_COURSE, ONE_TICK, OWN};
use crate::whole_run::{SOUND, Shelved, edited, ended_on};
use crate::worked_row::{NOTHING, Row, Written, is_as_worked_out};
use colregs_program::{Status, Unready, Which};
use std::test::Fail;
use test_support::is;

const RECHECK: &[&str] = &["recheck", "scenario.toml"];

/// She comes nearer than 300 metres in step 18, and is nearest at its end.
const RIGHT: &[u8] = b"why,0,477553000,domain,18,1,1\n";

/// Two vessels head-on. Own ship may only keep course and speed: there is one plan, and it fails.
const ONE_PLAN: Row = Row {
    words: RECHECK,
    edits: &[ONE_TICK, OWN, ONE_COURSE],
    log: &[HEAD_ON_NOW],
    ..NOTHING
};

/// Rows that are right.
const CONFIRMED: Row = Row {
    out: Written::All(b"none,1,,,,,\n"),
    ..ONE_PLAN
};

/// Rows with a wrong first row.
const FIRST_WRONG: Row = Row {
    status: Status::BadEntry(0),
    number: 10,
    err: b"rows: entry 0\n",
    ..ONE_PLAN
};

/// The same, or rows that leave out a plan after the first.
const SECOND_WRONG: Row = Row {
    status: Status::BadEntry(1),
    err: b"rows: entry 1\n",
    ..FIRST_WRONG
};

static RECHECKS: [Row; 14] = [
    Row {
        shows: "a row that is right",
        rows: Some(RIGHT),
        ..CONFIRMED
    },
    Row {
        shows: "the whole report that says why",
        rows: Some(
            b"vessel,369190000,,0,0,1,0
vessel,477553000,,0,0,1,0
none,1,,,,,
lines,empty,0,,,,
why,0,477553000,domain,18,1,1
",
        ),
        ..CONFIRMED
    },
    Row {
        shows: "a byte order mark, a quoted field, and a carriage return",
        rows: Some(b"\xEF\xBB\xBF\"why\",0,477553000,domain,18,1,1\r\n"),
        ..CONFIRMED
    },
    // The end of step 18 is the beginning of step 19.
    Row {
        shows: "a right row that is not the canonical one",
        rows: Some(b"why,0,477553000,domain,19,0,1"),
        ..CONFIRMED
    },
    Row {
        shows: "a step too early",
        rows: Some(b"why,0,477553000,domain,17,1,1\n"),
        ..FIRST_WRONG
    },
    Row {
        shows: "no row",
        rows: Some(b""),
        ..FIRST_WRONG
    },
    Row {
        shows: "another vessel than the target",
        rows: Some(b"why,0,369190000,domain,18,1,1\n"),
        ..FIRST_WRONG
    },
    Row {
        shows: "a number with a zero in front",
        rows: Some(b"why,0,477553000,domain,18,01,1\n"),
        ..FIRST_WRONG
    },
    Row {
        shows: "a row after the last plan",
        rows: Some(b"why,0,477553000,domain,18,1,1\nwhy,0,477553000,domain,18,1,1\n"),
        ..SECOND_WRONG
    },
    Row {
        shows: "plans that are left out",
        edits: &[ONE_TICK, OWN],
        rows: Some(RIGHT),
        ..SECOND_WRONG
    },
    // The log would fail at its first read, so the run does not read it.
    Row {
        shows: "no rows on the shelf",
        failing_read: Some(0),
        status: Status::ShelfFault,
        number: 4,
        err: b"scenario: not read\n",
        ..ONE_PLAN
    },
    Row {
        shows: "rows on the shelf under another name",
        words: &["recheck", "scenario.toml", "--rows", "report.csv"],
        rows: Some(RIGHT),
        status: Status::ShelfFault,
        number: 4,
        err: b"scenario: not read\n",
        ..ONE_PLAN
    },
    Row {
        shows: "a log that fails at its first read",
        rows: Some(RIGHT),
        failing_read: Some(0),
        status: Status::ReadFault,
        number: 5,
        err: b"log: not read\n",
        ..ONE_PLAN
    },
    Row {
        shows: "own ship has no report",
        log: &[],
        rows: Some(RIGHT),
        status: Status::OwnUnready(Unready::NoPoint(None)),
        number: 9,
        err: b"own: no point\n",
        ..ONE_PLAN
    },
];

#[test]
fn rows_are_confirmed_or_the_first_that_is_wrong_is_told(rt: HostRuntime) -> Result<(), Fail> {
    for row in &RECHECKS {
        is_as_worked_out(rt.alloc(), row)?;
    }
    Ok(())
}

#[test]
fn rows_one_byte_too_long(rt: HostRuntime) -> Result<(), Fail> {
    let alloc = rt.alloc();
    let scenario = edited(alloc, &[ONE_TICK, OWN])?;
    let rows = vec![in alloc; b'#'; 16777217]?;
    let shelved = Shelved {
        scenario: scenario.as_str(),
        rows: Some(rows.as_slice()),
    };
    let ended = ended_on(alloc, RECHECK, shelved, HEAD_ON_NOW, SOUND)?;
    is(
        (ended.status, ended.err.bytes()),
        (
            Status::Limit(Which::Rows, 16777216),
            b"limit: rows 16777216\n".as_slice(),
        ),
    )
}
