//! Each fault by its number, and its line on standard error.
use crate::logs::{LOG, ONE_COURSE, ONE_TICK, OWN};
use crate::whole_run::{Edit, SOUND, ended};
use crate::worked_row::{NOTHING, POINTS, Row, Written, is_as_worked_out};
use colregs_program::{Cause, Key, Status, Unready, Which};
use scenario_rows::HEAD_ON;
use std::alloc::Global;
use std::test::Fail;
use test_support::is;

const USAGE: &[u8] = b"usage: points|audit|plan|drill|migrate|recheck|watch SCENARIO\n";

/// A run of `plan` for which own ship lacks data.
const NOT_READY: Row = Row {
    words: &["plan", "scenario.toml"],
    edits: &[ONE_TICK, OWN, ONE_COURSE],
    number: 9,
    ..NOTHING
};

const TEN_BYTES: Edit = ("max_speed = 500\n", "max_speed = 500\nmax_bytes = 10\n");

static REFUSALS: [Row; 14] = [
    Row {
        shows: "a single word",
        words: &["points"],
        log: &[LOG],
        status: Status::Usage,
        number: 2,
        err: USAGE,
        ..NOTHING
    },
    Row {
        shows: "ticks out of range",
        words: &["audit", "scenario.toml", "--ticks", "0"],
        log: &[HEAD_ON],
        status: Status::Usage,
        number: 2,
        err: USAGE,
        ..NOTHING
    },
    Row {
        shows: "a shelf without the name",
        words: &["points", "missing.toml"],
        log: &[LOG],
        status: Status::ShelfFault,
        number: 4,
        err: b"scenario: not read\n",
        ..NOTHING
    },
    Row {
        shows: "a scenario that is no document",
        edits: &[("version = 1", "version = = 1")],
        log: &[LOG],
        status: Status::Scenario(Key { row: 0, item: 0 }, Cause::NotToml),
        number: 3,
        err: b"scenario: document: not toml\n",
        ..NOTHING
    },
    Row {
        shows: "the first fault of a scenario",
        edits: &[("[window]", "[other]"), ("gap = 600", "gap = 9")],
        log: &[LOG],
        status: Status::Scenario(Key { row: 2, item: 0 }, Cause::Missing),
        number: 3,
        err: b"scenario: window.start: missing\n",
        ..NOTHING
    },
    Row {
        shows: "a scenario of version 2 is not migrated",
        words: &["migrate", "scenario.toml", "--ticks", "7", "--seed=3"],
        edits: &[("version = 1", "version = 2")],
        failing_read: Some(0),
        status: Status::Scenario(Key { row: 1, item: 0 }, Cause::Range),
        number: 3,
        err: b"scenario: version: range\n",
        ..NOTHING
    },
    Row {
        shows: "a log of one byte more than the scenario allows",
        edits: &[TEN_BYTES],
        log: &[b"12345678901"],
        status: Status::Limit(Which::Log, 10),
        number: 7,
        err: b"limit: log 10\n",
        ..NOTHING
    },
    Row {
        shows: "a log of as many bytes as the scenario allows",
        edits: &[TEN_BYTES],
        log: &[b"1234567890"],
        out: Written::Ends(b"lines,empty,0,,,,\n", b"lines,point,0,,,,\n"),
        ..NOTHING
    },
    Row {
        shows: "a drill whose log is longer than the scenario allows",
        words: &["drill", "scenario.toml"],
        edits: &[("max_speed = 500\n", "max_speed = 500\nmax_bytes = 18199\n")],
        status: Status::Limit(Which::Log, 18199),
        number: 7,
        err: b"limit: log 18199\n",
        ..NOTHING
    },
    Row {
        shows: "own ship has no report",
        status: Status::OwnUnready(Unready::NoPoint(None)),
        err: b"own: no point\n",
        ..NOT_READY
    },
    // The gap is 600.
    Row {
        shows: "own ship's report is 605 seconds old",
        log: &[b"\\c:1699999405*56\\!AIVDM,1,1,,A,15P5TL0P2l0000000003Q?wp0000,0*0B\n"],
        status: Status::OwnUnready(Unready::NoPoint(Some(1699999405))),
        err: b"own: no point\n",
        ..NOT_READY
    },
    Row {
        shows: "own ship's report has no course",
        log: &[b"\\c:1700000000*5F\\!AIVDM,1,1,,A,15P5TL0P2l000000000>4?wp0000,0*63\n"],
        status: Status::OwnUnready(Unready::NoCourse(1700000000)),
        err: b"own: no course\n",
        ..NOT_READY
    },
    Row {
        shows: "own ship's report has no speed",
        log: &[b"\\c:1700000000*5F\\!AIVDM,1,1,,A,15P5TL0P?w0000000003Q?wp0000,0*1D\n"],
        status: Status::OwnUnready(Unready::NoSpeed(1700000000)),
        err: b"own: no speed\n",
        ..NOT_READY
    },
    Row {
        shows: "a log that fails at its first read",
        log: &[LOG],
        failing_read: Some(0),
        status: Status::ReadFault,
        number: 5,
        err: b"log: not read\n",
        ..NOTHING
    },
];

#[test]
fn each_fault_has_its_number_and_its_line(rt: HostRuntime) -> Result<(), Fail> {
    for row in &REFUSALS {
        is_as_worked_out(rt.alloc(), row)?;
    }
    Ok(())
}

/// Returns `count` comment marks.
fn marks(alloc: Global, count: usize) -> Result<String, Fail> {
    match String::from_utf8(vec![in alloc; b'#'; count]?) {
        Ok(text) => Ok(text),
        Err(_) => Err("marks are a text".into()),
    }
}

#[test]
fn a_scenario_one_byte_too_long(rt: HostRuntime) -> Result<(), Fail> {
    let long = marks(rt.alloc(), 1048577)?;
    let ended = ended(rt.alloc(), POINTS, long.as_str(), LOG, SOUND)?;
    is(
        (ended.status, ended.err.bytes()),
        (
            Status::Limit(Which::Scenario, 1048576),
            b"limit: scenario 1048576\n".as_slice(),
        ),
    )
}
