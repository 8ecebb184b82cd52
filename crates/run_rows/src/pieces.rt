//! What a session gives as a log grows, and at its end.
ghost use Rattle.std.specs.Prelude.{◌≡◌, ◌≤◌, IfOk, OnOk, false};
ghost use Rattle.scenario_values.specs.ValueRanges.{IsInRange};
ghost use Rattle.tasks.specs.Modes.{needs_own};
ghost use Rattle.sessions.specs.Standing.{IsInUse};

use scenario::{Scenario, read};
use scenario_rows::{HEAD_ON, SCENARIO};
use sessions::{Ending, Mode, Session, SessionFault};
use std::alloc::Global;
use std::test::Fail;
use test_support::{is, is_true};

const FIRST_TWO: &[u8] = b"verdict,369190000,477553000,r14a,broken,0,0
verdict,477553000,369190000,r14a,broken,0,0
";

const FIRST_FOUR: &[u8] = b"verdict,369190000,477553000,r14a,broken,0,0
verdict,477553000,369190000,r14a,broken,0,0
verdict,369190000,477553000,r8d,broken,18,21
verdict,477553000,369190000,r8d,broken,18,21
";

const FIRST_ALARMS: &[u8] = b"alarm,369190000,477553000,r14a,0,6,
alarm,477553000,369190000,r14a,0,6,
";

const REST: &[u8] = b"meeting,369190000,477553000,head_on,0,25,185200
meeting,477553000,369190000,head_on,0,25,185200
vessel,369190000,MT.MITCHELL,99,180,2,1
";

/// A report, and the row of it where it is accepted.
const REPORT: &[u8] = b"!AIVDM,1,1,,A,15P5TL0P2l00001wwHt000000000,0*5C\n";

const POINT: &[u8] = b"point,369190000,1700000000,0,-18520000,180,0\n";

/// Returns the scenario with these lines after it.
fn scenario_with(alloc: Global, more: &str) -> Result<Scenario, Fail>
    ensures { IfOk result IsInRange }
{
    let text = [SCENARIO, more].concat(alloc)?;
    match read(alloc, text.as_bytes(), false) {
        Ok(scenario) => Ok(scenario),
        Err(_) => Err("a scenario".into()),
    }
}

/// Returns a session of a mode on the scenario with these lines after it.
fn session(alloc: Global, more: &str, mode: Mode) -> Result<Session, Fail>
    requires { needs_own mode ≡ false }
    ensures { IfOk result IsInUse }
{
    let scenario = scenario_with(alloc, more)?;
    Ok(Session::new(alloc, scenario, mode)?)
}

/// What a session gives of a log in pieces of this many bytes.
fn feed_all(session: &mut Session, alloc: Global, log: &[u8], count: usize) -> Result<Vec<u8>, Fail>
    requires in_use { IsInUse session.old }
    requires count { 1 ≤ count }
    ensures { OnOk result (IsInUse session.new) }
{
    let mut given = Vec::new(alloc);
    for piece in log.chunks(count) {
        match session.feed(piece) {
            Ok(bytes) => given.extend_from_slice(bytes.as_slice())?,
            Err(_) => return Err("nothing is refused".into()),
        }
    }
    Ok(given)
}

/// Returns the head-on log, and a last line.
fn head_on_with(alloc: Global, last: &[u8]) -> Result<Vec<u8>, Fail> {
    let mut log = HEAD_ON.to_vec(alloc)?;
    log.extend_from_slice(last)?;
    Ok(log)
}

/// What a session gives at its end.
fn rest_of(session: Session) -> Result<Vec<u8>, Fail>
    requires { IsInUse session }
{
    match session.end() {
        Ok(ending) => Ok(ending.bytes),
        Err(_) => Err("nothing is refused".into()),
    }
}

/// What a mode gives of the head-on log and one line more before its end, in pieces of this many bytes, and then at its end.
fn fed(alloc: Global, mode: Mode, last: &[u8], count: usize) -> Result<(Vec<u8>, Vec<u8>), Fail>
    requires own { needs_own mode ≡ false }
    requires count { 1 ≤ count }
{
    let log = head_on_with(alloc, last)?;
    let mut session = session(alloc, "", mode)?;
    let given = feed_all(&mut session, alloc, log.as_slice(), count)?;
    Ok((given, rest_of(session)?))
}

/// A last line, what is given before the log's end, and how the rest begins and ends.
#[derive(Clone, Copy)]
struct Settled {
    last: &'static [u8],
    given: &'static [u8],
    begins: &'static [u8],
    ends: &'static [u8],
}

/// Returns whether a mode gives these of the head-on log and their last lines, in pieces of this many bytes.
fn are_given(alloc: Global, mode: Mode, count: usize, rows: &[Settled]) -> Result<(), Fail>
    requires own { needs_own mode ≡ false }
    requires count { 1 ≤ count }
{
    for row in rows {
        let (given, rest) = fed(alloc, mode, row.last, count)?;
        is(given.as_slice(), row.given)?;
        is_true(rest.as_slice().starts_with(row.begins))?;
        is_true(rest.as_slice().ends_with(row.ends))?;
    }
    Ok(())
}

// Tick 8 is at 80 seconds, and is settled once the clock is past it by the gap of 600 and the slack of 60.
static AUDITED: [Settled; 3] = [
    Settled {
        last: b"\\c:1700000740*5C\\x\n",
        given: b"",
        begins: FIRST_FOUR,
        ends: b"",
    },
    Settled {
        last: b"\\c:1700000741*5D\\x\n",
        given: FIRST_TWO,
        begins: b"",
        ends: b"lines,static,1,,,,\nlines,point,4,,,,\n",
    },
    Settled {
        last: b"\\c:1700000951*52\\x\n",
        given: FIRST_FOUR,
        begins: REST,
        ends: b"",
    },
];

#[test]
fn rows_are_given_once_no_later_line_can_change_them(rt: HostRuntime) -> Result<(), Fail> {
    for count in [1, 50, 4096] {
        are_given(rt.alloc(), Mode::Audit, count, &AUDITED)?;
    }
    Ok(())
}

// The step 6 decides the first alarms, and ends at the tick at 70 seconds.
static WATCHED: [Settled; 2] = [
    Settled {
        last: b"\\c:1700000730*5B\\x\n",
        given: b"",
        begins: FIRST_ALARMS,
        ends: b"",
    },
    Settled {
        last: b"\\c:1700000731*5A\\x\n",
        given: FIRST_ALARMS,
        begins: b"alarm,369190000,477553000,r8d,18,18,\n",
        ends: b"",
    },
];

/// An audit gives no row by then.
static NOT_YET_AUDITED: [Settled; 1] = [Settled {
    last: b"\\c:1700000731*5A\\x\n",
    given: b"",
    begins: b"",
    ends: b"",
}];

#[test]
fn an_alarm_is_given_once_the_step_that_decides_it_is_settled(rt: HostRuntime) -> Result<(), Fail> {
    for count in [1, 50, 4096] {
        are_given(rt.alloc(), Mode::Watch, count, &WATCHED)?;
        are_given(rt.alloc(), Mode::Audit, count, &NOT_YET_AUDITED)?;
    }
    Ok(())
}

// A line settles nothing before its line feed.
static WITHOUT_ITS_FEED: [Settled; 1] = [Settled {
    last: b"\\c:1700000951*52\\x",
    given: b"",
    begins: FIRST_FOUR,
    ends: b"",
}];

#[test]
fn a_line_without_its_line_feed_moves_no_clock(rt: HostRuntime) -> Result<(), Fail> {
    are_given(rt.alloc(), Mode::Audit, 50, &WITHOUT_ITS_FEED)
}

/// What a session of points gives of one piece, how many bytes may still come then, and what it gives at the end.
fn fed_at_once(
    alloc: Global,
    more: &str,
    piece: &[u8],
) -> Result<Result<(Vec<u8>, u64, Ending), SessionFault>, Fail> {
    let mut session = session(alloc, more, Mode::Points)?;
    let given = match session.feed(piece) {
        Ok(given) => given,
        Err(why) => return Ok(Err(why)),
    };
    let room = session.room();
    match session.end() {
        Ok(ending) => Ok(Ok((given, room, ending))),
        Err(why) => Ok(Err(why)),
    }
}

/// How many lines end in these bytes.
fn lines_in(bytes: &[u8]) -> usize {
    bytes.iter().filter(|byte| **byte == b'\n').count()
}

/// Returns a log of `count` reports of one place, and the head-on log after them.
fn long_log(alloc: Global, count: u32) -> Result<Vec<u8>, Fail> {
    let mut log = Vec::new(alloc);
    for _ in 0..count {
        log.extend_from_slice(REPORT)?;
    }
    log.extend_from_slice(HEAD_ON)?;
    Ok(log)
}

#[test]
fn a_piece_of_a_million_bytes(rt: HostRuntime) -> Result<(), Fail> {
    let log = long_log(rt.alloc(), 20000)?;
    let Ok((given, _, ending)) = fed_at_once(rt.alloc(), "", log.as_slice())? else {
        return Err("nothing is refused".into());
    };
    is(lines_in(given.as_slice()), 4)?;
    let rest = ending.bytes.as_slice();
    is_true(rest.starts_with(b"lines,empty,0,,,,\n"))?;
    is_true(!ending.none)
}

// The byte behind the limit ends a line, which is not judged.
#[test]
fn a_log_of_one_byte_too_many(rt: HostRuntime) -> Result<(), Fail> {
    let long = fed_at_once(rt.alloc(), "max_bytes = 47\n", REPORT)?;
    is_true(matches!(long, Err(SessionFault::LogBytes)))
}

#[test]
fn a_log_of_as_many_bytes_as_may_come(rt: HostRuntime) -> Result<(), Fail> {
    let Ok((given, room, _)) = fed_at_once(rt.alloc(), "max_bytes = 48\n", REPORT)? else {
        return Err("nothing is refused".into());
    };
    is(given.as_slice(), POINT)?;
    is(room, 0)
}
