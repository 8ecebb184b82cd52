//! Failing devices: the output of a run up to the fault, and no calls after it.
use crate::logs::{ABOUT_SEATTLE, LOG, REPORT};
use crate::whole_run::{Devices, RunEnd, SOUND, ended_with};
use crate::worked_row::{AUDIT, POINTS};
use colregs_program::Status;
use outside::Taken;
use scenario_rows::HEAD_ON;
use std::alloc::Global;
use std::test::Fail;
use test_support::{is, is_true};

/// The rows of the log of two vessels head-on that the clock of a line at second 741 settles.
const FIRST_TWO: &[u8] = b"verdict,369190000,477553000,r14a,broken,0,0
verdict,477553000,369190000,r14a,broken,0,0
";

/// The rows of that log that the clock of a line at second 951 settles.
const FIRST_FOUR: &[u8] = b"verdict,369190000,477553000,r14a,broken,0,0
verdict,477553000,369190000,r14a,broken,0,0
verdict,369190000,477553000,r8d,broken,18,21
verdict,477553000,369190000,r8d,broken,18,21
";

/// The line on standard error if a log cannot be read.
const NOT_READ: &[u8] = b"log: not read\n";

/// The end of a run, with its number.
type End = (Status, u8);

const READ_FAULT: End = (Status::ReadFault, 5);

const WRITE_FAULT: End = (Status::WriteFault, 6);

/// Returns the end of this run.
fn end_of(ended: &RunEnd) -> End {
    (ended.status, ended.status.number())
}

/// Checks that a run has this end and has written these bytes.
fn has_ended(ended: &RunEnd, end: End, out: &[u8]) -> Result<(), Fail> {
    is((end_of(ended), ended.out.bytes()), (end, out))
}

// The rest of the log shows that the run reads nothing after the fault.
#[test]
fn a_source_that_fails_after_a_hundred_bytes(rt: HostRuntime) -> Result<(), Fail> {
    let devices = Devices {
        piece: 100,
        failing_read: Some(1),
        ..SOUND
    };
    let ended = ended_with(rt.alloc(), POINTS, &[], &[b'#'; 150], devices)?;
    is(
        (
            end_of(&ended),
            ended.out.bytes(),
            ended.err.bytes(),
            ended.next,
        ),
        (READ_FAULT, b"".as_slice(), NOT_READ, Taken::Got(50)),
    )
}

/// Runs `audit` on the head-on log and one more line.
fn audited(alloc: Global, last: &[u8], devices: Devices) -> Result<RunEnd, Fail> {
    let mut log = HEAD_ON.to_vec(alloc)?;
    log.extend_from_slice(last)?;
    ended_with(alloc, AUDIT, &[], log.as_slice(), devices)
}

// The clock of the whole lines settles the first two rows, and the read after them fails.
#[test]
fn a_read_that_fails_leaves_the_rows_that_are_settled(rt: HostRuntime) -> Result<(), Fail> {
    let last = b"\\c:1700000741*5D\\x\n";
    let devices = Devices {
        piece: 1,
        failing_read: Some((HEAD_ON.len() + last.len()) as u32),
        ..SOUND
    };
    let ended = audited(rt.alloc(), last, devices)?;
    has_ended(&ended, READ_FAULT, FIRST_TWO)
}

/// A line that settles four rows. It ends in the seventh chunk.
const SETTLES: &[u8] = b"\\c:1700000951*52\\x\n";

/// Checks that a run whose read of this number fails has written the rows settled by then.
fn has_settled(ended: &RunEnd, call: u32) -> Result<(), Fail> {
    match call {
        0..7 => has_ended(ended, READ_FAULT, b""),
        7 => has_ended(ended, READ_FAULT, FIRST_FOUR),
        _ => is(ended.status, Status::Done),
    }
}

// Standard error fails each time, which changes no status.
#[test]
fn each_read_that_fails_leaves_what_was_settled(rt: HostRuntime) -> Result<(), Fail> {
    for call in 0..10u32 {
        let devices = Devices {
            failing_read: Some(call),
            failing_line: Some(0),
            ..SOUND
        };
        let ended = audited(rt.alloc(), SETTLES, devices)?;
        has_settled(&ended, call)?;
    }
    Ok(())
}

/// Checks that a run whose writes may fail has written a prefix of this run's output, and is done only if it has
/// written all of it.
fn is_front_of(ended: &RunEnd, whole: &RunEnd) -> Result<(), Fail> {
    is_true(whole.out.bytes().starts_with(ended.out.bytes()))?;
    if ended.out.bytes().len() < whole.out.bytes().len() {
        is(end_of(ended), WRITE_FAULT)
    } else {
        is(ended.status, Status::Done)
    }
}

/// Checks that runs with one failing write have written prefixes of this run's output.
fn has_fronts(alloc: Global, whole: &RunEnd) -> Result<(), Fail> {
    is(whole.status, Status::Done)?;
    for call in 0..20u32 {
        let devices = Devices {
            failing_write: Some(call),
            failing_line: Some(0),
            ..SOUND
        };
        let ended = audited(alloc, SETTLES, devices)?;
        is_front_of(&ended, whole)?;
    }
    Ok(())
}

#[test]
fn each_write_that_fails_leaves_a_front_of_the_report(rt: HostRuntime) -> Result<(), Fail> {
    let whole = audited(rt.alloc(), SETTLES, SOUND)?;
    has_fronts(rt.alloc(), &whole)
}

/// Checks that the run's write failed after this number of bytes of the report of points, and that standard error
/// stayed empty.
fn is_cut_off_at(ended: &RunEnd, length: usize) -> Result<(), Fail> {
    is_true(REPORT.starts_with(ended.out.bytes()))?;
    is(
        (end_of(ended), ended.out.bytes().len(), ended.err.bytes()),
        (WRITE_FAULT, length, b"".as_slice()),
    )
}

// A failing standard error changes no status. The run writes the log's only row before it reads the end of the log, and
// the rest in chunks of 100 bytes.
#[test]
fn each_write_that_fails_leaves_the_front_before_it(rt: HostRuntime) -> Result<(), Fail> {
    for (call, length) in [(0, 0usize), (1, 42), (2, 142), (3, 242)] {
        let devices = Devices {
            failing_write: Some(call),
            failing_line: Some(0),
            ..SOUND
        };
        let ended = ended_with(rt.alloc(), POINTS, &[ABOUT_SEATTLE], LOG, devices)?;
        is_cut_off_at(&ended, length)?;
    }
    Ok(())
}
