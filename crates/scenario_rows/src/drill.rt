//! The log of a seed.
ghost use Rattle.std.specs.Prelude.{◌≤◌};

use crate::SCENARIO;
use crate::compared::{is, is_true};
use ais_messages::{Decoded, Message, PositionReport, decode};
use aivdm::{Bits, Body, Joined, Joiner, read_line};
use drill_log::drill_log;
use scenario::ScenarioFault;
use std::alloc::Global;
use std::process::Abort;

/// Returns the log of a seed. It has reports for 7 minutes, each in a line of 65 bytes.
fn log_with(alloc: Global, seed: u32) -> Result<Vec<u8>, ScenarioFault>
    requires { seed ≤ 999999 }
{
    let scenario = scenario::read(alloc, SCENARIO.as_bytes(), false)?;
    Ok(drill_log(alloc, &scenario, seed)?)
}

/// Returns the position report of a message.
fn report_of(bits: &Bits) -> Option<PositionReport> {
    match decode(bits) {
        Decoded::Message(Message::Position(report)) => Some(report),
        _ => None,
    }
}

/// Returns the report in a line.
fn reported(joiner: &mut Joiner, line: &[u8]) -> Option<PositionReport> {
    let Body::Sentence(sentence) = read_line(line).body else {
        return None;
    };
    match joiner.take(&sentence, 0) {
        Ok(Joined::Message(bits)) => report_of(&bits),
        _ => None,
    }
}

/// Returns the report in a line of the log.
fn reported_in(alloc: Global, log: &[u8], line: usize) -> Option<PositionReport> {
    let line = log.chunks(65).nth(line)?;
    let end = line.len().saturating_sub(1);
    reported(&mut Joiner::new(alloc), &line[..end])
}

/// Compares the length, the start and the end of a log.
fn is_between(rt: &impl Abort, log: &[u8], len: usize, begins: &[u8], ends: &[u8]) {
    is(rt, log.len(), len);
    is_true(rt, log.starts_with(begins));
    is_true(rt, log.ends_with(ends));
}

const FIRST_TWO: &[u8] =
    b"\\c:1700000000*5F\\!AIVDM,1,1,,A,12vg20@P1<006sH00a<t3?v00000,0*45\n\\c:1700000000*5F\\!AIVDM,1,1,,A,12vg20PP1eOwnQP00SNAiwv00000,0*31\n";

const LAST: &[u8] = b"\n\\c:1700000360*5A\\!AIVDM,1,1,,A,12vg2:0P1K002wf00D3<pOv00000,0*37\n";

// The lines come from a separate script that makes the log by the definition.
#[test]
fn first_and_last_lines(rt: HostRuntime) -> Result<(), ScenarioFault> {
    let log = log_with(rt.alloc(), 1)?;
    is_between(&rt, &log, 280 * 65, FIRST_TWO, LAST);
    Ok(())
}

/// The first report of the first vessel.
const REPORT: PositionReport = PositionReport {
    kind: 1,
    mmsi: 200000001,
    status: 0,
    place: Some((10547, 14188)),
    sog: Some(76),
    cog: Some(3084),
    heading: None,
    second: 0,
};

/// Lines, and their reports.
static REPORTS: [(usize, PositionReport); 2] = [
    (0, REPORT),
    (
        40,
        PositionReport {
            place: Some((11341, 13189)),
            ..REPORT
        },
    ),
];

/// Compares the reports in lines of a log.
fn are_reported(rt: &impl Abort, alloc: Global, log: &[u8], reports: &[(usize, PositionReport)]) {
    for (line, report) in reports {
        is(rt, reported_in(alloc, log, *line), Some(*report));
    }
}

#[test]
fn two_reports_of_the_first_vessel(rt: HostRuntime) -> Result<(), ScenarioFault> {
    let log = log_with(rt.alloc(), 1)?;
    are_reported(&rt, rt.alloc(), &log, &REPORTS);
    Ok(())
}

/// Returns whether the log of a seed is this one.
fn is_with(alloc: Global, log: &[u8], seed: u32) -> Result<bool, ScenarioFault>
    requires { seed ≤ 999999 }
{
    let other = log_with(alloc, seed)?;
    Ok(log == other.as_slice())
}

#[test]
fn same_bytes_from_the_same_seed(rt: HostRuntime) -> Result<(), ScenarioFault> {
    let log = log_with(rt.alloc(), 7)?;
    is_true(&rt, is_with(rt.alloc(), &log, 7)?);
    is_true(&rt, !is_with(rt.alloc(), &log, 1)?);
    Ok(())
}
