//! The limits for many vessels: vessels in the book, pairs in contact, and targets of a plan.
ghost use Rattle.std.specs.Prelude.{◌<◌, ◌≤◌};

use crate::logs::{ONE_COURSE, ONE_TICK, OWN};
use crate::whole_run::{Devices, Edit, RunEnd, SOUND, ended_with};
use crate::worked_row::{AUDIT, POINTS};
use ais_messages::{PositionReport, encode_position};
use aivdm::write_sentence;
use colregs_program::{Status, Which};
use std::alloc::Global;
use std::test::Fail;
use test_support::{is, is_true};

/// The second at which the window starts.
const START: u64 = 1700000000;

/// Appends a report of each of `count` stopped vessels at the reference, 0.1852 m apart, at this second.
fn append_crowd(alloc: Global, log: &mut Vec<u8>, count: u32, second: u64) -> Result<(), Fail>
    requires few { count ≤ 5000 }
    requires second { second < 100_000_000_000 }
{
    for k in 0..count {
        let report = PositionReport {
            mmsi: 200000000 + k,
            place: Some((0, k as i32)),
            sog: Some(0),
            cog: Some(0),
            heading: Some(0),
            kind: 1,
            status: 0,
            second: 0,
        };
        let bits = encode_position(alloc, &report)?;
        let line = write_sentence(alloc, Some(second), &bits, b'A')?;
        log.extend_from_slice(line.as_slice())?;
        log.push(b'\n')?;
    }
    Ok(())
}

/// Returns a run on `count` vessels close together, each with a report at the window's start and another a minute
/// later.
fn crowded(
    alloc: Global,
    words: &[&str],
    edits: &[Edit],
    front: &[u8],
    count: u32,
) -> Result<RunEnd, Fail>
    requires { count ≤ 5000 }
{
    let mut log = front.to_vec(alloc)?;
    append_crowd(alloc, &mut log, count, START)?;
    append_crowd(alloc, &mut log, count, START + 60)?;
    let devices = Devices {
        piece: 4096,
        ..SOUND
    };
    ended_with(alloc, words, edits, log.as_slice(), devices)
}

/// A window of four ticks.
const FOUR_TICKS: Edit = ("ticks = 40", "ticks = 4");

/// Own ship's report at the window's start.
const OWN_NOW: &[u8] = b"\\c:1700000000*5F\\!AIVDM,1,1,,A,15P5TL0P2l00001wwHt000000000,0*5C\n";

#[test]
fn vessel_4097_is_refused_after_the_rows_of_the_others(rt: HostRuntime) -> Result<(), Fail> {
    let ended = crowded(rt.alloc(), POINTS, &[], b"", 4097)?;
    is(ended.status, Status::Limit(Which::Vessels, 4096))?;
    is(ended.err.bytes(), b"limit: vessels 4096\n".as_slice())?;
    is_true(
        ended
            .out
            .bytes()
            .ends_with(b"point,200004095,1700000000,7583940,0,0,0\n"),
    )
}

#[test]
fn sixty_five_vessels_are_too_many_pairs(rt: HostRuntime) -> Result<(), Fail> {
    let ended = crowded(rt.alloc(), AUDIT, &[FOUR_TICKS], b"", 65)?;
    is(
        (ended.status, ended.out.bytes(), ended.err.bytes()),
        (
            Status::Limit(Which::Pairs, 4096),
            b"".as_slice(),
            b"limit: pairs 4096\n".as_slice(),
        ),
    )
}

#[test]
fn sixty_four_vessels_are_not(rt: HostRuntime) -> Result<(), Fail> {
    let ended = crowded(rt.alloc(), AUDIT, &[FOUR_TICKS], b"", 64)?;
    is(
        (ended.status, ended.err.bytes()),
        (Status::Done, b"".as_slice()),
    )
}

#[test]
fn sixty_five_targets_are_too_many(rt: HostRuntime) -> Result<(), Fail> {
    let edits = [ONE_TICK, OWN, ONE_COURSE];
    let ended = crowded(rt.alloc(), &["plan", "scenario.toml"], &edits, OWN_NOW, 65)?;
    is(
        (ended.status, ended.out.bytes(), ended.err.bytes()),
        (
            Status::Limit(Which::Targets, 64),
            b"".as_slice(),
            b"limit: targets 64\n".as_slice(),
        ),
    )
}

#[test]
fn out_of_memory_is_status_8() -> Result<(), Fail> {
    is(Status::Memory.number(), 8)
}
