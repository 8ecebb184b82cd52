//! The log of the drill.
ghost use Rattle.std.specs.Prelude.{◌≡◌, ◌+◌, ◌-◌, ◌*◌, ◌<◌, ◌≤◌, ◌++◌, All, IfOk, OnOk, flat_map};
ghost use Rattle.std.specs.List.{range_with_len};
ghost use Rattle.ais_messages.specs.MessageFields.{IsReport};
ghost use Rattle.scenario_values.specs.ValueRanges.{IsWindow};
ghost use Rattle.drill_log.specs.DrillLog.{drill_log_of, minutes_in, report_line};
ghost use Rattle.drill_log.specs.Inner.MinuteLines.{lines_at};
ghost use Rattle.drill_log.specs.Inner.VesselFigures.{report_by, IsVessel};

use crate::vessel::{VESSELS, Vessel, vessels};
use ais_messages::{PositionReport, encode_position};
use aivdm::write_sentence;
use fixed_geometry::Reference;
use out_of_memory::Memory;
use scenario_values::{Scenario, Window};
use std::alloc::Global;

/// A line has at most this many bytes: 18 of the tag block, 47 of the sentence, and LF.
const LINE_BYTES: usize = 66;

/// The log of the drill with this seed, 0 to 999999: one report of each of forty vessels at tick 0 and at each minute
/// of the window after it.
///
/// Its lines are ordered by time, and lines of the same time by MMSI, from 200000001 to 200000040. There are at most
/// 800,040 lines of at most 66 bytes.
pub fn drill_log(alloc: Global, scenario: &Scenario, seed: u32) -> Result<Vec<u8>, Memory>
    requires window { IsWindow scenario.now.window }
    requires seed { seed ≤ 999999 }
    ensures { IfOk result (λ log. log.items ≡ drill_log_of scenario.now seed) }
{
    let vessels = vessels(alloc, seed)?;
    let reports = minutes_in(scenario.window) + 1;
    lines_between(
        alloc,
        &vessels,
        scenario.reference,
        scenario.window.start,
        0,
        reports,
    )
}

/// Returns the lines of the vessels' reports from one minute to before another.
pub(crate) fn lines_between(
    alloc: Global,
    vessels: &[Vessel],
    reference: Reference,
    start: u64,
    from: u32,
    end: u32,
) -> Result<Vec<u8>, Memory>
    requires vessels { All IsVessel vessels.now }
    requires start { start ≤ 9999999999 }
    requires ordered { from ≤ end }
    requires few { end ≤ 20001 }
    ensures { IfOk result
        (λ lines. lines.items
        ≡ flat_map (lines_at reference start vessels.now) (range_with_len from (end - from))) }
{
    let mut lines = Vec::new(alloc);
    lines.reserve((end - from) as usize * (VESSELS as usize * LINE_BYTES))?;
    for minutes in from..end {
        let time = start + 60 * u64::from(minutes);
        push_reports(&mut lines, alloc, vessels, reference, minutes, time)?;
    }
    Ok(lines)
}

/// Returns the whole minutes of a window.
pub(crate) fn minutes_in(window: Window) -> u32
    requires { IsWindow window }
    ensures value { result ≡ minutes_in window }
    ensures most { result ≤ 20000 }
{
    window.ticks * window.tick / 60
}

/// Appends the lines of the vessels' reports after this many minutes.
fn push_reports(
    log: &mut Vec<u8>,
    alloc: Global,
    vessels: &[Vessel],
    reference: Reference,
    minutes: u32,
    time: u64,
) -> Result<(), Memory>
    requires vessels { All IsVessel vessels.now }
    requires minutes { minutes ≤ 20000 }
    requires time { time < 100_000_000_000 }
    ensures { OnOk result
        (log.new.items ≡ log.old.items
        ++ flat_map (λ vessel. report_line
        (record { time = time; report = report_by vessel reference minutes })) vessels.now) }
{
    for vessel in vessels {
        push_line(log, alloc, &vessel.report(reference, minutes), time)?;
    }
    Ok(())
}

/// Appends the line of a report.
fn push_line(
    log: &mut Vec<u8>,
    alloc: Global,
    report: &PositionReport,
    time: u64,
) -> Result<(), Memory>
    requires ranges { IsReport report.now }
    requires kind { report.now.kind ≡ 1 }
    requires time { time < 100_000_000_000 }
    ensures { OnOk result
        (log.new.items ≡ log.old.items
        ++ report_line (record { time = time; report = report.now })) }
{
    let bits = encode_position(alloc, report)?;
    let line = write_sentence(alloc, Some(time), &bits, b'A')?;
    log.extend_from_slice(line.as_slice())?;
    log.push(b'\n')?;
    Ok(())
}
