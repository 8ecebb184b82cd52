//! Lines that are judged as they end.
ghost use Rattle.std.specs.Prelude.{◌<◌};

use log_lines::{StreamedLines, ToldStatic};
use scenario::read;
use scenario_rows::SCENARIO;
use std::alloc::Global;
use std::test::Fail;
use test_support::{is, is_true};
use tracks::{BookFault, Keeping};

/// Takes bytes one at a time.
fn take_all(lines: &mut StreamedLines, bytes: &[u8]) -> Result<(), BookFault> {
    for byte in bytes {
        if *byte == b'\n' {
            lines.end_line(&[])?;
        } else {
            lines.extend(&[*byte])?;
        }
    }
    Ok(())
}

/// No line yet, by the scenario of the rows.
fn no_lines(alloc: Global) -> Result<StreamedLines, Fail> {
    match read(alloc, SCENARIO.as_bytes(), false) {
        Ok(scenario) => Ok(StreamedLines::new(alloc, Keeping::Latest, &scenario)),
        Err(_) => Err("a scenario".into()),
    }
}

/// Returns whether one line has come to the outcome at this index, once these bytes are taken.
fn has_one(lines: &mut StreamedLines, bytes: &[u8], place: usize) -> Result<(), Fail>
    requires { place < 21 }
{
    take_all(lines, bytes)?;
    is(lines.judge().counts()[place], 1)
}

/// A line that is a point, and the beginning of one that is no sentence of a kind that is read.
const ONE_AND_A_PART: &[u8] = b"!AIVDM,1,1,,A,15P5TL0P2l00001wwHt000000000,0*5C\r\n!AIVDM";

#[test]
fn a_line_is_judged_as_it_ends(rt: HostRuntime) -> Result<(), Fail> {
    let mut lines = no_lines(rt.alloc())?;
    has_one(&mut lines, ONE_AND_A_PART, 20)?;
    is_true(lines.is_open())?;
    has_one(&mut lines, b"\n", 3)
}

/// When they come.
const AT: u64 = 1700000100;

// Messages 19, 24 A, 24 B and 1, off the air but for the last. The place of the first is far from the reference.
static STATIC_REPORTS: [(&[u8], Option<ToldStatic>); 4] = [
    (
        b"\\c:1700000100*5E\\!AIVDM,1,1,,B,C5N3SRgPEnJGEBT>NhWAwwo862PaLELTBJ:V00000000S0D:R220,0*0B\n",
        Some(ToldStatic {
            mmsi: 367059850,
            time: AT,
            kind: Some(70),
        }),
    ),
    (
        b"!AIVDM,1,1,,A,H42O55i18tMET00000000000000,2*6D\n",
        Some(ToldStatic {
            mmsi: 271041815,
            time: AT,
            kind: None,
        }),
    ),
    (
        b"!AIVDM,1,1,,A,H42O55lti4hhhilD3nink000?050,0*40\n",
        Some(ToldStatic {
            mmsi: 271041815,
            time: AT,
            kind: Some(60),
        }),
    ),
    (b"!AIVDM,1,1,,A,15P5TL0P2l00001wwHt000000000,0*5C\n", None),
];

/// Returns whether these lines have the outcomes that stand beside them.
fn tell(lines: &mut StreamedLines, rows: &[(&[u8], Option<ToldStatic>)]) -> Result<(), Fail> {
    for (line, expected) in rows {
        take_all(lines, line)?;
        is(lines.judge().told(), *expected)?;
    }
    Ok(())
}

#[test]
fn static_reports_are_told(rt: HostRuntime) -> Result<(), Fail> {
    let mut lines = no_lines(rt.alloc())?;
    tell(&mut lines, &STATIC_REPORTS)
}
