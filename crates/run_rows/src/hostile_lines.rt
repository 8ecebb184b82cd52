//! Hostile lines.
use crate::whole_run::{SOUND, ended_with};
use crate::worked_row::POINTS;
use std::alloc::Global;
use std::test::Fail;
use test_support::is;

/// Returns the rows of the counts that are not 0 in a report.
fn counts_in(alloc: Global, report: &[u8]) -> Result<String, Fail> {
    let mut counts = String::new(alloc);
    if let Ok(text) = std::str::from_utf8(report) {
        for line in text.lines() {
            if line.starts_with("lines,") && !line.ends_with(",0,,,,") {
                counts.push_str(line)?;
                counts.push_str("\n")?;
            }
        }
    }
    Ok(counts)
}

/// Returns the rows of the counts that are not 0 at the end of the report on a log.
fn counted(alloc: Global, log: &[u8]) -> Result<String, Fail> {
    let ended = ended_with(alloc, POINTS, &[], log, SOUND)?;
    counts_in(alloc, ended.out.bytes())
}

const TAGS: &[u8] =
    b"\\c:1700000000*5E\\!AIVDM,1,1,,A,15P5TL0P2l00001wwHt000000000,0*5C\n\\c:1700000000*5F\n";

const FIELDS: &[u8] =
    b"!AIVDM,1,2,,A,0,0*00\n!AIVDM,1,1,,A,,0*00\n!AIVDM,1,1,,A,0,6*00\n!AIVDM,1,1,,A,0,0*7\n";

const SUFFIX: &[u8] = b"!AIVDM,1,1,,A,15P5TL0P2l00001wwHt000000000,0*5c,1700000000\n";

// A stamp outside the window is the nearest one to the line after it, but does not move the clock.
const STAMPS: &[u8] = b"\\c:9999999999*59\\!AIVDM,1,1,,A,15P5TL0P2l00001wwHt000000000,0*5C
!AIVDM,1,1,,A,15P5TL0P2l00001wwHt000000000,0*5C
\\c:1700000000*5F\\!AIVDM,1,1,,A,15P5TL0P2l00001wwHt000000000,0*5C
";

const FIRST_AGAIN: &[u8] =
    b"!AIVDM,2,1,3,B,55P5TL01VIaAL@7WKO@mBplU@<PDhh000000001S;AJ::4A80?4i@E53,0*3E
!AIVDM,2,1,3,B,55P5TL01VIaAL@7WKO@mBplU@<PDhh000000001S;AJ::4A80?4i@E53,0*3E
!AIVDM,2,2,3,B,1@0000000000000,2*55
";

const SECOND_AGAIN: &[u8] =
    b"!AIVDM,2,1,3,B,55P5TL01VIaAL@7WKO@mBplU@<PDhh000000001S;AJ::4A80?4i@E53,0*3E
!AIVDM,2,2,3,B,1@0000000000000,2*55
!AIVDM,2,2,3,B,1@0000000000000,2*55
";

// The first two are a minute of latitude apart.
const JUMPS: &[u8] = b"\\c:1700000000*5F\\!AIVDM,1,1,,A,15P5TL0P2l00001wwHt000000000,0*5C
\\c:1700000010*5E\\!AIVDM,1,1,,A,15P5TL0P2l0000000W4000000000,0*02
\\c:1700000040*5B\\!AIVDM,1,1,,A,15P5TL0P2l00001wwHt000000000,0*5C
";

/// Logs, each with the rows of the counts that are not 0.
static TABLE: [(&[u8], &str); 11] = [
    (b"\n", "lines,empty,1,,,,\n"),
    (b"!AIVDM\n$GPGGA,1\n", "lines,other,2,,,,\n"),
    (TAGS, "lines,tag,2,,,,\n"),
    (FIELDS, "lines,form,4,,,,\n"),
    (
        b"!AIVDM,1,1,,A,0,0*00\n!AIVDM,1,1,,A,X,0*7E\n",
        "lines,sum,1,,,,\nlines,armour,1,,,,\n",
    ),
    (
        b"!AIVDM,1,1,,A,0,0*16\n!AIVDM,1,1,,A,0,5*13\n",
        "lines,short,2,,,,\n",
    ),
    (SUFFIX, "lines,point,1,,,,\n"),
    (STAMPS, "lines,outside,2,,,,\nlines,point,1,,,,\n"),
    (FIRST_AGAIN, "lines,part,2,,,,\nlines,static,1,,,,\n"),
    (
        SECOND_AGAIN,
        "lines,part,1,,,,\nlines,orphan,1,,,,\nlines,static,1,,,,\n",
    ),
    (JUMPS, "lines,jump,1,,,,\nlines,point,2,,,,\n"),
];

#[test]
fn each_hostile_line_comes_to_its_outcome(rt: HostRuntime) -> Result<(), Fail> {
    for (log, counts) in &TABLE {
        is(counted(rt.alloc(), log)?.as_str(), *counts)?;
    }
    Ok(())
}

#[test]
fn lines_of_the_greatest_length_and_of_a_byte_more(rt: HostRuntime) -> Result<(), Fail> {
    let mut log = vec![in rt.alloc(); b'x'; 2050]?;
    log[1025] = b'\n';
    let counts = counted(rt.alloc(), log.as_slice())?;
    is(counts.as_str(), "lines,long,1,,,,\nlines,other,1,,,,\n")
}
