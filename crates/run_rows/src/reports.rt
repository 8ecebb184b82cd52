//! The report of each mode.
use crate::logs::{ABOUT_SEATTLE, HEAD_ON_NOW, LOG, ONE_COURSE, ONE_TICK, OWN, REPORT};
use crate::whole_run::{Devices, Edit, RunEnd, SOUND, ended, ended_with};
use crate::worked_row::{AUDIT, NOTHING, POINTS, Row, Written, is_as_worked_out};
use colregs_program::{Status, Which};
use log_lines::laws;
use scenario_rows::HEAD_ON;
use std::alloc::Global;
use std::test::Fail;
use test_support::{is, is_true};

/// The row of that report.
const POINT: &[u8] = b"point,477553000,1700000000,0,185200,0,510\n";

/// The start of the audit of the log of two vessels head-on, up to the counts of lines.
const HEAD_ON_AUDITED: &[u8] = b"verdict,369190000,477553000,r14a,broken,0,0
verdict,477553000,369190000,r14a,broken,0,0
verdict,369190000,477553000,r8d,broken,18,21
verdict,477553000,369190000,r8d,broken,18,21
meeting,369190000,477553000,head_on,0,25,185200
meeting,477553000,369190000,head_on,0,25,185200
vessel,369190000,MT.MITCHELL,99,180,2,1
vessel,477553000,,0,0,2,1
total,r8b,80,80,0,0,0
total,r8d,80,72,8,0,2
total,r13,80,80,0,0,0
total,r14a,80,78,2,0,2
total,r14b,80,80,0,0,0
total,r14p,80,80,0,0,0
total,r15,80,80,0,0,0
total,r16,80,80,0,0,0
total,r17a,80,80,0,0,0
total,r17b,80,80,0,0,0
total,r17c,80,80,0,0,0
lines,empty,0,,,,
";

/// The same log in mode `watch`: each breach at the step that decides it.
const HEAD_ON_WATCHED: &[u8] = b"alarm,369190000,477553000,r14a,0,6,
alarm,477553000,369190000,r14a,0,6,
alarm,369190000,477553000,r8d,18,18,
alarm,477553000,369190000,r8d,18,18,
alarm,369190000,477553000,r8d,19,19,
alarm,477553000,369190000,r8d,19,19,
alarm,369190000,477553000,r8d,20,20,
alarm,477553000,369190000,r8d,20,20,
alarm,369190000,477553000,r8d,21,21,
alarm,477553000,369190000,r8d,21,21,
lines,empty,0,,,,
";

/// Five parts of two keys, and three lines with times: own ship at second 100, and the other at seconds 0 and -1000.
const PARTS_AND_TIMES: &[u8] =
    b"!AIVDM,2,1,3,A,55P5TL01VIaAL@7WKO@mBplU@<PDhh000000001S;AJ::4A80?4i@E53,0*3D
!AIVDM,2,1,3,B,55P5TL01VIaAL@7WKO@mBplU@<PDhh000000001S;AJ::4A80?4i@E53,0*3E
!AIVDM,2,2,3,A,1@0000000000000,2*56
!AIVDM,2,2,3,B,1@0000000000000,2*55
!AIVDM,2,2,3,B,1@0000000000000,2*55
\\c:1700000100*5E\\!AIVDM,1,1,,A,15P5TL0P2l00001wwHt000000000,0*5C
\\c:1700000000*5F\\!AIVDM,1,1,,A,177KQJ0P2lOwwtp00W4725`00000,0*31
\\c:1699999000*57\\!AIVDM,1,1,,A,177KQJ0P2lOwwtp00W4725`00000,0*31
";

const PARTS_AND_TIMES_COUNTED: &[u8] = b"lines,outside,1,,,,
lines,late,1,,,,
lines,part,2,,,,
lines,orphan,1,,,,
lines,short,0,,,,
lines,kind,0,,,,
lines,notship,0,,,,
lines,nopos,0,,,,
lines,far,0,,,,
lines,back,0,,,,
lines,repeat,0,,,,
lines,jump,0,,,,
lines,static,2,,,,
lines,point,1,,,,
";

const HEAD_ON_TO_TICK_FOUR: Written = Written::Ends(
    b"verdict,369190000,477553000,r14a,open,0,0
verdict,477553000,369190000,r14a,open,0,0
meeting,369190000,477553000,head_on,0,3,29632578
meeting,477553000,369190000,head_on,0,3,29632578
vessel,369190000,MT.MITCHELL,99,180,2,1
",
    b"",
);

/// The totals of the drill, computed by another program.
const DRILLED: &[u8] = b"total,r8b,48304,48304,0,0,0
total,r8d,48304,48134,170,0,24
total,r13,48304,48273,31,0,2
total,r14a,48304,48294,10,0,10
total,r14b,48304,48304,0,0,0
total,r14p,48304,48254,50,0,5
total,r15,48304,48297,7,0,7
total,r16,48304,48268,36,0,36
total,r17a,48304,48304,0,0,0
total,r17b,48304,48194,110,0,12
total,r17c,48304,48304,0,0,0
lines,empty,0,,,,
";

const PLAN: &[&str] = &["plan", "scenario.toml"];

/// The scenario counts ranks.
const RANKS: Edit = ("[rules]\n", "[rules]\nranks = 1\n");

/// Two vessels meet head-on, and the second is engaged in fishing.
const FISHING: &[u8] =
    b"\\c:1700000000*5F\\!AIVDM,2,1,3,B,55P5TL01VIaAL@7WKO@mBplU@<PDhh000000001S;AJ::4A80?4i@E53,0*3E
!AIVDM,2,2,3,B,1@0000000000000,2*55
\\c:1700000000*5F\\!AIVDM,1,1,,A,15P5TL0P2l00001wwHt000000000,0*5C
\\c:1700000000*5F\\!AIVDM,1,1,,A,177KQJ7P2lOwwtp00W4725`00000,0*36
\\c:1700000400*5B\\!AIVDM,1,1,,A,15P5TL0P2l0000000W4000000000,0*02
\\c:1700000400*5B\\!AIVDM,1,1,,A,177KQJ7P2lOwwtqwwHt725`00000,0*68
";

/// The first must keep out of the way of the second, and neither alters.
const FISHING_AUDITED: Written = Written::Ends(
    b"verdict,369190000,477553000,r16,broken,0,0
verdict,369190000,477553000,r8d,broken,18,21
verdict,369190000,477553000,r18,broken,18,21
verdict,477553000,369190000,r8d,broken,18,21
verdict,477553000,369190000,r17b,broken,19,21
meeting,369190000,477553000,head_on,0,25,185200
meeting,477553000,369190000,head_on,0,25,185200
vessel,369190000,MT.MITCHELL,99,180,2,1
vessel,477553000,,0,0,2,1
total,r8b,80,80,0,0,0
total,r8d,80,72,8,0,2
total,r13,80,80,0,0,0
total,r14a,80,80,0,0,0
total,r14b,80,80,0,0,0
total,r14p,80,80,0,0,0
total,r15,80,80,0,0,0
total,r16,80,79,1,0,1
total,r17a,80,80,0,0,0
total,r17b,80,77,3,0,1
total,r17c,80,80,0,0,0
total,r18,80,76,4,0,1
lines,empty,0,,,,
",
    b"lines,static,1,,,,\nlines,point,4,,,,\n",
);

/// The same vessels as in [`HEAD_ON_NOW`], but own ship is engaged in fishing.
const OWN_FISHES_NOW: &[u8] = b"\\c:1700000000*5F\\!AIVDM,1,1,,A,15P5TL7P2l00001wwHt000000000,0*5B
\\c:1700000000*5F\\!AIVDM,1,1,,A,177KQJ0P2lOwwtp00W4725`00000,0*31
";

static REPORTS: [Row; 16] = [
    Row {
        shows: "a log without its last line feed",
        edits: &[ABOUT_SEATTLE],
        log: &[b"!AIVDM,1,1,,B,177KQJ5000G?tO`K>RA1wUbN0TKH,0*5C"],
        out: Written::All(REPORT),
        ..NOTHING
    },
    Row {
        shows: "an empty log",
        out: Written::Ends(b"lines,empty,0,,,,\n", b"lines,point,0,,,,\n"),
        ..NOTHING
    },
    Row {
        shows: "parts of two keys, and times out of order",
        log: &[PARTS_AND_TIMES],
        out: Written::Ends(b"point,", PARTS_AND_TIMES_COUNTED),
        ..NOTHING
    },
    // Each breaks the rule for nearly reciprocal courses, and they pass too near.
    Row {
        shows: "two vessels meet head on, and neither alters",
        words: AUDIT,
        log: &[HEAD_ON],
        out: Written::Ends(HEAD_ON_AUDITED, b"lines,static,1,,,,\nlines,point,4,,,,\n"),
        ..NOTHING
    },
    Row {
        shows: "the same two vessels are watched",
        words: &["watch", "scenario.toml"],
        log: &[HEAD_ON],
        out: Written::Ends(HEAD_ON_WATCHED, b"lines,static,1,,,,\nlines,point,4,,,,\n"),
        ..NOTHING
    },
    Row {
        shows: "four ticks, by an option before the words",
        words: &["--ticks", "4", "audit", "scenario.toml"],
        log: &[HEAD_ON],
        out: HEAD_ON_TO_TICK_FOUR,
        ..NOTHING
    },
    Row {
        shows: "four ticks, by an option between the words",
        words: &["audit", "--ticks", "4", "scenario.toml"],
        log: &[HEAD_ON],
        out: HEAD_ON_TO_TICK_FOUR,
        ..NOTHING
    },
    Row {
        shows: "four ticks, by an option behind the words",
        words: &["audit", "scenario.toml", "--ticks", "4"],
        log: &[HEAD_ON],
        out: HEAD_ON_TO_TICK_FOUR,
        ..NOTHING
    },
    Row {
        shows: "a vessel that fishes is met head on, by ranks",
        words: AUDIT,
        edits: &[RANKS],
        log: &[FISHING],
        out: FISHING_AUDITED,
        ..NOTHING
    },
    Row {
        shows: "and where ranks do not count",
        words: AUDIT,
        log: &[FISHING],
        out: Written::Ends(HEAD_ON_AUDITED, b"lines,static,1,,,,\nlines,point,4,,,,\n"),
        ..NOTHING
    },
    // The run does not read a given log: this one would fail at the first read.
    Row {
        shows: "a drill of forty vessels",
        words: &["drill", "scenario.toml"],
        failing_read: Some(0),
        out: Written::Ends(DRILLED, b"lines,static,0,,,,\nlines,point,280,,,,\n"),
        ..NOTHING
    },
    // The first plan keeps course and speed, and breaks the rule for nearly reciprocal courses.
    Row {
        shows: "own ship turns to starboard",
        words: PLAN,
        edits: &[ONE_TICK, OWN],
        log: &[HEAD_ON_NOW],
        out: Written::Ends(
            b"vessel,369190000,,0,0,1,0
vessel,477553000,,0,0,1,0
plan,1,0,300,180,1,41
lines,empty,0,,,,
",
            b"lines,point,2,,,,\n",
        ),
        ..NOTHING
    },
    // Own ship is engaged in fishing: by ranks she would stand on, and would first have to keep her course.
    Row {
        shows: "a plan does not go by ranks",
        words: PLAN,
        edits: &[ONE_TICK, OWN, RANKS],
        log: &[OWN_FISHES_NOW],
        out: Written::Ends(
            b"vessel,369190000,,0,0,1,0
vessel,477553000,,0,0,1,0
plan,1,0,300,180,1,41
lines,empty,0,,,,
",
            b"lines,point,2,,,,\n",
        ),
        ..NOTHING
    },
    // She may only keep course and speed, which breaks the rule.
    Row {
        shows: "every plan fails",
        words: PLAN,
        edits: &[ONE_TICK, OWN, ONE_COURSE],
        log: &[HEAD_ON_NOW],
        status: Status::NoManoeuvre,
        number: 1,
        out: Written::Ends(
            b"vessel,369190000,,0,0,1,0
vessel,477553000,,0,0,1,0
none,1,,,,,
lines,empty,0,,,,
",
            b"lines,point,2,,,,\n",
        ),
        ..NOTHING
    },
    // She comes nearer than 300 metres in step 18, and is nearest at its end.
    Row {
        shows: "why every plan fails",
        words: &["plan", "scenario.toml", "--why"],
        edits: &[ONE_TICK, OWN, ONE_COURSE],
        log: &[HEAD_ON_NOW],
        status: Status::NoManoeuvre,
        number: 1,
        out: Written::Ends(
            b"vessel,369190000,,0,0,1,0
vessel,477553000,,0,0,1,0
none,1,,,,,
lines,empty,0,,,,
",
            b"lines,point,2,,,,\nwhy,0,477553000,domain,18,1,1\n",
        ),
        ..NOTHING
    },
    // The first line is within the limit, and the second is not.
    Row {
        shows: "a log that is too long leaves the rows of its whole lines",
        edits: &[
            ABOUT_SEATTLE,
            ("max_speed = 500\n", "max_speed = 500\nmax_bytes = 95\n"),
        ],
        log: &[LOG, LOG],
        status: Status::Limit(Which::Log, 95),
        number: 7,
        out: Written::All(POINT),
        err: b"limit: log 95\n",
        ..NOTHING
    },
];

#[test]
fn each_mode_writes_the_report_that_was_worked_out(rt: HostRuntime) -> Result<(), Fail> {
    for row in &REPORTS {
        is_as_worked_out(rt.alloc(), row)?;
    }
    laws::each_line_has_one_outcome();
    Ok(())
}

#[test]
fn a_log_in_pieces_of_any_length(rt: HostRuntime) -> Result<(), Fail> {
    for piece in [1, 7, 46, 4096] {
        let devices = Devices { piece, ..SOUND };
        let ended = ended_with(rt.alloc(), POINTS, &[ABOUT_SEATTLE], LOG, devices)?;
        is(
            (ended.status, ended.out.bytes(), ended.err.bytes()),
            (Status::Done, REPORT, b"".as_slice()),
        )?;
    }
    Ok(())
}

/// Returns `count` copies of a line.
fn copies(alloc: Global, line: &[u8], count: u32) -> Result<Vec<u8>, Fail> {
    let mut log = Vec::new(alloc);
    for _ in 0..count {
        log.extend_from_slice(line)?;
    }
    Ok(log)
}

// Long enough that each of its lines, and the report, allocate memory more than once.
#[test]
fn a_log_of_three_hundred_lines(rt: HostRuntime) -> Result<(), Fail> {
    let log = copies(rt.alloc(), LOG, 300)?;
    let devices = Devices {
        piece: 1000,
        ..SOUND
    };
    let ended = ended_with(
        rt.alloc(),
        POINTS,
        &[ABOUT_SEATTLE],
        log.as_slice(),
        devices,
    )?;
    let last =
        b"lines,back,299,,,,\nlines,repeat,0,,,,\nlines,jump,0,,,,\nlines,static,0,,,,\nlines,point,1,,,,\n";
    is(
        (ended.status, ended.out.bytes().ends_with(last)),
        (Status::Done, true),
    )
}

/// Returns a migration with options that have no effect. Its log would fail at its first read, so the run does not read
/// it.
fn migrated(alloc: Global) -> Result<RunEnd, Fail> {
    let words = ["migrate", "scenario.toml", "--ticks", "7", "--seed=3"];
    let devices = Devices {
        failing_read: Some(0),
        ..SOUND
    };
    ended_with(alloc, &words, &[], b"", devices)
}

/// Checks that the audit of the head-on log by this scenario has the worked rows.
fn audits_head_on(alloc: Global, scenario: &str) -> Result<(), Fail> {
    let ended = ended(alloc, AUDIT, scenario, HEAD_ON, SOUND)?;
    is_true(ended.out.bytes().starts_with(HEAD_ON_AUDITED))
}

/// Checks that this run has written a scenario by which the audit of the head-on log has the worked rows.
fn migrates(alloc: Global, migrated: &RunEnd) -> Result<(), Fail> {
    is(migrated.status, Status::Done)?;
    let Ok(text) = std::str::from_utf8(migrated.out.bytes()) else {
        return Err("it is a text".into());
    };
    is_true(text.contains("ticks = 40\n"))?;
    audits_head_on(alloc, text)
}

#[test]
fn a_migrated_scenario_audits_the_head_on_log_alike(rt: HostRuntime) -> Result<(), Fail> {
    let migrated = migrated(rt.alloc())?;
    migrates(rt.alloc(), &migrated)
}
