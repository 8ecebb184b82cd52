//! Rows that a slow implementation cannot finish: values, alarms and plans that would take a plain recursion or a plain
//! search years.
use crate::logs::{HEAD_ON_NOW, ONE_TICK};
use crate::whole_run::Edit;
use crate::worked_row::{AUDIT, NOTHING, Row, Written, is_as_worked_out};
use colregs_program::Status;
use scenario_rows::HEAD_ON;
use std::test::Fail;

/// An additional formula that looks 1600 ticks ahead, through sixteen operators.
const SIXTEEN_NESTED: Edit = (
    "max_speed = 500\n",
    "max_speed = 500\n[[formula]]\nname = \"u2\"\ntext = \"G[0,100] G[0,100] G[0,100] G[0,100] G[0,100] G[0,100] G[0,100] G[0,100] G[0,100] G[0,100] G[0,100] G[0,100] G[0,100] G[0,100] G[0,100] G[0,100] seen\"\n",
);

/// Own ship's 32 courses are the same, over six legs: 32 to the sixth power plans, the greatest allowed number.
const GREATEST_LATTICE: Edit = (
    "max_speed = 500\n",
    "max_speed = 500\n[own]\nmmsi = 369190000\ncourses = [0, 0, 0, 0, 0, 0, 0, 0, 0, 0, 0, 0, 0, 0, 0, 0, 0, 0, 0, 0, 0, 0, 0, 0, 0, 0, 0, 0, 0, 0, 0, 0]\nspeeds = [0]\nlegs = 6\nleg_ticks = 6\ntail = 10\nbase = 300\nlengths = 0\nrange = 50000\n",
);

/// Own ship's domain is a hexagon, 300 m ahead and astern and 150 m abeam; she may turn to starboard by 30 or 60 degrees.
const HEXAGON: Edit = (
    "max_speed = 500\n",
    "max_speed = 500\n[own]\nmmsi = 369190000\ncourses = [0, 300, 600]\nspeeds = [0]\nlegs = 1\nleg_ticks = 30\ntail = 10\nbase = 300\nlengths = 0\nshape = [[300, 0], [150, 100], [-150, 100], [-300, 0], [-150, -100], [150, -100]]\nrange = 50000\n",
);

/// Ranks count, and both vessels are power-driven.
const RANKS: Edit = ("[rules]\n", "[rules]\nranks = 1\n");

static DEMANDING: [Row; 5] = [
    Row {
        shows: "a formula of sixteen nested operators stays open over the whole audit",
        words: AUDIT,
        edits: &[SIXTEEN_NESTED],
        log: &[HEAD_ON],
        out: Written::Ends(
            b"verdict,369190000,477553000,r14a,broken,0,0
verdict,477553000,369190000,r14a,broken,0,0
verdict,369190000,477553000,r8d,broken,18,21
verdict,477553000,369190000,r8d,broken,18,21
meeting,369190000,477553000,head_on,0,25,185200
meeting,477553000,369190000,head_on,0,25,185200
verdict,369190000,477553000,u2,open,0,39
verdict,477553000,369190000,u2,open,0,39
vessel,369190000,MT.MITCHELL,99,180,2,1
vessel,477553000,,0,0,2,1
total,r8b,80,80,0,0,0
total,r8d,80,72,8,0,2
total,r13,80,80,0,0,0
total,r14a,80,78,2,0,2
total,r14b,80,80,0,0,0
total,r14p,80,80,0,0,0
total,r15,80,80,0,0,0
total,r16,80,80,0,0,0
total,r17a,80,80,0,0,0
total,r17b,80,80,0,0,0
total,r17c,80,80,0,0,0
total,u2,80,0,0,80,0
lines,empty,0,,,,
",
            b"lines,static,1,,,,\nlines,point,4,,,,\n",
        ),
        ..NOTHING
    },
    Row {
        shows: "what stays open gives a watch no alarm",
        words: &["watch", "scenario.toml"],
        edits: &[SIXTEEN_NESTED],
        log: &[HEAD_ON],
        out: Written::Ends(
            b"alarm,369190000,477553000,r14a,0,6,
alarm,477553000,369190000,r14a,0,6,
alarm,369190000,477553000,r8d,18,18,
alarm,477553000,369190000,r8d,18,18,
alarm,369190000,477553000,r8d,19,19,
alarm,477553000,369190000,r8d,19,19,
alarm,369190000,477553000,r8d,20,20,
alarm,477553000,369190000,r8d,20,20,
alarm,369190000,477553000,r8d,21,21,
alarm,477553000,369190000,r8d,21,21,
lines,empty,0,,,,
",
            b"lines,static,1,,,,\nlines,point,4,,,,\n",
        ),
        ..NOTHING
    },
    Row {
        shows: "none of the 2^30 plans of the greatest lattice",
        words: &["plan", "scenario.toml"],
        edits: &[ONE_TICK, GREATEST_LATTICE],
        log: &[HEAD_ON_NOW],
        status: Status::NoManoeuvre,
        number: 1,
        out: Written::Ends(
            b"vessel,369190000,,0,0,1,0
vessel,477553000,,0,0,1,0
none,1073741824,,,,,
lines,empty,0,,,,
",
            b"lines,point,2,,,,\n",
        ),
        ..NOTHING
    },
    Row {
        shows: "a domain that is a hexagon",
        words: &["plan", "scenario.toml"],
        edits: &[ONE_TICK, HEXAGON],
        log: &[HEAD_ON_NOW],
        out: Written::Ends(
            b"vessel,369190000,,0,0,1,0
vessel,477553000,,0,0,1,0
plan,1,0,300,180,1,41
lines,empty,0,,,,
",
            b"lines,point,2,,,,\n",
        ),
        ..NOTHING
    },
    Row {
        shows: "two power-driven vessels give way as if ranks did not count",
        words: AUDIT,
        edits: &[RANKS],
        log: &[HEAD_ON],
        out: Written::Ends(
            b"verdict,369190000,477553000,r14a,broken,0,0
verdict,477553000,369190000,r14a,broken,0,0
verdict,369190000,477553000,r8d,broken,18,21
verdict,477553000,369190000,r8d,broken,18,21
meeting,369190000,477553000,head_on,0,25,185200
meeting,477553000,369190000,head_on,0,25,185200
vessel,369190000,MT.MITCHELL,99,180,2,1
vessel,477553000,,0,0,2,1
total,r8b,80,80,0,0,0
total,r8d,80,72,8,0,2
total,r13,80,80,0,0,0
total,r14a,80,78,2,0,2
total,r14b,80,80,0,0,0
total,r14p,80,80,0,0,0
total,r15,80,80,0,0,0
total,r16,80,80,0,0,0
total,r17a,80,80,0,0,0
total,r17b,80,80,0,0,0
total,r17c,80,80,0,0,0
total,r18,80,80,0,0,0
lines,empty,0,,,,
",
            b"lines,static,1,,,,\nlines,point,4,,,,\n",
        ),
        ..NOTHING
    },
];

#[test]
fn each_demanding_run_ends_as_it_was_worked_out(rt: HostRuntime) -> Result<(), Fail> {
    for row in &DEMANDING {
        is_as_worked_out(rt.alloc(), row)?;
    }
    Ok(())
}
