//! Each kind of row as text, by the worked reports.
use crate::compared::is;
use audit_report::{ReportRow, row_bytes};
use auditor::Total;
use fixed_geometry::Point;
use log_lines::LineOutcome;
use meetings::Pair;
use out_of_memory::Memory;
use sectors::Class;
use std::alloc::Global;
use std::process::Abort;

const PAIR: Pair = Pair {
    subject: 369190000,
    other: 477553000,
};

const ROWS: [(ReportRow<'static>, &str); 9] = [
    (
        ReportRow::Point {
            mmsi: 477553000,
            time: 1700000000,
            point: Point { x: 0, y: -185200 },
            speed: Some(0),
            course: None,
        },
        "point,477553000,1700000000,0,-185200,0,\n",
    ),
    (
        ReportRow::Meeting {
            pair: PAIR,
            kind: Class::HeadOn,
            first: 0,
            last: 25,
            least: 185200,
        },
        "meeting,369190000,477553000,head_on,0,25,185200\n",
    ),
    (
        ReportRow::Verdict {
            pair: PAIR,
            name: b"r8d",
            undecided: false,
            first: 18,
            last: 21,
        },
        "verdict,369190000,477553000,r8d,broken,18,21\n",
    ),
    (
        ReportRow::Alarm {
            pair: PAIR,
            name: b"r14a",
            position: 0,
            decided: 6,
        },
        "alarm,369190000,477553000,r14a,0,6,\n",
    ),
    (
        ReportRow::Vessel {
            mmsi: 477553000,
            name: None,
            kind: 0,
            length: 0,
            reports: 2,
            legs: 1,
        },
        "vessel,477553000,,0,0,2,1\n",
    ),
    (
        ReportRow::Total {
            name: b"r14a",
            total: Total {
                positions: 80,
                yes: 78,
                no: 2,
                undecided: 0,
                runs: 2,
            },
        },
        "total,r14a,80,78,2,0,2\n",
    ),
    (
        ReportRow::Lines {
            outcome: LineOutcome::NotShip,
            count: 1,
        },
        "lines,notship,1,,,,\n",
    ),
    (
        ReportRow::Plan {
            number: 1,
            leg: 0,
            course: 300,
            speed: 180,
            first: 1,
            last: 41,
        },
        "plan,1,0,300,180,1,41\n",
    ),
    (ReportRow::NoPlan { plans: 1 }, "none,1,,,,,\n"),
];

/// Checks that each row is written as the text next to it.
fn are_written(
    rt: &impl Abort,
    alloc: Global,
    rows: &[(ReportRow<'_>, &str)],
) -> Result<(), Memory> {
    for (row, text) in rows {
        let bytes = row_bytes(alloc, row)?;
        is(rt, bytes.as_slice(), text.as_bytes());
    }
    Ok(())
}

#[test]
fn rows_of_the_worked_reports(rt: HostRuntime) -> Result<(), Memory> {
    are_written(&rt, rt.alloc(), &ROWS)
}
