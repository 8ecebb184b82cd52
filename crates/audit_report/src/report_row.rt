//! One row of a report.
use ais_messages::Text20;
use auditor::Total;
use fixed_geometry::Point;
use log_lines::LineOutcome;
use meetings::Pair;
use sectors::Class;

/// One row of a report. Names are borrowed from their owner. Distances are in 0.1 mm, times in seconds since the Unix epoch,
/// speeds in 1/10 knot, courses in 1/10 degree.
#[derive(Clone, Copy)]
pub enum ReportRow<'a> {
    /// An accepted report of a vessel.
    Point {
        mmsi: u32,
        time: u64,
        point: Point,
        speed: Option<u16>,
        course: Option<u16>,
    },
    /// A maximal stretch of steps at which two vessels are engaged.
    Meeting {
        pair: Pair,
        /// The kind at the first step.
        kind: Class,
        first: u32,
        last: u32,
        /// The least distance in all its steps.
        least: u64,
    },
    /// A maximal stretch of steps at which a rule is broken, or stays undecided.
    Verdict {
        pair: Pair,
        /// The rule's name.
        name: &'a [u8],
        undecided: bool,
        first: u32,
        last: u32,
    },
    /// A breach of a rule, reported at the first step that decides it.
    Alarm {
        pair: Pair,
        /// The rule's name.
        name: &'a [u8],
        /// The step at which the rule is broken.
        position: u32,
        /// The step that decides it.
        decided: u32,
    },
    /// A vessel in the book.
    Vessel {
        mmsi: u32,
        name: Option<&'a Text20>,
        /// The type of ship (ITU-R M.1371), 0 if unknown.
        kind: u8,
        /// Her length in metres, 0 if unknown.
        length: u32,
        /// The number of her accepted reports.
        reports: u64,
        /// The number of legs that join them.
        legs: u64,
    },
    /// The counts of a rule over all traces.
    Total {
        /// The rule's name.
        name: &'a [u8],
        total: Total,
    },
    /// The number of lines of the log with an outcome.
    Lines {
        outcome: LineOutcome,
        count: u64,
    },
    /// A leg of the plan.
    Plan {
        number: u32,
        leg: u8,
        course: u16,
        speed: u16,
        /// The tick at which the leg begins.
        first: u32,
        /// The tick at which it ends.
        last: u32,
    },
    /// All plans fail.
    NoPlan {
        plans: u32,
    },
}
