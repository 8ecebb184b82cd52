//! The marks of traces, their rows and their totals.
use crate::queues::{Step, comes_to};
use audit_rows::{Mark, Row};
use auditor::Total;
use meetings::Pair;
use out_of_memory::Memory;
use sectors::Class;

const PAIR: Pair = Pair {
    subject: 1,
    other: 2,
};

const REVERSE: Pair = Pair {
    subject: 2,
    other: 1,
};

#[rattlefmt::skip]
static ONE_TRACE: [Step; 10] = [
    Step::Trace(PAIR, 1),
    Step::Mark(0, 0, Mark::Engaged { kind: Class::HeadOn, least: 300 }),
    Step::Mark(0, 1, Mark::Engaged { kind: Class::HeadOn, least: 200 }),
    Step::Mark(0, 2, Mark::Nothing),
    Step::Mark(0, 3, Mark::Engaged { kind: Class::HeadOn, least: 400 }),
    Step::Mark(1, 0, Mark::Nothing),
    Step::Mark(1, 1, Mark::Broken),
    Step::Mark(1, 2, Mark::Broken),
    Step::Below(2, &[Row::Meeting { pair: PAIR, kind: Class::HeadOn, first: 0, last: 1, least: 200 }]),
    Step::Mark(1, 3, Mark::Undecided),
];

#[rattlefmt::skip]
static LATE_ROWS: [Row; 3] = [
    Row::Verdict { pair: PAIR, rule: 0, undecided: false, first: 1, last: 2 },
    Row::Meeting { pair: PAIR, kind: Class::HeadOn, first: 3, last: 3, least: 400 },
    Row::Verdict { pair: PAIR, rule: 0, undecided: true, first: 3, last: 3 },
];

#[rattlefmt::skip]
static TOTAL: [Total; 1] = [
    Total { positions: 4, yes: 1, no: 2, undecided: 1, runs: 1 },
];

#[test]
fn a_trace_gives_its_rows_as_they_are_decided_and_its_total(rt: HostRuntime) -> Result<(), Memory> {
    comes_to(&rt, rt.alloc(), &ONE_TRACE, 4, &LATE_ROWS, &TOTAL)
}

static TWO_TRACES: [Step; 14] = [
    Step::Trace(PAIR, 2),
    Step::Trace(REVERSE, 2),
    // the meetings
    Step::Mark(0, 5, Mark::Nothing),
    Step::Mark(0, 6, Mark::Nothing),
    Step::Mark(3, 5, Mark::Nothing),
    Step::Mark(3, 6, Mark::Nothing),
    // the rules
    Step::Mark(1, 5, Mark::Broken),
    Step::Mark(1, 6, Mark::Nothing),
    Step::Mark(2, 5, Mark::Nothing),
    Step::Mark(2, 6, Mark::Nothing),
    Step::Mark(4, 5, Mark::Broken),
    Step::Mark(4, 6, Mark::Nothing),
    Step::Mark(5, 5, Mark::Undecided),
    Step::Mark(5, 6, Mark::Undecided),
];

#[rattlefmt::skip]
static ROWS: [Row; 3] = [
    Row::Verdict { pair: PAIR, rule: 0, undecided: false, first: 5, last: 5 },
    Row::Verdict { pair: REVERSE, rule: 0, undecided: false, first: 5, last: 5 },
    Row::Verdict { pair: REVERSE, rule: 1, undecided: true, first: 5, last: 6 },
];

#[rattlefmt::skip]
static TOTALS: [Total; 2] = [
    Total { positions: 4, yes: 2, no: 2, undecided: 0, runs: 2 },
    Total { positions: 4, yes: 2, no: 0, undecided: 2, runs: 0 },
];

#[test]
fn each_rule_has_one_total_over_the_traces_of_all_pairs(rt: HostRuntime) -> Result<(), Memory> {
    comes_to(&rt, rt.alloc(), &TWO_TRACES, 7, &ROWS, &TOTALS)
}
