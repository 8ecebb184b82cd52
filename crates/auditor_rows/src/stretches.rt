//! Rows of stretches of marks.
use crate::compared::is;
use crate::queues::{NO_ROWS, NO_TOTALS, Step, comes_to, take_all};
use audit_rows::{Mark, MarkCounts, Row, RowQueue, Topic};
use meetings::Pair;
use out_of_memory::Memory;
use sectors::Class;
use std::alloc::Global;
use std::process::Abort;

const PAIR: Pair = Pair {
    subject: 1,
    other: 2,
};

const BACK: Pair = Pair {
    subject: 2,
    other: 1,
};

const THIRD: Pair = Pair {
    subject: 1,
    other: 3,
};

static UNDECIDED: [Step; 4] = [
    Step::Track(Topic::Verdict(PAIR, 3)),
    Step::Mark(0, 0, Mark::Broken),
    Step::Mark(0, 1, Mark::Undecided),
    Step::Mark(0, 2, Mark::Undecided),
];

#[rattlefmt::skip]
static UNDECIDED_ROWS: [Row; 2] = [
    Row::Verdict { pair: PAIR, rule: 3, undecided: false, first: 0, last: 0 },
    Row::Verdict { pair: PAIR, rule: 3, undecided: true, first: 1, last: 2 },
];

#[test]
fn undecided_to_the_end_of_a_track(rt: HostRuntime) -> Result<(), Memory> {
    comes_to(&rt, rt.alloc(), &UNDECIDED, 3, &UNDECIDED_ROWS, &NO_TOTALS)
}

#[rattlefmt::skip]
static TOGETHER: [Step; 21] = [
    Step::Track(Topic::Verdict(BACK, 0)),
    Step::Mark(0, 0, Mark::Nothing),
    Step::Mark(0, 1, Mark::Broken),
    Step::Track(Topic::Verdict(THIRD, 0)),
    Step::Mark(1, 0, Mark::Nothing),
    Step::Mark(1, 1, Mark::Broken),
    Step::Track(Topic::Verdict(PAIR, 1)),
    Step::Mark(2, 0, Mark::Nothing),
    Step::Mark(2, 1, Mark::Broken),
    Step::Track(Topic::Verdict(PAIR, 0)),
    Step::Mark(3, 0, Mark::Nothing),
    Step::Mark(3, 1, Mark::Broken),
    Step::Track(Topic::Meeting(BACK)),
    Step::Mark(4, 0, Mark::Engaged { kind: Class::HeadOn, least: 9 }),
    Step::Mark(4, 1, Mark::Engaged { kind: Class::HeadOn, least: 7 }),
    Step::Track(Topic::Meeting(THIRD)),
    Step::Mark(5, 0, Mark::Engaged { kind: Class::HeadOn, least: 9 }),
    Step::Mark(5, 1, Mark::Engaged { kind: Class::HeadOn, least: 7 }),
    Step::Track(Topic::Meeting(PAIR)),
    Step::Mark(6, 0, Mark::Engaged { kind: Class::HeadOn, least: 9 }),
    Step::Mark(6, 1, Mark::Engaged { kind: Class::HeadOn, least: 7 }),
];

#[rattlefmt::skip]
static TOGETHER_ROWS: [Row; 7] = [
    Row::Meeting { pair: PAIR, kind: Class::HeadOn, first: 0, last: 1, least: 7 },
    Row::Meeting { pair: THIRD, kind: Class::HeadOn, first: 0, last: 1, least: 7 },
    Row::Meeting { pair: BACK, kind: Class::HeadOn, first: 0, last: 1, least: 7 },
    Row::Verdict { pair: PAIR, rule: 0, undecided: false, first: 1, last: 1 },
    Row::Verdict { pair: PAIR, rule: 1, undecided: false, first: 1, last: 1 },
    Row::Verdict { pair: THIRD, rule: 0, undecided: false, first: 1, last: 1 },
    Row::Verdict { pair: BACK, rule: 0, undecided: false, first: 1, last: 1 },
];

#[test]
fn rows_that_end_together_in_their_order(rt: HostRuntime) -> Result<(), Memory> {
    comes_to(&rt, rt.alloc(), &TOGETHER, 2, &TOGETHER_ROWS, &NO_TOTALS)
}

#[rattlefmt::skip]
static OF_TWO_KINDS: [Step; 5] = [
    Step::Track(Topic::Meeting(PAIR)),
    Step::Mark(0, 0, Mark::Engaged { kind: Class::HeadOn, least: 50 }),
    Step::Mark(0, 1, Mark::Engaged { kind: Class::HeadOn, least: 30 }),
    Step::Mark(0, 2, Mark::Engaged { kind: Class::Passing, least: 90 }),
    Step::Mark(0, 3, Mark::Nothing),
];

#[rattlefmt::skip]
static OF_THE_FIRST_KIND: [Row; 1] = [
    Row::Meeting { pair: PAIR, kind: Class::HeadOn, first: 0, last: 2, least: 30 },
];

#[test]
fn kind_of_the_first_step_and_least_of_all(rt: HostRuntime) -> Result<(), Memory> {
    comes_to(
        &rt,
        rt.alloc(),
        &OF_TWO_KINDS,
        4,
        &OF_THE_FIRST_KIND,
        &NO_TOTALS,
    )
}

#[rattlefmt::skip]
static BOUNDED: [Step; 12] = [
    Step::Track(Topic::Meeting(PAIR)),
    Step::Track(Topic::Verdict(PAIR, 0)),
    Step::Mark(0, 0, Mark::Engaged { kind: Class::HeadOn, least: 5 }),
    Step::Mark(0, 1, Mark::Engaged { kind: Class::HeadOn, least: 6 }),
    Step::Mark(0, 2, Mark::Nothing),
    Step::Mark(0, 3, Mark::Nothing),
    Step::Mark(1, 0, Mark::Broken),
    Step::Mark(1, 1, Mark::Undecided),
    Step::Mark(1, 2, Mark::Nothing),
    Step::Mark(1, 3, Mark::Nothing),
    Step::Below(1, &[Row::Verdict { pair: PAIR, rule: 0, undecided: false, first: 0, last: 0 }]),
    Step::Below(2, &[
        Row::Meeting { pair: PAIR, kind: Class::HeadOn, first: 0, last: 1, least: 5 },
        Row::Verdict { pair: PAIR, rule: 0, undecided: true, first: 1, last: 1 },
    ]),
];

#[test]
fn a_row_comes_at_its_bound(rt: HostRuntime) -> Result<(), Memory> {
    comes_to(&rt, rt.alloc(), &BOUNDED, 4, &NO_ROWS, &NO_TOTALS)
}

static WITH_A_LATE_MARK: [Step; 5] = [
    Step::Track(Topic::Verdict(PAIR, 0)),
    Step::Mark(0, 0, Mark::Broken),
    Step::Mark(0, 1, Mark::Undecided),
    Step::Mark(0, 2, Mark::Nothing),
    Step::Mark(0, 3, Mark::Broken),
];

#[rattlefmt::skip]
static ALL_ROWS: [Row; 3] = [
    Row::Verdict { pair: PAIR, rule: 0, undecided: false, first: 0, last: 0 },
    Row::Verdict { pair: PAIR, rule: 0, undecided: true, first: 1, last: 1 },
    Row::Verdict { pair: PAIR, rule: 0, undecided: false, first: 3, last: 3 },
];

/// Checks the rows below step 1, and then the remaining rows if all tracks end at step 4.
fn early_and_late_are(
    rt: &impl Abort,
    alloc: Global,
    steps: &[Step],
    wanted: &[Row],
) -> Result<(), Memory> {
    let mut queue = RowQueue::new(alloc);
    take_all(rt, &mut queue, steps)?;
    let mut rows = queue.rows_below(1)?;
    queue.finish_into(4, &mut rows)?;
    is(rt, rows.as_slice(), wanted);
    Ok(())
}

#[test]
fn rows_that_are_left_stand_behind_those_before(rt: HostRuntime) -> Result<(), Memory> {
    early_and_late_are(&rt, rt.alloc(), &WITH_A_LATE_MARK, &ALL_ROWS)
}

static COUNTED: [Step; 7] = [
    Step::Track(Topic::Verdict(PAIR, 0)),
    Step::Mark(0, 0, Mark::Broken),
    Step::Mark(0, 1, Mark::Nothing),
    Step::Mark(0, 2, Mark::Undecided),
    Step::Mark(0, 3, Mark::Broken),
    Step::Mark(0, 4, Mark::Broken),
    Step::Mark(0, 5, Mark::Undecided),
];

const COUNTS: MarkCounts = MarkCounts {
    all: 6,
    nothing: 1,
    broken: 3,
    undecided: 2,
    runs: 2,
};

#[test]
fn counts_of_a_track(rt: HostRuntime) -> Result<(), Memory> {
    let mut queue = RowQueue::new(rt.alloc());
    take_all(&rt, &mut queue, &COUNTED)?;
    is(
        &rt,
        queue.counts(0, 6),
        Some((Topic::Verdict(PAIR, 0), COUNTS)),
    );
    is(&rt, queue.track_count(), 1);
    Ok(())
}
