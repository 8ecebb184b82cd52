//! Audits with ranks.
use crate::audits::{BACK, Encounter, HEAD_ON_ROWS, OWN, PAIR, audited, totals_behind};
use crate::compared::is;
use crate::queues::NO_ROWS;
use audit_rows::Row;
use auditor::{AuditFault, Total};
use out_of_memory::Memory;
use ranks::Rank;
use sectors::Class;
use std::alloc::Global;
use std::process::Abort;

/// Returns the number of positions that broke `r18`, the last of the twelve rules.
fn broken_by_rank(totals: &[Total]) -> Option<u64> {
    Some(totals.get(11)?.no)
}

/// Checks that these are the rows of 40 ticks, that the end returns none, and the number of positions that broke the
/// last of twelve rules.
fn comes_to(
    rt: &impl Abort,
    alloc: Global,
    encounter: &Encounter,
    rows: &[(u32, Row)],
    broken: u64,
) -> Result<(), AuditFault> {
    let totals = totals_behind(rt, alloc, encounter, 40, rows, &NO_ROWS)?;
    let found = (totals.len(), broken_by_rank(&totals));
    is(rt, found, (12, Some(broken)));
    Ok(())
}

const POWER: &[Rank] = &[Rank::Power, Rank::Power];

const FISHING: &[Rank] = &[Rank::Power, Rank::Fishing];

static FISHES: Encounter = Encounter {
    still: false,
    first: FISHING,
    later: FISHING,
};

#[rattlefmt::skip]
static FISHES_ROWS: [(u32, Row); 7] = [
    (8, Row::Verdict { pair: PAIR, rule: 7, undecided: false, first: 0, last: 0 }),
    (29, Row::Verdict { pair: PAIR, rule: 1, undecided: false, first: 18, last: 21 }),
    (29, Row::Verdict { pair: PAIR, rule: 11, undecided: false, first: 18, last: 21 }),
    (29, Row::Verdict { pair: BACK, rule: 1, undecided: false, first: 18, last: 21 }),
    (29, Row::Verdict { pair: BACK, rule: 9, undecided: false, first: 19, last: 21 }),
    (33, Row::Meeting { pair: PAIR, kind: Class::HeadOn, first: 0, last: 25, least: 185_200 }),
    (33, Row::Meeting { pair: BACK, kind: Class::HeadOn, first: 0, last: 25, least: 185_200 }),
];

/// A power-driven vessel keeps out of the way of a vessel engaged in fishing, and may pass to port of her (Rule 18
/// (a)).
#[test]
fn head_on_with_a_vessel_that_fishes(rt: HostRuntime) -> Result<(), AuditFault> {
    comes_to(&rt, rt.alloc(), &FISHES, &FISHES_ROWS, 4)
}

static BEGINS_TO_FISH: Encounter = Encounter {
    still: false,
    first: POWER,
    later: FISHING,
};

/// Her rank at the start of the engagement counts, so both stay power-driven, as without ranks.
#[test]
fn a_vessel_that_begins_to_fish_during_an_engagement(rt: HostRuntime) -> Result<(), AuditFault> {
    comes_to(&rt, rt.alloc(), &BEGINS_TO_FISH, &HEAD_ON_ROWS, 0)
}

/// Returns the verdicts on the first vessel in these rows: the rule of each, and its first and last step.
fn own_verdicts(alloc: Global, rows: &[(u32, Row)]) -> Result<Vec<(u32, u32, u32)>, Memory> {
    let mut own = Vec::new(alloc);
    for (_, row) in rows {
        if let Row::Verdict {
            pair,
            rule,
            first,
            last,
            ..
        } = row
        {
            if pair.subject == OWN {
                own.push((*rule, *first, *last))?;
            }
        }
    }
    Ok(own)
}

static OVERTAKES: Encounter = Encounter {
    still: true,
    first: FISHING,
    later: FISHING,
};

static OVERTAKES_VERDICTS: [(u32, u32, u32); 3] = [(7, 0, 0), (1, 17, 22), (2, 17, 22)];

/// Returns the verdicts on the first vessel in 40 ticks, and the number of positions that broke the last rule.
fn verdicts_on_own(
    alloc: Global,
    encounter: &Encounter,
) -> Result<(Vec<(u32, u32, u32)>, Option<u64>), AuditFault> {
    let mut rows = Vec::new(alloc);
    let end = audited(alloc, encounter, 40, &mut rows)?;
    let own = own_verdicts(alloc, rows.as_slice())?;
    Ok((own, broken_by_rank(&end.totals)))
}

/// Whatever the ranks, an overtaking vessel keeps out of the way by Rule 13 and not by Rule 18. She is within 200 metres of the other
/// while she is less than 199.1 metres short of her or past her: at 92.6 metres a tick, in the steps 17 to 22.
#[test]
fn a_vessel_that_fishes_is_overtaken(rt: HostRuntime) -> Result<(), AuditFault> {
    let (own, broken) = verdicts_on_own(rt.alloc(), &OVERTAKES)?;
    is(&rt, own.as_slice(), OVERTAKES_VERDICTS.as_slice());
    is(&rt, broken, Some(0));
    Ok(())
}
