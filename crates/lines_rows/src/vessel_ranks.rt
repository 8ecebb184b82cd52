//! The ranks of vessels by their reports and by the ship types that were noted.
ghost use Rattle.std.specs.Prelude.{◌≡◌, ◌≤◌};

use crate::compared::is;
use ais_messages::PositionReport;
use fixed_geometry::Point;
use out_of_memory::Memory;
use ranks::{Rank, Ranks, gives};
use std::alloc::Global;
use tracks::Accepted;

const OWN: u32 = 369190000;

const OTHER: u32 = 477553000;

/// Returns an accepted report with a status.
fn accepted(time: u64, status: u8) -> Accepted
    ensures { result.time ≡ time }
{
    Accepted {
        time,
        point: Point { x: 0, y: 0 },
        report: PositionReport {
            kind: 1,
            mmsi: OWN,
            status,
            place: Some((0, 0)),
            sog: None,
            cog: None,
            heading: None,
            second: 0,
        },
    }
}

/// Returns the rank of a vessel with one report at second 1000, with this status.
fn rank(ranks: &Ranks, mmsi: u32, status: u8, time: u64) -> Rank
    requires { 1000 ≤ time }
{
    ranks.rank(mmsi, &[accepted(1000, status)], time)
}

#[test]
fn each_status(rt: HostRuntime) -> Result<(), Memory> {
    let mut ranks = Ranks::new(rt.alloc());
    ranks.note(OWN, 1000, 36)?;
    for status in 0..16 {
        let wanted = match status {
            2 => Rank::NotUnderCommand,
            3 => Rank::Restricted,
            7 => Rank::Fishing,
            8 | 15 => Rank::Sailing,
            _ => Rank::Power,
        };
        is(&rt, rank(&ranks, OWN, status, 1000), wanted);
    }
    Ok(())
}

/// Returns the rank at status 15 of a vessel whose type was noted.
fn rank_of_type(alloc: Global, kind: u8) -> Result<Rank, Memory> {
    let mut ranks = Ranks::new(alloc);
    ranks.note(OWN, 1000, kind)?;
    Ok(rank(&ranks, OWN, 15, 1000))
}

#[test]
fn each_ship_type(rt: HostRuntime) -> Result<(), Memory> {
    for kind in 0..=255 {
        let wanted = match kind {
            30 => Rank::Fishing,
            36 => Rank::Sailing,
            _ => Rank::Power,
        };
        is(&rt, rank_of_type(rt.alloc(), kind)?, wanted);
    }
    Ok(())
}

#[test]
fn a_type_that_comes_late_and_one_that_comes_back(rt: HostRuntime) -> Result<(), Memory> {
    let mut ranks = Ranks::new(rt.alloc());
    is(&rt, rank(&ranks, OWN, 15, 1000), Rank::Power);
    ranks.note(OWN, 2000, 30)?;
    ranks.note(OWN, 3000, 70)?;
    ranks.note(OWN, 4000, 30)?;
    for (time, wanted) in [
        (1999, Rank::Power),
        (2000, Rank::Fishing),
        (2999, Rank::Fishing),
        (3000, Rank::Power),
        (4000, Rank::Fishing),
        (9000, Rank::Fishing),
    ] {
        is(&rt, rank(&ranks, OWN, 15, time), wanted);
        is(&rt, rank(&ranks, OTHER, 15, time), Rank::Power);
    }
    Ok(())
}

#[test]
fn an_earlier_time_on_a_later_line(rt: HostRuntime) -> Result<(), Memory> {
    let mut ranks = Ranks::new(rt.alloc());
    ranks.note(OWN, 2000, 30)?;
    ranks.note(OWN, 3000, 70)?;
    ranks.note(OWN, 2500, 36)?;
    for (time, wanted) in [
        (2000, Rank::Fishing),
        (2499, Rank::Fishing),
        (2500, Rank::Sailing),
        (3000, Rank::Sailing),
    ] {
        is(&rt, rank(&ranks, OWN, 15, time), wanted);
    }
    ranks.note(OWN, 2500, 30)?;
    is(&rt, rank(&ranks, OWN, 15, 2500), Rank::Fishing);
    is(&rt, rank(&ranks, OWN, 15, 3000), Rank::Fishing);
    Ok(())
}

#[test]
fn lines_that_tell_nothing_new(rt: HostRuntime) -> Result<(), Memory> {
    let mut ranks = Ranks::new(rt.alloc());
    for time in 1000..1100 {
        ranks.note(OWN, time, 36)?;
        ranks.note(OTHER, time, 70)?;
    }
    is(&rt, ranks.changes(OWN).len(), 1);
    is(&rt, ranks.changes(OTHER).len(), 0);
    ranks.note(OWN, 900, 70)?;
    is(&rt, ranks.changes(OWN).len(), 0);
    Ok(())
}

#[test]
fn the_last_report_that_has_come(rt: HostRuntime) -> Result<(), Memory> {
    let ranks = Ranks::new(rt.alloc());
    let points = [accepted(1000, 7), accepted(1060, 0), accepted(1120, 3)];
    for (time, wanted) in [
        (1000, Rank::Fishing),
        (1059, Rank::Fishing),
        (1060, Rank::Power),
        (1119, Rank::Power),
        (1120, Rank::Restricted),
    ] {
        is(&rt, ranks.rank(OWN, &points, time), wanted);
    }
    Ok(())
}

#[test]
fn who_gives_way(rt: HostRuntime) {
    let order = [
        Rank::Power,
        Rank::Sailing,
        Rank::Fishing,
        Rank::Restricted,
        Rank::NotUnderCommand,
    ];
    for a in 0..5 {
        for b in 0..5 {
            is(&rt, gives(order[a], order[b]), a < b && a < 3);
        }
    }
}
