//! The vessels in contact.
ghost use Rattle.std.specs.Prelude.{◌≡◌, ◌≤◌, ◌^◌, length, IfOk};
ghost use Rattle.encounters.specs.Directions.{HasDirection};
ghost use Rattle.fixed_geometry.specs.Sizes.{IsBelow};
ghost use Rattle.traces.specs.Audited.{AreAscending, ArePlaced};

use crate::compared::is;
use fixed_geometry::Point;
use meetings::{Pair, contact};
use motion::TickState;
use out_of_memory::Memory;
use std::alloc::Global;
use std::process::Abort;
use traces::{contacts, state_of};

fn vessel(mmsi: u32, x: i32, y: i32) -> (u32, TickState)
    ensures mmsi { result.0 ≡ mmsi }
    ensures placed { IsBelow (2 ^ 33) result.1.point × HasDirection result.1 }
{
    let point = Point {
        x: i64::from(x),
        y: i64::from(y),
    };
    let state = TickState {
        point,
        direction: None,
        speed: None,
    };
    (mmsi, state)
}

/// Returns vessels at these points with the MMSIs 10, 20, 30 and so on.
fn fleet(alloc: Global, points: &[(i32, i32)]) -> Result<Vec<(u32, TickState)>, Memory>
    requires { length points.now ≤ 1000 }
    ensures ascending { IfOk result (λ seen. AreAscending seen.items) }
    ensures placed { IfOk result (λ seen. ArePlaced seen.items) }
{
    let mut seen = Vec::new(alloc);
    let mut mmsi = 0;
    for (x, y) in points {
        mmsi += 10;
        seen.push(vessel(mmsi, *x, *y))?;
    }
    Ok(seen)
}

static POINTS: [(i32, i32); 5] = [(3001, 4000), (0, 0), (3000, 4000), (-5000, 0), (-5001, 0)];

/// Checks that the vessels at the points are in contact in these pairs, at a watch distance of 5000. One vessel of a pair is a
/// subject, if there are any.
fn are_in_contact(
    rt: &impl Abort,
    alloc: Global,
    subjects: &[u32],
    wanted: &[Pair],
) -> Result<(), Memory> {
    let seen = fleet(alloc, &POINTS)?;
    let mut pairs = contacts(alloc, subjects, &seen, 5000)?;
    pairs.sort_unstable();
    is(rt, pairs.as_slice(), wanted);
    Ok(())
}

static NO_SUBJECTS: [u32; 0] = [];

#[rattlefmt::skip]
static EACH: [Pair; 4] = [
    Pair { subject: 10, other: 30 },
    Pair { subject: 20, other: 30 },
    Pair { subject: 20, other: 40 },
    Pair { subject: 40, other: 50 },
];

#[test]
fn vessels_exactly_the_watch_distance_apart_are_in_contact(rt: HostRuntime) -> Result<(), Memory> {
    are_in_contact(&rt, rt.alloc(), &NO_SUBJECTS, &EACH)
}

static SUBJECTS: [u32; 2] = [30, 50];

#[rattlefmt::skip]
static NEAR_A_SUBJECT: [Pair; 3] = [
    Pair { subject: 10, other: 30 },
    Pair { subject: 20, other: 30 },
    Pair { subject: 40, other: 50 },
];

#[test]
fn of_the_others_none_but_those_near_a_subject_are_found(rt: HostRuntime) -> Result<(), Memory> {
    are_in_contact(&rt, rt.alloc(), &SUBJECTS, &NEAR_A_SUBJECT)
}

/// Fills points from a linear congruential generator.
fn scatter(points: &mut [(i32, i32)]) {
    let mut seed: u32 = 1;
    for point in points {
        seed = seed.wrapping_mul(1664525).wrapping_add(1013904223);
        point.0 = (seed / 256) as i32;
        seed = seed.wrapping_mul(1664525).wrapping_add(1013904223);
        point.1 = (seed / 256) as i32;
    }
}

/// Returns each pair of vessels in contact, the lesser MMSI first, by comparing each vessel with each other.
fn all_against_all(
    alloc: Global,
    seen: &[(u32, TickState)],
    watch: u64,
) -> Result<Vec<Pair>, Memory>
    requires placed { ArePlaced seen.now }
    requires watch { watch ≤ 1000000000 }
{
    let mut pairs = Vec::new(alloc);
    for subject in seen {
        for other in seen {
            if subject.0 < other.0 && contact(&subject.1, &other.1, watch) {
                pairs.push(Pair {
                    subject: subject.0,
                    other: other.0,
                })?;
            }
        }
    }
    Ok(pairs)
}

/// Returns a hundred vessels.
fn scattered(alloc: Global) -> Result<Vec<(u32, TickState)>, Memory>
    ensures ascending { IfOk result (λ seen. AreAscending seen.items) }
    ensures placed { IfOk result (λ seen. ArePlaced seen.items) }
{
    let mut points = [(0, 0); 100];
    scatter(&mut points);
    fleet(alloc, &points)
}

#[test]
fn the_sweep_finds_what_all_against_all_finds(rt: HostRuntime) -> Result<(), Memory> {
    let seen = scattered(rt.alloc())?;
    let mut found = contacts(rt.alloc(), &NO_SUBJECTS, &seen, 2000000)?;
    found.sort_unstable();
    let expected = all_against_all(rt.alloc(), &seen, 2000000)?;
    is(&rt, found.as_slice(), expected.as_slice());
    let count = expected.len();
    is(&rt, (count > 100, count < 500), (true, true));
    Ok(())
}

/// Returns the point of the vessel with this MMSI, if she is seen.
fn point_of(seen: &[(u32, TickState)], mmsi: u32) -> Option<Point>
    requires { AreAscending seen.now }
{
    Some(state_of(seen, mmsi)?.point)
}

static THREE: [(i32, i32); 3] = [(1, 2), (3, 4), (5, 6)];

static SOUGHT: [(u32, Option<Point>); 6] = [
    (20, Some(Point { x: 3, y: 4 })),
    (0, None),
    (9, None),
    (11, None),
    (25, None),
    (31, None),
];

/// Checks that a search among vessels at these points finds these points.
fn are_found(
    rt: &impl Abort,
    alloc: Global,
    points: &[(i32, i32)],
    sought: &[(u32, Option<Point>)],
) -> Result<(), Memory>
    requires { length points.now ≤ 1000 }
{
    let seen = fleet(alloc, points)?;
    for (mmsi, point) in sought {
        is(rt, (*mmsi, point_of(&seen, *mmsi)), (*mmsi, *point));
    }
    Ok(())
}

#[test]
fn a_vessel_that_is_not_seen_has_no_state(rt: HostRuntime) -> Result<(), Memory> {
    are_found(&rt, rt.alloc(), &THREE, &SOUGHT)
}
