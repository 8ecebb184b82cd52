//! Worked plans and motions.
use crate::compared::is;
use fixed_geometry::Point;
use lattice::Lattice;
use lattice::laws::{numbers_and_plans_are_inverse, orders_are_taken_at_once};
use motion::TickState;
use std::process::Abort;
use std::test::Fail;

const NORTHWARD: TickState = TickState {
    point: Point { x: 0, y: 0 },
    direction: Some(0),
    speed: Some(180),
};

/// Checks that the plan of a number makes these choices, and has this number.
fn is_plan(rt: &impl Abort, lattice: &Lattice, number: u32, choices: &[u16]) -> Result<(), Fail> {
    if number >= lattice.plans() {
        return Err("no such plan".into());
    }
    let plan = lattice.plan(number);
    is(rt, plan.choices(), choices);
    is(rt, lattice.number(&plan), number);
    Ok(())
}

/// Returns the course and the speed that the plan of a number orders in a leg, given those of now.
fn ordered(lattice: &Lattice, number: u32, leg: u8, now: (u16, u16)) -> Option<(u16, u16)> {
    let (course, speed) = now;
    if number >= lattice.plans() || leg >= lattice.legs() || course >= 3600 || speed > 1022 {
        return None;
    }
    let plan = lattice.plan(number);
    let course = lattice.course(&plan, leg, course);
    Some((course, lattice.speed(&plan, leg, speed)))
}

#[test]
fn numbers_of_plans(rt: HostRuntime) -> Result<(), Fail> {
    let lattice = Lattice::new(
        rt.alloc(),
        &[0, 300, -600],
        &[0, -50],
        2,
        30,
        10,
        1800,
        1022,
    );
    let counts = (lattice.choices(), lattice.plans(), lattice.positions());
    is(&rt, counts, (6, 36, 70));
    is(&rt, (lattice.legs(), lattice.leg_ticks()), (2, 30));
    // The plans whose first choice is 1 have the numbers 6 to 11.
    is(&rt, lattice.block(&[1]), (6, 12));
    numbers_and_plans_are_inverse(&lattice);
    is(&rt, ordered(&lattice, 11, 0, (500, 180)), Some((500, 130)));
    is(&rt, ordered(&lattice, 11, 1, (500, 20)), Some((3500, 0)));
    // 11 is 15 in base 6.
    is_plan(&rt, &lattice, 11, &[1, 5])
}

/// Returns own ship's state this many ticks of 10 seconds after now, if the lattice has such a plan and this many
/// ticks.
fn state_after(lattice: &Lattice, number: u32, ticks: u32) -> Option<TickState> {
    let positions = lattice.positions();
    if number >= lattice.plans() || ticks > positions || positions > 100 {
        return None;
    }
    Some(lattice.own_motion(&NORTHWARD, &lattice.plan(number), 10, ticks))
}

fn state(x: i64, y: i64, direction: u16, speed: u16) -> Option<TickState> {
    Some(TickState {
        point: Point { x, y },
        direction: Some(direction),
        speed: Some(speed),
    })
}

#[test]
fn a_turn_at_a_rate(rt: HostRuntime) {
    let lattice = Lattice::new(rt.alloc(), &[300], &[0], 1, 30, 10, 100, 1022);
    let after = state_after(&lattice, 0, 1);
    is(&rt, after, state(160_800, 911_930, 200, 180));
}

#[test]
fn a_turn_at_once(rt: HostRuntime) {
    let lattice = Lattice::new(rt.alloc(), &[0, 300, 600], &[0], 1, 30, 10, 1800, 1022);
    orders_are_taken_at_once(&lattice);
    // Against a vessel that comes south at 18 knots the relative move is (-463000, -1727940).
    let after = state_after(&lattice, 1, 1);
    is(&rt, after, state(463_000, 801_940, 300, 180));
}

#[test]
fn the_last_leg_is_held(rt: HostRuntime) {
    let lattice = Lattice::new(rt.alloc(), &[0, 900], &[0, 22], 2, 2, 1, 1800, 11);
    // Two ticks to the north at 18 knots, then three to the east at 19.1, 20.2 and 20.2: 98,259 and 103,918 per second.
    for (ticks, after) in [
        (1, state(0, 926_000, 0, 180)),
        (2, state(0, 1_852_000, 900, 191)),
        (5, state(3_060_950, 1_852_000, 900, 202)),
    ] {
        is(&rt, state_after(&lattice, 3, ticks), after);
    }
}
