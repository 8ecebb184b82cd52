//! Published values of the plane and the compass.
use crate::compared::{is, is_true};
use fixed_geometry::{
    Point, Reference, bearing, displacement, dot, isqrt, norm2, project, relative, square, swing,
    to_port, turn, unit, velocity, within,
};
use std::test::Fail;

#[test]
fn compass_holds_the_published_sines_and_cosines(rt: HostRuntime) {
    let rows = [
        (0, 0, 1000000),
        (1, 1745, 999998),
        (225, 382683, 923880),
        (300, 500000, 866025),
        (450, 707107, 707107),
        (600, 866025, 500000),
    ];
    for (k, x, y) in rows {
        is(&rt, (k, unit(k)), (k, Point { x, y }));
    }
}

#[test]
fn longitudes_are_shortened_and_brought_round(rt: HostRuntime) -> Result<(), Fail> {
    let sixty_north = Reference::new(36000000, 0).ok_or("a reference")?;
    is(
        &rt,
        project(sixty_north, 36000000, 1000),
        Some(Point { x: 926000, y: 0 }),
    );
    let date_line = Reference::new(0, 107999900).ok_or("a reference")?;
    is(
        &rt,
        project(date_line, 0, -107999900),
        Some(Point { x: 370400, y: 0 }),
    );
    is_true(&rt, project(date_line, 1200001, 107999900).is_none());
    is(
        &rt,
        (sixty_north.lat(), date_line.lon()),
        (36000000, 107999900),
    );
    Ok(())
}

#[test]
fn velocities_are_in_tenths_of_a_millimetre_a_second(rt: HostRuntime) {
    let rows = [
        (0, 100, 0, 51444),
        (450, 100, 36377, 36377),
        (300, 180, 46300, 80194),
        (1800, 180, 0, -92600),
    ];
    for (course, speed, x, y) in rows {
        is(&rt, velocity(course, speed), Point { x, y });
    }
}

#[test]
fn bearings_are_clockwise_from_north(rt: HostRuntime) {
    let rows = [
        (1, 1, Some(450)),
        (0, -1, Some(1800)),
        (-185200, 37040000, Some(3597)),
        (0, 0, None),
    ];
    for (x, y, k) in rows {
        is(&rt, (x, y, bearing(Point { x, y })), (x, y, k));
    }
    for (direction, port) in [
        (0, false),
        (1799, false),
        (1800, false),
        (1801, true),
        (3599, true),
    ] {
        is(
            &rt,
            (direction, to_port(Point { x: 0, y: -1 }, direction)),
            (direction, Some(port)),
        );
    }
    is(&rt, relative(100, 3500), 200);
    is(&rt, swing(3500, 100), 200);
    is(&rt, swing(1800, 0), 1800);
}

#[test]
fn products_of_a_right_triangle(rt: HostRuntime) {
    let east = Point { x: 3, y: 0 };
    let north = Point { x: 0, y: 4 };
    is(&rt, dot(east, north), 0);
    is(&rt, turn(east, north), 12);
    is(&rt, isqrt(norm2(Point { x: 3, y: 4 })), 5);
}

// From (3, -4) to (-2, 8) it is 5 to the west and 12 to the north, 13 in all.
#[test]
fn displacement_and_distance_of_two_points(rt: HostRuntime) {
    let a = Point { x: 3, y: -4 };
    let b = Point { x: -2, y: 8 };
    is(&rt, displacement(a, b), Point { x: -5, y: 12 });
    is(&rt, displacement(b, a), Point { x: 5, y: -12 });
    is_true(&rt, within(a, b, 13));
    is_true(&rt, !within(a, b, 12));
    is(&rt, square(13), 169);
    is(&rt, square(10_000_000_000), 100_000_000_000_000_000_000);
}
