//! Classes of encounters.
ghost use Rattle.std.specs.Prelude.{◌<◌, IfSome};

use crate::compared::is;
use fixed_geometry::Point;
use motion::Step;
use sectors::{Angles, Class, class_of};
use std::test::Fail;

const ANGLES: Angles = Angles {
    doubt: 0,
    ahead: 60,
    reciprocal: 60,
};

fn class(p: (i64, i64), w: (i64, i64), a: Option<u16>, b: Option<u16>) -> Option<Class>
    requires a { IfSome a (λ d. d < 3600) }
    requires b { IfSome b (λ d. d < 3600) }
{
    let step = Step::new(Point { x: p.0, y: p.1 }, Point { x: w.0, y: w.1 })?;
    Some(class_of(&step, a, b, &ANGLES))
}

#[test]
fn twenty_two_and_a_half_degrees_abaft_the_beam(rt: HostRuntime) {
    let w = (0, -1000);
    let rows = [
        ((-1000000, 414214), Class::CrossingStands),
        ((-1000000, 416300), Class::Overtaking),
    ];
    for (p, answer) in rows {
        is(&rt, class(p, w, Some(0), Some(0)), Some(answer));
    }
}

#[test]
fn stern_to_stern_each_overtakes(rt: HostRuntime) {
    is(
        &rt,
        class((0, -1000), (0, 100), Some(0), Some(1800)),
        Some(Class::Overtaking),
    );
    is(
        &rt,
        class((0, 1000), (0, -100), Some(1800), Some(0)),
        Some(Class::Overtaking),
    );
}

#[test]
fn each_class_comes(rt: HostRuntime) {
    let north = Some(0);
    let south = Some(1800);
    let rows = [
        ((0, -1000000), (0, 1000), north, north, Class::Overtaken),
        ((0, 1000000), (0, -2000), north, south, Class::HeadOn),
        (
            (1000000, 1000000),
            (-1000, -1000),
            north,
            Some(2700),
            Class::CrossingGives,
        ),
        (
            (-1000000, 1000000),
            (1000, -1000),
            north,
            Some(900),
            Class::CrossingStands,
        ),
        ((0, -1000000), (0, -2000), north, south, Class::Passing),
        ((0, 1000000), (0, -2000), north, None, Class::Unclassified),
        ((0, 0), (0, -2000), north, south, Class::Unclassified),
    ];
    for (p, w, a, b, answer) in rows {
        is(&rt, class(p, w, a, b), Some(answer));
    }
}
