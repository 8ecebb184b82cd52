//! Hexagonal domains that turn with a vessel.
ghost use Rattle.std.specs.Prelude.{◌<◌};

use crate::compared::{is, is_true};
use closest_approach::Moment;
use fixed_geometry::{Point, unit};
use hull_domains::{Shape, enters, inside};
use motion::Step;
use std::test::Fail;

/// As long ahead as aft.
const EVEN: [(i32, i32); 6] = [
    (300, 0),
    (150, 100),
    (-150, 100),
    (-300, 0),
    (-150, -100),
    (150, -100),
];

/// Longer ahead than aft.
const LONG_AHEAD: [(i32, i32); 6] = [
    (300, 0),
    (150, 100),
    (-50, 100),
    (-100, 0),
    (-50, -100),
    (150, -100),
];

/// A domain, the displacement to the target at a step's beginning and its change, her direction, and the moment of the entry.
type Row = ([(i32, i32); 6], (i64, i64), (i64, i64), u16, Option<Moment>);

const HALF_WAY: Moment = Moment { a: 1, b: 2 };

const ROWS: [Row; 6] = [
    // along an edge
    (EVEN, (-1_000_000, -2_000_000), (0, 4_000_000), 0, None),
    // at rest 250 m ahead of her, and then the same distance aft of her
    (LONG_AHEAD, (0, -2_500_000), (0, 0), 0, Some(HALF_WAY)),
    (LONG_AHEAD, (0, -2_500_000), (0, 0), 1800, None),
    // at rest 250 m to the east of a vessel that heads north, and of one that heads east
    (EVEN, (-2_500_000, 0), (0, 0), 0, None),
    (EVEN, (-2_500_000, 0), (0, 0), 900, Some(HALF_WAY)),
    // two miles away
    (EVEN, (-37_040_000, 0), (0, 0), 900, None),
];

fn step(p: (i64, i64), w: (i64, i64)) -> Option<Step> {
    Step::new(Point { x: p.0, y: p.1 }, Point { x: w.0, y: w.1 })
}

#[test]
fn a_domain_is_entered_as_it_turns(rt: HostRuntime) -> Result<(), Fail> {
    for (vertices, p, w, direction, wanted) in &ROWS {
        let shape = Shape::new(vertices).ok_or("a shape")?;
        let step = step(*p, *w).ok_or("a step")?;
        is(&rt, enters(&step, *direction, &shape), *wanted);
    }
    Ok(())
}

#[test]
fn a_metre_inside_an_edge_is_half_way_through_in_the_middle(rt: HostRuntime) -> Result<(), Fail> {
    let shape = Shape::new(&EVEN).ok_or("a shape")?;
    let step = step((-990_000, -2_000_000), (0, 4_000_000)).ok_or("a step")?;
    let moment = enters(&step, 0, &shape).ok_or("an entry")?;
    is(&rt, moment.b - moment.a, moment.a);
    is_true(&rt, inside(&step, 0, &shape, &moment));
    is_true(&rt, !inside(&step, 0, &shape, &Moment { a: 0, b: 1 }));
    Ok(())
}

#[test]
fn vertices_in_the_contrary_order_are_no_shape(rt: HostRuntime) {
    let [a, b, c, d, e, f] = EVEN;
    is(&rt, Shape::new(&[f, e, d, c, b, a]), None);
}

/// Returns the side of an edge on which a place is, given its distances forward and to starboard of the target in units
/// of 10^-10 m: negative inside.
fn side_of(from: (i32, i32), to: (i32, i32), forward: i128, starboard: i128) -> i128 {
    let along = (
        i128::from(to.0).wrapping_sub(i128::from(from.0)),
        i128::from(to.1).wrapping_sub(i128::from(from.1)),
    );
    let ahead = forward.wrapping_sub(i128::from(from.0).wrapping_mul(10_000_000_000));
    let aside = starboard.wrapping_sub(i128::from(from.1).wrapping_mul(10_000_000_000));
    let turned = along.1.wrapping_mul(ahead);
    turned.wrapping_sub(along.0.wrapping_mul(aside))
}

/// Returns whether own ship is inside at a displacement to the target, edge by edge.
fn is_inside_there(vertices: &[(i32, i32); 6], direction: u16, to_target: Point) -> bool
    requires { direction < 3600 }
{
    let ahead = unit(direction);
    let (east, north) = (i128::from(to_target.x), i128::from(to_target.y));
    let (x, y) = (i128::from(ahead.x), i128::from(ahead.y));
    let forward = east.wrapping_mul(x).wrapping_add(north.wrapping_mul(y));
    let starboard = east.wrapping_mul(y).wrapping_sub(north.wrapping_mul(x));
    for k in 0..6 {
        let side = side_of(
            vertices[k],
            vertices[(k + 1) % 6],
            forward.wrapping_neg(),
            starboard.wrapping_neg(),
        );
        if side >= 0 {
            return false;
        }
    }
    true
}

/// Returns the number of instants, of 41 evenly spaced over a step, at which own ship is inside; she moves by 40 times
/// the second displacement.
fn instants_inside(vertices: &[(i32, i32); 6], direction: u16, p: (i64, i64), w: (i64, i64)) -> u32
    requires { direction < 3600 }
{
    let mut many = 0_u32;
    for k in 0..41_u32 {
        let k = i64::from(k);
        let there = Point {
            x: p.0.wrapping_add(w.0.wrapping_mul(k)),
            y: p.1.wrapping_add(w.1.wrapping_mul(k)),
        };
        if is_inside_there(vertices, direction, there) {
            many = many.saturating_add(1);
        }
    }
    many
}

/// Own ship goes 600 m to the north, 160 m to the west of a target at rest: a domain that is long ahead blocks her if
/// it points to the west, but not if it points to the north.
#[test]
fn each_direction_turns_a_domain(rt: HostRuntime) -> Result<(), Fail> {
    let shape = Shape::new(&LONG_AHEAD).ok_or("a shape")?;
    let step = step((1_600_000, 3_000_000), (0, -6_000_000)).ok_or("a step")?;
    let mut entered = 0_u32;
    for direction in 0..3600_u16 {
        let many = instants_inside(
            &LONG_AHEAD,
            direction,
            (1_600_000, 3_000_000),
            (0, -150_000),
        );
        let moment = enters(&step, direction, &shape);
        if many > 0 {
            is_true(&rt, moment.is_some());
        }
        if let Some(moment) = moment {
            entered = entered.saturating_add(1);
            is_true(&rt, inside(&step, direction, &shape, &moment));
        }
    }
    is_true(&rt, entered > 600 && entered < 1800);
    is(&rt, enters(&step, 0, &shape), None);
    is_true(&rt, enters(&step, 2700, &shape).is_some());
    Ok(())
}
