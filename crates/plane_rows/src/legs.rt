//! Legs between reports, and steps.
ghost use Rattle.std.specs.Prelude.{◌≡◌, ◌+◌, ◌<◌, ◌^◌};
ghost use Rattle.motion.specs.TickStates.{IsLeg};

use crate::compared::{is, is_true};
use fixed_geometry::Point;
use motion::{Leg, Legs, Step};
use std::alloc::Global;
use std::test::Fail;

fn leg(t1: u64, p1: Point, t2: u64, p2: Point, direction: u16) -> Leg
    ensures { result ≡ record {
      t1 = t1;
      p1 = p1;
      t2 = t2;
      p2 = p2;
      direction = Some direction;
      speed = None;
    } }
{
    Leg {
        t1,
        p1,
        t2,
        p2,
        direction: Some(direction),
        speed: None,
    }
}

#[test]
fn the_later_of_two_legs_holds_the_time_at_which_they_meet(rt: HostRuntime) -> Result<(), Fail> {
    let corner = Point { x: 10, y: 0 };
    let mut legs = Legs::new(rt.alloc());
    is_true(&rt, legs.is_empty());
    legs.push(leg(0, Point { x: 0, y: 0 }, 10, corner, 900))?;
    legs.push(leg(10, corner, 20, Point { x: 10, y: 10 }, 0))?;
    is(&rt, legs.len(), 2);
    let state = legs.at(10).ok_or("a state")?;
    is(&rt, state.direction, Some(0));
    is(&rt, state.point, corner);
    is_true(&rt, legs.at(21).is_none());
    Ok(())
}

/// Returns a leg of ten seconds on which a vessel is stopped.
fn still(t1: u64) -> Leg
    requires { t1 < 2 ^ 40 }
    ensures leg { IsLeg result }
    ensures begins { result.t1 ≡ t1 }
    ensures ends { result.t2 ≡ t1 + 10 }
{
    let origin = Point { x: 0, y: 0 };
    leg(t1, origin, t1 + 10, origin, 900)
}

#[test]
fn fifty_legs_are_kept(rt: HostRuntime) -> Result<(), Fail> {
    let mut legs = Legs::new(rt.alloc());
    for k in 0..50 {
        legs.push(still(10 * k))?;
    }
    is(&rt, legs.len(), 50);
    is_true(&rt, legs.at(495).is_some());
    is_true(&rt, legs.at(501).is_none());
    Ok(())
}

#[test]
fn points_between_reports_are_rounded(rt: HostRuntime) -> Result<(), Fail> {
    let mut legs = Legs::new(rt.alloc());
    legs.push(leg(0, Point { x: 0, y: 0 }, 3, Point { x: 10, y: 0 }, 900))?;
    legs.moves_little(3600);
    let first = legs.at(1).ok_or("a state")?;
    let second = legs.at(2).ok_or("a state")?;
    is(&rt, first.point.x, 3);
    is(&rt, second.point.x, 7);
    Ok(())
}

#[test]
fn steps_are_bounded(rt: HostRuntime) -> Result<(), Fail> {
    let large = Point {
        x: 17179869184,
        y: 0,
    };
    let still = Point { x: 0, y: 0 };
    is_true(&rt, Step::new(large, still).is_none());
    let step = Step::of(
        still,
        Point { x: 3, y: 4 },
        Point { x: 1, y: 0 },
        Point { x: 3, y: 6 },
    );
    is(&rt, step.p(), Point { x: 3, y: 4 });
    is(&rt, step.w(), Point { x: -1, y: 2 });
    Ok(())
}
