//! The closest approach of two vessels in a step.
use crate::compared::is;
use closest_approach::{Moment, enters_within, entry, least, separated};
use fixed_geometry::Point;
use motion::Step;
use std::test::Fail;

fn step(px: i64, py: i64, wx: i64, wy: i64) -> Option<Step> {
    Step::new(Point { x: px, y: py }, Point { x: wx, y: wy })
}

#[test]
fn a_step_through_the_middle(rt: HostRuntime) -> Result<(), Fail> {
    let step = step(0, 1000, 0, -2000).ok_or("a step")?;
    let half = Some(Moment {
        a: 2000000,
        b: 4000000,
    });
    let found = (separated(&step, 1), entry(&step, 1), least(&step));
    is(&rt, found, (false, half, 0));
    Ok(())
}

#[test]
fn a_step_past_at_five(rt: HostRuntime) -> Result<(), Fail> {
    let step = step(5, -10, 0, 20).ok_or("a step")?;
    is(
        &rt,
        (separated(&step, 5), separated(&step, 6)),
        (true, false),
    );
    is(&rt, (entry(&step, 5), least(&step)), (None, 5));
    Ok(())
}

#[test]
fn a_step_of_two_that_keep_their_distance(rt: HostRuntime) -> Result<(), Fail> {
    let step = step(3, 4, 0, 0).ok_or("a step")?;
    is(
        &rt,
        (separated(&step, 5), separated(&step, 6)),
        (true, false),
    );
    is(&rt, entry(&step, 6), Some(Moment { a: 0, b: 1 }));
    Ok(())
}

#[test]
fn the_largest_step(rt: HostRuntime) -> Result<(), Fail> {
    let step = step(17179869183, 17179869183, -67108863, -67108863).ok_or("a step")?;
    let found = (least(&step), separated(&step, 2147483647));
    is(&rt, found, (24201097734, true));
    let enters = (enters_within(&step, 1, 7200), enters_within(&step, 1, 255));
    is(&rt, enters, (true, false));
    Ok(())
}
