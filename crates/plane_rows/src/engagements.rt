//! Engagements, and alterations since their start.
ghost use Rattle.std.specs.Prelude.{◌<◌, IfSome};
ghost use Rattle.encounters.specs.Directions.{HasDirection, HaveDirections};

use crate::compared::{is, is_true};
use crate::numbers::{ACT, DETECT};
use encounters::{
    Changes, Engagement, EngagementState, PairStep, changes_since, opening, past_clear, risk,
};
use fixed_geometry::Point;
use motion::{Step, TickState};
use mtl_formulas::Verdict;
use sectors::{Class, class_of};
use std::test::Fail;

fn state(direction: Option<u16>, speed: Option<u16>) -> TickState
    requires { IfSome direction (λ d. d < 3600) }
    ensures { HasDirection result }
{
    TickState {
        point: Point { x: 0, y: 0 },
        direction,
        speed,
    }
}

/// Returns a step in which both head north, A faster by 100 metres per tick.
fn northward(p: Point) -> Option<PairStep>
    ensures { IfSome result HaveDirections }
{
    let step = Step::new(
        p,
        Point {
            x: 0,
            y: -1_000_000,
        },
    )?;
    Some(PairStep {
        step,
        a: state(Some(0), Some(200)),
        b: state(Some(0), Some(100)),
    })
}

#[test]
fn an_overtaking_vessel_does_not_become_a_crossing_one(rt: HostRuntime) -> Result<(), Fail> {
    let mut engagement = Engagement::new(DETECT);
    for age in 0..20 {
        let y = 20_000_000 - 1_000_000 * i64::from(age);
        let pair = northward(Point { x: -3_000_000, y }).ok_or("a step")?;
        is(
            &rt,
            engagement.step(Some(&pair)),
            EngagementState::Engaged {
                kind: Class::Overtaking,
                age,
                a: pair.a,
                b: pair.b,
            },
        );
    }
    let last = northward(Point {
        x: -3_000_000,
        y: 1_000_000,
    })
    .ok_or("a step")?;
    is(
        &rt,
        class_of(&last.step, Some(0), Some(0), &DETECT.angles),
        Class::CrossingStands,
    );
    is(&rt, engagement.step(None), EngagementState::Apart);
    Ok(())
}

#[test]
fn steps_that_are_taken_in_place(rt: HostRuntime) -> Result<(), Fail> {
    let pair = northward(Point {
        x: -3_000_000,
        y: 20_000_000,
    })
    .ok_or("a step")?;
    let mut engagement = Engagement::new(DETECT);
    is(&rt, *engagement.latest(), EngagementState::Apart);
    is_true(&rt, engagement.take(Some(&pair)));
    is(
        &rt,
        *engagement.latest(),
        EngagementState::Engaged {
            kind: Class::Overtaking,
            age: 0,
            a: pair.a,
            b: pair.b,
        },
    );
    is_true(&rt, !engagement.take(None));
    is(&rt, *engagement.latest(), EngagementState::Apart);
    Ok(())
}

/// Whether there is risk, whether the two open, and whether A is past and clear, if she is this far north of B.
#[test]
fn risk_until_past_and_clear(rt: HostRuntime) -> Result<(), Fail> {
    for (x, y, risks, opens, clear) in [
        (-3_000_000, 20_000_000, true, false, false),
        (-6_000_000, -5_000_000, false, true, false),
        (-6_000_000, -8_000_000, false, true, true),
    ] {
        let step = northward(Point { x, y }).ok_or("a step")?.step;
        let found = (
            risk(&DETECT, &step),
            opening(&step),
            past_clear(&DETECT, &step),
        );
        is(&rt, (y, found), (y, (risks, opens, clear)));
    }
    Ok(())
}

#[test]
fn alterations_since_the_beginning(rt: HostRuntime) {
    let since = EngagementState::Engaged {
        kind: Class::HeadOn,
        age: 3,
        a: state(Some(1800), Some(120)),
        b: state(None, Some(100)),
    };
    let half_a_turn = state(Some(0), Some(120));
    let faster = state(None, Some(150));
    let changes = changes_since(&ACT, &since, &half_a_turn, &faster);
    is(
        &rt,
        changes,
        Changes {
            alters: Verdict::Yes,
            apparent: Verdict::Yes,
            to_starboard: Verdict::Yes,
            to_port: Verdict::No,
            other_apparent: Verdict::Yes,
        },
    );
    let unknown = state(None, Some(125));
    let changes = changes_since(&ACT, &since, &unknown, &half_a_turn);
    is(
        &rt,
        changes,
        Changes {
            alters: Verdict::Open,
            apparent: Verdict::Open,
            to_starboard: Verdict::Open,
            to_port: Verdict::Open,
            other_apparent: Verdict::Open,
        },
    );
    is(
        &rt,
        changes_since(&ACT, &EngagementState::Apart, &unknown, &faster).alters,
        Verdict::No,
    );
}
