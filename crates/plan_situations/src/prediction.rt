//! The prediction of another vessel.
ghost use Rattle.std.specs.Prelude.{ℕ, ◌≡◌, ◌+◌, ◌-◌, ◌*◌, ◌<◌, ◌≤◌, min, IfSome, pos, ◌+ℤ◌, ◌*ℤ◌, unsigned_abs};
ghost use Rattle.ais_messages.specs.MessageFields.{IsReport};
ghost use Rattle.fixed_geometry.specs.Sizes.{IsWithin};
ghost use Rattle.motion.specs.Displacement.{displacement};
ghost use Rattle.motion.specs.TickStates.{IsTickState};
ghost use Rattle.tracks.specs.Standing.{IsAccepted};
ghost use Rattle.plan_situations.specs.Prediction.{changed_motion, predicted_state, reported_motion, velocity_by, AreChanges};
ghost use Rattle.plan_situations.specs.Inner.Runs.{gone_by, IsMotion};

use ais_messages::PositionReport;
use fixed_geometry::{Point, velocity};
use motion::TickState;
use predictions::Change;
use tracks::{Accepted, reported_direction};

/// The motion of a vessel for some time.
#[derive(Clone, Copy, PartialEq, Eq)]
pub(crate) struct Motion {
    /// Her displacement per second, in tenths of a millimetre.
    velocity: Point,
    direction: Option<u16>,
    speed: Option<u16>,
}

/// How far she has gone: where she is at a time, and how she goes on from there.
#[derive(Clone, Copy, PartialEq, Eq)]
pub(crate) struct Run {
    point: Point,
    since: u64,
    motion: Motion,
}

#[tactic(auto, unfolding(crate::specs::Prediction::velocity_by))]
fn velocity_by(course: Option<u16>, speed: Option<u16>) -> Point
    requires course { IfSome course (λ c. c < 3600) }
    requires speed { IfSome speed (λ v. v ≤ 1022) }
    ensures value { result ≡ velocity_by course speed }
    ensures slow { IsWithin 525763 result }
{
    match (course, speed) {
        (Some(course), Some(speed)) => velocity(course, speed),
        _ => Point { x: 0, y: 0 },
    }
}

#[tactic(auto, unfolding(crate::specs::Prediction::reported_motion))]
fn reported_motion(report: &PositionReport) -> Motion
    requires { IsReport report.now }
    ensures value { result ≡ reported_motion report.now }
    ensures motion { IsMotion result }
{
    Motion {
        velocity: velocity_by(report.cog, report.sog),
        direction: reported_direction(report),
        speed: report.sog,
    }
}

#[tactic(auto, unfolding(crate::specs::Prediction::changed_motion))]
fn changed_motion(change: &Change) -> Motion
    requires course { change.now.course ≤ 3599 }
    requires speed { change.now.speed ≤ 1022 }
    ensures value { result ≡ changed_motion change.now }
    ensures motion { IsMotion result }
{
    Motion {
        velocity: velocity(change.course, change.speed),
        direction: Some(change.course),
        speed: Some(change.speed),
    }
}

fn product(seconds: u64, velocity: i64) -> i64
    requires seconds { seconds ≤ 10800 }
    requires velocity { unsigned_abs velocity ≤ 525763 }
    ensures { result ≡ pos seconds *ℤ velocity }
{
    seconds as i64 * velocity
}

/// Returns one component of a vessel's displacement in this many seconds.
fn scale(velocity: i64, seconds: u64) -> i64
    requires velocity { unsigned_abs velocity ≤ 525763 }
    requires seconds { seconds ≤ 10800 }
    ensures value { result ≡ pos seconds *ℤ velocity }
    ensures small { unsigned_abs result ≤ seconds * 525763 }
{
    product(seconds, velocity)
}

/// One component of a point that has moved.
fn moved(from: i64, way: i64) -> i64
    requires from { unsigned_abs from ≤ 7900640400 }
    requires way { unsigned_abs way ≤ 7900640400 }
    ensures { result ≡ from +ℤ way }
{
    from + way
}

/// Where a vessel is after this many seconds of a velocity.
fn gone_by(point: Point, velocity: Point, seconds: u64) -> Point
    requires near { IsWithin 7900640400 point }
    requires slow { IsWithin 525763 velocity }
    requires short { seconds ≤ 10800 }
    ensures { result ≡ gone_by velocity seconds point }
{
    Point {
        x: moved(point.x, scale(velocity.x, seconds)),
        y: moved(point.y, scale(velocity.y, seconds)),
    }
}

impl Run {
    /// Returns the place at a time, if she continues as before.
    fn on_to(self, time: u64) -> Point
        requires later { self.since ≤ time }
        requires near { IsWithin 7900640400 self.point }
        requires slow { IsWithin 525763 self.motion.velocity }
        requires short { time - self.since ≤ 10800 }
        ensures { result ≡ gone_by self.motion.velocity (time - self.since) self.point }
    {
        gone_by(self.point, self.motion.velocity, time - self.since)
    }
}

/// Goes on until a change comes, or to the time of the prediction if that is before; from then on the change is in force.
fn past_change(run: Run, change: &Change, now: u64, time: u64) -> Run
    requires later { run.since ≤ now + change.now.after }
    requires not_past { run.since ≤ time }
    requires near { IsWithin 7900640400 run.point }
    requires motion { IsMotion run.motion }
    requires short { time - run.since ≤ 10800 }
    requires early { now ≤ 100000000000 }
    requires course { change.now.course ≤ 3599 }
    requires speed { change.now.speed ≤ 1022 }
    ensures since { result.since ≡ min (now + change.now.after) time }
    ensures point { result.point
        ≡ gone_by run.motion.velocity (result.since - run.since) run.point }
    ensures come { now + change.now.after ≤ time → result.motion ≡ changed_motion change.now }
    ensures to_come { time < now + change.now.after → result.motion ≡ run.motion }
    ensures motion { IsMotion result.motion }
{
    let comes = now + u64::from(change.after);
    let since = comes.min(time);
    Run {
        point: run.on_to(since),
        since,
        motion: if comes <= time {
            changed_motion(change)
        } else {
            run.motion
        },
    }
}

/// What is predicted of a vessel at a time, from her latest accepted report and the changes that are predicted of her from
/// now on: times are seconds since the Unix epoch. The time is not before the report's and at most 10,800 s after it, now is not
/// before the report and at most 10^11, and the changes are in the order of their times. From one time to a later one she moves by at
/// most 525,763 tenths of a millimetre a second in each component.
pub fn predicted(last: &Accepted, changes: &[Change], now: u64, time: u64) -> TickState
    requires accepted { IsAccepted last.now }
    requires changes { AreChanges changes.now }
    requires from { last.now.time ≤ time }
    requires to { time ≤ last.now.time + 10800 }
    requires before { last.now.time ≤ now }
    requires early { now ≤ 100000000000 }
    ensures value { result ≡ predicted_state last.now changes.now now time }
    ensures state { IsTickState 7900640400 result }
    ensures moves { (earlier : ℕ) → last.now.time ≤ earlier → earlier ≤ time
        → IsWithin ((time - earlier) * 525763)
        (displacement (predicted_state last.now changes.now now earlier).point result.point) }
{
    let mut run = Run {
        point: last.point,
        since: last.time,
        motion: reported_motion(&last.report),
    };
    for change in changes {
        run = past_change(run, change, now, time);
    }
    TickState {
        point: run.on_to(time),
        direction: run.motion.direction,
        speed: run.motion.speed,
    }
}
