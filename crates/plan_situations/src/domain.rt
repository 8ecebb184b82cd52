//! The domain of a target.
ghost use Rattle.std.specs.Prelude.{◌≡◌, ◌≤◌, ◌<◌, ◌^◌, ◌↔◌, ℕ, false, IfSome, IsNone, IsTrue, MatchOption, pos};
ghost use Rattle.closest_approach.specs.Separation.{IsNearer, IsSeparated, nearest_of};
ghost use Rattle.encounters.specs.Directions.{HaveDirections};
ghost use Rattle.fixed_geometry.specs.Plane.{norm2_of};
ghost use Rattle.hull_domains.specs.Domains.{IsInside, StaysOutside};
ghost use Rattle.plan_situations.specs.Domains.{Enters, IsEntry};
ghost use Rattle.plan_situations.specs.Situations.{IsTarget};

use crate::situation::{Situation, Target};
use closest_approach::{Moment, entry, separated};
use encounters::PairStep;
use fixed_geometry::norm2;
use hull_domains::{Shape, enters, keeps_clear};
use motion::Step;

/// The water round a target that own ship is to stay out of: a circle. It yields to the situation's shape if there is one and the target
/// has a direction.
#[derive(Clone, Copy, PartialEq, Eq)]
pub struct Domain {
    /// Its radius, in tenths of a millimetre, below 2^31.
    pub radius: u64,
}

/// Returns the square of the change of the displacement. It is the denominator of the moment of least distance between
/// the ends of a step.
fn change2(step: &Step) -> u128
    ensures value { pos result ≡ norm2_of step.now.w }
    ensures small { result ≤ 2 ^ 53 }
{
    norm2(step.w())
}

/// Returns the moment of least distance of a step, if the vessels are nearer than the radius at some instant of it. Its
/// numbers are below 2^60, which is checked only if there is one.
fn nearest_within(step: &Step, radius: u64) -> Option<Moment>
    requires { radius < 2 ^ 31 }
    ensures none { IsNone result ↔ IsSeparated step.now radius }
    ensures moment { IfSome result (λ moment. moment ≡ nearest_of step.now 1) }
    ensures instant { IfSome result (λ moment. (moment.a ≤ moment.b) × (0 < moment.b)) }
    ensures nearer { IfSome result (λ moment. IsNearer step.now radius moment.a moment.b) }
    ensures small { IfSome result (λ moment. moment.b < 2 ^ 60) }
{
    let moment = entry(step, radius)?;
    let _change2 = change2(step);
    Some(moment)
}

/// Returns whether own ship enters a shape in a step. It stands apart, so that the search's loop over steps keeps none
/// of a moment's places.
#[inline(never)]
fn enters_shape(step: Step, direction: u16, shape: &Shape) -> bool
    requires { direction < 3600 }
    ensures outside { result ≡ false → StaysOutside step direction shape.now }
    ensures inside { IsTrue result
        → (a b : ℕ) × (a ≤ b) × (0 < b) × IsInside step direction shape.now a b }
{
    enters(&step, direction, shape).is_some()
}

impl Situation {
    /// Returns a moment of a step of both at which own ship is inside the target's domain, given by numbers below 2^60:
    /// for a shape one between the crossings of its edges, for a circle that of least distance. `None` if she is inside
    /// at no instant of the step.
    pub fn entry(&self, target: &Target, pair: &PairStep) -> Option<Moment>
        requires target { IsTarget self.now target.now }
        requires heads { HaveDirections pair.now }
        ensures { MatchOption result (¬ Enters self.now target.now pair.now)
            (IsEntry self.now target.now pair.now) }
    {
        match (&self.shape, pair.b.direction) {
            (Some(shape), Some(direction)) => enters(&pair.step, direction, shape),
            _ => nearest_within(&pair.step, target.domain.radius),
        }
    }

    /// Returns whether she enters it. The search asks this at each step: no moment is made.
    pub fn enters(&self, target: &Target, pair: &PairStep) -> bool
        requires target { IsTarget self.now target.now }
        requires heads { HaveDirections pair.now }
        ensures { IsTrue result ↔ Enters self.now target.now pair.now }
    {
        match (&self.shape, pair.b.direction) {
            (Some(shape), Some(direction)) => !keeps_clear(&pair.step, shape)
                && enters_shape(pair.step, direction, shape),
            _ => !separated(&pair.step, target.domain.radius),
        }
    }
}
