//! Risk of collision, opening, and past and clear.
ghost use Rattle.std.specs.Prelude.{pos, ◌≡◌, ◌*◌, ◌≤◌, ◌≤ℤ◌, ◌↔◌, IsTrue};
ghost use Rattle.fixed_geometry.specs.Plane.{norm2_of};
ghost use Rattle.encounters.specs.Risk.{HasRisk, IsDetect, IsOpening, IsPastClear};

use crate::detect::Detect;
use closest_approach::enters_within;
use fixed_geometry::{dot, norm2, square};
use motion::Step;

/// Returns whether the vessels are at most `distance` apart at the step's beginning.
fn is_within(step: &Step, distance: u64) -> bool
    requires { distance ≤ 1000000000 }
    ensures { IsTrue result ↔ (norm2_of step.now.p ≤ℤ pos (distance * distance)) }
{
    norm2(step.p()) <= square(distance)
}

/// Returns whether the vessels are at least `distance` apart at the step's beginning.
fn is_beyond(step: &Step, distance: u64) -> bool
    requires { distance ≤ 1000000000 }
    ensures { IsTrue result ↔ (pos (distance * distance) ≤ℤ norm2_of step.now.p) }
{
    square(distance) <= norm2(step.p())
}

/// Returns whether there is risk of collision (Rule 7) at a step at which both are seen: the vessels are at most
/// `watch` apart, and come nearer than `risk` at some instant within the horizon if both keep course and speed.
#[inline(always)]
pub fn risk(detect: &Detect, step: &Step) -> bool
    requires { IsDetect detect.now }
    ensures { IsTrue result ↔ HasRisk detect.now step.now }
{
    if is_within(step, detect.watch) {
        enters_within(step, detect.risk, detect.horizon)
    } else {
        false
    }
}

/// Returns whether the vessels draw apart at the beginning of a step, or keep their distance.
pub fn opening(step: &Step) -> bool
    ensures { IsTrue result ↔ IsOpening step.now }
{
    dot(step.p(), step.w()) >= 0
}

/// Returns whether they are past and clear (Rule 13 (d)) at a step at which both are seen: there is no risk, and they
/// are opening and at least `clear` apart.
pub fn past_clear(detect: &Detect, step: &Step) -> bool
    requires { IsDetect detect.now }
    ensures { IsTrue result ↔ IsPastClear detect.now step.now }
{
    is_past_clear(detect, step, risk(detect, step))
}

/// Returns the same, given whether there is risk.
pub(crate) fn is_past_clear(detect: &Detect, step: &Step, risk: bool) -> bool
    requires detect { IsDetect detect.now }
    requires risk { IsTrue risk ↔ HasRisk detect.now step.now }
    ensures { IsTrue result ↔ IsPastClear detect.now step.now }
{
    if !risk && opening(step) {
        is_beyond(step, detect.clear)
    } else {
        false
    }
}
