//! The course and the speed that a plan orders.
ghost use Rattle.std.specs.Prelude.{◌≡◌, ◌<◌, ◌≤◌, ◌+◌, ◌*◌, ◌/◌, ◌+ℤ◌, ◌-ℤ◌, pos, neg_ℤ, length, slice_index, slice_index_or, unsigned_abs};
ghost use Rattle.lattice.specs.Grids.{choices_of, positions_of};
ghost use Rattle.lattice.specs.OwnMotion.{choice_in_force, course_change, direction_by, hastened, held, leg_in_force, ordered_course, ordered_speed, speed_change, turned};
ghost use Rattle.lattice.specs.PlanNumbers.{IsPlan};

use crate::lattice::Lattice;
use crate::plan::Plan;
use fixed_geometry::swing;

/// Returns a direction in tenths of a degree after a change.
pub(crate) fn direction_by(direction: u16, change: i16) -> u16
    requires direction { direction < 3600 }
    requires change { unsigned_abs change ≤ 1800 }
    ensures value { result ≡ direction_by direction change }
    ensures below { result < 3600 }
{
    (i32::from(direction) + i32::from(change)).rem_euclid(3600) as u16
}

/// Returns a change limited to a rate in both directions.
fn limited(change: i16, rate: u16) -> i16
    requires { rate ≤ 1800 }
    ensures value { result ≡ held (neg_ℤ (pos rate)) (pos rate) change }
    ensures small { unsigned_abs result ≤ rate }
{
    let rate = rate as i16;
    change.clamp(-rate, rate)
}

/// Returns a direction after turning the short way towards another one, by at most the rate.
#[tactic(auto, unfolding(crate::specs::OwnMotion::turned))]
pub(crate) fn turned(rate: u16, direction: u16, ordered: u16) -> u16
    requires rate { rate ≤ 1800 }
    requires direction { direction < 3600 }
    requires ordered { ordered < 3600 }
    ensures value { result ≡ turned rate direction ordered }
    ensures below { result < 3600 }
{
    direction_by(direction, limited(swing(direction, ordered), rate))
}

fn difference(from: u16, to: u16) -> i16
    requires from { from ≤ 1022 }
    requires to { to ≤ 1022 }
    ensures { result ≡ pos to -ℤ pos from }
{
    to as i16 - from as i16
}

fn sum(speed: u16, change: i16) -> i16
    requires speed { speed ≤ 1022 }
    requires change { unsigned_abs change ≤ 1022 }
    ensures { result ≡ pos speed +ℤ change }
{
    speed as i16 + change
}

fn hold(speed: i16) -> u16
    ensures value { result ≡ unsigned_abs (held (pos 0) (pos 1022) speed) }
    ensures small { result ≤ 1022 }
{
    speed.clamp(0, 1022) as u16
}

/// Returns a speed in tenths of a knot after changing towards another one, by at most the rate.
#[tactic(auto, unfolding(crate::specs::OwnMotion::hastened))]
pub(crate) fn hastened(rate: u16, speed: u16, ordered: u16) -> u16
    requires rate { rate ≤ 1022 }
    requires speed { speed ≤ 1022 }
    requires ordered { ordered ≤ 1022 }
    ensures value { result ≡ hastened rate speed ordered }
    ensures small { result ≤ 1022 }
{
    sum(speed, limited(difference(speed, ordered), rate)).unsigned_abs()
}

impl Lattice {
    /// Returns the change of course that a choice makes.
    fn course_change(&self, choice: u16) -> i16
        requires { choice < choices_of self.now }
        ensures value { result ≡ course_change self.now choice }
        ensures small { unsigned_abs result ≤ 1800 }
    {
        self.courses[usize::from(choice / self.speeds.len() as u16)]
    }

    /// Returns the change of speed that a choice makes.
    fn speed_change(&self, choice: u16) -> i16
        requires { choice < choices_of self.now }
        ensures value { result ≡ speed_change self.now choice }
        ensures small { unsigned_abs result ≤ 1022 }
    {
        self.speeds[usize::from(choice % self.speeds.len() as u16)]
    }

    /// Returns the course that a choice orders.
    #[tactic(auto, unfolding(crate::specs::OwnMotion::ordered_course))]
    fn ordered_course(&self, choice: u16, course: u16) -> u16
        requires choice { choice < choices_of self.now }
        requires course { course < 3600 }
        ensures value { result ≡ ordered_course self.now choice course }
        ensures below { result < 3600 }
    {
        direction_by(course, self.course_change(choice))
    }

    /// Returns the speed that a choice orders.
    #[tactic(auto, unfolding(crate::specs::OwnMotion::ordered_speed))]
    fn ordered_speed(&self, choice: u16, speed: u16) -> u16
        requires choice { choice < choices_of self.now }
        requires speed { speed ≤ 1022 }
        ensures value { result ≡ ordered_speed self.now choice speed }
        ensures small { result ≤ 1022 }
    {
        hold(sum(speed, self.speed_change(choice)))
    }

    /// Returns the course that a plan orders in a leg, for own ship's course at now: tenths of a degree, below 3600.
    pub fn course(&self, plan: &Plan, leg: u8, course: u16) -> u16
        requires plan { IsPlan (choices_of self.now) self.now.legs plan.now }
        requires leg { leg < self.now.legs }
        requires course { course < 3600 }
        ensures value { result ≡ ordered_course self.now (slice_index plan.now leg) course }
        ensures below { result < 3600 }
    {
        self.ordered_course(plan.choices()[usize::from(leg)], course)
    }

    /// Returns the speed that a plan orders in a leg, for own ship's speed at now: tenths of a knot, at most 1022.
    pub fn speed(&self, plan: &Plan, leg: u8, speed: u16) -> u16
        requires plan { IsPlan (choices_of self.now) self.now.legs plan.now }
        requires leg { leg < self.now.legs }
        requires speed { speed ≤ 1022 }
        ensures value { result ≡ ordered_speed self.now (slice_index plan.now leg) speed }
        ensures small { result ≤ 1022 }
    {
        self.ordered_speed(plan.choices()[usize::from(leg)], speed)
    }

    /// Returns the step at which the next leg begins.
    pub(crate) fn next_leg(&self, step: u32) -> u32
        requires { step ≤ positions_of self.now }
        ensures value { result ≡ (step / self.now.leg_ticks + 1) * self.now.leg_ticks }
        ensures some { 0 < self.now.leg_ticks }
    {
        let _some = self.positions();
        (step / self.leg_ticks + 1) * self.leg_ticks
    }

    /// Returns the leg in force in a planned step.
    pub(crate) fn leg_in_force(&self, step: u32) -> u8
        ensures value { result ≡ leg_in_force self.now step }
        ensures within { result < self.now.legs }
    {
        (step / self.leg_ticks).min(u32::from(self.legs) - 1) as u8
    }
}
