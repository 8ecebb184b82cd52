//! The lattice of own ship's plans, and their numbers.
ghost use Rattle.std.specs.Prelude.{◌≡◌, ◌+◌, ◌-◌, ◌*◌, ◌<◌, ◌≤◌, ◌^◌, length};
ghost use Rattle.std.specs.Int.Digits.{AllBelowBase};
ghost use Rattle.lattice.specs.Grids.{choices_of, grid, plans_of, positions_of, IsGrid};
ghost use Rattle.lattice.specs.PlanNumbers.{number_of, plan_of, IsPlan};

use crate::numbers::{block_of, number_of, plan_of};
use crate::plan::Plan;
use smallvec::SmallVec;
use std::alloc::Global;
use std::marker::Model;

/// The plans for a manoeuvre: the choices of a leg, the lengths of the legs, and how fast own ship turns and changes
/// speed.
#[derive(Drop)]
pub struct Lattice {
    alloc: Global,
    pub(crate) courses: SmallVec<i16, 32>,
    pub(crate) speeds: SmallVec<i16, 16>,
    pub(crate) legs: u8,
    pub(crate) leg_ticks: u32,
    pub(crate) tail: u32,
    pub(crate) turn_rate: u16,
    pub(crate) speed_rate: u16,
}

impl Model for Lattice {
    ghost use Rattle.lattice.specs.Grids.{Grid, grid, IsGrid};

    ghost Value = { Grid };

    ghost view = { λ l.
        grid l.courses.items l.speeds.items l.legs l.leg_ticks l.tail l.turn_rate l.speed_rate };

    ghost invariant = { λ l. IsGrid
        (grid l.courses.items l.speeds.items l.legs l.leg_ticks l.tail l.turn_rate l.speed_rate) };
}

impl Lattice {
    /// Returns the lattice of these changes of course (1 to 32, each at most 1800 tenths of a degree in size) and of
    /// speed (1 to 16, each at most 1022 tenths of a knot), of 1 to 8 legs of 1 to 7200 ticks and a tail of at most
    /// 7200. Own ship turns by 1 to 1800 tenths of a degree per tick, and changes speed by 1 to 1022 tenths of a knot
    /// per tick. A lattice has at most 2^30 plans, of at most 7200 ticks.
    ///
    /// The lists are stored inline, so this takes no memory.
    pub fn new(
        alloc: Global,
        courses: &[i16],
        speeds: &[i16],
        legs: u8,
        leg_ticks: u32,
        tail: u32,
        turn_rate: u16,
        speed_rate: u16,
    ) -> Lattice
        requires { IsGrid (grid courses.now speeds.now legs leg_ticks tail turn_rate speed_rate) }
        ensures { result ≡ grid courses.now speeds.now legs leg_ticks tail turn_rate speed_rate }
    {
        Lattice {
            alloc,
            courses: SmallVec::from_slice(alloc, courses).unwrap(),
            speeds: SmallVec::from_slice(alloc, speeds).unwrap(),
            legs,
            leg_ticks,
            tail,
            turn_rate,
            speed_rate,
        }
    }

    /// Returns the number of choices of a leg, 1 to 512.
    pub fn choices(&self) -> u32
        ensures value { result ≡ choices_of self.now }
        ensures some { 1 ≤ result }
        ensures few { result ≤ 512 }
        ensures few_plans { result ^ self.now.legs ≤ 1073741824 }
    {
        self.courses.len() as u32 * self.speeds.len() as u32
    }

    /// Returns the number of legs of a plan, 1 to 8.
    pub fn legs(&self) -> u8
        ensures value { result ≡ self.now.legs }
        ensures some { 1 ≤ result }
        ensures few { result ≤ 8 }
    {
        self.legs
    }

    /// Returns the ticks of a leg, 1 to 7200; the last leg is held for the tail in addition.
    pub fn leg_ticks(&self) -> u32
        ensures value { result ≡ self.now.leg_ticks }
        ensures some { 1 ≤ result }
        ensures few { result ≤ 7200 }
    {
        self.leg_ticks
    }

    /// Returns the number of plans, at most 2^30.
    pub fn plans(&self) -> u32
        ensures value { result ≡ plans_of self.now }
        ensures few { result ≤ 1073741824 }
    {
        self.choices().pow(u32::from(self.legs))
    }

    /// Returns the ticks of a plan, 1 to 7200.
    pub fn positions(&self) -> u32
        ensures value { result ≡ positions_of self.now }
        ensures some { 1 ≤ result }
        ensures few { result ≤ 7200 }
    {
        u32::from(self.legs) * self.leg_ticks + self.tail
    }

    /// Returns the plan with this number.
    pub fn plan(&self, number: u32) -> Plan
        requires { number < plans_of self.now }
        ensures value { result ≡ plan_of (choices_of self.now) self.now.legs number }
        ensures plan { IsPlan (choices_of self.now) self.now.legs result }
    {
        plan_of(self.alloc, self.choices(), self.legs, self.plans(), number)
    }

    /// Returns the number of a plan of this lattice: its choices are the digits, the first leg's the highest.
    pub fn number(&self, plan: &Plan) -> u32
        requires { IsPlan (choices_of self.now) self.now.legs plan.now }
        ensures value { result ≡ number_of (choices_of self.now) plan.now }
        ensures within { result < plans_of self.now }
    {
        number_of(self.choices(), plan.choices())
    }

    /// Returns the block of a prefix, the choices of the first legs: the number of the first plan that extends it, and
    /// the number after the last one. The plans that extend it have the consecutive numbers between.
    pub fn block(&self, prefix: &[u16]) -> (u32, u32)
        requires few { length prefix.now ≤ self.now.legs }
        requires below { AllBelowBase (choices_of self.now) prefix.now }
        ensures first { result.0
            ≡ number_of (choices_of self.now) prefix.now
            * choices_of self.now ^ (self.now.legs - length prefix.now) }
        ensures behind { result.1
            ≡ (number_of (choices_of self.now) prefix.now + 1)
            * choices_of self.now ^ (self.now.legs - length prefix.now) }
        ensures some { result.0 < result.1 }
        ensures within { result.1 ≤ plans_of self.now }
    {
        block_of(self.choices(), self.legs, prefix)
    }
}
