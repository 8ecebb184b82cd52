//! The rows of a plan of own ship.
ghost use Rattle.std.specs.Prelude.{◌≡◌, ◌++◌, ◌<◌, ◌≤◌, ℕ, List, IfSome, OnOk};
ghost use Rattle.std.specs.Option.{option_copied};
ghost use Rattle.audit_report.specs.ReportTexts.{HasText};
ghost use Rattle.lattice.specs.Grids.{choices_of};
ghost use Rattle.lattice.specs.PlanNumbers.{IsPlan};
ghost use Rattle.audit_report.specs.PlanRows.{first_tick, last_tick, leg_rows, manoeuvre_rows};

use crate::report_row::ReportRow;
use crate::report_text::ReportText;
use lattice::{Lattice, Plan};
use out_of_memory::Memory;
use plan_situations::Ready;

/// The data that determines the rows of a plan's legs.
#[derive(Clone, Copy)]
pub struct PlannedLegs<'a> {
    /// The tick of now, at most 20,000.
    pub begin: u32,
    /// The lattice of the plan.
    pub lattice: &'a Lattice,
    /// Own ship's course and speed now.
    pub ready: Ready,
}

impl PlannedLegs<'_> {
    /// Returns the tick at which a leg begins.
    fn first_tick(&self, leg: u8) -> u32
        requires begin { self.now.begin ≤ 20000 }
        requires leg { leg ≤ 8 }
        ensures { result ≡ first_tick self.now.begin self.now.lattice.now leg }
    {
        self.begin + u32::from(leg) * self.lattice.leg_ticks()
    }

    /// Returns the tick at which a leg ends.
    fn last_tick(&self, leg: u8) -> u32
        requires begin { self.now.begin ≤ 20000 }
        requires leg { leg < self.now.lattice.now.legs }
        ensures { result ≡ last_tick self.now.begin self.now.lattice.now leg }
    {
        let legs = self.lattice.legs();
        if leg + 1 < legs {
            self.first_tick(leg + 1)
        } else {
            self.begin + self.lattice.positions()
        }
    }

    /// Writes the rows of the legs of a plan.
    fn write_plan(&self, text: &mut ReportText, plan: &Plan) -> Result<(), Memory>
        requires begin { self.now.begin ≤ 20000 }
        requires course { self.now.ready.course < 3600 }
        requires speed { self.now.ready.speed ≤ 1022 }
        requires plan { IsPlan
            (choices_of self.now.lattice.now) self.now.lattice.now.legs plan.now }
        ensures { OnOk result
            ((front : List ℕ) → HasText text.old front
            → HasText text.new
            (front ++ leg_rows self.now.begin self.now.lattice.now self.now.ready plan.now)) }
    {
        for leg in 0..self.lattice.legs() {
            text.write(&ReportRow::Plan {
                number: self.lattice.number(plan),
                leg,
                course: self.lattice.course(plan, leg, self.ready.course),
                speed: self.lattice.speed(plan, leg, self.ready.speed),
                first: self.first_tick(leg),
                last: self.last_tick(leg),
            })?;
        }
        Ok(())
    }

    /// Writes the rows of a plan, or the row that there is none.
    pub fn write(&self, text: &mut ReportText, plan: Option<&Plan>) -> Result<(), Memory>
        requires begin { self.now.begin ≤ 20000 }
        requires course { self.now.ready.course < 3600 }
        requires speed { self.now.ready.speed ≤ 1022 }
        requires plan { IfSome (option_copied plan)
            (IsPlan (choices_of self.now.lattice.now) self.now.lattice.now.legs) }
        ensures { OnOk result
            ((front : List ℕ) → HasText text.old front
            → HasText text.new
            (front ++ manoeuvre_rows self.now.begin self.now.lattice.now self.now.ready
            (option_copied plan.entry))) }
    {
        match plan {
            Some(plan) => self.write_plan(text, plan),
            None => text.write(&ReportRow::NoPlan {
                plans: self.lattice.plans(),
            }),
        }
    }
}
