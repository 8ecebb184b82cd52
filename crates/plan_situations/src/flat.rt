//! The plans one after the other, each over its whole trace: the plain program.
ghost use Rattle.std.specs.Prelude.{◌↔◌, IfOk, IsTrue, MatchOption};
ghost use Rattle.lattice.specs.Grids.{choices_of};
ghost use Rattle.lattice.specs.PlanNumbers.{IsPlan};
ghost use Rattle.plan_situations.specs.FailingPlans.{Fails, FailsTowards};
ghost use Rattle.plan_situations.specs.LeastPlans.{AllFail, IsLeastPlan};
ghost use Rattle.plan_situations.specs.Situations.{end_of, IsSituation, IsTarget};

use crate::situation::{Situation, Target};
use lattice::Plan;
use out_of_memory::Memory;
use std::alloc::Global;

impl Situation {
    /// Returns whether a plan fails towards a target.
    fn fails_towards(&self, alloc: Global, plan: &Plan, target: &Target) -> Result<bool, Memory>
        requires situation { IsSituation self.now }
        requires plan { IsPlan (choices_of self.now.lattice) self.now.lattice.legs plan.now }
        requires target { IsTarget self.now target.now }
        ensures { IfOk result
            (λ fails. IsTrue fails ↔ FailsTowards self.now plan.now (end_of self.now) target.now) }
    {
        let end = self.end();
        let entry = self.entered(alloc, plan, target, end)?;
        if entry.is_some() {
            return Ok(true);
        }
        let broken = self.newly_broken(alloc, plan, target, end)?;
        Ok(broken.is_some())
    }

    /// Returns whether a plan fails.
    fn fails(&self, alloc: Global, plan: &Plan) -> Result<bool, Memory>
        requires situation { IsSituation self.now }
        requires plan { IsPlan (choices_of self.now.lattice) self.now.lattice.legs plan.now }
        ensures { IfOk result (λ fails. IsTrue fails ↔ Fails self.now plan.now) }
    {
        for target in self.targets.as_slice() {
            if self.fails_towards(alloc, plan, target)? {
                return Ok(true);
            }
        }
        Ok(false)
    }
}

/// Returns the lowest-numbered plan that does not fail, or `None` if every plan fails: it tries the plans one after the
/// other, each over its whole trace.
pub fn least_plan(alloc: Global, situation: &Situation) -> Result<Option<Plan>, Memory>
    requires { IsSituation situation.now }
    ensures { IfOk result
        (λ answer. MatchOption answer (AllFail situation.now) (IsLeastPlan situation.now)) }
{
    for number in 0..situation.lattice.plans() {
        let plan = situation.lattice.plan(number);
        if !situation.fails(alloc, &plan)? {
            return Ok(Some(plan));
        }
    }
    Ok(None)
}
