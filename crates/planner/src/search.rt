//! The search over all plans.
ghost use Rattle.std.specs.Prelude.{◌≡◌, IfOk, MatchOption};
ghost use Rattle.plan_situations.specs.LeastPlans.{AllFail, IsLeastPlan};
ghost use Rattle.plan_situations.specs.Situations.{IsSituation};

use crate::explore::explore;
use crate::walk::Walk;
use lattice::Plan;
use out_of_memory::Memory;
use plan_situations::Situation;
use std::alloc::Global;

/// The search for the lowest-numbered plan that does not fail: a walk that stops at the first one. It holds all places that it needs.
#[derive(Drop)]
pub struct Search {
    situation: Situation,
    walk: Walk,
}

impl Search {
    ghost use Rattle.planner.specs.Searches.{searched_situation, IsSound};

    /// Takes the places that the search needs.
    pub fn new(alloc: Global, situation: Situation) -> Result<Search, Memory>
        requires { IsSituation situation }
        ensures sound { IfOk result IsSound }
        ensures situation { IfOk result (λ search. searched_situation search ≡ situation) }
    {
        let walk = Walk::new(alloc, &situation)?;
        Ok(Search { situation, walk })
    }

    /// Returns the lowest-numbered plan that does not fail, or `None` if every plan fails. It takes no memory, and a
    /// second call gives the same answer.
    pub fn run(&mut self) -> Option<Plan>
        requires { IsSound self.old }
        ensures sound { IsSound self.new }
        ensures situation { searched_situation self.new ≡ searched_situation self.old }
        ensures answer { MatchOption result (AllFail (searched_situation self.old))
            (IsLeastPlan (searched_situation self.old)) }
    {
        let number = explore(
            &self.situation,
            &self.walk.basis,
            &self.walk.start,
            &mut self.walk.below,
            0,
            0,
        )?;
        Some(self.situation.lattice.plan(number))
    }

    /// Returns the situation that the search was made of.
    pub fn situation(&self) -> &Situation
        ensures { result.now ≡ searched_situation self.now }
    {
        &self.situation
    }
}
