//! The data that stays the same while plans are tried.
ghost use Rattle.std.specs.Prelude.{ℕ, ◌≡◌, ◌+◌, ◌-◌, ◌*◌, ◌^◌, ◌<◌, ◌≤◌, ◌↔◌, IfOk, IsTrue, [], map, take};
ghost use Rattle.mtl_monitor.specs.Following.{IsProgramOf};
ghost use Rattle.planner.specs.Inner.Breaking.{formulas_of};
ghost use Rattle.plan_situations.specs.Situations.{now_of, IsSituation, IsTarget};
ghost use Rattle.planner.specs.Inner.Watching.{IsEarly, IsReady, StandsFor};

use crate::already::Already;
use crate::watched::Watched;
use mtl_monitor::Program;
use out_of_memory::Memory;
use plan_situations::{Situation, Target};
use std::alloc::Global;

/// The rules of a situation as one program, and what is broken at now towards each of its targets. It stands beside the situation.
#[derive(Drop)]
pub struct SearchBasis {
    pub(crate) program: Program,
    /// Whether no rule is broken at a position before all rows came that it reaches. Then a trace's end breaks nothing.
    pub(crate) no_last: bool,
    pub(crate) already: Vec<Already>,
}

/// Returns the state of a target at now, which is the same for every plan.
pub(crate) fn watched_at_now(
    alloc: Global,
    situation: &Situation,
    program: &Program,
    target: &Target,
) -> Result<Watched, Memory>
    requires situation { IsSituation situation.now }
    requires target { IsTarget situation.now target.now }
    requires of_rules { IsProgramOf program.now (formulas_of situation.now) }
    ensures ready { IfOk result (IsReady program.now) }
    ensures early { IfOk result (IsEarly (now_of situation.now)) }
    ensures since { IfOk result (λ watched. watched.since_now ≡ 0) }
    ensures stands { IfOk result
        (StandsFor program.now situation.now [] target.now (now_of situation.now)) }
{
    let plan = situation.lattice.plan(0);
    let mut watched = Watched::new(
        alloc,
        program,
        situation.detect,
        situation.act,
        situation.tick,
    )?;
    for k in 0..situation.now() {
        let in_contact = situation.are_in_contact(&plan, target, k);
        watched.take(
            program,
            in_contact,
            situation.step_at(&plan, target, k).as_ref(),
        );
    }
    Ok(watched)
}

impl SearchBasis {
    ghost use Rattle.planner.specs.Inner.Levels.{IsBasis};

    /// Returns the state of a target before the first step.
    pub(crate) fn unwatched(&self, alloc: Global, situation: &Situation) -> Result<Watched, Memory>
        requires { IsBasis situation.now self.now }
        ensures { IfOk result (IsReady self.now.program) }
    {
        Watched::new(
            alloc,
            &self.program,
            situation.detect,
            situation.act,
            situation.tick,
        )
    }
}
