//! A walk over the prefixes of plans, which finds the target towards which each one fails first.
ghost use Rattle.std.specs.Prelude.{ℕ, ◌≡◌, ◌+◌, ◌/◌, ◌^◌, ◌<◌, ◌≤◌, All, IfOk, IsNone, List, [], MatchOption, length, take, true};
ghost use Rattle.lattice.specs.Grids.{choices_of};
ghost use Rattle.lattice.specs.PlanNumbers.{plan_of};
ghost use Rattle.mtl_monitor.specs.Following.{count_of, Fits, HasRoom, IsProgramOf};
ghost use Rattle.planner.specs.Inner.Breaking.{formulas_of};
ghost use Rattle.planner.specs.Inner.Legs.{IsPathIn, IsPlannedLeg};
ghost use Rattle.planner.specs.Inner.Levels.{AreBeside, AreEarly, ArePlaces, HasTargets, IsBasis, IsPrepared, StandsAt, StaysOut};
ghost use Rattle.planner.specs.Walks.{HasPlace, IsFirstFailing, IsGround, IsWalk, Keeps};
ghost use Rattle.rule_program.specs.Lags.{IsNoLast};
ghost use Rattle.plan_situations.specs.Boxes.{HoldsPath};
ghost use Rattle.plan_situations.specs.FailingPlans.{FailsBy};
ghost use Rattle.plan_situations.specs.Prefixes.{reached};
ghost use Rattle.plan_situations.specs.Situations.{IsSituation};

use crate::basis::{SearchBasis, watched_at_now};
use crate::legs::{PlannedLeg, leg_begins, leg_lasts, own_at_leg};
use crate::level::Level;
use crate::towards::Towards;
use crate::watched::Watched;
use motion::TickState;
use mtl_monitor::TraceState;
use out_of_memory::Memory;
use plan_situations::{Bounds, Situation};
use rule_program::{are_no_last, program_of};
use std::alloc::Global;

/// What stays the same on a walk, what is kept at now, and the places for each leg.
#[derive(Drop)]
pub struct Walk {
    pub basis: SearchBasis,
    pub start: Level,
    pub below: Vec<Level>,
}

/// Adds what is broken at now towards each target, and what is kept of her there.
fn watch_each(
    alloc: Global,
    situation: &Situation,
    basis: &mut SearchBasis,
    start: &mut Level,
) -> Result<(), Memory>
    requires situation { IsSituation situation.now }
    requires of_rules { IsProgramOf basis.old.program (formulas_of situation.now) }
    requires few { count_of basis.old.program ≤ 17 }
    requires no_last { basis.old.no_last ≡ true → All IsNoLast (formulas_of situation.now) }
    requires none_told { basis.old.already.items ≡ [] }
    requires none { start.old.watched.items ≡ [] }
    requires fits { Fits basis.old.program start.old.ending }
    requires room { HasRoom basis.old.program start.old.ending }
    ensures { IfOk result (λ _. IsPrepared situation.now basis.new start.new) }
{
    for target in situation.targets.as_slice() {
        let here = watched_at_now(alloc, situation, &basis.program, target)?;
        basis
            .already
            .push(here.already(alloc, &basis.program, &mut start.ending)?)?;
        start.watched.push(here)?;
    }
    Ok(())
}

/// Returns the rules as one program and what is broken at now, and what is kept there.
fn prepared(alloc: Global, situation: &Situation) -> Result<(SearchBasis, Level), Memory>
    requires { IsSituation situation.now }
    ensures { IfOk result (λ pair. IsPrepared situation.now pair.0 pair.1) }
{
    let mut basis = SearchBasis {
        program: program_of(alloc, &situation.rules)?,
        no_last: are_no_last(&situation.rules),
        already: Vec::new(alloc),
    };
    let mut start = match Level::at_now(alloc, &basis.program, Vec::new(alloc)) {
        Ok(start) => start,
        Err(fault) => {
            drop(basis);
            return Err(fault);
        }
    };
    match watch_each(alloc, situation, &mut basis, &mut start) {
        Ok(()) => Ok((basis, start)),
        Err(fault) => {
            drop(start);
            drop(basis);
            Err(fault)
        }
    }
}

/// Returns the places for each leg.
fn places(alloc: Global, situation: &Situation, basis: &SearchBasis) -> Result<Vec<Level>, Memory>
    requires { IsBasis situation.now basis.now }
    ensures { IfOk result (λ below. ArePlaces situation.now basis.now 0 below.items) }
{
    let mut below = Vec::new(alloc);
    for leg in 0..situation.lattice.legs() {
        let begins = leg_begins(situation, leg);
        let ticks = leg_lasts(situation, leg);
        below.push(Level::new(alloc, situation, basis, begins, ticks)?)?;
    }
    Ok(below)
}

impl Walk {
    /// Takes the places that a walk needs.
    pub fn new(alloc: Global, situation: &Situation) -> Result<Walk, Memory>
        requires { IsSituation situation.now }
        ensures { IfOk result (IsWalk situation.now) }
    {
        let (basis, start) = prepared(alloc, situation)?;
        match places(alloc, situation, &basis) {
            Ok(below) => Ok(Walk {
                basis,
                start,
                below,
            }),
            Err(fault) => {
                drop(start);
                drop(basis);
                Err(fault)
            }
        }
    }
}

/// Returns the first target towards which a plan fails by the end of one of its legs, by its index. All targets before
/// it are followed, from what is kept of them before the leg.
fn first_failing(
    situation: &Situation,
    basis: &SearchBasis,
    leg: &PlannedLeg,
    path: &[TickState],
    from: &[Watched],
    watched: &mut [Watched],
    ending: &mut TraceState,
    bounds: &Bounds,
    beside: &[Bounds],
) -> Option<usize>
    requires basis { IsBasis situation.now basis.now }
    requires leg { IsPlannedLeg situation.now leg.now }
    requires path { IsPathIn situation.now leg.now path.now }
    requires from { HasTargets situation.now basis.now from.now }
    requires early { AreEarly (reached situation.now leg.now.index) from.now }
    requires stands { StandsAt situation.now basis.now leg.now.plan
        (reached situation.now leg.now.index) from.now }
    requires outside { StaysOut situation.now leg.now.plan (reached situation.now leg.now.index) }
    requires targets { HasTargets situation.now basis.now watched.old }
    requires fits { Fits basis.now.program ending.old }
    requires room { HasRoom basis.now.program ending.old }
    requires bounds { HoldsPath bounds.now path.now }
    requires beside { AreBeside situation.now leg.now.begins (length path.now) beside.now }
    ensures targets { HasTargets situation.now basis.now watched.new }
    ensures fits { Fits basis.now.program ending.new }
    ensures room { HasRoom basis.now.program ending.new }
    ensures early { IsNone result
        → AreEarly (reached situation.now (leg.now.index + 1)) watched.new }
    ensures stands { IsNone result
        → StandsAt situation.now basis.now leg.now.plan
        (reached situation.now (leg.now.index + 1)) watched.new }
    ensures first { MatchOption result
        (¬ FailsBy situation.now (reached situation.now (leg.now.index + 1)) leg.now.plan)
        (IsFirstFailing situation.now leg.now.plan (reached situation.now (leg.now.index + 1))) }
{
    for k in 0..watched.len() {
        let towards = Towards {
            situation,
            program: &basis.program,
            no_last: basis.no_last,
            target: &situation.targets.as_slice()[k],
            already: &basis.already[k],
        };
        if towards.fails_by(
            leg,
            path,
            &from[k],
            &mut watched[k],
            ending,
            bounds,
            &beside[k],
        ) {
            return Some(k);
        }
    }
    None
}

impl Level {
    /// Returns the first target towards which a prefix of one leg more fails, by its index. The prefix has this number,
    /// and `from` is kept after the legs before. If it fails towards none, this is kept after it.
    pub fn first_failing(
        &mut self,
        situation: &Situation,
        basis: &SearchBasis,
        from: &Level,
        legs: u8,
        number: u32,
    ) -> Option<usize>
        requires basis { IsGround situation.now basis.now }
        requires legs { legs < situation.now.lattice.legs }
        requires number { number < choices_of situation.now.lattice ^ (legs + 1) }
        requires place { HasPlace situation.now basis.now legs self.old }
        requires from { Keeps situation.now basis.now legs
            (number / choices_of situation.now.lattice) from.now }
        ensures place { HasPlace situation.now basis.now legs self.new }
        ensures keeps { IsNone result → Keeps situation.now basis.now (legs + 1) number self.new }
        ensures first { (plan : List ℕ)
            → take (legs + 1) plan ≡ plan_of (choices_of situation.now.lattice) (legs + 1) number
            → MatchOption result (¬ FailsBy situation.now (reached situation.now (legs + 1)) plan)
            (IsFirstFailing situation.now plan (reached situation.now (legs + 1))) }
    {
        let before = number / situation.lattice.choices();
        let own = own_at_leg(situation, legs, before);
        let leg = PlannedLeg::new(situation, legs, number, own);
        self.fill_path(situation, &leg);
        first_failing(
            situation,
            basis,
            &leg,
            &self.path,
            &from.watched,
            &mut self.watched,
            &mut self.ending,
            &self.bounds,
            &self.beside,
        )
    }
}
