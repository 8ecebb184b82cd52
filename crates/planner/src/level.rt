//! The state after a prefix of the legs of a plan.
ghost use Rattle.std.specs.Prelude.{ℕ, ◌≡◌, ◌+◌, ◌-◌, ◌*◌, ◌/◌, ◌<◌, ◌≤◌, ◌^◌, ◌⊎◌, ◌↔◌, IfOk, IsSome, IsTrue, List, false, true, length, get_or, All};
ghost use Rattle.lattice.specs.Grids.{choices_of, positions_of};
ghost use Rattle.mtl_monitor.specs.Following.{Fits, HasRoom};
ghost use Rattle.plan_situations.specs.FailingPlans.{BreaksARule, FailsBy, Some_};
ghost use Rattle.planner.specs.Inner.Legs.{lasts, legs_before, legs_through, IsPathIn, IsPlannedLeg};
ghost use Rattle.planner.specs.Inner.Levels.{AreBeside, AreEarly, AreFollowed, HasPlaces, HasTargets, IsAfter, IsBasis, IsFollowedTo, IsOnLeg, StandsAt, StaysOut};
ghost use Rattle.plan_situations.specs.Boxes.{HoldsPath};
ghost use Rattle.plan_situations.specs.Paths.{EntersAlong};
ghost use Rattle.plan_situations.specs.Prefixes.{reached, PrefixFails};
ghost use Rattle.plan_situations.specs.Situations.{end_of, now_of, IsSituation};
ghost use Rattle.planner.specs.declared.level.Extended.TheVariants as Extended;
ghost use Rattle.planner.specs.declared.basis.SearchBasis.{SearchBasis};
ghost use Rattle.planner.specs.declared.legs.PlannedLeg.{PlannedLeg};
ghost use Rattle.plan_situations.specs.declared.situation.Target.{Target};
ghost use Rattle.planner.specs.declared.watched.Watched.{Watched};

use crate::basis::SearchBasis;
use crate::legs::PlannedLeg;
use crate::towards::Towards;
use crate::watched::Watched;
use fixed_geometry::Point;
use motion::TickState;
use mtl_monitor::{Program, TraceState};
use out_of_memory::Memory;
use plan_situations::{Bounds, Situation, Target};
use std::alloc::Global;

/// Own ship's path in the last leg of the prefix, and what is kept of each target after it.
#[derive(Drop)]
pub struct Level {
    pub(crate) path: Vec<TickState>,
    pub(crate) watched: Vec<Watched>,
    /// Where traces are ended, to see what they would result in.
    pub(crate) ending: TraceState,
    /// A box that holds the path.
    pub(crate) bounds: Bounds,
    /// For each target a box that holds her predicted path in the leg.
    pub(crate) beside: Vec<Bounds>,
    /// The index of the target whose domain was entered last.
    entered: usize,
    /// The index of the target towards which a rule was broken last.
    broken: usize,
}

/// Where a path is before it is followed.
const NOWHERE: TickState = TickState {
    point: Point { x: 0, y: 0 },
    direction: None,
    speed: None,
};

/// Returns a path of this many ticks, to be filled in.
fn path_of(alloc: Global, ticks: usize) -> Result<Vec<TickState>, Memory>
    ensures { IfOk result (λ path. length path.items ≡ ticks) }
{
    let mut path = Vec::new(alloc);
    for _tick in 0..ticks {
        path.push(NOWHERE)?;
    }
    Ok(path)
}

/// Returns for each target a box that holds her predicted path at this many ticks from one on, which is counted from now.
fn all_beside(
    alloc: Global,
    situation: &Situation,
    first: u32,
    ticks: u32,
) -> Result<Vec<Bounds>, Memory>
    requires situation { IsSituation situation.now }
    requires some { 1 ≤ ticks }
    requires planned { first + ticks ≤ positions_of situation.now.lattice + 1 }
    ensures { IfOk result (λ beside. AreBeside situation.now first ticks beside.items) }
{
    let mut beside = Vec::new(alloc);
    for target in situation.targets.as_slice() {
        beside.push(situation.bounds_ahead(target, first, ticks))?;
    }
    Ok(beside)
}

/// Returns the first target whose domain own ship enters in a leg, by its index.
fn entered(
    situation: &Situation,
    leg: &PlannedLeg,
    path: &[TickState],
    bounds: &Bounds,
    beside: &[Bounds],
) -> Option<usize>
    requires situation { IsSituation situation.now }
    requires path { IsPathIn situation.now leg.now path.now }
    requires bounds { HoldsPath bounds.now path.now }
    requires beside { AreBeside situation.now leg.now.begins (length path.now) beside.now }
    ensures { IsSome result
        ↔ Some_ (λ (target : Target). EntersAlong situation.now leg.now.plan target
        (now_of situation.now + leg.now.begins) (length path.now - 1)) situation.now.targets }
{
    let targets = situation.targets.as_slice();
    for index in 0..targets.len() {
        if situation.enters_beside(path, &targets[index], leg.begins, bounds, &beside[index]) {
            return Some(index);
        }
    }
    None
}

/// Returns whether own ship enters the domain of the target with this index in a leg, if there is one.
fn enters_one(
    situation: &Situation,
    leg: &PlannedLeg,
    path: &[TickState],
    bounds: &Bounds,
    beside: &[Bounds],
    index: usize,
) -> bool
    requires situation { IsSituation situation.now }
    requires path { IsPathIn situation.now leg.now path.now }
    requires bounds { HoldsPath bounds.now path.now }
    requires beside { AreBeside situation.now leg.now.begins (length path.now) beside.now }
    ensures { IsTrue result
        → Some_ (λ (target : Target). EntersAlong situation.now leg.now.plan target
        (now_of situation.now + leg.now.begins) (length path.now - 1)) situation.now.targets }
{
    let targets = situation.targets.as_slice();
    if index < targets.len() {
        return situation.enters_beside(path, &targets[index], leg.begins, bounds, &beside[index]);
    }
    false
}

/// Returns whether own ship enters some target's domain in a leg. The target whose domain was entered last is asked
/// first: plans that begin alike mostly fail for the same one.
fn enters(
    situation: &Situation,
    leg: &PlannedLeg,
    path: &[TickState],
    bounds: &Bounds,
    beside: &[Bounds],
    latest: &mut usize,
) -> bool
    requires situation { IsSituation situation.now }
    requires path { IsPathIn situation.now leg.now path.now }
    requires bounds { HoldsPath bounds.now path.now }
    requires beside { AreBeside situation.now leg.now.begins (length path.now) beside.now }
    ensures { IsTrue result
        ↔ Some_ (λ (target : Target). EntersAlong situation.now leg.now.plan target
        (now_of situation.now + leg.now.begins) (length path.now - 1)) situation.now.targets }
{
    if enters_one(situation, leg, path, bounds, beside, *latest) {
        return true;
    }
    match entered(situation, leg, path, bounds, beside) {
        Some(index) => {
            *latest = index;
            true
        }
        None => false,
    }
}

/// Follows own ship's path in a leg towards the targets from one index to before another, from what is kept of them before it. Returns whether
/// some row decides a position as newly broken: `latest` is then the target's index, and nothing is kept of those after her.
fn follow_some(
    situation: &Situation,
    basis: &SearchBasis,
    leg: &PlannedLeg,
    path: &[TickState],
    from: &[Watched],
    watched: &mut [Watched],
    latest: &mut usize,
    first: usize,
    end: usize,
) -> bool
    requires basis { IsBasis situation.now basis.now }
    requires leg { IsPlannedLeg situation.now leg.now }
    requires path { IsPathIn situation.now leg.now path.now }
    requires from { HasTargets situation.now basis.now from.now }
    requires early { AreEarly (reached situation.now leg.now.index) from.now }
    requires targets { HasTargets situation.now basis.now watched.old }
    requires ordered { first ≤ end }
    requires inside { end ≤ length watched.old }
    ensures targets { HasTargets situation.now basis.now watched.new }
    ensures others { (k : ℕ) (w : Watched) → k < first ⊎ end ≤ k
        → get_or watched.new k w ≡ get_or watched.old k w }
    ensures followed { result ≡ false → (k : ℕ) (w : Watched) → first ≤ k → k < end
        → IsFollowedTo situation.now basis.now leg.now.plan
        (reached situation.now leg.now.index) (reached situation.now (leg.now.index + 1)) from.now k
        (get_or watched.new k w) }
    ensures breaks { result ≡ true
        → StandsAt situation.now basis.now leg.now.plan (reached situation.now leg.now.index)
        from.now
        → Some_ (BreaksARule situation.now leg.now.plan
        (reached situation.now (leg.now.index + 1))) situation.now.targets }
{
    for k in first..end {
        let towards = Towards {
            situation,
            program: &basis.program,
            no_last: basis.no_last,
            target: &situation.targets.as_slice()[k],
            already: &basis.already[k],
        };
        if towards.follow_from(leg, path, &from[k], &mut watched[k]) {
            *latest = k;
            return true;
        }
    }
    false
}

/// Follows own ship's path in a leg towards all targets, from what is kept of them before it. Returns whether some row decides a
/// position as newly broken: something is then kept only of some targets. The target towards which one was broken last is followed
/// first: plans that begin alike mostly fail for the same one.
fn follow_all(
    situation: &Situation,
    basis: &SearchBasis,
    leg: &PlannedLeg,
    path: &[TickState],
    from: &[Watched],
    watched: &mut [Watched],
    latest: &mut usize,
) -> bool
    requires basis { IsBasis situation.now basis.now }
    requires leg { IsPlannedLeg situation.now leg.now }
    requires path { IsPathIn situation.now leg.now path.now }
    requires from { HasTargets situation.now basis.now from.now }
    requires early { AreEarly (reached situation.now leg.now.index) from.now }
    requires targets { HasTargets situation.now basis.now watched.old }
    ensures targets { HasTargets situation.now basis.now watched.new }
    ensures early { result ≡ false
        → AreEarly (reached situation.now (leg.now.index + 1)) watched.new }
    ensures followed { AreFollowed situation.now basis.now leg.now.plan
        (reached situation.now leg.now.index)
        (reached situation.now (leg.now.index + 1)) from.now watched.new result }
{
    let count = watched.len();
    let before = (*latest).min(count);
    let next = before + 1;
    let after = next.min(count);
    if follow_some(
        situation, basis, leg, path, from, watched, latest, before, after,
    ) {
        return true;
    }
    if follow_some(
        situation, basis, leg, path, from, watched, latest, 0, before,
    ) {
        return true;
    }
    follow_some(
        situation, basis, leg, path, from, watched, latest, after, count,
    )
}

/// Returns whether some position is newly broken towards some target if the traces end here.
fn ends_broken(
    situation: &Situation,
    basis: &SearchBasis,
    watched: &[Watched],
    ending: &mut TraceState,
) -> bool
    requires basis { IsBasis situation.now basis.now }
    requires targets { HasTargets situation.now basis.now watched.now }
    requires early { AreEarly (end_of situation.now) watched.now }
    requires fits { Fits basis.now.program ending.old }
    requires room { HasRoom basis.now.program ending.old }
    ensures fits { Fits basis.now.program ending.new }
    ensures room { HasRoom basis.now.program ending.new }
    ensures breaks { (plan : List ℕ) (at : ℕ) → now_of situation.now ≤ at
        → StandsAt situation.now basis.now plan at watched.now
        → (IsTrue result ↔ Some_ (BreaksARule situation.now plan at) situation.now.targets) }
{
    for k in 0..watched.len() {
        let towards = Towards {
            situation,
            program: &basis.program,
            no_last: basis.no_last,
            target: &situation.targets.as_slice()[k],
            already: &basis.already[k],
        };
        if watched[k].ends_newly_broken(&towards, ending) {
            return true;
        }
    }
    false
}

/// What a beginning of a plan with one more leg results in.
#[derive(Clone, Copy, PartialEq, Eq)]
pub(crate) enum Extended {
    /// Nothing in the leg makes it fail. Whether it fails when the traces end is checked only at the last leg.
    Passes,
    /// It fails.
    Fails,
    /// The beginning failed before that leg: some position is newly broken if the traces end there.
    FailedBefore,
}

impl Level {
    /// Returns the state at now, before any leg.
    pub(crate) fn at_now(
        alloc: Global,
        program: &Program,
        watched: Vec<Watched>,
    ) -> Result<Level, Memory>
        ensures watched { IfOk result (λ level. level.watched.items ≡ watched.items) }
        ensures fits { IfOk result (λ level. Fits program.now level.ending) }
        ensures room { IfOk result (λ level. HasRoom program.now level.ending) }
    {
        Ok(Level {
            path: Vec::new(alloc),
            watched,
            ending: TraceState::new(alloc, program)?,
            bounds: Bounds::at(NOWHERE.point),
            beside: Vec::new(alloc),
            entered: 0,
            broken: 0,
        })
    }

    /// Returns the places for a leg that lasts this many ticks.
    pub(crate) fn new(
        alloc: Global,
        situation: &Situation,
        basis: &SearchBasis,
        begins: u32,
        ticks: u32,
    ) -> Result<Level, Memory>
        requires basis { IsBasis situation.now basis.now }
        requires planned { begins + ticks ≤ positions_of situation.now.lattice }
        ensures path { IfOk result (λ level. length level.path.items ≡ ticks + 1) }
        ensures beside { IfOk result
            (λ level. AreBeside situation.now begins (ticks + 1) level.beside.items) }
        ensures targets { IfOk result
            (λ level. HasTargets situation.now basis.now level.watched.items) }
        ensures fits { IfOk result (λ level. Fits basis.now.program level.ending) }
        ensures room { IfOk result (λ level. HasRoom basis.now.program level.ending) }
    {
        let mut watched = Vec::new(alloc);
        for _target in situation.targets.as_slice() {
            watched.push(basis.unwatched(alloc, situation)?)?;
        }
        let beside = all_beside(alloc, situation, begins, ticks + 1)?;
        Ok(Level {
            path: path_of(alloc, ticks as usize + 1)?,
            watched,
            ending: TraceState::new(alloc, &basis.program)?,
            bounds: Bounds::at(NOWHERE.point),
            beside,
            entered: 0,
            broken: 0,
        })
    }

    /// Returns whether some position is newly broken towards some target if the traces end after the legs of this
    /// level. What is kept of the targets stays as it is.
    pub(crate) fn ends_broken(&mut self, situation: &Situation, basis: &SearchBasis) -> bool
        requires basis { IsBasis situation.now basis.now }
        requires targets { HasTargets situation.now basis.now self.old.watched.items }
        requires early { AreEarly (end_of situation.now) self.old.watched.items }
        requires fits { Fits basis.now.program self.old.ending }
        requires room { HasRoom basis.now.program self.old.ending }
        ensures path { self.new.path ≡ self.old.path }
        ensures bounds { self.new.bounds ≡ self.old.bounds }
        ensures beside { self.new.beside ≡ self.old.beside }
        ensures watched { self.new.watched ≡ self.old.watched }
        ensures fits { Fits basis.now.program self.new.ending }
        ensures room { HasRoom basis.now.program self.new.ending }
        ensures breaks { (plan : List ℕ) (at : ℕ) → now_of situation.now ≤ at
            → StandsAt situation.now basis.now plan at self.old.watched.items
            → (IsTrue result ↔ Some_ (BreaksARule situation.now plan at) situation.now.targets) }
    {
        ends_broken(situation, basis, &self.watched, &mut self.ending)
    }

    /// Fills in own ship's path in a leg.
    pub(crate) fn fill_path(&mut self, situation: &Situation, leg: &PlannedLeg)
        requires situation { IsSituation situation.now }
        requires leg { IsPlannedLeg situation.now leg.now }
        requires places { length self.old.path.items ≡ lasts situation.now leg.now.index + 1 }
        ensures { (basis : SearchBasis) → HasPlaces situation.now basis leg.now.index self.old
            → IsOnLeg situation.now basis leg.now self.new }
    {
        situation.fill_path(&leg.plan, leg.begins, leg.own, &mut self.path);
        self.bounds = Bounds::around(&self.path);
    }

    /// Returns whether own ship enters some target's domain in the leg whose path is filled in.
    fn enters(&mut self, situation: &Situation, leg: &PlannedLeg) -> bool
        requires situation { IsSituation situation.now }
        requires leg { IsPlannedLeg situation.now leg.now }
        requires path { IsPathIn situation.now leg.now self.old.path.items }
        requires bounds { HoldsPath self.old.bounds self.old.path.items }
        requires beside { AreBeside situation.now leg.now.begins
            (length self.old.path.items) self.old.beside.items }
        ensures on { (basis : SearchBasis) → IsOnLeg situation.now basis leg.now self.old
            → IsOnLeg situation.now basis leg.now self.new }
        ensures fails { result ≡ true
            → FailsBy situation.now (reached situation.now (leg.now.index + 1)) leg.now.plan }
        ensures outside { result ≡ false
            → StaysOut situation.now leg.now.plan (reached situation.now leg.now.index)
            → StaysOut situation.now leg.now.plan (reached situation.now (leg.now.index + 1)) }
    {
        enters(
            situation,
            leg,
            &self.path,
            &self.bounds,
            &self.beside,
            &mut self.entered,
        )
    }

    /// Returns whether some position is newly broken towards some target if the traces end before the leg. This is
    /// checked once: `ended` says whether it was.
    fn ends_broken_before(
        &mut self,
        situation: &Situation,
        basis: &SearchBasis,
        from: &Level,
        ended: &mut bool,
    ) -> bool
        requires basis { IsBasis situation.now basis.now }
        requires from { HasTargets situation.now basis.now from.now.watched.items }
        requires early { AreEarly (end_of situation.now) from.now.watched.items }
        requires fits { Fits basis.now.program self.old.ending }
        requires room { HasRoom basis.now.program self.old.ending }
        ensures on { (leg : PlannedLeg) → IsOnLeg situation.now basis.now leg self.old
            → IsOnLeg situation.now basis.now leg self.new }
        ensures breaks { result ≡ true → (plan : List ℕ) (at : ℕ) → now_of situation.now ≤ at
            → StandsAt situation.now basis.now plan at from.now.watched.items
            → Some_ (BreaksARule situation.now plan at) situation.now.targets }
    {
        if *ended {
            return false;
        }
        *ended = true;
        ends_broken(situation, basis, &from.watched, &mut self.ending)
    }

    /// Follows the path in the leg towards all targets, from what is kept of them before it.
    fn follow_leg(
        &mut self,
        situation: &Situation,
        basis: &SearchBasis,
        from: &Level,
        leg: &PlannedLeg,
    ) -> bool
        requires basis { IsBasis situation.now basis.now }
        requires leg { IsPlannedLeg situation.now leg.now }
        requires on { IsOnLeg situation.now basis.now leg.now self.old }
        requires from { HasTargets situation.now basis.now from.now.watched.items }
        requires early { AreEarly (reached situation.now leg.now.index) from.now.watched.items }
        ensures on { IsOnLeg situation.now basis.now leg.now self.new }
        ensures early { result ≡ false
            → AreEarly (reached situation.now (leg.now.index + 1)) self.new.watched.items }
        ensures followed { AreFollowed situation.now basis.now leg.now.plan
            (reached situation.now leg.now.index)
            (reached situation.now (leg.now.index + 1)) from.now.watched.items
            self.new.watched.items result }
    {
        follow_all(
            situation,
            basis,
            leg,
            &self.path,
            &from.watched,
            &mut self.watched,
            &mut self.broken,
        )
    }

    /// Returns whether no leg follows, and some position is newly broken towards some target if the traces end.
    fn ends_broken_at_last(
        &mut self,
        situation: &Situation,
        basis: &SearchBasis,
        leg: &PlannedLeg,
    ) -> bool
        requires basis { IsBasis situation.now basis.now }
        requires on { IsOnLeg situation.now basis.now leg.now self.old }
        requires early { AreEarly (end_of situation.now) self.old.watched.items }
        ensures on { IsOnLeg situation.now basis.now leg.now self.new }
        ensures watched { self.new.watched ≡ self.old.watched }
        ensures breaks { result ≡ true → (plan : List ℕ) (at : ℕ) → now_of situation.now ≤ at
            → StandsAt situation.now basis.now plan at self.old.watched.items
            → Some_ (BreaksARule situation.now plan at) situation.now.targets }
        ensures passes { result ≡ false → leg.now.is_last ≡ true → (plan : List ℕ) (at : ℕ)
            → now_of situation.now ≤ at
            → StandsAt situation.now basis.now plan at self.old.watched.items
            → ¬ Some_ (BreaksARule situation.now plan at) situation.now.targets }
    {
        if leg.is_last {
            return self.ends_broken(situation, basis);
        }
        false
    }

    /// Becomes the state after one more leg. Own ship's path and the domains are tested before the rules. The case that the traces end before
    /// the
    /// leg is checked once, for the first leg there that enters no domain: `ended` says whether it was.
    pub(crate) fn extend(
        &mut self,
        situation: &Situation,
        basis: &SearchBasis,
        from: &Level,
        leg: &PlannedLeg,
        ended: &mut bool,
    ) -> Extended
        requires basis { IsBasis situation.now basis.now }
        requires leg { IsPlannedLeg situation.now leg.now }
        requires places { HasPlaces situation.now basis.now leg.now.index self.old }
        requires from { IsAfter situation.now basis.now leg.now.index
            (leg.now.number / choices_of situation.now.lattice) from.now }
        ensures places { HasPlaces situation.now basis.now leg.now.index self.new }
        ensures after { result ≡ Extended.Passes
            → IsAfter situation.now basis.now (leg.now.index + 1) leg.now.number self.new }
        ensures passes { result ≡ Extended.Passes → leg.now.index + 1 ≡ situation.now.lattice.legs
            → ¬ PrefixFails situation.now (legs_through situation.now leg.now) }
        ensures fails { result ≡ Extended.Fails
            → PrefixFails situation.now (legs_through situation.now leg.now) }
        ensures failed_before { result ≡ Extended.FailedBefore
            → PrefixFails situation.now (legs_before situation.now leg.now) }
    {
        self.fill_path(situation, leg);
        if self.enters(situation, leg) {
            return Extended::Fails;
        }
        if self.ends_broken_before(situation, basis, from, ended) {
            return Extended::FailedBefore;
        }
        if self.follow_leg(situation, basis, from, leg) {
            return Extended::Fails;
        }
        if self.ends_broken_at_last(situation, basis, leg) {
            return Extended::Fails;
        }
        Extended::Passes
    }
}
