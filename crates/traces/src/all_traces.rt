//! All traces of a window, tick by tick.
ghost use Rattle.std.specs.Prelude.{ℕ, ◌≡◌, ◌+◌, ◌<◌, ◌≤◌, ◌++◌, ◌∷◌, ◌^◌, [], List, length, true, Err, IfOk, IfSome, OnOk};
ghost use Rattle.std.specs.List.{AllZip, Contains};
ghost use Rattle.std.specs.Option.{option_copied};
ghost use Rattle.encounters.specs.Directions.{HaveDirections};
ghost use Rattle.encounters.specs.Risk.{IsDetect};
ghost use Rattle.encounters.specs.Standing.{IsStateAfter};
ghost use Rattle.meetings.specs.Answers.{answer_of};
ghost use Rattle.meetings.specs.Atoms.{IsRankedRow};
ghost use Rattle.meetings.specs.declared.pair.Pair.{Pair};
ghost use Rattle.ranks.specs.declared.rank.Rank.{Rank};
ghost use Rattle.traces.specs.Audited.{AreAscending, ArePlaced, AuditNumbers, MoveLittle, SeenVessels, Sighting, step_of, terms_of, trace_ranks};
ghost use Rattle.traces.specs.Inner.Distances.{SeeTheSame};
ghost use Rattle.traces.specs.Inner.TracesKept.{AreBegun, AreKnownOn, AreTooMany, HaveBegunNow, Holds, IsBeginning, IsNextTick, IsTaken, MayBegin, MayTake};
ghost use Rattle.traces.specs.Known.{AreKnown, IsFollowed, IsUpTo, Known, opened, pairs_of, watched};
ghost use Rattle.traces.specs.Standing.{HaveBegun, IsSound, StandsApart, StandsFor, given_of, last_tick_of, latest_vessels, traces_of};
ghost use Rattle.traces.specs.ManyTraces.{HaveMoreThan};
ghost use Rattle.traces.specs.declared.fault.TickFault.TheVariants.{TooManyPairs};

use crate::contact_pairs::contacts;
use crate::drift::{drift_between, see_the_same};
use crate::fault::TickFault;
use crate::followed_trace::FollowedTrace;
use crate::known_pairs::{add, is_among, is_chosen};
use encounters::{Act, Detect, EngagementState, PairStep};
use meetings::{AtomRow, Pair};
use motion::TickState;
use mtl_formulas::Glance;
use out_of_memory::Memory;
use ranks::Rank;
use std::alloc::Global;
use std::collections::BTreeSet;

/// The greatest number of traces.
pub const MOST_TRACES: usize = 4096;

/// All traces of a window, of the pairs in which one vessel is a subject, or of all pairs if there are no subjects.
/// Their model is the vessels seen at the ticks so far, and the state of each trace. After an `Err` the caller may only
/// drop them.
#[derive(Drop)]
pub struct AllTraces {
    alloc: Global,
    detect: Detect,
    act: Act,
    tick: u32,
    last_tick: u32,
    subjects: Vec<u32>,
    /// The vessels seen at the latest tick.
    latest: Vec<(u32, TickState)>,
    /// Their ranks, if ranks count.
    ranks: Vec<Rank>,
    /// How many ticks were given.
    given: u32,
    /// The sum of the drifts from each tick to the next. While two vessels are seen, their distance in a component shrinks
    /// by no more than this grows.
    drift: u64,
    traces: Vec<FollowedTrace>,
    pairs: BTreeSet<Pair>,
}

impl AllTraces {
    /// Returns no traces, for a window whose last tick has this number. A tick lasts `tick` seconds.
    pub fn new(
        alloc: Global,
        detect: Detect,
        act: Act,
        subjects: &[u32],
        tick: u32,
        last_tick: u32,
    ) -> Result<AllTraces, Memory>
        requires detect { IsDetect detect }
        requires ticks { last_tick ≤ 20000 }
        ensures sound { IfOk result (λ traces. IsSound traces) }
        ensures none { IfOk result (λ traces. traces_of traces ≡ 0) }
        ensures given { IfOk result (λ traces. given_of traces ≡ 0) }
        ensures last_tick { IfOk result (λ traces. last_tick_of traces ≡ last_tick) }
        ensures latest { IfOk result (λ traces. latest_vessels traces ≡ []) }
        ensures stands { IfOk result
            (λ traces. (numbers : AuditNumbers) → numbers.detect ≡ detect → numbers.act ≡ act
            → numbers.tick ≡ tick → numbers.last_tick ≡ last_tick → numbers.subjects ≡ subjects.now
            → StandsFor traces numbers [] []) }
    {
        Ok(AllTraces {
            alloc,
            detect,
            act,
            tick,
            last_tick,
            subjects: subjects.to_vec(alloc)?,
            latest: Vec::new(alloc),
            ranks: Vec::new(alloc),
            given: 0,
            drift: 0,
            traces: Vec::new(alloc),
            pairs: BTreeSet::new(alloc),
        })
    }

    /// Returns the number of traces. None is ever removed, and new ones follow the others.
    pub fn len(&self) -> usize
        ensures { result ≡ traces_of self.now }
    {
        self.traces.len()
    }

    /// How many ticks were given.
    pub fn given(&self) -> u32
        ensures { result ≡ given_of self.now }
    {
        self.given
    }

    /// Returns the number of the window's last tick.
    pub fn last_tick(&self) -> u32
        ensures { result ≡ last_tick_of self.now }
    {
        self.last_tick
    }

    /// Returns whether the vessels seen now are the same as at the latest tick.
    pub(crate) fn sees_the_same(&self, seen: &[(u32, TickState)]) -> bool
        ensures { result ≡ true → SeeTheSame (latest_vessels self.now) seen.now }
    {
        see_the_same(&self.latest, seen)
    }

    /// Returns the pair of the trace with this index.
    pub fn pair(&self, index: usize) -> Pair
        requires { index < traces_of self.now }
        ensures { (numbers : AuditNumbers) (ticks : List Sighting) (front : List Known)
            (known : Known) (back : List Known)
            → StandsFor self.now numbers ticks (front ++ known ∷ back) → index ≡ length front
            → result ≡ known.pair }
    {
        self.traces[index].pair
    }

    /// Returns the next step of the trace with this index: from the latest tick to the one at which these vessels are
    /// seen. `None` if either vessel is not seen at either tick.
    #[inline(always)]
    pub fn next_step(&mut self, index: usize, seen: &[(u32, TickState)]) -> Option<PairStep>
        requires sound { IsSound self.old }
        requires within { index < traces_of self.old }
        requires ascending { AreAscending seen.now }
        requires placed { ArePlaced seen.now }
        requires moves { MoveLittle (latest_vessels self.old) seen.now }
        ensures sound { IsSound self.new }
        ensures given { given_of self.new ≡ given_of self.old }
        ensures last_tick { last_tick_of self.new ≡ last_tick_of self.old }
        ensures latest { latest_vessels self.new ≡ latest_vessels self.old }
        ensures as_many { traces_of self.new ≡ traces_of self.old }
        ensures directions { IfSome result HaveDirections }
        ensures step { (numbers : AuditNumbers) (ticks : List Sighting) (front : List Known)
            (known : Known) (back : List Known)
            → StandsFor self.old numbers ticks (front ++ known ∷ back) → index ≡ length front
            → result ≡ step_of known.pair (latest_vessels self.old) seen.now }
        ensures stands { (numbers : AuditNumbers) (ticks : List Sighting) (front : List Known)
            (known : Known) (back : List Known)
            → StandsFor self.old numbers ticks (front ++ known ∷ back) → index ≡ length front
            → StandsFor self.new numbers ticks (front ++ known ∷ back) }
    {
        self.traces[index].next_step(&self.latest, seen)
    }

    /// Returns what a glance at the next step of the trace with this index shows, if the places of its vessels decide it.
    /// If `same` is true, the vessels seen are the same as at the latest tick.
    #[inline(always)]
    pub fn glance(&mut self, index: usize, seen: &[(u32, TickState)], same: bool) -> Option<Glance>
        requires sound { IsSound self.old }
        requires within { index < traces_of self.old }
        requires ascending { AreAscending seen.now }
        requires same { same ≡ true → SeeTheSame (latest_vessels self.old) seen.now }
        ensures sound { IsSound self.new }
        ensures given { given_of self.new ≡ given_of self.old }
        ensures last_tick { last_tick_of self.new ≡ last_tick_of self.old }
        ensures latest { latest_vessels self.new ≡ latest_vessels self.old }
        ensures as_many { traces_of self.new ≡ traces_of self.old }
        ensures rests { IfSome result
            (λ glance. (numbers : AuditNumbers) (ticks : List Sighting) (front : List Known)
            (known : Known) (back : List Known)
            → StandsFor self.old numbers ticks (front ++ known ∷ back) → index ≡ length front
            → length known.steps < 2 ^ 31
            → StandsApart self.new numbers ticks front known back
            (step_of known.pair (latest_vessels self.old) seen.now) glance) }
        ensures stands { (numbers : AuditNumbers) (ticks : List Sighting) (front : List Known)
            (known : Known) (back : List Known)
            → StandsFor self.old numbers ticks (front ++ known ∷ back) → index ≡ length front
            → StandsFor self.new numbers ticks (front ++ known ∷ back) }
    {
        self.traces[index].glance(&self.latest, seen, same, self.detect.watch, self.drift)
    }

    /// Takes the next step of the trace with this index, and returns its row, by the ranks at the tick at which the
    /// engagement began. Each trace takes its next step once before the tick is taken.
    #[inline(always)]
    pub fn take_step(&mut self, index: usize, step: Option<&PairStep>) -> AtomRow
        requires sound { IsSound self.old }
        requires within { index < traces_of self.old }
        requires directions { IfSome (option_copied step) HaveDirections }
        ensures sound { IsSound self.new }
        ensures given { given_of self.new ≡ given_of self.old }
        ensures last_tick { last_tick_of self.new ≡ last_tick_of self.old }
        ensures latest { latest_vessels self.new ≡ latest_vessels self.old }
        ensures as_many { traces_of self.new ≡ traces_of self.old }
        ensures row { (numbers : AuditNumbers) (ticks : List Sighting) (front : List Known)
            (known : Known) (back : List Known)
            → StandsFor self.old numbers ticks (front ++ known ∷ back) → index ≡ length front
            → length known.steps < 2 ^ 31 → IsUpTo ticks known
            → IsRankedRow (terms_of numbers) (trace_ranks ticks known.pair known.start)
            (known.steps ++ option_copied step.entry ∷ []) (length known.steps) (answer_of result) }
        ensures stands { (numbers : AuditNumbers) (ticks : List Sighting) (front : List Known)
            (known : Known) (back : List Known)
            → StandsFor self.old numbers ticks (front ++ known ∷ back) → index ≡ length front
            → length known.steps < 2 ^ 31 → IsUpTo ticks known
            → StandsFor self.new numbers ticks
            (front ++ watched known (option_copied step.entry) (answer_of result) ∷ back) }
    {
        self.traces[index].take_step(step, &self.latest, &self.ranks)
    }

    /// Returns the state of the engagement of the trace with this index, at its latest step; apart before the first.
    #[inline(always)]
    pub fn state(&self, index: usize) -> EngagementState
        requires { index < traces_of self.now }
        ensures { (numbers : AuditNumbers) (ticks : List Sighting) (front : List Known)
            (known : Known) (back : List Known)
            → StandsFor self.now numbers ticks (front ++ known ∷ back) → index ≡ length front
            → IsStateAfter numbers.detect known.steps result }
    {
        self.traces[index].state()
    }

    /// Takes the vessels seen at the next tick, in the order of their MMSIs, and their ranks in the same order; no
    /// ranks if they do not count. All traces must have taken their step to the tick. Begins the traces of the audited
    /// pairs that are in contact for the first time, before the last tick.
    pub fn tick(&mut self, seen: &[(u32, TickState)], ranks: &[Rank]) -> Result<(), TickFault>
        requires sound { IsSound self.old }
        requires ascending { AreAscending seen.now }
        requires placed { ArePlaced seen.now }
        requires more { given_of self.old ≤ last_tick_of self.old }
        ensures sound { OnOk result (IsSound self.new) }
        ensures given { OnOk result (given_of self.new ≡ given_of self.old + 1) }
        ensures last_tick { OnOk result (last_tick_of self.new ≡ last_tick_of self.old) }
        ensures latest { OnOk result (latest_vessels self.new ≡ seen.now) }
        ensures more { OnOk result (traces_of self.old ≤ traces_of self.new) }
        ensures stands { OnOk result
            ((numbers : AuditNumbers) (ticks : List Sighting) (knowns after : List Known)
            → AreKnown numbers ticks knowns
            → AllZip (IsFollowed numbers ticks seen.now) knowns after
            → StandsFor self.old numbers ticks after
            → HaveBegun self.new numbers
            (ticks ++ record { vessels = seen.now; ranks = ranks.now } ∷ []) (length ticks) after) }
        // The limit is exceeded exactly if the tick begins a 4097th trace; memory may run out before.
        ensures many { result ≡ Err TooManyPairs
            → (numbers : AuditNumbers) (ticks : List Sighting) (knowns after : List Known)
            → AreKnown numbers ticks knowns
            → AllZip (IsFollowed numbers ticks seen.now) knowns after
            → StandsFor self.old numbers ticks after
            → HaveMoreThan MOST_TRACES numbers
            (ticks ++ record { vessels = seen.now; ranks = ranks.now } ∷ []) }
        ensures few { OnOk result
            ((numbers : AuditNumbers) (ticks : List Sighting) (knowns after : List Known)
            → AreKnown numbers ticks knowns
            → AllZip (IsFollowed numbers ticks seen.now) knowns after
            → StandsFor self.old numbers ticks after
            → HaveMoreThan MOST_TRACES numbers
            (ticks ++ record { vessels = seen.now; ranks = ranks.now } ∷ []) → ⊥) }
    {
        self.begin(seen)?;
        self.drift += drift_between(&self.latest, seen);
        replace(&mut self.latest, seen)?;
        replace(&mut self.ranks, ranks)?;
        self.given += 1;
        Ok(())
    }

    /// Begins the traces of the pairs that are in contact for the first time, before the last tick.
    fn begin(&mut self, seen: &[(u32, TickState)]) -> Result<(), TickFault>
        requires sound { IsSound self.old }
        requires ascending { AreAscending seen.now }
        requires placed { ArePlaced seen.now }
        ensures sound { OnOk result (IsSound self.new) }
        ensures same { OnOk result (IsBeginning self.old self.new) }
        ensures begun { OnOk result
            ((numbers : AuditNumbers) (ticks : List Sighting) (ranks : List Rank)
            (knowns : List Known) → IsNextTick self.old numbers ticks
            → AreKnownOn numbers ticks (record { vessels = seen.now; ranks = ranks }) knowns
            → Holds self.old numbers
            (ticks ++ record { vessels = seen.now; ranks = ranks } ∷ []) knowns
            → HaveBegunNow self.new numbers
            (ticks ++ record { vessels = seen.now; ranks = ranks } ∷ []) (length ticks) knowns) }
        ensures many { result ≡ Err TooManyPairs
            → (numbers : AuditNumbers) (ticks : List Sighting) (ranks : List Rank)
            (knowns : List Known) → IsNextTick self.old numbers ticks
            → AreKnownOn numbers ticks (record { vessels = seen.now; ranks = ranks }) knowns
            → Holds self.old numbers
            (ticks ++ record { vessels = seen.now; ranks = ranks } ∷ []) knowns
            → HaveMoreThan MOST_TRACES numbers
            (ticks ++ record { vessels = seen.now; ranks = ranks } ∷ []) }
    {
        if self.last_tick <= self.given {
            return Ok(());
        }
        self.begin_all(seen)
    }

    /// Begins the traces of the audited pairs that are in contact for the first time.
    fn begin_all(&mut self, seen: &[(u32, TickState)]) -> Result<(), TickFault>
        requires sound { IsSound self.old }
        requires ascending { AreAscending seen.now }
        requires placed { ArePlaced seen.now }
        ensures sound { OnOk result (IsSound self.new) }
        ensures same { OnOk result (IsBeginning self.old self.new) }
        ensures begun { OnOk result
            ((numbers : AuditNumbers) (ticks : List Sighting) (knowns : List Known)
            → Holds self.old numbers ticks knowns → MayBegin self.old numbers knowns
            → AreBegun self.new numbers ticks seen.now self.old.given knowns) }
        ensures many { result ≡ Err TooManyPairs
            → (numbers : AuditNumbers) (ticks : List Sighting) (knowns : List Known)
            → Holds self.old numbers ticks knowns → MayBegin self.old numbers knowns
            → AreTooMany numbers seen.now (pairs_of knowns) self.old.given knowns }
    {
        let pairs = contacts(self.alloc, &self.subjects, seen, self.detect.watch)?;
        for pair in pairs.as_slice() {
            self.begin_both(*pair)?;
        }
        Ok(())
    }

    /// Begins both traces of two vessels in contact, if they are audited and have none.
    fn begin_both(&mut self, pair: Pair) -> Result<(), TickFault>
        requires sound { IsSound self.old }
        ensures sound { OnOk result (IsSound self.new) }
        ensures same { OnOk result (IsBeginning self.old self.new) }
        ensures begun { OnOk result
            ((numbers : AuditNumbers) (ticks : List Sighting) (seen : SeenVessels) (old : List Pair)
            (knowns : List Known) → Holds self.old numbers ticks knowns
            → MayTake self.old numbers seen old knowns pair
            → IsTaken self.new numbers ticks seen old self.old.given knowns pair) }
        ensures many { result ≡ Err TooManyPairs
            → (numbers : AuditNumbers) (ticks : List Sighting) (seen : SeenVessels)
            (old : List Pair) (knowns : List Known) → Holds self.old numbers ticks knowns
            → MayTake self.old numbers seen old knowns pair
            → AreTooMany numbers seen old self.old.given knowns }
    {
        if !is_chosen(&self.subjects, pair) {
            return Ok(());
        }
        if is_among(&self.pairs, pair) {
            return Ok(());
        }
        self.begin_one(pair)?;
        self.begin_one(Pair {
            subject: pair.other,
            other: pair.subject,
        })
    }

    /// Begins the trace of a pair that has none, if there is room for one.
    fn begin_one(&mut self, pair: Pair) -> Result<(), TickFault>
        requires sound { IsSound self.old }
        ensures sound { OnOk result (IsSound self.new) }
        ensures same { OnOk result (IsBeginning self.old self.new) }
        ensures begun { OnOk result
            ((numbers : AuditNumbers) (ticks : List Sighting) (knowns : List Known)
            → Holds self.old numbers ticks knowns
            → Holds self.new numbers ticks (knowns ++ opened pair self.old.given ∷ [])) }
        ensures many { result ≡ Err TooManyPairs → traces_of self.old ≡ MOST_TRACES }
    {
        if self.traces.len() == MOST_TRACES {
            return Err(TickFault::TooManyPairs);
        }
        self.push(pair)?;
        Ok(())
    }

    /// Appends the trace of a pair that begins at this tick.
    fn push(&mut self, pair: Pair) -> Result<(), Memory>
        requires sound { IsSound self.old }
        requires few { traces_of self.old < MOST_TRACES }
        ensures sound { OnOk result (IsSound self.new) }
        ensures same { OnOk result (IsBeginning self.old self.new) }
        ensures begun { OnOk result
            ((numbers : AuditNumbers) (ticks : List Sighting) (knowns : List Known)
            → Holds self.old numbers ticks knowns
            → Holds self.new numbers ticks (knowns ++ opened pair self.old.given ∷ [])) }
    {
        self.traces.push(FollowedTrace::new(pair, self.given, self.detect, self.act, self.tick))?;
        add(&mut self.pairs, pair)
    }
}

/// Replaces the earlier ones by these.
fn replace<T: Copy>(latest: &mut Vec<T>, next: &[T]) -> Result<(), Memory>
    ensures { OnOk result (latest.new.items ≡ next.now) }
{
    latest.clear();
    latest.extend_from_slice(next)?;
    Ok(())
}
