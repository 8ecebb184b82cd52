//! The ticks of a window, one after the other, when the lines of a log settle them.
ghost use Rattle.std.specs.Prelude.{◌≡◌, ◌+◌, ◌<◌, ◌≤◌, [], ℕ, List, IfOk, OnOk, true, false};
ghost use Rattle.log_lines.specs.SentLines.{sent};
ghost use Rattle.log_lines.specs.Standing.{StandsFor as JudgeStandsFor, keeping_of};
ghost use Rattle.scenario_values.specs.ValueRanges.{IsInRange};
ghost use Rattle.settled_ticks.specs.Inner.{is_past};
ghost use Rattle.settled_ticks.specs.Settled.{IsSettled};
ghost use Rattle.settled_ticks.specs.Sightings.{seen_first, sighting_by};
ghost use Rattle.settled_ticks.specs.Standing.{HasJudged, IsHandedOut, RemembersTicks, handed_out, latest_sighting, latest_time};
ghost use Rattle.traces.specs.Audited.{AreAscending, ArePlaced, MoveLittle, last_sighting};

use crate::guesses::Guesses;
use crate::vessel_ranks::rank_all;
use log_lines::Judge;
use motion::TickState;
use out_of_memory::Memory;
use ranks::Rank;
use scenario_values::Scenario;
use std::alloc::Global;

/// Returns whether the clock is past a time.
fn is_past(clock: Option<u64>, time: u64) -> bool
    ensures { result ≡ is_past clock time }
{
    match clock {
        None => false,
        Some(clock) => time < clock,
    }
}

/// Returns the ticks of a window, each once. After an `Err` the caller may only drop it.
#[derive(Drop)]
pub struct SettledTicks {
    /// The first tick that was not returned yet.
    next: u32,
    /// The vessels seen at the tick before it.
    seen: Vec<(u32, TickState)>,
    /// Their ranks in the same order if ranks count, otherwise none.
    ranks: Vec<Rank>,
    /// The indices of the vessels' last reports, to save searches.
    guesses: Guesses,
}

impl SettledTicks {
    /// Returns the state before the first tick. This takes no memory.
    pub fn new(alloc: Global) -> SettledTicks
        ensures { handed_out result ≡ 0 }
    {
        SettledTicks {
            next: 0,
            seen: Vec::new(alloc),
            ranks: Vec::new(alloc),
            guesses: Guesses::new(alloc),
        }
    }

    /// Returns the vessels seen at the latest tick, in the order of their MMSIs.
    pub fn seen(&self) -> &[(u32, TickState)]
        ensures { result.now ≡ (latest_sighting self.now).vessels }
    {
        self.seen.as_slice()
    }

    /// Returns their ranks in the same order if ranks count, otherwise none.
    pub fn ranks(&self) -> &[Rank]
        ensures { result.now ≡ (latest_sighting self.now).ranks }
    {
        self.ranks.as_slice()
    }

    /// Returns the number of ticks so far.
    pub fn count(&self) -> u32
        ensures { result ≡ handed_out self.now }
    {
        self.next
    }

    /// Returns the time of the latest tick, or of the first one before any. Earlier data is not needed again.
    pub fn latest_time(&self, scenario: &Scenario) -> u64
        requires { IsInRange scenario.now }
        ensures { result ≡ latest_time scenario.now (handed_out self.now) }
    {
        scenario.window.time(self.next.saturating_sub(1))
    }

    /// Returns whether the judge's lines settle the next tick.
    fn is_settled(&self, scenario: &Scenario, judge: &Judge) -> bool
        requires { IsInRange scenario.now }
        ensures within { result ≡ true → self.now.next ≤ scenario.now.window.ticks }
        ensures settled { result ≡ true → (lines : List (List ℕ))
            → JudgeStandsFor judge.now scenario.now lines
            → IsSettled scenario.now lines self.now.next }
        ensures open { result ≡ false → (lines : List (List ℕ))
            → JudgeStandsFor judge.now scenario.now lines
            → IsSettled scenario.now lines self.now.next → ⊥ }
    {
        let window = &scenario.window;
        let behind = u64::from(scenario.log.gap) + u64::from(scenario.log.slack);
        self.next <= window.ticks && is_past(judge.clock(), window.time(self.next) + behind)
    }

    /// Computes the next tick from the judge's lines.
    fn hand_out(&mut self, scenario: &Scenario, judge: &Judge) -> Result<(), Memory>
        requires in_range { IsInRange scenario.now }
        requires remembers { RemembersTicks (keeping_of judge.now) scenario.now
            (handed_out self.old) }
        requires judged { HasJudged judge.now scenario.now }
        requires within { self.old.next ≤ scenario.now.window.ticks }
        ensures next { OnOk result (self.new.next ≡ self.old.next + 1) }
        ensures ascending { OnOk result (AreAscending (latest_sighting self.new).vessels) }
        ensures placed { OnOk result (ArePlaced (latest_sighting self.new).vessels) }
        ensures seen { OnOk result
            ((lines : List (List ℕ)) → JudgeStandsFor judge.now scenario.now lines
            → latest_sighting self.new
            ≡ sighting_by scenario.now (sent scenario.now lines) self.old.next) }
        ensures moves { OnOk result
            ((lines : List (List ℕ)) → JudgeStandsFor judge.now scenario.now lines
            → MoveLittle (last_sighting
            (seen_first scenario.now (sent scenario.now lines) self.old.next)).vessels
            (latest_sighting self.new).vessels) }
    {
        let book = judge.book();
        book.moves_little();
        let time = scenario.window.time(self.next);
        book.look(time, &mut self.seen)?;
        rank_all(judge, &self.seen, time, &mut self.ranks, &mut self.guesses)?;
        self.next += 1;
        Ok(())
    }

    /// Computes the next tick if the judge's lines settle it; returns whether they do. If they do not, this takes no
    /// memory.
    pub fn next(&mut self, scenario: &Scenario, judge: &Judge) -> Result<bool, Memory>
        requires in_range { IsInRange scenario.now }
        requires remembers { RemembersTicks (keeping_of judge.now) scenario.now
            (handed_out self.old) }
        requires judged { HasJudged judge.now scenario.now }
        ensures handed { IfOk result
            (λ more. more ≡ true → IsHandedOut self.old self.new scenario.now judge.now) }
        ensures settled { IfOk result
            (λ more. more ≡ true → (lines : List (List ℕ))
            → JudgeStandsFor judge.now scenario.now lines
            → IsSettled scenario.now lines (handed_out self.old)) }
        ensures same { IfOk result (λ more. more ≡ false → self.new ≡ self.old) }
        ensures open { IfOk result
            (λ more. more ≡ false → (lines : List (List ℕ))
            → JudgeStandsFor judge.now scenario.now lines
            → IsSettled scenario.now lines (handed_out self.old) → ⊥) }
    {
        if !self.is_settled(scenario, judge) {
            return Ok(false);
        }
        self.hand_out(scenario, judge)?;
        Ok(true)
    }

    /// Computes the next tick from the lines of the whole log, settled or not; returns whether a tick was left.
    pub fn next_at_end(&mut self, scenario: &Scenario, judge: &Judge) -> Result<bool, Memory>
        requires in_range { IsInRange scenario.now }
        requires remembers { RemembersTicks (keeping_of judge.now) scenario.now
            (handed_out self.old) }
        requires judged { HasJudged judge.now scenario.now }
        ensures handed { IfOk result
            (λ more. more ≡ true → IsHandedOut self.old self.new scenario.now judge.now) }
        ensures same { IfOk result (λ more. more ≡ false → self.new ≡ self.old) }
        ensures all { IfOk result
            (λ more. more ≡ false → scenario.now.window.ticks < handed_out self.old) }
    {
        if scenario.window.ticks < self.next {
            return Ok(false);
        }
        self.hand_out(scenario, judge)?;
        Ok(true)
    }
}
