//! Passes the ticks of a window to a taker when the lines of a log settle them. The taker returns items for each tick:
//! an audit returns rows, a watch alarms.
use crate::lists::add;
use log_lines::Judge;
use motion::TickState;
use ranks::Rank;
use scenario_values::Scenario;
use settled_ticks::SettledTicks;
use std::alloc::Global;
use traces::TickFault;

/// A taker of the ticks of a window in order, which returns items for each tick.
pub trait TickTaker: Drop {
    ghost use Rattle.std.specs.Prelude.{◌≡◌, ◌≤◌, IfOk, Err};
    ghost use Rattle.settling.specs.Inner.TakenTicks.{IsTooManyFor, Taker, TakesNext};
    ghost use Rattle.traces.specs.Audited.{AreAscending, ArePlaced, MoveLittle};
    ghost use Rattle.traces.specs.declared.fault.TickFault.TheVariants.{TooManyPairs};

    type Item: Drop;

    ghost taker: { Self → Taker Self.Item };

    /// Takes the vessels seen at the next tick, in the order of their MMSIs, and their ranks in the same order; no
    /// ranks if they do not count. Returns the items of the tick. After an `Err` the caller may only drop the taker.
    /// The limit is exceeded exactly if the tick begins a 4097th trace; memory may run out before.
    fn take_tick(
        &mut self,
        seen: &[(u32, TickState)],
        ranks: &[Rank],
    ) -> Result<Vec<Self::Item>, TickFault>
        requires sound { (taker self.old).Sound }
        requires ascending { AreAscending seen.now }
        requires placed { ArePlaced seen.now }
        requires moves { MoveLittle (taker self.old).latest seen.now }
        requires more { (taker self.old).count ≤ (taker self.old).last_tick }
        ensures takes { IfOk result (λ items. TakesNext (taker self.old) (taker self.new)
            (record { vessels = seen.now; ranks = ranks.now }) items.items) }
        ensures many { result ≡ Err TooManyPairs
            → IsTooManyFor (taker self.old) (record { vessels = seen.now; ranks = ranks.now }) };
}

/// A taker that gets each tick of a window once the lines of a log settle it.
#[derive(Drop)]
pub struct Settled<T: TickTaker> {
    alloc: Global,
    pub(crate) taker: T,
    ticks: SettledTicks,
}

impl<T: TickTaker> Settled<T> {
    ghost use Rattle.std.specs.Prelude.{ℕ, ◌≡◌, ◌++◌, [], List, Err, IfOk, OnOk};
    ghost use Rattle.log_lines.specs.SentLines.{sent};
    ghost use Rattle.log_lines.specs.Standing.{keeping_of};
    ghost use Rattle.scenario_values.specs.ValueRanges.{IsInRange};
    ghost use Rattle.scenario_values.specs.declared.values.Scenario.{Scenario};
    ghost use Rattle.settled_ticks.specs.Sightings.{sighted};
    ghost use Rattle.settled_ticks.specs.Standing.{RemembersTicks, handed_out, latest_time};
    ghost use Rattle.settling.specs.Inner.TakenTicks.{HasTakenAll, HasTakenOneLog, HasTakenSettled, IsBeforeAll};
    ghost use Rattle.settling.specs.Further.{Then};
    ghost use Rattle.settling.specs.ManySettled.{HaveManySettled};
    ghost use Rattle.settling.specs.ScenarioAudit.{audit_numbers};
    ghost use Rattle.traces.specs.ManyTraces.{HaveMoreThan};
    ghost use Rattle.traces.specs.declared.all_traces.TheConstants.{MOST_TRACES};
    ghost use Rattle.traces.specs.declared.fault.TickFault.TheVariants.{TooManyPairs};

    /// Returns the taker before the first line.
    pub fn new(alloc: Global, taker: T) -> Settled<T>
        ensures { (scenario : Scenario) → IsBeforeAll (T.taker taker) scenario
            → HasTakenSettled (T.taker result.taker) result.ticks scenario [] [] }
    {
        Settled {
            alloc,
            taker,
            ticks: SettledTicks::new(alloc),
        }
    }

    /// Returns the number of ticks taken so far.
    pub fn count(&self) -> u32
        ensures { result ≡ handed_out self.now.ticks }
    {
        self.ticks.count()
    }

    /// Returns the time of the last tick taken, or of the first tick before any. Earlier places of vessels are not
    /// needed again and may be forgotten.
    pub fn latest_time(&self, scenario: &Scenario) -> u64
        requires { IsInRange scenario.now }
        ensures { result ≡ latest_time scenario.now (handed_out self.now.ticks) }
    {
        self.ticks.latest_time(scenario)
    }

    /// Passes each further tick that the judge's lines settle to the taker, and returns the next items. If no further
    /// tick is settled, this takes no memory. After an `Err` the caller may only drop it.
    pub fn settle(&mut self, scenario: &Scenario, judge: &Judge) -> Result<Vec<T::Item>, TickFault>
        requires in_range { IsInRange scenario.now }
        requires remembers { RemembersTicks (keeping_of judge.now) scenario.now
            (handed_out self.old.ticks) }
        requires one_log { HasTakenOneLog (T.taker self.old.taker) self.old.ticks scenario.now
            judge.now }
        ensures stands { IfOk result
            (λ items. Then (HasTakenSettled (T.taker self.old.taker) self.old.ticks scenario.now)
            scenario.now judge.now
            (λ lines given. HasTakenSettled
            (T.taker self.new.taker) self.new.ticks scenario.now lines (given ++ items.items))) }
        ensures remembers { OnOk result
            (RemembersTicks (keeping_of judge.now) scenario.now (handed_out self.new.ticks)) }
        ensures many { result ≡ Err TooManyPairs
            → Then (HasTakenSettled (T.taker self.old.taker) self.old.ticks scenario.now)
            scenario.now judge.now (λ lines given. HaveManySettled scenario.now lines) }
    {
        let mut items = Vec::new(self.alloc);
        while self.ticks.next(scenario, judge)? {
            let further = self.taker.take_tick(self.ticks.seen(), self.ticks.ranks())?;
            add(&mut items, further)?;
        }
        Ok(items)
    }

    /// Passes the remaining ticks, from the lines of the whole log, to the taker, and returns their items.
    pub fn finish(&mut self, scenario: &Scenario, judge: &Judge) -> Result<Vec<T::Item>, TickFault>
        requires in_range { IsInRange scenario.now }
        requires remembers { RemembersTicks (keeping_of judge.now) scenario.now
            (handed_out self.old.ticks) }
        requires one_log { HasTakenOneLog (T.taker self.old.taker) self.old.ticks scenario.now
            judge.now }
        ensures all { IfOk result
            (λ rest. Then (HasTakenSettled (T.taker self.old.taker) self.old.ticks scenario.now)
            scenario.now judge.now
            (λ lines given. HasTakenAll (T.taker self.new.taker) scenario.now lines
            (given ++ rest.items))) }
        ensures many { result ≡ Err TooManyPairs
            → Then (HasTakenSettled (T.taker self.old.taker) self.old.ticks scenario.now)
            scenario.now judge.now
            (λ lines given. HaveMoreThan MOST_TRACES (audit_numbers scenario.now)
            (sighted scenario.now (sent scenario.now lines))) }
    {
        let mut rest = Vec::new(self.alloc);
        while self.ticks.next_at_end(scenario, judge)? {
            let further = self.taker.take_tick(self.ticks.seen(), self.ticks.ranks())?;
            add(&mut rest, further)?;
        }
        Ok(rest)
    }
}
