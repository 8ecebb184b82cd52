//! The watch over a window's ticks when the lines of a log settle them.
ghost use Rattle.std.specs.Prelude.{◌≡◌, ◌++◌, [], ℕ, List, IfOk, OnOk, Err};
ghost use Rattle.early_monitor.specs.Alarms.{AreAlarms};
ghost use Rattle.early_monitor.specs.declared.alarm.Alarm.{Alarm};
ghost use Rattle.log_lines.specs.SentLines.{sent};
ghost use Rattle.log_lines.specs.Standing.{keeping_of};
ghost use Rattle.scenario_values.specs.ValueRanges.{IsInRange};
ghost use Rattle.settled_ticks.specs.Sightings.{sighted};
ghost use Rattle.settled_ticks.specs.Standing.{RemembersTicks, latest_time};
ghost use Rattle.settling.specs.DecidedAlarms.{AreDecidedAlarms};
ghost use Rattle.settling.specs.Further.{Then};
ghost use Rattle.settling.specs.ManySettled.{HaveManySettled};
ghost use Rattle.settling.specs.ScenarioAudit.{audit_numbers};
ghost use Rattle.settling.specs.WatchStanding.{AreOfOneLog, StandsFor, watched_ticks};
ghost use Rattle.traces.specs.ManyTraces.{HaveMoreThan};
ghost use Rattle.traces.specs.declared.all_traces.TheConstants.{MOST_TRACES};
ghost use Rattle.traces.specs.declared.fault.TickFault.TheVariants.{TooManyPairs};

use crate::settled::{Settled, TickTaker};
use early_monitor::{Alarm, Watch, WatchFault};
use log_lines::Judge;
use motion::TickState;
use out_of_memory::Memory;
use ranks::Rank;
use scenario_values::Scenario;
use std::alloc::Global;

impl TickTaker for Watch {
    ghost use Rattle.settling.specs.Inner.WatchedTicks.{watch_taker};

    type Item = Alarm;

    ghost taker = { watch_taker };

    fn take_tick(
        &mut self,
        seen: &[(u32, TickState)],
        ranks: &[Rank],
    ) -> Result<Vec<Alarm>, WatchFault> {
        self.step(seen, ranks)
    }
}

/// The watch over a window's ticks. It takes each tick once the lines of a log settle it.
#[derive(Drop)]
pub struct SettledWatch {
    settled: Settled<Watch>,
}

impl SettledWatch {
    /// Returns the watch over a scenario's window, before the first line.
    pub fn new(alloc: Global, scenario: &Scenario) -> Result<SettledWatch, Memory>
        requires { IsInRange scenario.now }
        ensures { IfOk result (λ watch. StandsFor watch scenario.now [] []) }
    {
        let watch = Watch::new(
            alloc,
            &scenario.rules,
            scenario.detect,
            scenario.act,
            scenario.subjects.as_slice(),
            scenario.window,
        )?;
        Ok(SettledWatch {
            settled: Settled::new(alloc, watch),
        })
    }

    /// Returns the number of ticks taken so far.
    pub fn count(&self) -> u32
        ensures { result ≡ watched_ticks self.now }
    {
        self.settled.count()
    }

    /// Returns the time of the last tick taken, or of the first tick before any. Earlier places of vessels are not
    /// needed again and may be forgotten.
    pub fn latest_time(&self, scenario: &Scenario) -> u64
        requires { IsInRange scenario.now }
        ensures { result ≡ latest_time scenario.now (watched_ticks self.now) }
    {
        self.settled.latest_time(scenario)
    }

    /// Watches each further tick that the judge's lines settle, and returns the alarms of these ticks. If no further
    /// tick is settled, this takes no memory. After an `Err` the caller may only drop the watch.
    pub fn settle(&mut self, scenario: &Scenario, judge: &Judge) -> Result<Vec<Alarm>, WatchFault>
        requires in_range { IsInRange scenario.now }
        requires remembers { RemembersTicks (keeping_of judge.now) scenario.now
            (watched_ticks self.old) }
        requires one_log { AreOfOneLog self.old scenario.now judge.now }
        ensures stands { IfOk result
            (λ alarms. Then (StandsFor self.old scenario.now) scenario.now judge.now
            (λ lines given. StandsFor self.new scenario.now lines (given ++ alarms.items))) }
        ensures remembers { OnOk result
            (RemembersTicks (keeping_of judge.now) scenario.now (watched_ticks self.new)) }
        ensures decided { IfOk result
            (λ alarms. Then (StandsFor self.old scenario.now) scenario.now judge.now
            (λ lines given. AreDecidedAlarms scenario.now lines (given ++ alarms.items))) }
        // The limit is exceeded exactly if a 4097th trace begins at a settled tick; memory may run out before.
        ensures many { result ≡ Err TooManyPairs
            → Then (StandsFor self.old scenario.now) scenario.now judge.now
            (λ lines given. HaveManySettled scenario.now lines) }
        ensures few { OnOk result (Then (StandsFor self.old scenario.now) scenario.now judge.now
            (λ lines given. HaveManySettled scenario.now lines → ⊥)) }
    {
        self.settled.settle(scenario, judge)
    }

    /// Watches the remaining ticks, from the lines of the whole log, and ends the watch. Returns the remaining alarms.
    pub fn end(mut self, scenario: &Scenario, judge: &Judge) -> Result<Vec<Alarm>, WatchFault>
        requires in_range { IsInRange scenario.now }
        requires remembers { RemembersTicks (keeping_of judge.now) scenario.now
            (watched_ticks self) }
        requires one_log { AreOfOneLog self scenario.now judge.now }
        ensures alarms { IfOk result
            (λ rest. Then (StandsFor self scenario.now) scenario.now judge.now
            (λ lines given. AreAlarms (audit_numbers scenario.now)
            (sighted scenario.now (sent scenario.now lines)) (given ++ rest.items))) }
        // The limit is exceeded exactly if a 4097th trace begins; memory may run out before.
        ensures many { result ≡ Err TooManyPairs
            → Then (StandsFor self scenario.now) scenario.now judge.now
            (λ lines given. HaveMoreThan MOST_TRACES (audit_numbers scenario.now)
            (sighted scenario.now (sent scenario.now lines))) }
        ensures few { OnOk result (Then (StandsFor self scenario.now) scenario.now judge.now
            (λ lines given. HaveMoreThan MOST_TRACES (audit_numbers scenario.now)
            (sighted scenario.now (sent scenario.now lines)) → ⊥)) }
    {
        self.settled.finish(scenario, judge)
    }
}
