//! The watch over a window, tick by tick.
ghost use Rattle.std.specs.Prelude.{◌≡◌, ◌+◌, ◌≤◌, ◌++◌, ◌∷◌, [], List, IfOk, OnOk, Err};
ghost use Rattle.encounters.specs.Risk.{IsDetect};
ghost use Rattle.traces.specs.Audited.{AreAscending, ArePlaced, AuditNumbers, MoveLittle, Sighting};
ghost use Rattle.traces.specs.ManyTraces.{HaveMoreThan};
ghost use Rattle.traces.specs.declared.all_traces.TheConstants.{MOST_TRACES};
ghost use Rattle.traces.specs.declared.fault.TickFault.TheVariants.{TooManyPairs};
ghost use Rattle.early_monitor.specs.Alarms.{AreAlarms, AreAlarmsNow};
ghost use Rattle.early_monitor.specs.declared.alarm.Alarm.{Alarm};
ghost use Rattle.early_monitor.specs.Watching.{IsSound, StandsFor, given_of, last_tick_of, latest_vessels};

use crate::alarm::Alarm;
use crate::alarm_set::listed;
use crate::watch_keeper::WatchKeeper;
use crate::watched_rules::WatchedRules;
use encounters::{Act, Detect};
use motion::TickState;
use out_of_memory::Memory;
use ranks::Rank;
use rule_set::RuleSet;
use scenario_values::Window;
use std::alloc::Global;
use std::collections::BTreeSet;
use traces::{AllTraces, TickFault, TraceWindow};

/// The watch over a window. Its model is the list of vessels seen at each tick so far.
#[derive(Drop)]
pub struct Watch {
    alloc: Global,
    window: TraceWindow<WatchKeeper>,
}

impl Watch {
    /// Returns the watch over a window by these rules and numbers. It watches the pairs in which one vessel is a subject, or all pairs
    /// if there are no subjects.
    pub fn new(
        alloc: Global,
        rules: &RuleSet,
        detect: Detect,
        act: Act,
        subjects: &[u32],
        window: Window,
    ) -> Result<Watch, Memory>
        requires detect { IsDetect detect }
        requires ticks { window.ticks ≤ 20000 }
        ensures sound { IfOk result (λ watch. IsSound watch) }
        ensures stands { IfOk result (λ watch. StandsFor watch (record {
          detect = detect;
          act = act;
          tick = window.tick;
          last_tick = window.ticks;
          subjects = subjects.now;
          rules = rules.now;
        }) []) }
    {
        let rules = WatchedRules::new(alloc, rules)?;
        let keeper = WatchKeeper {
            alloc,
            rules,
            alarms: BTreeSet::new(alloc),
        };
        let traces = AllTraces::new(alloc, detect, act, subjects, window.tick, window.ticks)?;
        Ok(Watch {
            alloc,
            window: TraceWindow::new(alloc, traces, keeper),
        })
    }

    /// Takes the vessels seen at the next tick, in the order of their MMSIs, and their ranks in the same order; no
    /// ranks if they do not count. Returns the alarms of each breach that the step to this tick decides: call `k`,
    /// counted from 0, returns those with the deciding step `k - 1`. After an `Err` the caller may only drop the watch.
    pub fn step(
        &mut self,
        seen: &[(u32, TickState)],
        ranks: &[Rank],
    ) -> Result<Vec<Alarm>, TickFault>
        requires sound { IsSound self.old }
        requires ascending { AreAscending seen.now }
        requires placed { ArePlaced seen.now }
        requires moves { MoveLittle (latest_vessels self.old) seen.now }
        requires more { given_of self.old ≤ last_tick_of self.old }
        ensures sound { OnOk result (IsSound self.new) }
        ensures given { OnOk result (given_of self.new ≡ given_of self.old + 1) }
        ensures last_tick { OnOk result (last_tick_of self.new ≡ last_tick_of self.old) }
        ensures latest { OnOk result (latest_vessels self.new ≡ seen.now) }
        ensures stands { OnOk result
            ((numbers : AuditNumbers) (ticks : List Sighting) → StandsFor self.old numbers ticks
            → StandsFor self.new numbers
            (ticks ++ record { vessels = seen.now; ranks = ranks.now } ∷ [])) }
        ensures alarms { IfOk result
            (λ alarms. (numbers : AuditNumbers) (ticks : List Sighting)
            → StandsFor self.old numbers ticks
            → AreAlarmsNow numbers
            (ticks ++ record { vessels = seen.now; ranks = ranks.now } ∷ []) alarms.items) }
        // These complete the alarms of the ticks so far.
        ensures all { IfOk result
            (λ alarms. (numbers : AuditNumbers) (ticks : List Sighting) (given : List Alarm)
            → StandsFor self.old numbers ticks → AreAlarms numbers ticks given
            → AreAlarms numbers (ticks ++ record { vessels = seen.now; ranks = ranks.now } ∷ [])
            (given ++ alarms.items)) }
        // The limit is exceeded exactly if the tick begins a 4097th trace; memory may run out before.
        ensures many { result ≡ Err TooManyPairs → (numbers : AuditNumbers) (ticks : List Sighting)
            → StandsFor self.old numbers ticks
            → HaveMoreThan MOST_TRACES numbers
            (ticks ++ record { vessels = seen.now; ranks = ranks.now } ∷ []) }
        ensures few { OnOk result
            ((numbers : AuditNumbers) (ticks : List Sighting) → StandsFor self.old numbers ticks
            → HaveMoreThan MOST_TRACES numbers
            (ticks ++ record { vessels = seen.now; ranks = ranks.now } ∷ []) → ⊥) }
    {
        self.window.tick(seen, ranks)?;
        let alarms = listed(self.alloc, &self.window.keeper.alarms)?;
        self.window.keeper.alarms = BTreeSet::new(self.alloc);
        Ok(alarms)
    }
}
