//! One trace of a watch.
ghost use Rattle.std.specs.Prelude.{◌<◌, ◌^◌};

use crate::alarm::Alarm;
use crate::alarm_set::Place;
use crate::early_program::EarlyState;
use crate::rule_lists::{are_plain, begin_rules};
use crate::watched_rules::{WatchedRules, has_no_alarm, is_quiet};
use meetings::{AtomRow, Pair};
use mtl_formulas::Glance;
use mtl_monitor::TraceState;
use out_of_memory::Memory;
use std::alloc::Global;
use std::collections::BTreeSet;

/// One trace: its pair, its first step, and the values of the rules' formulas over its steps so far.
#[derive(Drop)]
pub(crate) struct WatchedTrace {
    pair: Pair,
    start: u32,
    values: TraceState,
    /// The early state of each rule whose breaches may be decided early.
    early: Vec<Option<EarlyState>>,
    /// Whether further rows have no alarm of a rule without a program of its own unless they change a rule's value.
    calm: bool,
    /// Whether no rule has a program of its own.
    plain: bool,
    ghost small: { start < 2 ^ 31 },
}

impl WatchedTrace {
    ghost use Rattle.std.specs.Prelude.{ℕ, ◌≡◌, ◌≤◌, ◌+◌, List, IfOk, OnOk, Option, false, true};
    ghost use Rattle.encounters.specs.declared.pair_step.PairStep.{PairStep};
    ghost use Rattle.meetings.specs.Answers.{answer_of};
    ghost use Rattle.mtl_formulas.specs.Glances.{IsTold};
    ghost use Rattle.mtl_formulas.specs.declared.atom.Atom.{Atom};
    ghost use Rattle.mtl_formulas.specs.declared.verdict.Verdict.{Verdict};
    ghost use Rattle.mtl_monitor.specs.Following.{count_of};
    ghost use Rattle.traces.specs.Audited.{AuditNumbers};
    ghost use Rattle.traces.specs.Known.{Known, opened, watched};
    ghost use Rattle.early_monitor.specs.declared.alarm.Alarm.{Alarm};
    ghost use Rattle.early_monitor.specs.Inner.Breaches.{Adds, IsBreachOf};
    ghost use Rattle.early_monitor.specs.Inner.RulesWatched.{AreWatched};
    ghost use Rattle.early_monitor.specs.Inner.TraceWatched.{IsReady, StandsFor, steps_of};

    /// Returns the trace of a pair that begins at a step, before its first step.
    pub(crate) fn new(
        alloc: Global,
        rules: &WatchedRules,
        pair: Pair,
        start: u32,
    ) -> Result<WatchedTrace, Memory>
        requires { start < 2 ^ 31 }
        ensures ready { IfOk result (IsReady rules.now) }
        ensures steps { IfOk result (λ trace. steps_of trace ≡ 0) }
        ensures stands { IfOk result
            (λ trace. (numbers : AuditNumbers) → AreWatched rules.now numbers.rules
            → StandsFor rules.now numbers trace (opened pair start)) }
    {
        let values = TraceState::new(alloc, &rules.program)?;
        let early = begin_rules(alloc, rules)?;
        let plain = are_plain(&rules.early);
        Ok(WatchedTrace {
            pair,
            start,
            values,
            early,
            calm: false,
            plain,
        })
    }

    /// Takes the row of the next step, which has this number, and adds its alarms.
    pub(crate) fn step(
        &mut self,
        rules: &WatchedRules,
        row: &AtomRow,
        step: u32,
        alarms: &mut BTreeSet<Alarm>,
    ) -> Result<(), Memory>
        requires ready { IsReady rules.now self.old }
        requires few { steps_of self.old < 2 ^ 31 }
        requires rules { count_of rules.now.program ≤ 17 }
        ensures ready { OnOk result (IsReady rules.now self.new) }
        ensures steps { OnOk result (steps_of self.new ≡ steps_of self.old + 1) }
        ensures stands { OnOk result
            ((numbers : AuditNumbers) (known : Known) (seen : Option PairStep)
            → AreWatched rules.now numbers.rules → StandsFor rules.now numbers self.old known
            → StandsFor rules.now numbers self.new (watched known seen (answer_of row.now))) }
        ensures adds { OnOk result
            ((numbers : AuditNumbers) (known : Known) (seen : Option PairStep)
            → AreWatched rules.now numbers.rules → StandsFor rules.now numbers self.old known
            → Adds (IsBreachOf numbers step (watched known seen (answer_of row.now)))
            alarms.old.keys alarms.new.keys) }
    {
        let WatchedTrace {
            pair,
            start,
            values,
            early,
            calm,
            plain,
        } = self;
        let changes = values.feed(&rules.program, row);
        let quiet = is_quiet(*calm, changes);
        if has_no_alarm(quiet, *plain) {
            return Ok(());
        }
        let mut all_calm = true;
        for (rule, state) in early.iter_mut().enumerate() {
            let place = Place {
                pair: *pair,
                start: *start,
                rule: rule as u32,
                step,
            };
            if !rules.take_row(quiet, values, state, row, place, alarms)? {
                all_calm = false;
            }
        }
        *calm = all_calm;
        Ok(())
    }

    /// Takes the next step without its row, if a glance at the row suffices: it has no alarm. Otherwise changes nothing
    /// and returns false.
    #[inline(always)]
    pub(crate) fn rest(&mut self, rules: &WatchedRules, glance: Glance) -> bool
        requires ready { IsReady rules.now self.old }
        requires few { steps_of self.old < 2 ^ 31 }
        ensures stays { result ≡ false → self.new ≡ self.old }
        ensures ready { IsReady rules.now self.new }
        ensures steps { result ≡ true → steps_of self.new ≡ steps_of self.old + 1 }
        ensures stands { result ≡ true → (numbers : AuditNumbers) (known : Known)
            (seen : Option PairStep) (answers : Atom → Verdict) → IsTold glance answers
            → AreWatched rules.now numbers.rules → StandsFor rules.now numbers self.old known
            → StandsFor rules.now numbers self.new (watched known seen answers) }
        ensures adds { result ≡ true → (numbers : AuditNumbers) (known : Known)
            (seen : Option PairStep) (answers : Atom → Verdict) (step : ℕ) (alarms : List Alarm)
            → IsTold glance answers → AreWatched rules.now numbers.rules
            → StandsFor rules.now numbers self.old known
            → Adds (IsBreachOf numbers step (watched known seen answers)) alarms alarms }
    {
        if !has_no_alarm(self.calm, self.plain) {
            return false;
        }
        self.values.rest(&rules.program, glance)
    }
}
