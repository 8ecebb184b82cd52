//! What a session does on each line that is judged, and at the end of the log.
ghost use Rattle.std.specs.Prelude.{◌≡◌, ◌≢◌, ◌≤◌, ◌++◌, [], ℕ, List, IfErr, IfOk, IfSome, IsSome, IsTrue, OnOk, Err, length};
ghost use Rattle.audit_report.specs.ReportTexts.{HasText};
ghost use Rattle.log_lines.specs.Standing.{keeping_of};
ghost use Rattle.refutation_check.specs.declared.checked_text.TheConstants.{GREATEST_TEXT};
ghost use Rattle.scenario_values.specs.ValueRanges.{IsInRange};
ghost use Rattle.sessions.specs.Inner.AtEnd.{EndsWithAnswer, EndsWithCause, EndsWithReport, IsAtEnd};
ghost use Rattle.sessions.specs.Inner.Working.{GoesOn, IsDone, IsReadyFor, Works};
ghost use Rattle.tasks.specs.Modes.{needs_own};
ghost use Rattle.sessions.specs.Refusals.{HasManySettled};
ghost use Rattle.sessions.specs.Standing.{KeepsEnough, keeping_by, mode_by};
ghost use Rattle.sessions.specs.declared.session_fault.SessionFault.TheVariants as fault;
ghost use Rattle.tracks.specs.Standing.{forgetting};
ghost use Rattle.tracks.specs.declared.keeping.Keeping.{Keeping};

use crate::asked::Asked;
use crate::audit::end_audit;
use crate::drill::end_drill;
use crate::ending::Ending;
use crate::plan::end_plan;
use crate::points::end_points;
use crate::recheck::end_recheck;
use crate::session_fault::SessionFault;
use crate::watch::end_watch;
use audit_report::{ReportText, write_alarms, write_line, write_stretches};
use log_lines::{Judge, Judged};
use out_of_memory::Memory;
use scenario_values::Scenario;
use settling::{SettledAudit, SettledWatch};
use std::alloc::Global;
use tasks::Mode;
use tracks::Keeping;

/// What a mode does, and what it stores beside the lines.
#[derive(Drop)]
pub(crate) enum Work {
    Points,
    Audit(SettledAudit),
    Plan,
    Drill(SettledAudit),
    Recheck,
    Watch(SettledWatch),
}

impl Work {
    /// Returns the work of a mode, before the first line.
    pub(crate) fn of(alloc: Global, scenario: &Scenario, mode: Mode) -> Result<Work, Memory>
        requires { IsInRange scenario.now }
        ensures mode { IfOk result (λ work. mode_by work ≡ mode) }
        ensures done { IfOk result (λ work. IsDone work scenario.now [] []) }
    {
        match mode {
            Mode::Points => Ok(Work::Points),
            Mode::Audit => Ok(Work::Audit(SettledAudit::new(alloc, scenario)?)),
            Mode::Plan => Ok(Work::Plan),
            Mode::Drill => Ok(Work::Drill(SettledAudit::new(alloc, scenario)?)),
            Mode::Recheck => Ok(Work::Recheck),
            Mode::Watch => Ok(Work::Watch(SettledWatch::new(alloc, scenario)?)),
        }
    }

    /// Returns how much it needs stored of each vessel.
    pub(crate) fn keeping(&self) -> Keeping
        ensures { result ≡ keeping_by self.now }
    {
        match self {
            Work::Points => Keeping::Latest,
            Work::Audit(_) | Work::Plan | Work::Drill(_) | Work::Recheck | Work::Watch(_) =>
                Keeping::Tracks,
        }
    }

    /// Returns the time before which the work no longer looks back, if it has taken at least `ticks` ticks of the window.
    pub(crate) fn looks_back_to(&self, scenario: &Scenario, ticks: u32) -> Option<u64>
        requires { IsInRange scenario.now }
        ensures { IfSome result
            (λ time. (keeping : Keeping) → KeepsEnough self.now scenario.now keeping
            → KeepsEnough self.now scenario.now (forgetting keeping time)) }
    {
        match self {
            Work::Audit(audit) | Work::Drill(audit) if ticks <= audit.count() => Some(
                audit.latest_time(scenario),
            ),
            Work::Watch(watch) if ticks <= watch.count() => Some(watch.latest_time(scenario)),
            _ => None,
        }
    }

    /// Does the work on a line that the judge has taken, and writes what the line decides.
    pub(crate) fn go_on(
        &mut self,
        scenario: &Scenario,
        judge: &Judge,
        judged: &Judged,
        text: &mut ReportText,
    ) -> Result<(), SessionFault>
        requires in_range { IsInRange scenario.now }
        requires keeping { KeepsEnough self.old scenario.now (keeping_of judge.now) }
        requires ready { IsReadyFor self.old scenario.now judge.now }
        ensures mode { mode_by self.new ≡ mode_by self.old }
        ensures goes_on { OnOk result
            ((front : List ℕ) → HasText text.old front
            → GoesOn self.old self.new scenario.now judge.now judged.now front text.new) }
        ensures few { OnOk result
            ((lines more : List (List ℕ)) → Works self.old scenario.now judge.now lines more
            → HasManySettled (mode_by self.old) scenario.now (lines ++ more) → ⊥) }
        ensures many { result ≡ Err fault.Pairs → (lines more : List (List ℕ))
            → Works self.old scenario.now judge.now lines more
            → HasManySettled (mode_by self.old) scenario.now (lines ++ more) }
        ensures unwritten { result ≡ Err fault.Pairs → text.new ≡ text.old }
        ensures alone { IfErr result (λ why. why ≢ fault.Pairs → why ≡ fault.Memory) }
    {
        match self {
            Work::Points => Ok(write_line(text, judged)?),
            Work::Audit(audit) => {
                let rows = audit.settle(scenario, judge)?;
                Ok(write_stretches(text, &scenario.rules, rows.as_slice())?)
            }
            Work::Watch(watch) => {
                let alarms = watch.settle(scenario, judge)?;
                Ok(write_alarms(text, &scenario.rules, alarms.as_slice())?)
            }
            Work::Drill(audit) => {
                let _ = audit.settle(scenario, judge)?;
                Ok(())
            }
            Work::Plan | Work::Recheck => Ok(()),
        }
    }

    /// Ends the work after the last line of a log, and returns the rest of the report that is asked for, after the rows in the text, which are
    /// what the last lines decided.
    pub(crate) fn end(
        self,
        alloc: Global,
        scenario: Scenario,
        judge: &Judge,
        asked: &Asked<'_>,
        text: ReportText,
    ) -> Result<Ending, SessionFault>
        requires in_range { IsInRange scenario }
        requires own { IsTrue (needs_own (mode_by self)) → IsSome scenario.own }
        requires keeping { KeepsEnough self scenario (keeping_of judge.now) }
        requires rows { length asked.now.rows.now ≤ GREATEST_TEXT }
        requires at_end { (log : List ℕ) × (given : List ℕ)
            × IsAtEnd self judge.now scenario log given }
        ensures report { IfOk result (EndsWithReport self judge.now scenario asked.now text) }
        ensures answer { IfOk result (EndsWithAnswer self judge.now scenario asked.now) }
        ensures cause { IfErr result (EndsWithCause self judge.now scenario asked.now) }
    {
        match self {
            Work::Points => {
                drop(scenario);
                end_points(text, judge)
            }
            Work::Audit(audit) => {
                let ending = end_audit(text, &scenario, audit, judge);
                drop(scenario);
                ending
            }
            Work::Plan => {
                drop(text);
                end_plan(alloc, scenario, judge, asked.why)
            }
            Work::Drill(audit) => {
                drop(text);
                let ending = end_drill(alloc, &scenario, audit, judge);
                drop(scenario);
                ending
            }
            Work::Recheck => {
                drop(text);
                end_recheck(alloc, scenario, judge, asked.rows)
            }
            Work::Watch(watch) => {
                let ending = end_watch(text, &scenario, watch, judge);
                drop(scenario);
                ending
            }
        }
    }
}
