//! The report of `recheck`, at a log's end.
ghost use Rattle.std.specs.Prelude.{◌≡◌, ◌≤◌, ℕ, List, length, IfErr, IfOk, IsSome, Ok};
ghost use Rattle.report_csv.specs.CsvRows.{row_of};
ghost use Rattle.audit_report.specs.ReportRows.{no_plan_fields};
ghost use Rattle.tasks.specs.declared.mode.Mode.{Mode};
ghost use Rattle.tasks.specs.declared.mode.Mode.TheVariants as mode;
ghost use Rattle.log_lines.specs.LogLines.{lines_of};
ghost use Rattle.log_lines.specs.Standing.{StandsFor as JudgeStandsFor, keeping_of};
ghost use Rattle.refutation_check.specs.declared.checked_text.TheConstants.{GREATEST_TEXT};
ghost use Rattle.scenario_values.specs.ValueRanges.{IsInRange};
ghost use Rattle.plan_situations.specs.Situations.{IsSituation};
ghost use Rattle.tracks.specs.declared.keeping.Keeping.TheVariants.{Tracks};
ghost use Rattle.sessions.specs.Endings.{IsAnswerOf};
ghost use Rattle.tasks.specs.Modes.{focus_of, own_ship};
ghost use Rattle.sessions.specs.PlanReport.{IsSituationOn};
ghost use Rattle.sessions.specs.RecheckReport.{IsRecheckReport};
ghost use Rattle.sessions.specs.Inner.Faults.{EndCause};
ghost use Rattle.sessions.specs.Inner.Rechecking.{IsBadText, IsCheckedReport};

use crate::ending::Ending;
use crate::session_fault::SessionFault;
use audit_report::{ReportRow, ReportText};
use log_lines::Judge;
use out_of_memory::Memory;
use plan_situations::{Situation, prepare};
use refutation_check::recheck;
use refutations::Checked;
use scenario_values::Scenario;
use std::alloc::Global;

/// Returns the situation in which own ship's plan is sought.
pub(crate) fn situation_at_end(
    alloc: Global,
    scenario: Scenario,
    judge: &Judge,
) -> Result<Situation, SessionFault>
    requires in_range { IsInRange scenario }
    requires own { IsSome scenario.own }
    requires keeping { keeping_of judge.now ≡ Tracks }
    requires at_end { (log : List ℕ) × JudgeStandsFor judge.now scenario (lines_of log) }
    ensures sound { IfOk result IsSituation }
    ensures situation { IfOk result
        (λ situation. (log : List ℕ) → JudgeStandsFor judge.now scenario (lines_of log)
        → IsSituationOn scenario log situation) }
    ensures cause { IfErr result
        (λ why. (log : List ℕ) → JudgeStandsFor judge.now scenario (lines_of log)
        → (mode : Mode) (rows : List ℕ) → focus_of mode ≡ own_ship
        → EndCause mode rows scenario log why) }
{
    let prepared = prepare(alloc, scenario, judge.book())?;
    Ok(prepared.situation)
}

/// Returns the row that says that each of this number of plans fails.
fn no_plan(alloc: Global, plans: u32) -> Result<Vec<u8>, Memory>
    ensures { IfOk result (λ text. text.items ≡ row_of (no_plan_fields plans)) }
{
    let mut text = ReportText::new(alloc);
    text.write(&ReportRow::NoPlan { plans })?;
    Ok(text.into_bytes()?)
}

/// Checks these rows in a situation, and returns the report.
fn checked_report(alloc: Global, situation: &Situation, rows: &[u8]) -> Result<Ending, SessionFault>
    requires sound { IsSituation situation.now }
    requires few { length rows.now ≤ GREATEST_TEXT }
    ensures right { IfOk result (IsCheckedReport situation.now rows.now) }
    ensures bad { IfErr result (IsBadText situation.now rows.now) }
{
    match recheck(alloc, situation, rows)? {
        Checked::Right => Ok(Ending::without_search(no_plan(alloc, situation.lattice.plans())?)),
        Checked::Bad(index) => Err(SessionFault::Entry(index)),
    }
}

/// Returns the whole report: that there is no plan, if the rows `why` of a text say rightly why.
pub(crate) fn end_recheck(
    alloc: Global,
    scenario: Scenario,
    judge: &Judge,
    rows: &[u8],
) -> Result<Ending, SessionFault>
    requires in_range { IsInRange scenario }
    requires own { IsSome scenario.own }
    requires keeping { keeping_of judge.now ≡ Tracks }
    requires at_end { (log : List ℕ) × JudgeStandsFor judge.now scenario (lines_of log) }
    requires few { length rows.now ≤ GREATEST_TEXT }
    ensures report { IfOk result
        (λ ending. (log : List ℕ) → JudgeStandsFor judge.now scenario (lines_of log)
        → IsRecheckReport rows.now scenario log ending.bytes.items) }
    ensures answer { IfOk result
        (λ ending. (log : List ℕ) → JudgeStandsFor judge.now scenario (lines_of log)
        → IsAnswerOf mode.Recheck rows.now scenario log (Ok ending.none)) }
    ensures cause { IfErr result
        (λ why. (log : List ℕ) → JudgeStandsFor judge.now scenario (lines_of log)
        → EndCause mode.Recheck rows.now scenario log why) }
{
    let situation = situation_at_end(alloc, scenario, judge)?;
    checked_report(alloc, &situation, rows)
}
