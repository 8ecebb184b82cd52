//! The end of the report of `points`.
ghost use Rattle.std.specs.Prelude.{◌≡◌, ◌++◌, ℕ, List, IfErr, IfOk, false};
ghost use Rattle.audit_report.specs.ReportTexts.{HasText};
ghost use Rattle.log_lines.specs.JudgedLines.{judged_lines};
ghost use Rattle.log_lines.specs.LogLines.{lines_of};
ghost use Rattle.log_lines.specs.Standing.{StandsFor as JudgeStandsFor};
ghost use Rattle.audit_report.specs.OutcomeRows.{count_rows};
ghost use Rattle.scenario_values.specs.declared.values.Scenario.{Scenario};
ghost use Rattle.sessions.specs.declared.session_fault.SessionFault.TheVariants as fault;

use crate::ending::Ending;
use crate::session_fault::SessionFault;
use audit_report::{ReportText, write_counts};
use log_lines::Judge;

/// Returns the rest of the report after the rows of the last lines, which are in the text.
pub(crate) fn end_points(mut text: ReportText, judge: &Judge) -> Result<Ending, SessionFault>
    ensures report { IfOk result
        (λ ending. (scenario : Scenario) (log front : List ℕ) → HasText text front
        → JudgeStandsFor judge.now scenario (lines_of log)
        → ending.bytes.items ≡ front ++ count_rows (judged_lines scenario (lines_of log))) }
    ensures search { IfOk result (λ ending. ending.none ≡ false) }
    ensures memory { IfErr result (λ why. why ≡ fault.Memory) }
{
    write_counts(&mut text, judge)?;
    Ok(Ending::without_search(text.into_bytes()?))
}
