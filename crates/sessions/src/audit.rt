//! The end of the report of `audit`.
ghost use Rattle.std.specs.Prelude.{◌≡◌, ◌≢◌, ◌++◌, [], ℕ, List, IfErr, IfOk, Ok, length};
ghost use Rattle.audit_report.specs.ReportTexts.{HasText};
ghost use Rattle.audit_rows.specs.declared.row.Row.{Row};
ghost use Rattle.log_lines.specs.LogLines.{lines_of};
ghost use Rattle.log_lines.specs.Standing.{StandsFor as JudgeStandsFor, keeping_of};
ghost use Rattle.scenario_values.specs.ValueRanges.{IsInRange};
ghost use Rattle.sessions.specs.AuditReport.{IsAuditReport, rows_behind};
ghost use Rattle.audit_report.specs.StretchRows.{AreOfRules, stretch_rows};
ghost use Rattle.settled_ticks.specs.Standing.{RemembersTicks};
ghost use Rattle.settling.specs.Standing.{audited_ticks};
ghost use Rattle.sessions.specs.Endings.{IsAnswerOf};
ghost use Rattle.sessions.specs.Inner.AtEnd.{IsAuditAtEnd, IsAuditOf};
ghost use Rattle.sessions.specs.Inner.Faults.{EndCause};
ghost use Rattle.tasks.specs.declared.mode.Mode.TheVariants.{Audit};
ghost use Rattle.tracks.specs.declared.keeping.Keeping.TheVariants.{Latest};

use crate::ending::Ending;
use crate::session_fault::SessionFault;
use audit_report::{ReportText, write_counts, write_stretches, write_totals, write_vessels};
use auditor::AuditEnd;
use log_lines::Judge;
use out_of_memory::Memory;
use scenario_values::Scenario;
use settling::SettledAudit;

/// Returns the rest of the report after the rows in the text, from what the audit ends with.
fn rest_of_audit(
    mut text: ReportText,
    scenario: &Scenario,
    end: &AuditEnd,
    judge: &Judge,
) -> Result<Vec<u8>, Memory>
    requires keeping { keeping_of judge.now ≢ Latest }
    requires rows { AreOfRules scenario.now.rules end.now.rows.items }
    requires totals { length end.now.totals.items ≡ length scenario.now.rules }
    ensures { IfOk result
        (λ rest. (log front : List ℕ) → HasText text front
        → JudgeStandsFor judge.now scenario.now (lines_of log)
        → rest.items ≡ front
        ++ (stretch_rows scenario.now.rules end.now.rows.items
        ++ rows_behind scenario.now log end.now.totals.items)) }
{
    write_stretches(&mut text, &scenario.rules, end.rows.as_slice())?;
    write_vessels(&mut text, judge.book())?;
    write_totals(&mut text, &scenario.rules, end.totals.as_slice())?;
    write_counts(&mut text, judge)?;
    Ok(text.into_bytes()?)
}

/// Ends the audit, and returns the rest of the report after the rows that the audit gave last, which are in the text.
pub(crate) fn end_audit(
    text: ReportText,
    scenario: &Scenario,
    audit: SettledAudit,
    judge: &Judge,
) -> Result<Ending, SessionFault>
    requires in_range { IsInRange scenario.now }
    requires remembers { RemembersTicks (keeping_of judge.now) scenario.now (audited_ticks audit) }
    requires at_end { IsAuditAtEnd audit judge.now scenario.now }
    ensures report { IfOk result
        (λ ending. (log before front : List ℕ) (given : List Row)
        → IsAuditOf audit judge.now scenario.now log given → HasText text front
        → before ++ front ≡ stretch_rows scenario.now.rules given
        → IsAuditReport scenario.now log (before ++ ending.bytes.items)) }
    ensures answer { IfOk result
        (λ ending. (log : List ℕ) (given : List Row)
        → IsAuditOf audit judge.now scenario.now log given
        → IsAnswerOf Audit [] scenario.now log (Ok ending.none)) }
    ensures cause { IfErr result
        (λ why. (log : List ℕ) (given : List Row) → IsAuditOf audit judge.now scenario.now log given
        → EndCause Audit [] scenario.now log why) }
{
    let end = audit.end(scenario, judge)?;
    Ok(Ending::without_search(rest_of_audit(text, scenario, &end, judge)?))
}
