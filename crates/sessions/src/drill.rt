//! The end of the report of `drill`.
ghost use Rattle.std.specs.Prelude.{◌≡◌, [], ℕ, List, IfErr, IfOk, Ok, length};
ghost use Rattle.audit_rows.specs.declared.row.Row.{Row};
ghost use Rattle.log_lines.specs.LogLines.{lines_of};
ghost use Rattle.log_lines.specs.Standing.{StandsFor as JudgeStandsFor, keeping_of};
ghost use Rattle.scenario_values.specs.ValueRanges.{IsInRange};
ghost use Rattle.sessions.specs.DrillReport.{IsDrillReport, drill_text};
ghost use Rattle.settled_ticks.specs.Standing.{RemembersTicks};
ghost use Rattle.settling.specs.Standing.{audited_ticks};
ghost use Rattle.sessions.specs.Endings.{IsAnswerOf};
ghost use Rattle.sessions.specs.Inner.AtEnd.{IsAuditAtEnd, IsAuditOf};
ghost use Rattle.sessions.specs.Inner.Faults.{EndCause};
ghost use Rattle.tasks.specs.declared.mode.Mode.TheVariants.{Drill};

use crate::ending::Ending;
use crate::session_fault::SessionFault;
use audit_report::{ReportText, write_counts, write_totals};
use auditor::AuditEnd;
use log_lines::Judge;
use out_of_memory::Memory;
use scenario_values::Scenario;
use settling::SettledAudit;
use std::alloc::Global;

/// Returns the report, from what the audit ends with. It has no rows of stretches.
fn drill_report(
    alloc: Global,
    scenario: &Scenario,
    end: &AuditEnd,
    judge: &Judge,
) -> Result<Vec<u8>, Memory>
    requires { length end.now.totals.items ≡ length scenario.now.rules }
    ensures { IfOk result
        (λ text. (log : List ℕ) → JudgeStandsFor judge.now scenario.now (lines_of log)
        → text.items ≡ drill_text scenario.now log end.now.totals.items) }
{
    let mut text = ReportText::new(alloc);
    write_totals(&mut text, &scenario.rules, end.totals.as_slice())?;
    write_counts(&mut text, judge)?;
    Ok(text.into_bytes()?)
}

/// Ends the audit, and returns the whole report.
pub(crate) fn end_drill(
    alloc: Global,
    scenario: &Scenario,
    audit: SettledAudit,
    judge: &Judge,
) -> Result<Ending, SessionFault>
    requires in_range { IsInRange scenario.now }
    requires remembers { RemembersTicks (keeping_of judge.now) scenario.now (audited_ticks audit) }
    requires at_end { IsAuditAtEnd audit judge.now scenario.now }
    ensures report { IfOk result
        (λ ending. (log : List ℕ) (rows : List Row)
        → IsAuditOf audit judge.now scenario.now log rows
        → IsDrillReport scenario.now log ending.bytes.items) }
    ensures answer { IfOk result
        (λ ending. (log : List ℕ) (rows : List Row)
        → IsAuditOf audit judge.now scenario.now log rows
        → IsAnswerOf Drill [] scenario.now log (Ok ending.none)) }
    ensures cause { IfErr result
        (λ why. (log : List ℕ) (rows : List Row) → IsAuditOf audit judge.now scenario.now log rows
        → EndCause Drill [] scenario.now log why) }
{
    let end = audit.end(scenario, judge)?;
    Ok(Ending::without_search(drill_report(alloc, scenario, &end, judge)?))
}
