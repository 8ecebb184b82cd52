//! The end of the report of `watch`.
ghost use Rattle.std.specs.Prelude.{◌≡◌, ◌++◌, [], ℕ, List, IfErr, IfOk, Ok};
ghost use Rattle.audit_report.specs.ReportTexts.{HasText};
ghost use Rattle.early_monitor.specs.declared.alarm.Alarm.{Alarm};
ghost use Rattle.log_lines.specs.Standing.{keeping_of};
ghost use Rattle.scenario_values.specs.ValueRanges.{IsInRange};
ghost use Rattle.sessions.specs.WatchReport.{IsWatchReport};
ghost use Rattle.audit_report.specs.AlarmRows.{alarm_rows};
ghost use Rattle.settled_ticks.specs.Standing.{RemembersTicks};
ghost use Rattle.settling.specs.WatchStanding.{watched_ticks};
ghost use Rattle.sessions.specs.Endings.{IsAnswerOf};
ghost use Rattle.sessions.specs.Inner.AtEnd.{IsWatchAtEnd, IsWatchOf};
ghost use Rattle.sessions.specs.Inner.Faults.{EndCause};
ghost use Rattle.tasks.specs.declared.mode.Mode.TheVariants.{Watch};

use crate::ending::Ending;
use crate::session_fault::SessionFault;
use audit_report::{ReportText, write_alarms, write_counts};
use log_lines::Judge;
use scenario_values::Scenario;
use settling::SettledWatch;

/// Ends the watch, and returns the rest of the report after the alarms that the watch gave last, which are in the text.
pub(crate) fn end_watch(
    mut text: ReportText,
    scenario: &Scenario,
    watch: SettledWatch,
    judge: &Judge,
) -> Result<Ending, SessionFault>
    requires in_range { IsInRange scenario.now }
    requires remembers { RemembersTicks (keeping_of judge.now) scenario.now (watched_ticks watch) }
    requires at_end { IsWatchAtEnd watch judge.now scenario.now }
    ensures report { IfOk result
        (λ ending. (log before front : List ℕ) (given : List Alarm)
        → IsWatchOf watch judge.now scenario.now log given → HasText text front
        → before ++ front ≡ alarm_rows scenario.now.rules given
        → IsWatchReport scenario.now log (before ++ ending.bytes.items)) }
    ensures answer { IfOk result
        (λ ending. (log : List ℕ) (given : List Alarm)
        → IsWatchOf watch judge.now scenario.now log given
        → IsAnswerOf Watch [] scenario.now log (Ok ending.none)) }
    ensures cause { IfErr result
        (λ why. (log : List ℕ) (given : List Alarm)
        → IsWatchOf watch judge.now scenario.now log given
        → EndCause Watch [] scenario.now log why) }
{
    let alarms = watch.end(scenario, judge)?;
    write_alarms(&mut text, &scenario.rules, alarms.as_slice())?;
    write_counts(&mut text, judge)?;
    Ok(Ending::without_search(text.into_bytes()?))
}
