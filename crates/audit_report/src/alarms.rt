//! The rows of alarms.
ghost use Rattle.std.specs.Prelude.{◌++◌, ◌<◌, ℕ, List, All, OnOk, length};
ghost use Rattle.report_csv.specs.CsvRows.{row_of};
ghost use Rattle.audit_report.specs.ReportTexts.{HasText};
ghost use Rattle.early_monitor.specs.declared.alarm.Alarm.{Alarm};
ghost use Rattle.audit_report.specs.AlarmRows.{alarm_rows, told_alarm};

use crate::report_row::ReportRow;
use crate::report_text::ReportText;
use early_monitor::Alarm;
use out_of_memory::Memory;
use rule_set::RuleSet;

/// Writes the row of an alarm.
fn write_alarm(text: &mut ReportText, rules: &RuleSet, alarm: &Alarm) -> Result<(), Memory>
    requires { alarm.now.rule < length rules.now }
    ensures { OnOk result ((front : List ℕ) → HasText text.old front
        → HasText text.new (front ++ row_of (told_alarm rules.now alarm.now))) }
{
    text.write(&ReportRow::Alarm {
        pair: alarm.pair,
        name: rules.name(alarm.rule as usize),
        position: alarm.position,
        decided: alarm.decided,
    })
}

/// Writes the rows of alarms.
pub fn write_alarms(text: &mut ReportText, rules: &RuleSet, alarms: &[Alarm]) -> Result<(), Memory>
    requires { All (λ (alarm : Alarm). alarm.rule < length rules.now) alarms.now }
    ensures { OnOk result ((front : List ℕ) → HasText text.old front
        → HasText text.new (front ++ alarm_rows rules.now alarms.now)) }
{
    for alarm in alarms {
        write_alarm(text, rules, alarm)?;
    }
    Ok(())
}
