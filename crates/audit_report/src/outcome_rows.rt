//! The rows with the number of lines of each outcome.
ghost use Rattle.std.specs.Prelude.{◌≡◌, ◌++◌, List, ℕ, OnOk, flat_map, slice_index};
ghost use Rattle.report_csv.specs.CsvRows.{row_of};
ghost use Rattle.audit_report.specs.ReportRows.{count_fields};
ghost use Rattle.audit_report.specs.ReportTexts.{HasText};
ghost use Rattle.log_lines.specs.JudgedLines.{judged_lines};
ghost use Rattle.log_lines.specs.LineOutcomes.{all_outcomes, outcome_index};
ghost use Rattle.log_lines.specs.Standing.{StandsFor as JudgeStandsFor};
ghost use Rattle.audit_report.specs.OutcomeRows.{count_rows};
ghost use Rattle.scenario_values.specs.declared.values.Scenario.{Scenario};

use crate::report_row::ReportRow;
use crate::report_text::ReportText;
use log_lines::{Judge, LineOutcome};
use out_of_memory::Memory;

/// Returns all outcomes, in the order of the report.
#[tactic(auto, unfolding(log_lines::specs::LineOutcomes::all_outcomes))]
fn all_outcomes() -> &'static [LineOutcome]
    ensures { result.now ≡ all_outcomes }
{
    &LineOutcome::ALL
}

/// Writes a row for each of these outcomes.
fn write_each(
    text: &mut ReportText,
    counts: &[u64; 21],
    outcomes: &[LineOutcome],
) -> Result<(), Memory>
    ensures { OnOk result
        ((front : List ℕ) → HasText text.old front
        → HasText text.new
        (front ++ flat_map
        (λ outcome. row_of (count_fields outcome (slice_index counts.now (outcome_index outcome))))
        outcomes.now)) }
{
    for outcome in outcomes {
        text.write(&ReportRow::Lines {
            outcome: *outcome,
            count: counts[outcome.place()],
        })?;
    }
    Ok(())
}

/// Writes the number of lines of each outcome: one row for each of the 21 outcomes, in the order of the report.
pub fn write_counts(text: &mut ReportText, judge: &Judge) -> Result<(), Memory>
    ensures { OnOk result
        ((scenario : Scenario) (lines : List (List ℕ)) (front : List ℕ)
        → JudgeStandsFor judge.now scenario lines → HasText text.old front
        → HasText text.new (front ++ count_rows (judged_lines scenario lines))) }
{
    write_each(text, judge.counts(), all_outcomes())
}
