//! The rows of an audit's stretches.
ghost use Rattle.std.specs.Prelude.{◌++◌, ℕ, List, OnOk};
ghost use Rattle.report_csv.specs.CsvRows.{row_of};
ghost use Rattle.audit_report.specs.ReportTexts.{HasText};
ghost use Rattle.audit_report.specs.StretchRows.{AreOfRules, IsOfRules, stretch_fields, stretch_rows};

use crate::report_row::ReportRow;
use crate::report_text::ReportText;
use auditor::Row;
use out_of_memory::Memory;
use rule_set::RuleSet;

/// Writes the row of a stretch.
fn write_stretch(text: &mut ReportText, rules: &RuleSet, row: &Row) -> Result<(), Memory>
    requires { IsOfRules rules.now row.now }
    ensures { OnOk result ((front : List ℕ) → HasText text.old front
        → HasText text.new (front ++ row_of (stretch_fields rules.now row.now))) }
{
    match *row {
        Row::Meeting {
            pair,
            kind,
            first,
            last,
            least,
        } => text.write(&ReportRow::Meeting {
            pair,
            kind,
            first,
            last,
            least,
        }),
        Row::Verdict {
            pair,
            rule,
            undecided,
            first,
            last,
        } => {
            let name = rules.name(rule as usize);
            text.write(&ReportRow::Verdict {
                pair,
                name,
                undecided,
                first,
                last,
            })
        }
    }
}

/// Writes the rows of stretches.
pub fn write_stretches(text: &mut ReportText, rules: &RuleSet, rows: &[Row]) -> Result<(), Memory>
    requires { AreOfRules rules.now rows.now }
    ensures { OnOk result ((front : List ℕ) → HasText text.old front
        → HasText text.new (front ++ stretch_rows rules.now rows.now)) }
{
    for row in rows {
        write_stretch(text, rules, row)?;
    }
    Ok(())
}
