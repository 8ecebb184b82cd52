//! The rows of each rule's total.
ghost use Rattle.std.specs.Prelude.{◌≡◌, ◌++◌, ℕ, List, OnOk, length};
ghost use Rattle.audit_report.specs.ReportTexts.{HasText};
ghost use Rattle.audit_report.specs.TotalRows.{total_rows};

use crate::report_row::ReportRow;
use crate::report_text::ReportText;
use auditor::Total;
use out_of_memory::Memory;
use rule_set::RuleSet;

/// Writes the total of each rule, in the order of the rules.
pub fn write_totals(text: &mut ReportText, rules: &RuleSet, totals: &[Total]) -> Result<(), Memory>
    requires { length totals.now ≡ length rules.now }
    ensures { OnOk result
        ((front : List ℕ) → HasText text.old front
        → HasText text.new (front ++ total_rows rules.now totals.now)) }
{
    for rule in 0..rules.len() {
        text.write(&ReportRow::Total {
            name: rules.name(rule),
            total: totals[rule],
        })?;
    }
    Ok(())
}
