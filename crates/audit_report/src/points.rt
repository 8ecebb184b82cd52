//! The rows of `points`.
ghost use Rattle.std.specs.Prelude.{◌++◌, ℕ, List, OnOk};
ghost use Rattle.audit_report.specs.ReportTexts.{HasText};
ghost use Rattle.audit_report.specs.PointRows.{rows_of_line};

use crate::report_row::ReportRow;
use crate::report_text::ReportText;
use log_lines::Judged;
use out_of_memory::Memory;

/// Writes the row of a line's accepted report, if the line has one.
#[inline(always)]
pub fn write_line(text: &mut ReportText, judged: &Judged) -> Result<(), Memory>
    ensures { OnOk result
        ((front : List ℕ) → HasText text.old front
        → HasText text.new (front ++ rows_of_line judged.now)) }
{
    match judged {
        Judged::Accepted(accepted) => text.write(&ReportRow::Point {
            mmsi: accepted.report.mmsi,
            time: accepted.time,
            point: accepted.point,
            speed: accepted.report.sog,
            course: accepted.report.cog,
        }),
        Judged::Without(_) => Ok(()),
    }
}
