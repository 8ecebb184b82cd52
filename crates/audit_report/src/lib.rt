//! The rows of reports as text.
//!
//! A report is a list of rows of seven fields, as CSV (RFC 4180): fields between commas, quoted if necessary, and a
//! line feed after each row. [`ReportText`] takes rows one by one and collects their text; [`row_bytes`] returns the
//! text of one row. Each other function of this crate appends rows of one kind to a text: of lines, stretches, vessels,
//! rules, alarms or plans.
//!
//! That rule `r14a` is broken by 200000001 towards 200000002 at step 23 alone is the row
//! `verdict,200000001,200000002,r14a,broken,23,23`. If the first of two judged lines was accepted, they result in one
//! row `point` and then, at the log's end, in the 21 rows `lines`; one of these counts an accepted report. Out of
//! scope: which rows a report has, and their order; see `sessions`.
#![tactic(auto)]

mod alarms;
mod outcome_rows;
mod planned_legs;
mod points;
mod report_row;
mod report_text;
mod stretches;
mod totals;
mod vessels;

pub use alarms::write_alarms;
pub use outcome_rows::write_counts;
pub use planned_legs::PlannedLegs;
pub use points::write_line;
pub use report_row::ReportRow;
pub use report_text::{ReportText, row_bytes};
pub use stretches::write_stretches;
pub use totals::write_totals;
pub use vessels::{write_near, write_vessels};
