//! The law of checked rows, over the definitions alone.
ghost use Rattle.std.specs.Prelude.{ℕ, List};
ghost use Rattle.report_csv.specs.CsvRows.{Fields};
ghost use Rattle.refutation_check.specs.CheckedRows.{AreRight, IsFirstBadRow};

use plan_situations::Situation;

/// Rows with the right reasons why there is no plan have no first wrong row. So a finished recheck writes `none`
/// exactly if the rows are right.
pub fn right_rows_have_no_bad_row(situation: &Situation)
    ensures { (rows : List Fields) (k : ℕ) → AreRight situation.now rows
        → ¬ IsFirstBadRow situation.now rows k }
{}
