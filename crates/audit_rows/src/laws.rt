//! Laws of rows, which follow from the definitions alone.
ghost use Rattle.std.specs.Prelude.{◌≡◌, ◌+◌, ◌-◌, ◌≤◌, ◌++◌, ℕ, List};
ghost use Rattle.std.specs.List.{AllByRecursion};
ghost use Rattle.audit_rows.specs.declared.row.Row.{Row};
ghost use Rattle.audit_rows.specs.Rows.{AreRows, AreRowsBelow};
ghost use Rattle.audit_rows.specs.Tracks.{AreSettled, Continue, Track, next_step};

/// Tracks have at most one list of rows.
pub fn one_list()
    ensures { (tracks : List Track) (rows others : List Row) → AreRows tracks rows
        → AreRows tracks others → rows ≡ others }
{}

/// If the tracks are settled up to a bound, the rows that end below it are a prefix of the rows of any continuation of
/// the tracks.
pub fn front_of_all()
    ensures { (bound : ℕ) (tracks later : List Track) (rows all : List Row)
        → AreSettled bound tracks → Continue bound tracks later → AreRowsBelow bound tracks rows
        → AreRows later all → (rest : List Row) × (all ≡ rows ++ rest) }
{}

/// If no track's marks end more than `reach` before step `k`, the tracks are settled up to `k - reach - 1`: each row whose
/// last step is at most `k - reach - 2` is decided.
pub fn settled_by_reach()
    ensures { (k reach : ℕ) (tracks : List Track)
        → AllByRecursion (λ track. k ≤ next_step track + reach) tracks
        → AreSettled (k - (reach + 1)) tracks }
{}
