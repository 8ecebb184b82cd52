//! Marks of the nodes whose values have changed at a row. There are 64, so nodes whose indices are 64 apart share one: then a
//! node may be passed without need.
ghost use Rattle.std.specs.Prelude.{◌≡◌, ℕ, true, false};
ghost use Rattle.std.specs.Int.{bit_at};
ghost use Rattle.mtl_monitor.specs.Inner.Marks.{IsMarked, IsUnmarked};

/// Returns the marks with that of the node at this index.
pub(crate) fn marked(marks: u64, index: usize) -> u64
    ensures here { IsMarked result index }
    ensures others { (k : ℕ) → bit_at result k ≡ 0 → bit_at marks k ≡ 0 }
    ensures stay { (k : ℕ) → bit_at marks k ≡ 1 → bit_at result k ≡ 1 }
{
    marks | 1 << (index % 64)
}

/// Returns the marks with that of the node at this index, if its value has changed.
pub(crate) fn noted(marks: u64, index: usize, changed: bool) -> u64
    ensures here { IsUnmarked result index → changed ≡ false }
    ensures others { (k : ℕ) → bit_at result k ≡ 0 → bit_at marks k ≡ 0 }
{
    if changed { marked(marks, index) } else { marks }
}

/// Returns whether none of some marks is set.
pub(crate) fn are_unset(marks: u64, some: u64) -> bool
    ensures { result ≡ true → (k : ℕ) → bit_at some k ≡ 1 → bit_at marks k ≡ 0 }
{
    marks & some == 0
}
