//! Whether ranks count.

/// Whether the rules use the ranks of vessels (COLREGs Rule 18).
#[derive(Clone, Copy, PartialEq, Eq)]
pub enum Ranking {
    /// They do not.
    Ignored,
    /// They do.
    Counted,
}
