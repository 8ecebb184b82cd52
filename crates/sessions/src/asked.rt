//! The options at the end of a log.

/// The options of a report at the end of a log. Each has an effect only in the mode that uses it.
#[derive(Clone, Copy)]
pub struct Asked<'a> {
    /// Whether the report of a plan says why every plan fails, if every plan fails.
    pub why: bool,
    /// The text with the rows `why` that a recheck checks.
    pub rows: &'a [u8],
}
