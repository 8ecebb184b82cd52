//! The three values of a formula at a position.

/// The value of a formula at a position, in the order No, Open, Yes. `Open` means that the trace does not yet decide.
///
/// A three-valued reading of Koymans' logic (1990): No and Yes are what every longer trace says too.
#[derive(Clone, Copy, Debug, Default, PartialEq, Eq, PartialOrd, Ord)]
pub enum Verdict {
    /// The formula does not hold, however the trace continues.
    No,
    /// The trace does not yet decide.
    #[default]
    Open,
    /// The formula holds, however the trace continues.
    Yes,
}
