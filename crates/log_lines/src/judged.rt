//! The result of a line of a log.
ghost use Rattle.std.specs.Prelude.{◌≡◌};
ghost use Rattle.log_lines.specs.JudgedLines.{outcome_of};

use crate::outcome::LineOutcome;
use tracks::Accepted;

/// The result of a line of the log.
#[derive(Clone, Copy, Debug, PartialEq, Eq)]
pub enum Judged {
    /// Its report is accepted.
    Accepted(Accepted),
    /// It has no accepted report.
    Without(LineOutcome),
}

impl Judged {
    /// Returns the one outcome of the line.
    pub fn outcome(&self) -> LineOutcome
        ensures { result ≡ outcome_of self.now }
    {
        match self {
            Judged::Accepted(_) => LineOutcome::Point,
            Judged::Without(outcome) => *outcome,
        }
    }
}
