//! The connectives over the three values: the least, the greatest and the value turned round.
ghost use Rattle.std.specs.Prelude.{◌≡◌};
ghost use Rattle.mtl_formulas.specs.VerdictOrder.{turned_round, least, greatest};

use crate::verdict::Verdict;

impl Verdict {
    /// Returns the lesser of two values.
    pub(crate) fn and(self, other: Verdict) -> Verdict
        ensures { result ≡ least self other }
    {
        match (self, other) {
            (Verdict::No, _) | (_, Verdict::No) => Verdict::No,
            (Verdict::Open, _) | (_, Verdict::Open) => Verdict::Open,
            _ => Verdict::Yes,
        }
    }

    /// Returns the greater of two values.
    pub(crate) fn or(self, other: Verdict) -> Verdict
        ensures { result ≡ greatest self other }
    {
        match (self, other) {
            (Verdict::Yes, _) | (_, Verdict::Yes) => Verdict::Yes,
            (Verdict::Open, _) | (_, Verdict::Open) => Verdict::Open,
            _ => Verdict::No,
        }
    }

    /// Yes for No and No for Yes.
    pub(crate) fn negated(self) -> Verdict
        ensures { result ≡ turned_round self }
    {
        match self {
            Verdict::No => Verdict::Yes,
            Verdict::Open => Verdict::Open,
            Verdict::Yes => Verdict::No,
        }
    }
}
