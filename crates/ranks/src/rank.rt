//! The ranks, and who gives way by them.
ghost use Rattle.std.specs.Prelude.{IsTrue, ◌↔◌};
ghost use Rattle.ranks.specs.GivingWay.{GivesWay};

/// The kind of a vessel by Rule 18.
#[derive(Clone, Copy, Debug, PartialEq, Eq)]
pub enum Rank {
    /// Power-driven, and any vessel that reports no other rank.
    Power,
    Sailing,
    /// Engaged in fishing.
    Fishing,
    /// Restricted in her ability to manoeuvre.
    Restricted,
    NotUnderCommand,
}

/// Returns whether a vessel of the first rank gives way to one of the second. This takes no memory.
pub fn gives(a: Rank, b: Rank) -> bool
    ensures { IsTrue result ↔ GivesWay a b }
{
    match a {
        Rank::Power => !matches!(b, Rank::Power),
        Rank::Sailing => !matches!(b, Rank::Power | Rank::Sailing),
        Rank::Fishing => matches!(b, Rank::Restricted | Rank::NotUnderCommand),
        Rank::Restricted | Rank::NotUnderCommand => false,
    }
}
