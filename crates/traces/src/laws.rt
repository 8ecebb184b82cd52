//! A law of ranks of pairs, which follows from the definitions alone.
ghost use Rattle.std.specs.Prelude.{◌≡◌, ◌↔◌};
ghost use Rattle.meetings.specs.declared.by_rank.ByRank.{ByRank};
ghost use Rattle.ranks.specs.declared.rank.Rank.{Rank};
ghost use Rattle.traces.specs.PairRanks.{IsByRank, by_rank_of};

/// The computed duties by rank of two vessels are exactly those of Rule 18.
pub fn said_by_rule_18()
    ensures { (a b : Rank) (by_rank : ByRank) → IsByRank a b by_rank ↔ (by_rank ≡ by_rank_of a b) }
{}
