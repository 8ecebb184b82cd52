//! The duties of a pair by the ranks of its vessels.
ghost use Rattle.std.specs.Prelude.{◌≡◌, ◌&&◌};
ghost use Rattle.ranks.specs.declared.rank.Rank.TheVariants.{Power};
ghost use Rattle.traces.specs.PairRanks.{by_rank_of, is_rank};

use meetings::ByRank;
use ranks::{Rank, gives};

fn is_power(rank: Rank) -> bool
    ensures { result ≡ is_rank Power rank }
{
    matches!(rank, Rank::Power)
}

fn are_power(a: Rank, b: Rank) -> bool
    ensures { result ≡ (is_rank Power a && is_rank Power b) }
{
    is_power(a) && is_power(b)
}

/// Returns the duties by Rule 18 of a pair (A, B) whose vessels have these ranks.
pub fn by_rank(a: Rank, b: Rank) -> ByRank
    ensures { result ≡ by_rank_of a b }
{
    ByRank {
        gives: gives(a, b),
        stands: gives(b, a),
        both_power: are_power(a, b),
    }
}
