//! The purpose of reading a scenario.
ghost use Rattle.std.specs.Prelude.{◌≡◌};
ghost use Rattle.toml.specs.View.{table_view};
ghost use Rattle.scenario.specs.Purposes.{are_counted, purpose_by, ranking_of, wants_ranks};

use rule_set::Ranking;
use scenario_keys::integer_found;
use toml::Table;

/// The purpose of reading a scenario, which says which parts count.
#[derive(Clone, Copy, PartialEq, Eq)]
pub struct Purpose {
    /// Whether own ship is needed. Her keys are checked only then.
    pub need_own: bool,
    /// Whether ranks count, if the document asks for them.
    pub ranks: Ranking,
}

/// Returns the purpose: to search for a manoeuvre of own ship if she is needed, otherwise to judge vessels, also by
/// their ranks.
pub(crate) fn purpose_by(need_own: bool) -> Purpose
    ensures { result ≡ purpose_by need_own }
{
    if need_own {
        Purpose {
            need_own: true,
            ranks: Ranking::Ignored,
        }
    } else {
        Purpose {
            need_own: false,
            ranks: Ranking::Counted,
        }
    }
}

/// Returns whether the document asks for ranks.
#[tactic(auto, unfolding(crate::specs::Purposes::wants_ranks))]
fn wants_ranks(document: &Table) -> bool
    ensures { result ≡ wants_ranks (table_view document.now) }
{
    matches!(integer_found(document, "rules", "ranks"), Some(1))
}

/// Returns whether ranks count for a purpose.
#[tactic(auto, unfolding(crate::specs::Purposes::ranking_of))]
pub(crate) fn ranking_of(document: &Table, purpose: Purpose) -> Ranking
    ensures { result ≡ ranking_of purpose (table_view document.now) }
{
    if wants_ranks(document) {
        purpose.ranks
    } else {
        Ranking::Ignored
    }
}

pub(crate) fn are_counted(ranks: Ranking) -> bool
    ensures { result ≡ are_counted ranks }
{
    match ranks {
        Ranking::Ignored => false,
        Ranking::Counted => true,
    }
}
