//! The ship types that vessels report, stored if ranks count.
ghost use Rattle.std.specs.Prelude.{◌≡◌, ◌++◌, ◌∷◌, [], Bool, List, OnOk};
ghost use Rattle.log_lines.specs.ShipTypes.{AreNoted, counts_ranks};
ghost use Rattle.log_lines.specs.StaticReports.{static_told};
ghost use Rattle.tracks.specs.VesselsHeld.{Sent};

use crate::told_static::ToldStatic;
use out_of_memory::Memory;
use ranks::Ranks;
use scenario_values::Scenario;
use std::alloc::Global;
use tracks::Keeping;

/// Returns whether ranks count.
fn counts_ranks(keeping: Keeping, scenario: &Scenario) -> bool
    ensures { result ≡ counts_ranks keeping scenario.now }
{
    keeping != Keeping::Latest && scenario.ranks
}

/// Returns the state before the first message. This takes no memory.
pub(crate) fn no_ship_types(alloc: Global, keeping: Keeping, scenario: &Scenario) -> Option<Ranks>
    ensures { AreNoted (counts_ranks keeping scenario.now) result [] }
{
    if counts_ranks(keeping, scenario) {
        Some(Ranks::new(alloc))
    } else {
        None
    }
}

/// Takes the static data of the next message.
pub(crate) fn note(ranks: &mut Option<Ranks>, told: Option<ToldStatic>) -> Result<(), Memory>
    ensures { OnOk result
        ((ranked : Bool) (messages : List Sent) (one : Sent) → told ≡ static_told one
        → AreNoted ranked ranks.old messages → AreNoted ranked ranks.new (messages ++ one ∷ [])) }
{
    let Some(ranks) = ranks else {
        return Ok(());
    };
    let Some(told) = told else {
        return Ok(());
    };
    match told.kind {
        Some(kind) => ranks.note(told.mmsi, told.time, kind),
        None => Ok(()),
    }
}
