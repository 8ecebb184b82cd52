//! The rows that say why every plan of own ship fails.
ghost use Rattle.std.specs.Prelude.{ℕ, ◌≡◌, ◌++◌, List, OnOk, flat_map, true};
ghost use Rattle.refutations.specs.EntryRows.{entry_text};
ghost use Rattle.refutations.specs.RightLists.{IsEntry};
ghost use Rattle.plan_situations.specs.LeastPlans.{AllFail};
ghost use Rattle.plan_situations.specs.Situations.{IsSituation};
ghost use Rattle.sessions.specs.Inner.PlanWriting.{AreReasonsWhere};
ghost use Rattle.std.specs.List.{All};

use out_of_memory::Memory;
use plan_situations::Situation;
use refutation_search::explain;
use refutations::{EntryRows, WhyEntry};
use std::alloc::Global;

/// Appends the rows of entries to the bytes of a report.
fn add_entries(
    alloc: Global,
    situation: &Situation,
    entries: &[WhyEntry],
    bytes: &mut Vec<u8>,
) -> Result<(), Memory>
    requires { All (IsEntry situation.now) entries.now }
    ensures { OnOk result
        (bytes.new.items ≡ bytes.old.items ++ flat_map (entry_text situation.now) entries.now) }
{
    let mut rows = EntryRows::new(alloc);
    for entry in entries {
        rows.write(alloc, situation, entry)?;
    }
    let text = rows.into_bytes()?;
    bytes.extend_from_slice(text.as_slice())?;
    Ok(())
}

/// Appends the rows that say why every plan fails to the bytes of a report, if they are asked for and no plan was found.
pub(crate) fn add_reasons(
    alloc: Global,
    situation: &Situation,
    why: bool,
    none: bool,
    bytes: &mut Vec<u8>,
) -> Result<(), Memory>
    requires situation { IsSituation situation.now }
    requires fail { none ≡ true → AllFail situation.now }
    ensures { OnOk result
        ((reasons : List ℕ) × AreReasonsWhere why none situation.now reasons
        × (bytes.new.items ≡ bytes.old.items ++ reasons)) }
{
    if !why {
        return Ok(());
    }
    if !none {
        return Ok(());
    }
    let Some(entries) = explain(alloc, situation)? else {
        unreachable!()
    };
    add_entries(alloc, situation, entries.as_slice(), bytes)
}
