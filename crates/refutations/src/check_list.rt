//! The check of a list of entries.
ghost use Rattle.std.specs.Prelude.{◌≡◌, ◌^◌, ◌<◌, ◌↔◌, All, IfOk, MatchOption, OnOk, length};
ghost use Rattle.plan_situations.specs.LeastPlans.{AllFail};
ghost use Rattle.plan_situations.specs.Situations.{IsSituation};
ghost use Rattle.refutations.specs.GoodEntries.{IsGood};
ghost use Rattle.refutations.specs.Inner.Replays.{situation_in, IsReplay};
ghost use Rattle.refutations.specs.RightLists.{behind, first_of, IsEntry, IsRight, Tells};
ghost use Rattle.refutations.specs.declared.entry.Checked.TheVariants as Checked;

use crate::entry::{Checked, WhyEntry};
use crate::goodness::is_good;
use crate::laws::a_right_list_refutes;
use crate::replay::Replay;
use out_of_memory::Memory;
use plan_situations::Situation;
use std::alloc::Global;

/// Returns the end of an entry's block, if the entry is good and its block begins with a number.
fn sound_end(
    alloc: Global,
    situation: &Situation,
    replay: &mut Replay<'_>,
    entry: &WhyEntry,
    begin: u32,
) -> Result<Option<u32>, Memory>
    requires situation { IsSituation situation.now }
    requires replay { IsReplay replay.old }
    requires same { situation_in replay.old.course ≡ situation.now }
    requires entry { IsEntry situation.now entry.now }
    ensures replay { OnOk result (IsReplay replay.new) }
    ensures same { situation_in replay.new.course ≡ situation.now }
    ensures end { IfOk result
        (λ end. MatchOption end
        (¬ (IsGood situation.now entry.now × (first_of situation.now entry.now ≡ begin)))
        (λ end. IsGood situation.now entry.now × (first_of situation.now entry.now ≡ begin)
        × (behind situation.now entry.now ≡ end))) }
{
    let (first, behind) = situation.lattice.block(entry.prefix.choices());
    if first != begin {
        return Ok(None);
    }
    if is_good(alloc, situation, replay, entry)? {
        Ok(Some(behind))
    } else {
        Ok(None)
    }
}

/// Checks the entries one after the other, with the state that each passes to the next.
fn check_each(
    alloc: Global,
    situation: &Situation,
    replay: &mut Replay<'_>,
    entries: &[WhyEntry],
) -> Result<Checked, Memory>
    requires situation { IsSituation situation.now }
    requires replay { IsReplay replay.old }
    requires same { situation_in replay.old.course ≡ situation.now }
    requires entries { All (IsEntry situation.now) entries.now }
    requires few { length entries.now < 2 ^ 31 }
    ensures told { IfOk result (λ checked. Tells situation.now entries.now checked) }
    ensures right { IfOk result
        (λ checked. (checked ≡ Checked.Right) ↔ IsRight situation.now entries.now) }
{
    let mut covered = 0;
    for k in 0..entries.len() {
        let Some(end) = sound_end(alloc, situation, replay, &entries[k], covered)? else {
            return Ok(Checked::Bad(k as u32));
        };
        covered = end;
    }
    if covered == situation.lattice.plans() {
        Ok(Checked::Right)
    } else {
        Ok(Checked::Bad(entries.len() as u32))
    }
}

/// Checks a list of fewer than 2^31 entries without a search: whether each is good, and whether their blocks, one after the other, make up all plans.
/// If it is right, every plan fails.
pub fn check(alloc: Global, situation: &Situation, entries: &[WhyEntry]) -> Result<Checked, Memory>
    requires situation { IsSituation situation.now }
    requires entries { All (IsEntry situation.now) entries.now }
    requires few { length entries.now < 2 ^ 31 }
    ensures told { IfOk result (λ checked. Tells situation.now entries.now checked) }
    ensures right { IfOk result
        (λ checked. (checked ≡ Checked.Right) ↔ IsRight situation.now entries.now) }
    ensures refutes { IfOk result (λ checked. checked ≡ Checked.Right → AllFail situation.now) }
{
    a_right_list_refutes(situation);
    let mut replay = Replay::new(alloc, situation)?;
    let checked = check_each(alloc, situation, &mut replay, entries);
    drop(replay);
    checked
}
