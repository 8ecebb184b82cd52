//! The check of a text.
ghost use Rattle.std.specs.Prelude.{◌≡◌, ◌≤◌, ◌↔◌, length, IfOk};
ghost use Rattle.plan_situations.specs.LeastPlans.{AllFail};
ghost use Rattle.plan_situations.specs.Situations.{IsSituation};
ghost use Rattle.refutations.specs.declared.entry.Checked.TheVariants as Checked;
ghost use Rattle.refutation_check.specs.CheckedRows.{why_rows, AreRight, TellsOf};

use crate::entries_read::read_entries;
use out_of_memory::Memory;
use plan_situations::Situation;
use refutations::{Checked, check};
use std::alloc::Global;

/// The greatest length of a text for a check, in bytes.
pub const GREATEST_TEXT: u64 = 1 << 24;

/// Checks the rows `why` of a text of at most 2^24 bytes, without a search. If they are right, every plan fails.
/// Otherwise returns the least index of a row that has no entry, has an entry that is not good, or has a block that
/// does not begin at the end of the blocks before it; if there is no such row, the number of rows.
pub fn recheck(alloc: Global, situation: &Situation, text: &[u8]) -> Result<Checked, Memory>
    requires situation { IsSituation situation.now }
    requires few { length text.now ≤ GREATEST_TEXT }
    ensures told { IfOk result (λ checked. TellsOf situation.now (why_rows text.now) checked) }
    ensures right { IfOk result
        (λ checked. (checked ≡ Checked.Right) ↔ AreRight situation.now (why_rows text.now)) }
    ensures refutes { IfOk result (λ checked. checked ≡ Checked.Right → AllFail situation.now) }
{
    let read = read_entries(alloc, situation, text)?;
    let checked = check(alloc, situation, &read.entries)?;
    if read.all {
        return Ok(checked);
    }
    match checked {
        Checked::Right => Ok(Checked::Bad(read.entries.len() as u32)),
        Checked::Bad(k) => Ok(Checked::Bad(k)),
    }
}
