//! The last positions that are known to be decided.
ghost use Rattle.std.specs.Prelude.{◌≡◌, IfOk, replicate, false};
ghost use Rattle.early_monitor.specs.Inner.Known.{is_answered, known_at};

use mtl_formulas::Verdict;
use out_of_memory::Memory;
use std::alloc::Global;

/// Returns whether the position at an index is known to be decided; `false` beyond the last index.
pub(crate) fn is_known_at(known: &[bool], place: usize) -> bool
    ensures { result ≡ known_at known.now place }
{
    if place < known.len() {
        known[place]
    } else {
        false
    }
}

/// Returns whether an answer is Yes or No.
pub(crate) fn is_answer(answer: Option<(u32, Verdict)>) -> bool
    ensures { result ≡ is_answered answer }
{
    match answer {
        None | Some((_, Verdict::Open)) => false,
        Some((_, Verdict::No | Verdict::Yes)) => true,
    }
}

/// Returns `count` positions, none of them known to be decided.
pub(crate) fn nothing_known(alloc: Global, count: usize) -> Result<Vec<bool>, Memory>
    ensures { IfOk result (λ known. known.items ≡ replicate count false) }
{
    match vec![in alloc; false; count] {
        Ok(known) => Ok(known),
        Err(_) => Err(Memory),
    }
}
