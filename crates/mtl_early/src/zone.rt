//! The last positions, which may still be decided.
ghost use Rattle.std.specs.Prelude.{ℕ, ◌≡◌, ◌≢◌, ◌≤◌, ◌<◌, ◌+◌, ◌-◌, length, true, false, IfOk};
ghost use Rattle.mtl_early.specs.Inner.Cells.{cell_at};
ghost use Rattle.mtl_early.specs.Inner.Nodes.{cells_of};
ghost use Rattle.mtl_early.specs.Inner.Zones.{IsBehind, old_value};

use crate::sweeper::SweepNode;
use mtl_formulas::Verdict;
use out_of_memory::Memory;
use std::alloc::Global;

/// Where the cells of the last node begin.
pub(crate) fn root_of(nodes: &[SweepNode]) -> usize
    requires { 0 < length nodes.now }
    ensures { result ≡ cells_of nodes.now (length nodes.now - 1) }
{
    nodes[nodes.len() - 1].at
}

/// Returns whether nothing is decided.
pub(crate) fn is_open(value: Verdict) -> bool
    ensures open { result ≡ true → value ≡ Verdict.Open }
    ensures decided { result ≡ false → value ≢ Verdict.Open }
{
    match value {
        Verdict::Open => true,
        Verdict::No | Verdict::Yes => false,
    }
}

/// Up to which age a position may still be decided: those from there on are, or no further row can decide them.
pub(crate) fn open_ages(cells: &[Verdict], at: usize, size: usize, reach: usize) -> usize
    requires { at + size ≤ length cells.now }
    ensures within { result ≤ size }
    ensures reach { result ≤ reach }
    ensures behind { (age : ℕ) → result ≤ age → age < size → IsBehind cells.now at reach age }
{
    let mut open = size;
    while open > 0 {
        if open <= reach && is_open(cells[at + open - 1]) {
            return open;
        }
        open -= 1;
    }
    0
}

/// Returns whether a row changed no last value, and as many ages may still be decided as after the row before.
pub(crate) fn is_counted(changed: bool, ages: usize, size: usize) -> bool
    ensures { result ≡ true → (changed ≡ false) × (ages + 1 ≡ size) }
{
    !changed && size > 0 && size - 1 == ages
}

/// Keeps so many cells.
pub(crate) fn keep_old(cells: &[Verdict], at: usize, was: &mut [Verdict], size: usize)
    requires inside { at + size ≤ length cells.now }
    requires room { size ≤ length was.old }
    ensures { (age : ℕ) → age < size → cell_at was.new age ≡ cell_at cells.now (at + age) }
{
    for age in 0..size {
        was[age] = cells[at + age];
    }
}

/// Returns the value that was kept of the position that now has this age: Open where it is the last row's.
pub(crate) fn old_at(was: &[Verdict], age: usize) -> Verdict
    requires { age ≤ length was.now }
    ensures { result ≡ old_value was.now age }
{
    if age == 0 {
        Verdict::Open
    } else {
        was[age - 1]
    }
}

/// Returns this number of values, none of them known.
pub(crate) fn all_open(alloc: Global, count: usize) -> Result<Vec<Verdict>, Memory>
    ensures { IfOk result (λ values. length values.items ≡ count) }
{
    match vec![in alloc; Verdict::Open; count] {
        Ok(values) => Ok(values),
        Err(_) => Err(Memory),
    }
}
