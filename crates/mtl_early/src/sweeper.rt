//! The nodes of a formula that looks ahead, and one pass through all of them.
ghost use Rattle.std.specs.Prelude.{ℕ, ◌≡◌, ◌+◌, ◌-◌, ◌<◌, ◌≤◌, [], ◌∷◌, ◌++◌, List, length, true};
ghost use Rattle.mtl_formulas.specs.declared.atom.Atom.{Atom};
ghost use Rattle.mtl_formulas.specs.FormulaTree.{FormulaTree};
ghost use Rattle.mtl_formulas.specs.Traces.{Trace};
ghost use Rattle.mtl_monitor.specs.Following.{Fits, count_of};
ghost use Rattle.mtl_early.specs.Inner.Cells.{AreRight, SameOutside};
ghost use Rattle.mtl_early.specs.Inner.Rests.{IsValueNow, ReadsNow};
ghost use Rattle.mtl_early.specs.Inner.Nodes.{AllFit, AllRight, AreLaidOut, HasFit, Computes, AllCompute, OperandsRight, cells_of, node_at, tree_at};

use crate::sweeping::{sweep_ahead, sweep_not, sweep_now, sweep_pair, sweep_until};
use mtl_formulas::{PairKind, Verdict};
use mtl_monitor::{Program, TraceState};

/// What a node computes, from nodes before it.
#[derive(Clone, Copy)]
pub(crate) enum Sweep {
    /// A formula of the program, which looks no position ahead.
    Now(usize),
    Not(usize),
    Pair(PairKind, usize, usize),
    /// F, or G where values are turned round.
    Ahead(bool, u32, u32, usize),
    Until(u32, u32, usize, usize),
}

/// A node, and where its cells begin.
#[derive(Clone, Copy)]
pub(crate) struct SweepNode {
    pub at: usize,
    pub sweep: Sweep,
}

/// Returns the value of a formula that looks no position ahead, at the last row.
fn value_now(program: &Program, state: &TraceState, formula: usize) -> Verdict
    requires fits { Fits program.now state.now }
    requires inside { formula < count_of program.now }
    ensures { IsValueNow program.now state.now formula result }
{
    match state.answer(program, formula) {
        Some((_, value)) => value,
        None => Verdict::Open,
    }
}

/// Where the cells of a node begin.
fn cells_of(nodes: &[SweepNode], k: usize) -> usize
    requires { k < length nodes.now }
    ensures { result ≡ cells_of nodes.now k }
{
    nodes[k].at
}

/// What a node computes.
fn sweep_of(nodes: &[SweepNode], k: usize) -> Sweep
    requires { k < length nodes.now }
    ensures { result ≡ (node_at nodes.now k).sweep }
{
    nodes[k].sweep
}

/// Writes the cells of a node of this kind, from its first cell on.
fn sweep_one(
    nodes: &[SweepNode],
    cells: &mut [Verdict],
    program: &Program,
    state: &TraceState,
    sweep: Sweep,
    k: usize,
    size: usize,
    stride: usize,
)
    requires fits { Fits program.now state.now }
    requires node { k < length nodes.now }
    requires fit { HasFit (count_of program.now) k sweep }
    requires laid_out { AreLaidOut nodes.now stride (length cells.old) }
    requires size { size ≤ stride }
    ensures right { (formulas trees : List FormulaTree) (rows : Trace) (row : Atom → Verdict)
        (t : FormulaTree) → ReadsNow program.now state.now formulas rows row
        → Computes formulas trees sweep t → size ≤ length rows + 1
        → OperandsRight nodes.now trees cells.old k size (rows ++ row ∷ [])
        → AreRight cells.old (cells_of nodes.now k) (size - 1) rows t
        → AreRight cells.new (cells_of nodes.now k) size (rows ++ row ∷ []) t }
    ensures others { SameOutside cells.old cells.new (cells_of nodes.now k)
        (cells_of nodes.now k + size) }
{
    let at = cells_of(nodes, k);
    match sweep {
        Sweep::Now(formula) => sweep_now(cells, value_now(program, state, formula), at, size),
        Sweep::Not(a) => sweep_not(cells, cells_of(nodes, a), at, size),
        Sweep::Pair(kind, a, b) => {
            sweep_pair(
                cells,
                kind,
                cells_of(nodes, a),
                cells_of(nodes, b),
                at,
                size,
            )
        }
        Sweep::Ahead(turned, lower, upper, a) => {
            sweep_ahead(cells, turned, lower, upper, cells_of(nodes, a), at, size)
        }
        Sweep::Until(lower, upper, a, b) => sweep_until(
            cells,
            lower,
            upper,
            cells_of(nodes, a),
            cells_of(nodes, b),
            at,
            size,
        ),
    }
}

/// Writes the cells of all nodes, after one row more.
pub(crate) fn sweep_all(
    nodes: &[SweepNode],
    cells: &mut [Verdict],
    program: &Program,
    state: &TraceState,
    size: usize,
    stride: usize,
)
    requires fits { Fits program.now state.now }
    requires fit { AllFit (count_of program.now) nodes.now }
    requires laid_out { AreLaidOut nodes.now stride (length cells.old) }
    requires size { size ≤ stride }
    ensures { (formulas trees : List FormulaTree) (rows : Trace) (row : Atom → Verdict)
        → ReadsNow program.now state.now formulas rows row → AllCompute formulas trees nodes.now
        → size ≤ length rows + 1 → AllRight nodes.now trees cells.old (size - 1) rows
        → AllRight nodes.now trees cells.new size (rows ++ row ∷ []) }
{
    for k in 0..nodes.len() {
        let sweep = sweep_of(nodes, k);
        sweep_one(nodes, cells, program, state, sweep, k, size, stride);
    }
}

/// Returns whether the cells are the same.
fn are_same(cells: &[Verdict], before: &[Verdict]) -> bool
    ensures { result ≡ true → cells.now ≡ before.now }
{
    cells == before
}

/// Writes the cells of all nodes, after one row more. Where they may stay as they were, it compares: true where they did.
pub(crate) fn sweep_row(
    nodes: &[SweepNode],
    cells: &mut [Verdict],
    before: &mut [Verdict],
    program: &Program,
    state: &TraceState,
    size: usize,
    stride: usize,
    may_stay: bool,
) -> bool
    requires fits { Fits program.now state.now }
    requires fit { AllFit (count_of program.now) nodes.now }
    requires laid_out { AreLaidOut nodes.now stride (length cells.old) }
    requires size { size ≤ stride }
    requires as_many { length before.old ≡ length cells.old }
    ensures right { (formulas trees : List FormulaTree) (rows : Trace) (row : Atom → Verdict)
        → ReadsNow program.now state.now formulas rows row → AllCompute formulas trees nodes.now
        → size ≤ length rows + 1 → AllRight nodes.now trees cells.old (size - 1) rows
        → AllRight nodes.now trees cells.new size (rows ++ row ∷ []) }
    ensures stay { result ≡ true → cells.new ≡ cells.old }
{
    if may_stay {
        before.copy_from_slice(cells);
    }
    sweep_all(nodes, cells, program, state, size, stride);
    may_stay && are_same(cells, before)
}
