//! The values of an operator at the last positions of a trace, from those of its operands, in one sweep from the last position
//! back.
ghost use Rattle.std.specs.Prelude.{ℕ, ◌≡◌, ◌+◌, ◌-◌, ◌<◌, ◌≤◌, [], ◌∷◌, ◌++◌, length};
ghost use Rattle.mtl_formulas.specs.declared.atom.Atom.{Atom};
ghost use Rattle.mtl_formulas.specs.declared.verdict.Verdict.{Verdict};
ghost use Rattle.mtl_formulas.specs.declared.formula.LinkKind.TheVariants.{U};
ghost use Rattle.mtl_formulas.specs.VerdictOrder.{turned_round, least, greatest};
ghost use Rattle.mtl_formulas.specs.FormulaTree.{FormulaTree, negation, pair, span, link};
ghost use Rattle.mtl_formulas.specs.FormulaMeasures.{reach_of};
ghost use Rattle.mtl_formulas.specs.FormulaValue.{pair_value};
ghost use Rattle.mtl_formulas.specs.Traces.{Trace, value_in};
ghost use Rattle.mtl_early.specs.Inner.Counts.{sensed};
ghost use Rattle.mtl_early.specs.Inner.Cells.{AreRight, SameOutside, ahead_kind, cell_at};

use mtl_formulas::{PairKind, Verdict};
use mtl_monitor::Left;

pub(crate) fn negated(value: Verdict) -> Verdict
    ensures { result ≡ turned_round value }
{
    match value {
        Verdict::No => Verdict::Yes,
        Verdict::Open => Verdict::Open,
        Verdict::Yes => Verdict::No,
    }
}

fn lesser(a: Verdict, b: Verdict) -> Verdict
    ensures { result ≡ least a b }
{
    if (a as u8) < b as u8 { a } else { b }
}

fn greater(a: Verdict, b: Verdict) -> Verdict
    ensures { result ≡ greatest a b }
{
    if (a as u8) < b as u8 { b } else { a }
}

fn joined(kind: PairKind, a: Verdict, b: Verdict) -> Verdict
    ensures { result ≡ pair_value kind a b }
{
    match kind {
        PairKind::And => lesser(a, b),
        PairKind::Or => greater(a, b),
        PairKind::Implies => greater(negated(a), b),
    }
}

/// Returns a value as a window sees it: the least value is the greatest of the values turned round, turned round.
fn seen(turned: bool, value: Verdict) -> Verdict
    ensures { result ≡ sensed turned value }
{
    if turned { negated(value) } else { value }
}

/// The values of a negation.
pub(crate) fn sweep_not(cells: &mut [Verdict], operand: usize, at: usize, size: usize)
    requires below { operand + size ≤ at }
    requires inside { at + size ≤ length cells.old }
    ensures right { (rows : Trace) (s : FormulaTree) → AreRight cells.old operand size rows s
        → AreRight cells.new at size rows (negation s) }
    ensures others { SameOutside cells.old cells.new at (at + size) }
{
    for age in 0..size {
        cells[at + age] = negated(cells[operand + age]);
    }
}

/// The values of a connective of two operands.
pub(crate) fn sweep_pair(
    cells: &mut [Verdict],
    kind: PairKind,
    first: usize,
    second: usize,
    at: usize,
    size: usize,
)
    requires first_below { first + size ≤ at }
    requires second_below { second + size ≤ at }
    requires inside { at + size ≤ length cells.old }
    ensures right { (rows : Trace) (s t : FormulaTree) → AreRight cells.old first size rows s
        → AreRight cells.old second size rows t → AreRight cells.new at size rows (pair kind s t) }
    ensures others { SameOutside cells.old cells.new at (at + size) }
{
    for age in 0..size {
        cells[at + age] = joined(kind, cells[first + age], cells[second + age]);
    }
}

/// Returns the value at an operand's position that lies so many positions further ahead: Open where its row is not fed.
fn value_ahead(cells: &[Verdict], operand: usize, age: usize, lower: usize) -> Verdict
    requires { operand + age < length cells.now }
    ensures unfed { age < lower → result ≡ Verdict.Open }
    ensures fed { lower ≤ age → result ≡ cell_at cells.now (operand + (age - lower)) }
{
    if age < lower {
        Verdict::Open
    } else {
        cells[operand + (age - lower)]
    }
}

/// The values of F, or those of G where values are turned round.
pub(crate) fn sweep_ahead(
    cells: &mut [Verdict],
    turned: bool,
    lower: u32,
    upper: u32,
    operand: usize,
    at: usize,
    size: usize,
)
    requires below { operand + size ≤ at }
    requires inside { at + size ≤ length cells.old }
    requires ordered { lower ≤ upper }
    requires small { upper ≤ 7200 }
    ensures right { (rows : Trace) (s : FormulaTree) → size ≤ length rows
        → AreRight cells.old operand size rows s
        → AreRight cells.new at size rows (span (ahead_kind turned) lower upper s) }
    ensures others { SameOutside cells.old cells.new at (at + size) }
{
    let width = upper - lower + 1;
    let mut left = Left {
        yes: 0,
        some: width,
    };
    for age in 0..size {
        let read = value_ahead(cells, operand, age, lower as usize);
        left.read(seen(turned, read), width);
        cells[at + age] = seen(turned, left.value());
    }
}

/// The values of U.
pub(crate) fn sweep_until(
    cells: &mut [Verdict],
    lower: u32,
    upper: u32,
    first: usize,
    second: usize,
    at: usize,
    size: usize,
)
    requires first_below { first + size ≤ at }
    requires second_below { second + size ≤ at }
    requires inside { at + size ≤ length cells.old }
    requires ordered { lower ≤ upper }
    requires small { upper ≤ 7200 }
    ensures right { (rows : Trace) (s t : FormulaTree) → size ≤ length rows
        → AreRight cells.old first size rows s → AreRight cells.old second size rows t
        → AreRight cells.new at size rows (link U lower upper s t) }
    ensures others { SameOutside cells.old cells.new at (at + size) }
{
    let width = upper - lower + 1;
    let mut hits = Left {
        yes: 0,
        some: width,
    };
    let mut bars = Left {
        yes: 0,
        some: lower,
    };
    for age in 0..size {
        let here = cells[first + age];
        let ahead = value_ahead(cells, second, age, lower as usize);
        hits.limit(here);
        bars.read(negated(here), lower);
        hits.read(lesser(ahead, negated(bars.value())), width);
        cells[at + age] = hits.value();
    }
}

/// One row more: the values of a formula that looks no position ahead move on by a position, and the last row has this one.
pub(crate) fn sweep_now(cells: &mut [Verdict], value: Verdict, at: usize, size: usize)
    requires inside { at + size ≤ length cells.old }
    ensures right { (rows : Trace) (row : Atom → Verdict) (t : FormulaTree) → reach_of t ≡ 0
        → size ≤ length rows + 1 → AreRight cells.old at (size - 1) rows t
        → value ≡ value_in (rows ++ row ∷ []) t (length rows)
        → AreRight cells.new at size (rows ++ row ∷ []) t }
    ensures others { SameOutside cells.old cells.new at (at + size) }
{
    let mut carried = value;
    for age in 0..size {
        let was = cells[at + age];
        cells[at + age] = carried;
        carried = was;
    }
}
