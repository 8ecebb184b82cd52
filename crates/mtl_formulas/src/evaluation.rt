//! The value of a formula at a position, by its definition over the whole trace.
//!
//! The recursion goes down the formula alone, and so is no deeper than a valid formula. No memory is taken.
ghost use Rattle.std.specs.Prelude.{◌≡◌, ◌+◌, ◌-◌, ◌<◌, ◌≤◌, length};
ghost use Rattle.mtl_formulas.specs.declared.formula.LinkKind.TheVariants.{U, S};
ghost use Rattle.mtl_formulas.specs.FormulaTree.{tree_of};
ghost use Rattle.mtl_formulas.specs.FormulaMeasures.{IsValid};
ghost use Rattle.mtl_formulas.specs.FormulaValue.{value_of, greatest_over, least_over, past_start, past_count, ahead_count, pair_value, span_value, link_value};

use crate::atom::Atoms;
use crate::formula::{Formula, LinkKind, PairKind, Root, SpanKind};
use crate::verdict::Verdict;

/// The value of a formula at position `i` of the trace `rows`, whose position 0 is the first row: metric temporal logic
/// after Koymans (1990), read with three values. At the trace's end and beyond every formula is `Open`.
///
/// Each operator over an interval evaluates its operands again at each position of the interval.
#[cycle(evaluation)]
pub fn value<A: Atoms>(formula: &Formula, rows: &[A], i: usize) -> Verdict
    requires { IsValid (tree_of formula.now) }
    ensures { result ≡ value_of A.answer rows.now (tree_of formula.now) i }
{
    if i >= rows.len() {
        return Verdict::Open;
    }
    match &formula.root {
        Root::Leaf(atom) => rows[i].value(*atom),
        Root::Negated(a) => value(a, rows, i).negated(),
        Root::Pair(kind, a, b) => pair_value(*kind, a, b, rows, i),
        Root::Span(kind, lower, upper, a) => span_value(*kind, *lower, *upper, a, rows, i),
        Root::Link(kind, lower, upper, a, b) => link_value(*kind, *lower, *upper, a, b, rows, i),
    }
}

/// Returns the value of an operator without an interval. It evaluates the second operand only if the first one does not
/// decide the value.
#[cycle(evaluation)]
fn pair_value<A: Atoms>(kind: PairKind, a: &Formula, b: &Formula, rows: &[A], i: usize) -> Verdict
    requires valid_a { IsValid (tree_of a.now) }
    requires valid_b { IsValid (tree_of b.now) }
    ensures { result ≡ pair_value kind (value_of A.answer rows.now (tree_of a.now) i)
        (value_of A.answer rows.now (tree_of b.now) i) }
{
    let first = value(a, rows, i);
    match (kind, first) {
        (PairKind::And, Verdict::No) => Verdict::No,
        (PairKind::Or, Verdict::Yes) | (PairKind::Implies, Verdict::No) => Verdict::Yes,
        (PairKind::And, _) => first.and(value(b, rows, i)),
        (PairKind::Or, _) => first.or(value(b, rows, i)),
        (PairKind::Implies, _) => first.negated().or(value(b, rows, i)),
    }
}

/// Returns the value of an operator of one operand over an interval.
#[cycle(evaluation)]
fn span_value<A: Atoms>(
    kind: SpanKind,
    lower: u32,
    upper: u32,
    a: &Formula,
    rows: &[A],
    i: usize,
) -> Verdict
    requires valid { IsValid (tree_of a.now) }
    requires inside { i < length rows.now }
    requires ordered { lower ≤ upper }
    requires bounded { upper ≤ 7200 }
    ensures { result ≡ span_value kind lower upper (value_of A.answer rows.now (tree_of a.now)) i }
{
    match kind {
        SpanKind::F => greatest_ahead(a, rows, i, lower, upper),
        SpanKind::G => least_ahead(a, rows, i, lower, upper + 1),
        SpanKind::O => greatest_back(a, rows, i, lower, upper),
        SpanKind::H => least_back(a, rows, i, lower, upper + 1),
    }
}

/// Returns the value of an operator of two operands over an interval.
#[cycle(evaluation)]
fn link_value<A: Atoms>(
    kind: LinkKind,
    lower: u32,
    upper: u32,
    a: &Formula,
    b: &Formula,
    rows: &[A],
    i: usize,
) -> Verdict
    requires valid_a { IsValid (tree_of a.now) }
    requires valid_b { IsValid (tree_of b.now) }
    requires inside { i < length rows.now }
    requires ordered { lower ≤ upper }
    requires bounded { upper ≤ 7200 }
    ensures { let a_each = value_of A.answer rows.now (tree_of a.now) in
        let b_each = value_of A.answer rows.now (tree_of b.now) in
        result ≡ link_value kind lower upper a_each b_each i }
{
    match kind {
        LinkKind::U => until(a, b, rows, i, lower, upper),
        LinkKind::S => since(a, b, rows, i, lower, upper),
    }
}

/// Returns the value at this many positions ahead of `i`. The trace's end stands for all that lies beyond it.
#[cycle(evaluation)]
fn value_ahead<A: Atoms>(formula: &Formula, rows: &[A], i: usize, distance: u32) -> Verdict
    requires { IsValid (tree_of formula.now) }
    ensures { result ≡ value_of A.answer rows.now (tree_of formula.now) (i + distance) }
{
    let position = i.saturating_add(distance as usize).min(rows.len());
    value(formula, rows, position)
}

/// Returns the greatest value at `i + lower` to `i + upper`.
#[cycle(evaluation)]
fn greatest_ahead<A: Atoms>(
    formula: &Formula,
    rows: &[A],
    i: usize,
    lower: u32,
    upper: u32,
) -> Verdict
    requires valid { IsValid (tree_of formula.now) }
    requires ordered { lower ≤ upper }
    requires bounded { upper ≤ 7200 }
    ensures { let each = value_of A.answer rows.now (tree_of formula.now) in
        result ≡ greatest_over each (i + lower) (ahead_count lower upper) }
{
    let mut greatest = Verdict::No;
    for distance in lower..upper + 1 {
        greatest = greatest.or(value_ahead(formula, rows, i, distance));
    }
    greatest
}

/// Returns the least value at the positions from `i + from` on and before `i + end`.
#[cycle(evaluation)]
fn least_ahead<A: Atoms>(formula: &Formula, rows: &[A], i: usize, from: u32, end: u32) -> Verdict
    requires valid { IsValid (tree_of formula.now) }
    requires ordered { from ≤ end }
    ensures { let each = value_of A.answer rows.now (tree_of formula.now) in
        result ≡ least_over each (i + from) (end - from) }
{
    let mut least = Verdict::Yes;
    for distance in from..end {
        least = least.and(value_ahead(formula, rows, i, distance));
    }
    least
}

/// Returns the greatest value at the positions from `i - upper` to `i - lower` that are not below 0.
#[cycle(evaluation)]
fn greatest_back<A: Atoms>(
    formula: &Formula,
    rows: &[A],
    i: usize,
    lower: u32,
    upper: u32,
) -> Verdict
    requires valid { IsValid (tree_of formula.now) }
    requires ordered { lower ≤ upper }
    ensures { let each = value_of A.answer rows.now (tree_of formula.now) in
        result ≡ greatest_over each (past_start i upper) (past_count i lower upper) }
{
    let mut greatest = Verdict::No;
    for distance in lower as usize..(upper as usize).min(i) + 1 {
        greatest = value(formula, rows, i - distance).or(greatest);
    }
    greatest
}

/// Returns the least value at the positions, none below 0, that lie `from` positions back from `i` or more, and fewer
/// than `end`.
#[cycle(evaluation)]
fn least_back<A: Atoms>(formula: &Formula, rows: &[A], i: usize, from: u32, end: u32) -> Verdict
    requires valid { IsValid (tree_of formula.now) }
    requires inside { i < length rows.now }
    requires ordered { from ≤ end }
    ensures { let each = value_of A.answer rows.now (tree_of formula.now) in
        let start = (i + 1) - end in
        result ≡ least_over each start (((i + 1) - from) - start) }
{
    let mut least = Verdict::Yes;
    for distance in from as usize..(end as usize).min(i + 1) {
        least = value(formula, rows, i - distance).and(least);
    }
    least
}

/// Returns the value of `a U[lower,upper] b`. It carries along the value of `a` before each position.
#[cycle(evaluation)]
fn until<A: Atoms>(
    a: &Formula,
    b: &Formula,
    rows: &[A],
    i: usize,
    lower: u32,
    upper: u32,
) -> Verdict
    requires valid_a { IsValid (tree_of a.now) }
    requires valid_b { IsValid (tree_of b.now) }
    requires ordered { lower ≤ upper }
    requires bounded { upper ≤ 7200 }
    ensures { let a_each = value_of A.answer rows.now (tree_of a.now) in
        let b_each = value_of A.answer rows.now (tree_of b.now) in
        result ≡ link_value U lower upper a_each b_each i }
{
    let mut before = least_ahead(a, rows, i, 0, lower);
    let mut greatest = Verdict::No;
    for distance in lower..upper + 1 {
        greatest = greatest.or(value_ahead(b, rows, i, distance).and(before));
        before = before.and(value_ahead(a, rows, i, distance));
    }
    greatest
}

/// Returns the value of `a S[lower,upper] b`. It carries along the value of `a` after each position.
#[cycle(evaluation)]
fn since<A: Atoms>(
    a: &Formula,
    b: &Formula,
    rows: &[A],
    i: usize,
    lower: u32,
    upper: u32,
) -> Verdict
    requires valid_a { IsValid (tree_of a.now) }
    requires valid_b { IsValid (tree_of b.now) }
    requires inside { i < length rows.now }
    requires ordered { lower ≤ upper }
    ensures { let a_each = value_of A.answer rows.now (tree_of a.now) in
        let b_each = value_of A.answer rows.now (tree_of b.now) in
        result ≡ link_value S lower upper a_each b_each i }
{
    let mut after = least_back(a, rows, i, 0, lower);
    let mut greatest = Verdict::No;
    for distance in lower as usize..(upper as usize).min(i) + 1 {
        greatest = value(b, rows, i - distance).and(after).or(greatest);
        after = value(a, rows, i - distance).and(after);
    }
    greatest
}
