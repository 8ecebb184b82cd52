//! One row through the nodes.
ghost use Rattle.std.specs.Prelude.{◌≡◌, ◌≢◌, ◌<◌, ◌≤◌, ◌+◌, ℕ, List, true, false, nat_lt, if◌then◌else◌, length, min};
ghost use Rattle.mtl_formulas.specs.declared.verdict.Verdict.TheVariants.{Open};
ghost use Rattle.mtl_monitor.specs.WindowCounts.{left_value};
ghost use Rattle.mtl_monitor.specs.Inner.Steps.{value_at, sensed, window_after, hits_under, bars_after, hits_after, given, kept};
ghost use Rattle.mtl_monitor.specs.Inner.Standing.{AllBelow, OperandsBelow};
ghost use Rattle.mtl_monitor.specs.Inner.Quiet.{Answers, IsAwake, flag_at, Moves, IsReached, Walked};
ghost use Rattle.mtl_monitor.specs.Inner.Triggers.{AreTriggers};
ghost use Rattle.mtl_formulas.specs.declared.atom.Atom.{Atom};
ghost use Rattle.mtl_formulas.specs.declared.verdict.Verdict.{Verdict};

use crate::left::Left;
use crate::marks::{are_unset, noted};
use crate::node::{Kept, Operator, Passed, ProgramNode};
use crate::triggers::Trigger;
use crate::verdicts::{is_same, joined, lesser, negated, sensed};
use mtl_formulas::{SpanKind, Verdict};

fn value_at(values: &[Verdict], index: usize) -> Verdict
    requires { index < length values.now }
    ensures { result ≡ value_at values.now index }
{
    values[index]
}

fn slide(left: &mut Left, kind: SpanKind, width: u32, from: u32, value: Verdict, i: u32) -> Passed
    ensures left { left.new ≡ window_after left.old kind width from value i }
    ensures value { result.value ≡ sensed kind (left_value left.new) }
    ensures still { result.moved ≡ false → left.new ≡ left.old }
{
    let before = *left;
    if i >= from {
        left.read(sensed(kind, value), width);
    }
    Passed {
        value: sensed(kind, left.value()),
        moved: !before.is_same(*left),
    }
}

/// The first operand of S, which bars what held before it fails.
fn bar(hits: &mut Left, bars: &mut Left, late: u32, lower: u32, a: Verdict, i: u32)
    ensures hits { hits.new ≡ hits_under hits.old late a i }
    ensures bars { bars.new ≡ bars_after bars.old late lower a i }
{
    if i >= late {
        bars.read(negated(a), lower);
        hits.limit(a);
    }
}

/// The second operand of S.
fn hold(hits: &mut Left, bars: Left, width: u32, from: u32, b: Verdict, i: u32)
    ensures { hits.new ≡ hits_after hits.old bars width from b i }
{
    if i >= from {
        hits.read(lesser(b, negated(bars.value())), width);
    }
}

/// Both operands of S.
fn since(
    hits: &mut Left,
    bars: &mut Left,
    late: u32,
    lower: u32,
    a: Verdict,
    width: u32,
    from: u32,
    b: Verdict,
    i: u32,
) -> Passed
    ensures bars { bars.new ≡ bars_after bars.old late lower a i }
    ensures hits { hits.new ≡ hits_after (hits_under hits.old late a i) bars.new width from b i }
    ensures value { result.value ≡ left_value hits.new }
    ensures still { result.moved ≡ false → (hits.new ≡ hits.old) × (bars.new ≡ bars.old) }
{
    let before = *hits;
    let barred = *bars;
    bar(hits, bars, late, lower, a, i);
    hold(hits, *bars, width, from, b, i);
    Passed {
        value: hits.value(),
        moved: !(before.is_same(*hits) && barred.is_same(*bars)),
    }
}

/// What a node gives at a position, as far as the trace is known to reach.
fn before_end(passed: Passed, position: u32, end: u32) -> Passed
    ensures value { result.value ≡ (if nat_lt position end then passed.value else Open) }
    ensures moved { result.moved ≡ passed.moved }
{
    if position < end {
        passed
    } else {
        Passed {
            value: Verdict::Open,
            moved: passed.moved,
        }
    }
}

/// Passes row `i` through a node, whose operands have passed it; what an atom answers was its own value already. The trace is
/// known to end at `end`, or not before.
fn pass(
    node: &ProgramNode,
    keeps: &mut Kept,
    values: &[Verdict],
    own: Verdict,
    i: u32,
    end: u32,
) -> Passed
    requires below { OperandsBelow (length values.now) node.now.operator }
    ensures value { (row : Atom → Verdict) → Answers node.now.operator row own →
        result.value ≡ given node.now.operator keeps.old node.now.late values.now row i end }
    ensures after { keeps.new ≡ kept node.now.operator keeps.old node.now.late values.now i }
    ensures still { result.moved ≡ false → keeps.new ≡ keeps.old }
{
    let position = i.saturating_sub(node.late);
    match (node.operator, keeps) {
        (Operator::Atom(_), _) => Passed {
            value: own,
            moved: false,
        },
        (Operator::Not(a), _) => Passed {
            value: negated(value_at(values, a)),
            moved: false,
        },
        (Operator::Pair(kind, a, b), _) => Passed {
            value: joined(kind, value_at(values, a), value_at(values, b)),
            moved: false,
        },
        (Operator::Late(_, from, a), Kept::Ring(line)) => line.pass(from, value_at(values, a), i),
        (Operator::Window(kind, width, from, a), Kept::Window(left)) => {
            let passed = slide(left, kind, width, from, value_at(values, a), i);
            before_end(passed, position, end)
        }
        (Operator::Since(width, lower, from, a, b), Kept::Since(hits, bars)) => {
            let a = value_at(values, a);
            let b = value_at(values, b);
            let passed = since(hits, bars, node.late, lower, a, width, from, b, i);
            before_end(passed, position, end)
        }
        (Operator::Until(from, full, lower, a, behind, b), Kept::Until(outlook)) => {
            outlook.read(from, value_at(values, a), value_at(values, b), i);
            outlook.bar(lower, full, value_at(values, behind), i);
            let passed = Passed {
                value: outlook.value(),
                moved: true,
            };
            before_end(passed, position, end)
        }
        _ => Passed {
            value: Verdict::Open,
            moved: true,
        },
    }
}

/// Returns whether the operands of a node give values at row `i`, and it gives one itself. What an U keeps moves at
/// each row, so it never rests.
fn is_awake(node: &ProgramNode, i: u32) -> bool
    ensures { result ≡ true → IsAwake node.now.operator i × (node.now.late ≤ i) }
{
    match node.operator {
        Operator::Late(_, from, _)
        | Operator::Window(_, _, from, _)
        | Operator::Since(_, _, from, _, _) => from.max(node.late) <= i,
        Operator::Until(_, _, _, _, _, _) => false,
        Operator::Atom(_) | Operator::Not(_) | Operator::Pair(_, _, _) => node.late <= i,
    }
}

/// Passes row `i` through the node at index `k`, once it has passed all before it. Says whether its value has changed.
fn pass_at(
    nodes: &[ProgramNode],
    k: usize,
    states: &mut [Kept],
    values: &mut [Verdict],
    moving: &mut [bool],
    i: u32,
    end: u32,
) -> bool
    requires below { AllBelow nodes.now }
    requires inside { k < length nodes.now }
    requires states { length states.old ≡ length nodes.now }
    requires values { length values.old ≡ length nodes.now }
    requires moving { length moving.old ≡ length nodes.now }
    ensures { Moves nodes.now states.old states.new values.old values.new moving.old moving.new
        i end k result }
{
    let own = values[k];
    let passed = pass(&nodes[k], &mut states[k], values, own, i, end);
    let changed = !is_same(passed.value, own);
    values[k] = passed.value;
    moving[k] = passed.moved || !is_awake(&nodes[k], i);
    changed
}

/// How late those nodes are whose position at row `i` is the first beyond the trace's end, so that their value may turn to Open.
fn crossing(i: u32, end: u32) -> u32
    ensures { (late : ℕ) → late ≢ result → i ≢ end + late }
{
    if i >= end { i - end } else { u32::MAX }
}

/// Returns the first node from `start` on that may not be left as it is, or the number of nodes. The marks are those of
/// the nodes whose values have changed.
fn next_passed(
    nodes: &[ProgramNode],
    triggers: &[Trigger],
    start: usize,
    moving: &[bool],
    i: u32,
    end: u32,
    marks: u64,
) -> usize
    requires start { start ≤ length nodes.now }
    requires triggers { AreTriggers nodes.now triggers.now }
    requires moving { length moving.now ≡ length nodes.now }
    ensures { IsReached nodes.now moving.now i end marks start result }
{
    let crossing = crossing(i, end);
    for k in start..nodes.len() {
        let trigger = triggers[k];
        if moving[k] {
            return k;
        }
        if !are_unset(marks, trigger.operands) {
            return k;
        }
        if trigger.late == crossing {
            return k;
        }
    }
    nodes.len()
}

/// Returns whether this node too is not said to move.
fn rests(still: bool, moving: &[bool], k: usize) -> bool
    requires { k < length moving.now }
    ensures { result ≡ true → (still ≡ true) × (flag_at moving.now k ≡ false) }
{
    still && !moving[k]
}

/// Passes row `i` through the nodes that are said to move, cross the trace's end, or have an operand whose value has changed,
/// where those of atoms that have are marked. Says whether none is said to move after it.
pub(crate) fn pass_all(
    nodes: &[ProgramNode],
    triggers: &[Trigger],
    states: &mut [Kept],
    values: &mut [Verdict],
    moving: &mut [bool],
    i: u32,
    end: u32,
    marks: u64,
) -> bool
    requires below { AllBelow nodes.now }
    requires triggers { AreTriggers nodes.now triggers.now }
    requires states { length states.old ≡ length nodes.now }
    requires values { length values.old ≡ length nodes.now }
    requires moving { length moving.old ≡ length nodes.now }
    ensures { (before : List Verdict)
        → Walked nodes.now states.old before values.old moving.old i end marks states.new values.new
        moving.new result }
{
    let mut so_far = marks;
    let mut still = true;
    let mut k = next_passed(nodes, triggers, 0, moving, i, end, so_far);
    while k < nodes.len() {
        let changed = pass_at(nodes, k, states, values, moving, i, end);
        so_far = noted(so_far, k, changed);
        still = rests(still, moving, k);
        k = next_passed(nodes, triggers, k + 1, moving, i, end, so_far);
    }
    still
}
