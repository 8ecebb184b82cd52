//! The least number of rows after a position for a value of Yes or No.
ghost use Rattle.std.specs.Prelude.{◌≡◌, ◌≤◌, IsTrue, ◌↔◌, All, map};
ghost use Rattle.mtl_formulas.specs.FormulaTree.{tree_of, negation, pair, span, link};
ghost use Rattle.mtl_formulas.specs.FormulaMeasures.{IsValid, reach_of};
ghost use Rattle.rule_set.specs.NamedTrees.{NamedTree};
ghost use Rattle.rule_program.specs.Lags.{lags_of, here, IsNoLast};

use mtl_formulas::{Formula, LinkKind, Node, PairKind, SpanKind, future_reach};
use rule_set::RuleSet;

/// The least numbers of rows after a position before its value can be No, and before it can be Yes.
#[derive(Clone, Copy, PartialEq, Eq)]
pub struct Lags {
    /// Before No.
    pub no: u32,
    /// Before Yes.
    pub yes: u32,
}

/// Returns the lag of an operator that looks back: it looks at its own position if its lower bound is 0.
fn here(lower: u32, lag: u32) -> u32
    ensures value { result ≡ here lower lag }
    ensures small { result ≤ lag }
{
    if lower == 0 { lag } else { 0 }
}

/// Returns the least numbers of rows after a position, by the formula's operators. Neither lag exceeds its reach.
#[cycle(lagging)]
pub fn lags_of(formula: &Formula) -> Lags
    requires { IsValid (tree_of formula.now) }
    ensures value { result ≡ lags_of (tree_of formula.now) }
    ensures no { result.no ≤ reach_of (tree_of formula.now) }
    ensures yes { result.yes ≤ reach_of (tree_of formula.now) }
{
    match formula.node() {
        Node::Atom(_) => Lags { no: 0, yes: 0 },
        Node::Not(a) => not_lags(a),
        Node::And(a, b) => pair_lags(PairKind::And, a, b),
        Node::Or(a, b) => pair_lags(PairKind::Or, a, b),
        Node::Implies(a, b) => pair_lags(PairKind::Implies, a, b),
        Node::F(lower, upper, a) => span_lags(SpanKind::F, lower, upper, a),
        Node::G(lower, upper, a) => span_lags(SpanKind::G, lower, upper, a),
        Node::O(lower, upper, a) => span_lags(SpanKind::O, lower, upper, a),
        Node::H(lower, upper, a) => span_lags(SpanKind::H, lower, upper, a),
        Node::U(lower, upper, a, b) => link_lags(LinkKind::U, lower, upper, a, b),
        Node::S(lower, upper, a, b) => link_lags(LinkKind::S, lower, upper, a, b),
    }
}

#[cycle(lagging)]
fn not_lags(a: &Formula) -> Lags
    requires { IsValid (negation (tree_of a.now)) }
    ensures value { result ≡ lags_of (negation (tree_of a.now)) }
    ensures no { result.no ≤ reach_of (tree_of a.now) }
    ensures yes { result.yes ≤ reach_of (tree_of a.now) }
{
    let a = lags_of(a);
    Lags {
        no: a.yes,
        yes: a.no,
    }
}

#[cycle(lagging)]
fn pair_lags(kind: PairKind, a: &Formula, b: &Formula) -> Lags
    requires { IsValid (pair kind (tree_of a.now) (tree_of b.now)) }
    ensures value { result ≡ lags_of (pair kind (tree_of a.now) (tree_of b.now)) }
    ensures no { result.no ≤ reach_of (pair kind (tree_of a.now) (tree_of b.now)) }
    ensures yes { result.yes ≤ reach_of (pair kind (tree_of a.now) (tree_of b.now)) }
{
    let a = lags_of(a);
    let b = lags_of(b);
    match kind {
        PairKind::And => Lags {
            no: a.no.min(b.no),
            yes: a.yes.max(b.yes),
        },
        PairKind::Or => Lags {
            no: a.no.max(b.no),
            yes: a.yes.min(b.yes),
        },
        PairKind::Implies => Lags {
            no: a.yes.max(b.no),
            yes: a.no.min(b.yes),
        },
    }
}

#[cycle(lagging)]
fn span_lags(kind: SpanKind, lower: u32, upper: u32, a: &Formula) -> Lags
    requires { IsValid (span kind lower upper (tree_of a.now)) }
    ensures value { result ≡ lags_of (span kind lower upper (tree_of a.now)) }
    ensures no { result.no ≤ reach_of (span kind lower upper (tree_of a.now)) }
    ensures yes { result.yes ≤ reach_of (span kind lower upper (tree_of a.now)) }
{
    let a = lags_of(a);
    match kind {
        SpanKind::F => Lags {
            no: upper + a.no,
            yes: lower + a.yes,
        },
        SpanKind::G => Lags {
            no: lower + a.no,
            yes: upper + a.yes,
        },
        SpanKind::O => Lags {
            no: here(lower, a.no),
            yes: a.yes.saturating_sub(upper),
        },
        SpanKind::H => Lags {
            no: a.no.saturating_sub(upper),
            yes: here(lower, a.yes),
        },
    }
}

#[cycle(lagging)]
fn link_lags(kind: LinkKind, lower: u32, upper: u32, a: &Formula, b: &Formula) -> Lags
    requires { IsValid (link kind lower upper (tree_of a.now) (tree_of b.now)) }
    ensures value { result ≡ lags_of (link kind lower upper (tree_of a.now) (tree_of b.now)) }
    ensures no { result.no ≤ reach_of (link kind lower upper (tree_of a.now) (tree_of b.now)) }
    ensures yes { result.yes ≤ reach_of (link kind lower upper (tree_of a.now) (tree_of b.now)) }
{
    let a = lags_of(a);
    let b = lags_of(b);
    match kind {
        LinkKind::U => Lags {
            no: a.no.min(upper + b.no),
            yes: lower + b.yes,
        },
        LinkKind::S => Lags {
            no: here(lower, b.no),
            yes: b.yes.saturating_sub(upper),
        },
    }
}

/// Returns whether no No of the formula can come before all rows that it reaches. Then each No comes with the last of
/// them, and an ordinary monitor answers it in time.
pub fn is_no_last(formula: &Formula) -> bool
    requires { IsValid (tree_of formula.now) }
    ensures { IsTrue result
        ↔ ((lags_of (tree_of formula.now)).no ≡ reach_of (tree_of formula.now)) }
{
    lags_of(formula).no == future_reach(formula)
}

/// Returns whether this holds for each rule: then no position of a trace is broken before all rows that its rule
/// reaches.
pub fn are_no_last(rules: &RuleSet) -> bool
    ensures lags { IsTrue result
        ↔ All (λ (rule : NamedTree). (lags_of rule.tree).no ≡ reach_of rule.tree) rules.now }
    ensures last { IsTrue result → All IsNoLast (map (λ (rule : NamedTree). rule.tree) rules.now) }
{
    for rule in 0..rules.len() {
        if !is_no_last(rules.formula(rule)) {
            return false;
        }
    }
    true
}
