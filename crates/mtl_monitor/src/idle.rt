//! Whether the values of a formula depend on a distance or a bearing where the vessels are apart.
ghost use Rattle.std.specs.Prelude.{◌≡◌};
ghost use Rattle.mtl_formulas.specs.FormulaTree.{tree_of};
ghost use Rattle.mtl_formulas.specs.Glances.{apart_answer};
ghost use Rattle.mtl_monitor.specs.Inner.Idle.{apart_value, is_idle, known_greatest, known_least, known_turned};

use mtl_formulas::{Atom, Formula, Glance, Node, Verdict};

/// Returns the answer to an atom where a glance shows that the vessels are apart, if it shows the answer too.
fn apart_answer(atom: Atom) -> Option<Verdict>
    ensures { result ≡ apart_answer atom }
{
    match atom {
        Atom::Always | Atom::Seen => Some(Verdict::Yes),
        Atom::Opening | Atom::Clear(_) | Atom::Close(_) | Atom::OtherOnPort | Atom::Ahead => None,
        _ => Some(Verdict::No),
    }
}

/// Returns the value of a negation, if its operand's is known.
fn turned(a: Option<Verdict>) -> Option<Verdict>
    ensures { result ≡ known_turned a }
{
    match a {
        Some(Verdict::No) => Some(Verdict::Yes),
        Some(Verdict::Open) => Some(Verdict::Open),
        Some(Verdict::Yes) => Some(Verdict::No),
        None => None,
    }
}

/// Returns the lesser of two values, if what is known of them decides it.
fn least(a: Option<Verdict>, b: Option<Verdict>) -> Option<Verdict>
    ensures { result ≡ known_least a b }
{
    match (a, b) {
        (Some(Verdict::No), _) | (_, Some(Verdict::No)) => Some(Verdict::No),
        (Some(Verdict::Yes), b) => b,
        (a, Some(Verdict::Yes)) => a,
        (Some(Verdict::Open), Some(Verdict::Open)) => Some(Verdict::Open),
        _ => None,
    }
}

/// Returns the greater of two values, if what is known of them decides it.
fn greatest(a: Option<Verdict>, b: Option<Verdict>) -> Option<Verdict>
    ensures { result ≡ known_greatest a b }
{
    match (a, b) {
        (Some(Verdict::Yes), _) | (_, Some(Verdict::Yes)) => Some(Verdict::Yes),
        (Some(Verdict::No), b) => b,
        (a, Some(Verdict::No)) => a,
        (Some(Verdict::Open), Some(Verdict::Open)) => Some(Verdict::Open),
        _ => None,
    }
}

/// Returns the formula's value at each position at which the vessels are apart, if the glance there decides it.
fn apart_value(formula: &Formula) -> Option<Verdict>
    ensures { result ≡ apart_value (tree_of formula.now) }
{
    match formula.node() {
        Node::Atom(atom) => apart_answer(atom),
        Node::Not(a) => turned(apart_value(a)),
        Node::And(a, b) => least(apart_value(a), apart_value(b)),
        Node::Or(a, b) => greatest(apart_value(a), apart_value(b)),
        Node::Implies(a, b) => greatest(turned(apart_value(a)), apart_value(b)),
        Node::F(_, _, _)
        | Node::G(_, _, _)
        | Node::O(_, _, _)
        | Node::H(_, _, _)
        | Node::U(_, _, _, _)
        | Node::S(_, _, _, _) => None,
    }
}

/// Returns whether no distance or bearing at a position at which the vessels are apart can change the formula's value:
/// at any position or, if `apart` is false, at a position at which they are not.
pub(crate) fn is_idle(apart: bool, formula: &Formula) -> bool
    ensures { result ≡ is_idle apart (tree_of formula.now) }
{
    let here = apart && apart_value(formula).is_none();
    match formula.node() {
        Node::Atom(atom) => !(apart && atom.is_untold(Glance::Apart)),
        Node::Not(a) => is_idle(apart, a),
        Node::And(a, b) | Node::Or(a, b) | Node::Implies(a, b) => {
            is_idle(here, a) && is_idle(here, b)
        }
        Node::F(_, _, a) | Node::G(_, _, a) | Node::O(_, _, a) | Node::H(_, _, a) => {
            is_idle(true, a)
        }
        Node::U(_, _, a, b) | Node::S(_, _, a, b) => is_idle(true, a) && is_idle(true, b),
    }
}
