//! The text of a formula.
ghost use Rattle.std.specs.Prelude.{◌≡◌, ◌≤◌, ◌*◌, ◌++◌, List, ℕ, IfOk, OnOk, string_bytes, codes};
ghost use Rattle.mtl_formulas.specs.FormulaTree.{tree_of, pair, span, link};
ghost use Rattle.mtl_formulas.specs.FormulaMeasures.{IsValid, HasValidParts, IsTick};
ghost use Rattle.mtl_language.specs.FormulaText.{atom_text, pair_sign, span_letter, link_letter, text_of};
ghost use Rattle.mtl_language.specs.FormulaReading.{IsMeaning, tree};
ghost use Rattle.std.specs.Fmt.{decimal};

use crate::atom_words;
use mtl_formulas::{Atom, Formula, LinkKind, Node, PairKind, SpanKind};
use out_of_memory::Memory;
use std::alloc::{AllocError, Global};
use std::fmt::Write;

/// Returns the text of a formula, with its bounds in seconds at a tick of 1 to 60 seconds: an atom as its word, `!`
/// before its operand, `F[0,20] a`, and the operators of two operands in parentheses with spaces, as `(a U[0,20] b)`. A
/// formula that some text means at this tick is parsed from it again as the same tree, if it has at most 1024 bytes.
pub fn print(alloc: Global, formula: &Formula, tick: u32) -> Result<Vec<u8>, Memory>
    requires valid { IsValid (tree_of formula.now) }
    requires tick { IsTick tick }
    ensures text { IfOk result (λ out. out.items ≡ text_of tick (tree_of formula.now)) }
    // What some text means at this tick, the text that is printed means again.
    ensures again { IfOk result (λ out. (text : List ℕ) →
        let means = tree (tree_of formula.now) in
        IsMeaning text tick means → IsMeaning out.items tick means) }
{
    let mut out = String::new(alloc);
    match write_formula(&mut out, formula, tick) {
        Ok(()) => Ok(out.into_bytes()),
        Err(_) => Err(Memory),
    }
}

/// Appends the text of a formula. It goes as deep as the formula does.
#[cycle(printing)]
fn write_formula(out: &mut String, formula: &Formula, tick: u32) -> Result<(), AllocError>
    requires parts { HasValidParts (tree_of formula.now) }
    requires tick { tick ≤ 60 }
    ensures { OnOk result (string_bytes out.new ≡
        string_bytes out.old ++ text_of tick (tree_of formula.now)) }
{
    match formula.node() {
        Node::Atom(atom) => write_atom(out, atom),
        Node::Not(a) => {
            out.push_str("!")?;
            write_formula(out, a, tick)
        }
        Node::And(a, b) => write_pair(out, PairKind::And, a, b, tick),
        Node::Or(a, b) => write_pair(out, PairKind::Or, a, b, tick),
        Node::Implies(a, b) => write_pair(out, PairKind::Implies, a, b, tick),
        Node::F(lower, upper, a) => write_span(out, SpanKind::F, lower, upper, a, tick),
        Node::G(lower, upper, a) => write_span(out, SpanKind::G, lower, upper, a, tick),
        Node::O(lower, upper, a) => write_span(out, SpanKind::O, lower, upper, a, tick),
        Node::H(lower, upper, a) => write_span(out, SpanKind::H, lower, upper, a, tick),
        Node::U(lower, upper, a, b) => write_link(out, LinkKind::U, lower, upper, a, b, tick),
        Node::S(lower, upper, a, b) => write_link(out, LinkKind::S, lower, upper, a, b, tick),
    }
}

#[cycle(printing)]
fn write_pair(
    out: &mut String,
    kind: PairKind,
    a: &Formula,
    b: &Formula,
    tick: u32,
) -> Result<(), AllocError>
    requires parts { HasValidParts (pair kind (tree_of a.now) (tree_of b.now)) }
    requires tick { tick ≤ 60 }
    ensures { OnOk result (string_bytes out.new ≡
        string_bytes out.old ++ text_of tick (pair kind (tree_of a.now) (tree_of b.now))) }
{
    out.push_str("(")?;
    write_formula(out, a, tick)?;
    write!(out, " {} ", sign(kind))?;
    write_formula(out, b, tick)?;
    out.push_str(")")
}

#[cycle(printing)]
fn write_span(
    out: &mut String,
    kind: SpanKind,
    lower: u32,
    upper: u32,
    a: &Formula,
    tick: u32,
) -> Result<(), AllocError>
    requires parts { HasValidParts (span kind lower upper (tree_of a.now)) }
    requires tick { tick ≤ 60 }
    ensures { OnOk result (string_bytes out.new ≡
        string_bytes out.old ++ text_of tick (span kind lower upper (tree_of a.now))) }
{
    write_interval(out, letter_of_span(kind), lower * tick, upper * tick)?;
    write_formula(out, a, tick)
}

#[cycle(printing)]
fn write_link(
    out: &mut String,
    kind: LinkKind,
    lower: u32,
    upper: u32,
    a: &Formula,
    b: &Formula,
    tick: u32,
) -> Result<(), AllocError>
    requires parts { HasValidParts (link kind lower upper (tree_of a.now) (tree_of b.now)) }
    requires tick { tick ≤ 60 }
    ensures { OnOk result
        (string_bytes out.new
        ≡ string_bytes out.old
        ++ text_of tick (link kind lower upper (tree_of a.now) (tree_of b.now))) }
{
    out.push_str("(")?;
    write_formula(out, a, tick)?;
    out.push_str(" ")?;
    write_interval(out, letter_of_link(kind), lower * tick, upper * tick)?;
    write_formula(out, b, tick)?;
    out.push_str(")")
}

fn write_atom(out: &mut String, atom: Atom) -> Result<(), AllocError>
    ensures { OnOk result (string_bytes out.new ≡ string_bytes out.old ++ atom_text atom) }
{
    out.push_str(atom_words::word(atom))?;
    match atom {
        Atom::Age(n) | Atom::Clear(n) | Atom::Close(n) => {
            write!(out, "({n})")?;
            Ok(())
        }
        _ => Ok(()),
    }
}

fn write_interval(out: &mut String, letter: &str, lower: u32, upper: u32) -> Result<(), AllocError>
    ensures { OnOk result (string_bytes out.new ≡
        string_bytes out.old
        ++ (letter.now ++ (codes "[" ++ decimal lower ++ codes "," ++ decimal upper ++ codes "]")
        ++ codes " ")) }
{
    write!(out, "{letter}[{lower},{upper}] ")?;
    Ok(())
}

fn sign(kind: PairKind) -> &'static str
    ensures { result.now ≡ pair_sign kind }
{
    match kind {
        PairKind::And => "&",
        PairKind::Or => "|",
        PairKind::Implies => "->",
    }
}

fn letter_of_span(kind: SpanKind) -> &'static str
    ensures { result.now ≡ span_letter kind }
{
    match kind {
        SpanKind::F => "F",
        SpanKind::G => "G",
        SpanKind::O => "O",
        SpanKind::H => "H",
    }
}

fn letter_of_link(kind: LinkKind) -> &'static str
    ensures { result.now ≡ link_letter kind }
{
    match kind {
        LinkKind::U => "U",
        LinkKind::S => "S",
    }
}
