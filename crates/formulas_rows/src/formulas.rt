//! Beyond the contracts: worked texts, faults by number, and the limits.
ghost use Rattle.std.specs.Prelude.{IfOk};
ghost use Rattle.mtl_formulas.specs.FormulaTree.{tree_of};
ghost use Rattle.mtl_formulas.specs.FormulaMeasures.{IsValid, IsTick};

use crate::compared::{is, is_true};
use mtl_formulas::{
    Atom, Atoms, Formula, SpanKind, Verdict, future_reach, laws, nodes, value, weight,
};
use mtl_language::{ParseFault, parse, print};
use out_of_memory::Memory;
use std::alloc::{AllocError, Global};
use std::process::Abort;

/// Returns the printed form of a text's formula at a tick of 10 seconds.
fn reprinted(rt: &impl Abort, alloc: Global, text: &[u8]) -> Result<Vec<u8>, ParseFault> {
    is_true(rt, text.len() <= 1024);
    let formula = parse(alloc, text, 10)?;
    Ok(print(alloc, &formula, 10)?)
}

/// Compares the printed form of a text's formula at a tick of 10 seconds.
pub(crate) fn is_reprinted(
    rt: &impl Abort,
    alloc: Global,
    text: &[u8],
    wanted: &[u8],
) -> Result<(), ParseFault> {
    let printed = reprinted(rt, alloc, text)?;
    is(rt, (text, printed.as_slice()), (text, wanted));
    Ok(())
}

/// Compares the fault of a text at this tick, if it has one.
fn has_fault(rt: &impl Abort, alloc: Global, text: &[u8], tick: u32, wanted: Option<ParseFault>)
    requires { IsTick tick }
{
    is_true(rt, text.len() <= 1024);
    let fault = parse(alloc, text, tick).err();
    is(rt, (text, fault), (text, wanted));
}

/// Appends the text `times` times, and then the end.
fn add(all: &mut Vec<u8>, text: &[u8], times: u8, end: &[u8]) -> Result<(), AllocError> {
    for _ in 0..times {
        all.extend_from_slice(text)?;
    }
    all.extend_from_slice(end)
}

/// Returns the text `times` times, and then the end.
pub(crate) fn repeated(
    alloc: Global,
    text: &[u8],
    times: u8,
    end: &[u8],
) -> Result<Vec<u8>, AllocError> {
    let mut all = Vec::new(alloc);
    add(&mut all, text, times, end)?;
    Ok(all)
}

/// Texts, and the printed forms of their formulas, with uniform operators and spaces.
static PRINTED: [(&[u8], &[u8]); 3] = [
    (b"F[0,20] risk & !seen", b"(F[0,20] risk & !seen)"),
    (
        b" risk->seen ->age( 0020)|close(7) ",
        b"(risk -> (seen -> (age(20) | close(7))))",
    ),
    (b"rank_gives U[0,20]!begin", b"(rank_gives U[0,20] !begin)"),
];

#[test]
fn operators_and_spaces_are_printed_in_one_way(rt: HostRuntime) -> Result<(), ParseFault> {
    for (text, printed) in &PRINTED {
        is_reprinted(&rt, rt.alloc(), text, printed)?;
    }
    Ok(())
}

/// Texts, and the fault of each at a tick of 10 seconds.
static REFUSED: [(&[u8], ParseFault); 10] = [
    // wrong tokens
    (b"risk &", ParseFault::Syntax(6)),
    (b"", ParseFault::Syntax(0)),
    (b"risky", ParseFault::Syntax(0)),
    (b"risk\t& seen", ParseFault::Syntax(4)),
    (b"F[0,1234567890] risk", ParseFault::Syntax(4)),
    (b"risk U[0,10] seen U[0,10] risk", ParseFault::Syntax(18)),
    // refused numbers, and a wrong token after one
    (b"F[0,25] risk", ParseFault::Number(4)),
    (b"F[20,10] risk", ParseFault::Number(5)),
    (b"clear(100001)", ParseFault::Number(6)),
    (b"F[0,25] risk risk", ParseFault::Syntax(13)),
];

#[test]
fn a_wrong_token_or_a_refused_number_is_told_by_its_index(rt: HostRuntime) {
    for (text, fault) in &REFUSED {
        has_fault(&rt, rt.alloc(), text, 10, Some(*fault));
    }
}

static DEPTHS: [(u8, Option<ParseFault>); 2] = [(63, None), (64, Some(ParseFault::Size))];

#[test]
fn depth_64_is_taken(rt: HostRuntime) -> Result<(), AllocError> {
    for (depth, fault) in &DEPTHS {
        let text = repeated(rt.alloc(), b"!", *depth, b"risk")?;
        has_fault(&rt, rt.alloc(), &text, 1, *fault);
    }
    Ok(())
}

/// The ends of four groups of 32 atoms.
static ENDS: [&[u8]; 4] = [b"true)&(", b"true)&(", b"true)&(", b"true))"];

/// Returns the four groups joined, negated `negations` times: 4 * 63 + 3 nodes, and one per negation.
fn groups(alloc: Global, negations: u8) -> Result<Vec<u8>, AllocError> {
    let mut all = repeated(alloc, b"!", negations, b"((")?;
    for end in &ENDS {
        add(&mut all, b"true|", 31, end)?;
    }
    Ok(all)
}

static NEGATIONS: [(u8, Option<ParseFault>); 2] = [(1, None), (2, Some(ParseFault::Size))];

#[test]
fn nodes_256_are_taken(rt: HostRuntime) -> Result<(), AllocError> {
    for (negations, fault) in &NEGATIONS {
        let text = groups(rt.alloc(), *negations)?;
        has_fault(&rt, rt.alloc(), &text, 1, *fault);
    }
    Ok(())
}

static REACHES: [(&[u8], Option<ParseFault>); 2] = [
    (b"F[0,7200] O[0,1] risk", None),
    (b"F[0,7200] G[0,1] risk", Some(ParseFault::Size)),
];

#[test]
fn reach_7200_is_taken(rt: HostRuntime) {
    for (text, fault) in &REACHES {
        has_fault(&rt, rt.alloc(), text, 1, *fault);
    }
}

/// Returns `risk` in three positions, the nearest of them this one.
fn risk_in_window(alloc: Global, kind: SpanKind) -> Result<Formula, Memory>
    ensures { IfOk result (λ f. IsValid (tree_of f)) }
{
    Formula::span(alloc, kind, 0, 2, Formula::leaf(Atom::Risk))
}

#[test]
fn a_window_of_three_positions_is_measured(rt: HostRuntime) -> Result<(), Memory> {
    let ahead = risk_in_window(rt.alloc(), SpanKind::F)?;
    let measures = (future_reach(&ahead), nodes(&ahead), weight(&ahead));
    is(&rt, measures, (2, 2, 2 * (2 + 1) + (2 + 1)));
    Ok(())
}

/// A row that gives this value to each atom.
#[derive(Clone, Copy)]
struct Row {
    each: Verdict,
}

impl Atoms for Row {
    ghost answer = { λ row atom. row.each };

    fn value(&self, _atom: Atom) -> Verdict {
        self.each
    }
}

static QUIET: [Row; 4] = [Row { each: Verdict::No }; 4];

/// Compares the values of a formula, each at a position, over a row that answers no atom with Yes.
fn has_values(rt: &impl Abort, formula: &Formula, values: &[(usize, Verdict)])
    requires { IsValid (tree_of formula.now) }
{
    for (position, wanted) in values {
        let found = (*position, value(formula, &QUIET, *position));
        is(rt, found, (*position, *wanted));
    }
}

static AHEAD: [(usize, Verdict); 4] = [
    (0, Verdict::No),
    (1, Verdict::No),
    (2, Verdict::Open),
    (3, Verdict::Open),
];

#[test]
fn risk_within_a_window_that_passes_the_end_is_open(rt: HostRuntime) -> Result<(), Memory> {
    let ahead = risk_in_window(rt.alloc(), SpanKind::F)?;
    has_values(&rt, &ahead, &AHEAD);
    Ok(())
}

static FIRST: [(usize, Verdict); 1] = [(0, Verdict::No)];

#[test]
fn nothing_lies_before_the_first_row(rt: HostRuntime) -> Result<(), Memory> {
    let once = risk_in_window(rt.alloc(), SpanKind::O)?;
    has_values(&rt, &once, &FIRST);
    drop(once);
    let historically = risk_in_window(rt.alloc(), SpanKind::H)?;
    has_values(&rt, &historically, &FIRST);
    Ok(())
}

#[test]
fn the_laws_can_be_cited() {
    laws::decided_values_stay();
    laws::reach();
    laws::answers_suffice::<Row>();
}
