//! From tokens to the postfix form of a formula, in which an operator stands after its operands, or to the index of the
//! first wrong token. The parser keeps what it expects in a list of its own, so parentheses cost no recursion.
ghost use Rattle.std.specs.Prelude.{◌≡◌, ◌++◌, [], IfOk, OnOk, reverse};
ghost use Rattle.mtl_language.specs.Inner.Postfix.{bounded_item, formula_and, replacement, left_out, taken, all_left_out, IsOfBounds, IsOfNumber, Replaces, LeavesOut, Takes, read, at_start, Arranges};

use crate::parsing::ParseFault;
use crate::tokens::{IndexedToken, Measure, Token};
use mtl_formulas::{Atom, LinkKind, PairKind, SpanKind};
use std::alloc::{AllocError, Global};

/// An item of a postfix form. An operator takes the operands that were built last. Bounds are in seconds.
#[derive(Clone, Copy)]
pub(crate) enum PostfixItem {
    Leaf(Atom),
    Not,
    Pair(PairKind),
    Span(SpanKind, u32, u32),
    Link(LinkKind, u32, u32),
}

/// An operator with bounds.
#[derive(Clone, Copy)]
pub(crate) enum Bounded {
    Span(SpanKind),
    Link(LinkKind),
}

impl Bounded {
    fn over(self, lower: u32, upper: u32) -> PostfixItem
        ensures { result ≡ bounded_item self lower upper }
    {
        match self {
            Bounded::Span(kind) => PostfixItem::Span(kind, lower, upper),
            Bounded::Link(kind) => PostfixItem::Link(kind, lower, upper),
        }
    }
}

/// What may come next.
#[derive(Clone, Copy)]
pub(crate) enum Expected {
    Operand,
    /// `U` or `S` with bounds and an operand, or nothing.
    LinkRest,
    /// `&` with an operand, any number of times.
    AndRest,
    OrRest,
    /// `->` with a formula, or nothing.
    ImpliesRest,
    Shut,
    /// No token: an item is written.
    Write(PostfixItem),
    OpenBounds(Bounded),
    Lower(Bounded),
    Comma(Bounded, u32),
    Upper(Bounded, u32),
    ShutBounds(Bounded, u32, u32),
    OpenNumber(Measure),
    Number(Measure),
    ShutNumber(Atom),
}

/// Returns the postfix form of a formula, or the index at which the tokens are wrong: `end` if none is wrong and they
/// end too early.
pub(crate) fn arrange(
    alloc: Global,
    tokens: &[IndexedToken],
    end: usize,
) -> Result<Vec<PostfixItem>, ParseFault>
    ensures { Arranges result (read end at_start tokens.now) }
{
    let mut stack = Vec::new(alloc);
    let mut postfix = Vec::new(alloc);
    expect_formula(&mut stack)?;
    for indexed in tokens {
        if !offer(&mut stack, &mut postfix, indexed.token)? {
            return Err(ParseFault::Syntax(indexed.index));
        }
    }
    if !finish(&mut stack, &mut postfix)? {
        return Err(ParseFault::Syntax(end));
    }
    Ok(postfix)
}

/// Expects a formula next, its operand first.
fn expect_formula(stack: &mut Vec<Expected>) -> Result<(), AllocError>
    ensures { OnOk result (stack.new.items ≡ stack.old.items ++ reverse (formula_and [])) }
{
    stack.extend_from_slice(&[
        Expected::ImpliesRest,
        Expected::OrRest,
        Expected::AndRest,
        Expected::LinkRest,
        Expected::Operand,
    ])?;
    Ok(())
}

/// Leaves things out until one takes the token. False if the token is wrong.
fn offer(
    stack: &mut Vec<Expected>,
    postfix: &mut Vec<PostfixItem>,
    token: Token,
) -> Result<bool, AllocError>
    ensures { IfOk result (λ found.
        Takes found (taken token (reverse stack.old.items))
        stack.new.items postfix.old.items postfix.new.items) }
{
    while let Some(expected) = stack.pop() {
        if replace(stack, expected, token)? {
            return Ok(true);
        }
        if !leave_out(postfix, expected)? {
            return Ok(false);
        }
    }
    Ok(false)
}

/// Leaves out all that is expected. False if something may not be left out.
fn finish(stack: &mut Vec<Expected>, postfix: &mut Vec<PostfixItem>) -> Result<bool, AllocError>
    ensures { IfOk result
        (λ found. LeavesOut found
        (all_left_out (reverse stack.old.items)) postfix.old.items postfix.new.items) }
{
    while let Some(expected) = stack.pop() {
        if !leave_out(postfix, expected)? {
            return Ok(false);
        }
    }
    Ok(true)
}

/// Leaves out a thing expected, and writes its item. False if it may not be left out.
fn leave_out(postfix: &mut Vec<PostfixItem>, expected: Expected) -> Result<bool, AllocError>
    ensures { IfOk result (λ found.
        LeavesOut found (left_out expected) postfix.old.items postfix.new.items) }
{
    match expected {
        Expected::Write(item) => {
            postfix.push(item)?;
            Ok(true)
        }
        Expected::LinkRest | Expected::AndRest | Expected::OrRest | Expected::ImpliesRest => {
            Ok(true)
        }
        _ => Ok(false),
    }
}

/// Replaces a thing expected by what is expected after the token. False if the token does not begin it.
fn replace(stack: &mut Vec<Expected>, expected: Expected, token: Token) -> Result<bool, AllocError>
    ensures { IfOk result (λ found.
        Replaces found (replacement expected token) stack.old.items stack.new.items) }
{
    match expected {
        Expected::Operand => replace_operand(stack, token),
        Expected::LinkRest => replace_link(stack, token),
        Expected::AndRest => replace_and(stack, token),
        Expected::OrRest => replace_or(stack, token),
        Expected::ImpliesRest => replace_implies(stack, token),
        Expected::OpenBounds(_)
        | Expected::Lower(_)
        | Expected::Comma(..)
        | Expected::Upper(..)
        | Expected::ShutBounds(..) => replace_bounds(stack, expected, token),
        _ => replace_number(stack, expected, token),
    }
}

/// What is expected instead of an operand.
fn replace_operand(stack: &mut Vec<Expected>, token: Token) -> Result<bool, AllocError>
    ensures { IfOk result (λ found.
        Replaces found (replacement Expected.Operand token) stack.old.items stack.new.items) }
{
    match token {
        Token::Atom(atom) => {
            stack.push(Expected::Write(PostfixItem::Leaf(atom)))?;
            Ok(true)
        }
        Token::Measure(measure) => {
            stack.push(Expected::OpenNumber(measure))?;
            Ok(true)
        }
        Token::Not => {
            stack.push(Expected::Write(PostfixItem::Not))?;
            stack.push(Expected::Operand)?;
            Ok(true)
        }
        Token::Span(kind) => {
            stack.push(Expected::OpenBounds(Bounded::Span(kind)))?;
            Ok(true)
        }
        Token::Open => {
            stack.push(Expected::Shut)?;
            expect_formula(stack)?;
            Ok(true)
        }
        _ => Ok(false),
    }
}

/// What is expected instead of what may follow an operand: an operator over an interval, with its other operand.
fn replace_link(stack: &mut Vec<Expected>, token: Token) -> Result<bool, AllocError>
    ensures { IfOk result (λ found.
        Replaces found (replacement Expected.LinkRest token) stack.old.items stack.new.items) }
{
    match token {
        Token::Link(kind) => {
            stack.push(Expected::OpenBounds(Bounded::Link(kind)))?;
            Ok(true)
        }
        _ => Ok(false),
    }
}

/// What is expected instead of further conjuncts: an operand, the item that joins it, and still further conjuncts.
fn replace_and(stack: &mut Vec<Expected>, token: Token) -> Result<bool, AllocError>
    ensures { IfOk result (λ found.
        Replaces found (replacement Expected.AndRest token) stack.old.items stack.new.items) }
{
    match token {
        Token::Pair(PairKind::And) => {
            stack.extend_from_slice(&[
                Expected::AndRest,
                Expected::Write(PostfixItem::Pair(PairKind::And)),
                Expected::LinkRest,
                Expected::Operand,
            ])?;
            Ok(true)
        }
        _ => Ok(false),
    }
}

/// What is expected instead of further disjuncts.
fn replace_or(stack: &mut Vec<Expected>, token: Token) -> Result<bool, AllocError>
    ensures { IfOk result (λ found.
        Replaces found (replacement Expected.OrRest token) stack.old.items stack.new.items) }
{
    match token {
        Token::Pair(PairKind::Or) => {
            stack.extend_from_slice(&[
                Expected::OrRest,
                Expected::Write(PostfixItem::Pair(PairKind::Or)),
                Expected::AndRest,
                Expected::LinkRest,
                Expected::Operand,
            ])?;
            Ok(true)
        }
        _ => Ok(false),
    }
}

/// What is expected instead of what may follow a disjunction. A whole formula comes after `->`, so it groups to the right.
fn replace_implies(stack: &mut Vec<Expected>, token: Token) -> Result<bool, AllocError>
    ensures { IfOk result (λ found.
        Replaces found (replacement Expected.ImpliesRest token) stack.old.items stack.new.items) }
{
    match token {
        Token::Pair(PairKind::Implies) => {
            stack.push(Expected::Write(PostfixItem::Pair(PairKind::Implies)))?;
            expect_formula(stack)?;
            Ok(true)
        }
        _ => Ok(false),
    }
}

/// What is expected instead of a part of an interval, which only one kind of token takes.
fn replace_bounds(
    stack: &mut Vec<Expected>,
    expected: Expected,
    token: Token,
) -> Result<bool, AllocError>
    requires { IsOfBounds expected }
    ensures { IfOk result (λ found.
        Replaces found (replacement expected token) stack.old.items stack.new.items) }
{
    match (expected, token) {
        (Expected::OpenBounds(op), Token::OpenBounds) => {
            stack.push(Expected::Lower(op))?;
            Ok(true)
        }
        (Expected::Lower(op), Token::Number(lower)) => {
            stack.push(Expected::Comma(op, lower))?;
            Ok(true)
        }
        (Expected::Comma(op, lower), Token::Comma) => {
            stack.push(Expected::Upper(op, lower))?;
            Ok(true)
        }
        (Expected::Upper(op, lower), Token::Number(upper)) => {
            stack.push(Expected::ShutBounds(op, lower, upper))?;
            Ok(true)
        }
        (Expected::ShutBounds(op, lower, upper), Token::ShutBounds) => {
            stack.push(Expected::Write(op.over(lower, upper)))?;
            stack.push(Expected::Operand)?;
            Ok(true)
        }
        _ => Ok(false),
    }
}

/// What is expected instead of a parenthesis or a number in parentheses, which only one kind of token takes.
fn replace_number(
    stack: &mut Vec<Expected>,
    expected: Expected,
    token: Token,
) -> Result<bool, AllocError>
    requires { IsOfNumber expected }
    ensures { IfOk result (λ found.
        Replaces found (replacement expected token) stack.old.items stack.new.items) }
{
    match (expected, token) {
        (Expected::Shut, Token::Shut) => Ok(true),
        (Expected::OpenNumber(measure), Token::Open) => {
            stack.push(Expected::Number(measure))?;
            Ok(true)
        }
        (Expected::Number(measure), Token::Number(n)) => {
            stack.push(Expected::ShutNumber(measure.of(n)))?;
            Ok(true)
        }
        (Expected::ShutNumber(atom), Token::Shut) => {
            stack.push(Expected::Write(PostfixItem::Leaf(atom)))?;
            Ok(true)
        }
        _ => Ok(false),
    }
}
