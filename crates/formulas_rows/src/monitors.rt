//! Beyond the contracts: worked rows, many random formulas, and that each call can succeed.
ghost use Rattle.std.specs.Prelude.{◌≡◌, ◌<◌, ◌≤◌, length, IfOk};
ghost use Rattle.mtl_formulas.specs.FormulaTree.{tree_of};
ghost use Rattle.mtl_formulas.specs.FormulaMeasures.{IsValid};
ghost use Rattle.mtl_monitor.specs.Following.{count_of};
ghost use Rattle.mtl_monitor.specs.Monitoring.{fed_rows, past_rows};

use crate::compared::{is, is_true};
use crate::formulas::repeated;
use crate::rows::{NO, Row, YES, below, random_rows};
use mtl_formulas::{Formula, Verdict, future_reach, value};
use mtl_language::{ParseFault, parse};
use mtl_monitor::{Monitor, Program, TraceState};
use out_of_memory::Memory;
use rand_pcg::Pcg32;
use std::alloc::{AllocError, Global};
use std::process::Abort;

/// Feeds the rows and finishes; returns all answers in order.
fn answers(
    alloc: Global,
    monitor: &mut Monitor,
    rows: &[Row],
) -> Result<Vec<Option<(u32, Verdict)>>, ParseFault>
    requires past { past_rows monitor.old ≡ 0 }
    requires fed { fed_rows monitor.old ≡ 0 }
    requires few { length rows.now < 1000 }
{
    let mut all = Vec::new(alloc);
    for row in rows {
        all.push(monitor.feed(row))?;
    }
    for _ in 0..rows.len() {
        all.push(monitor.finish_next())?;
    }
    Ok(all)
}

/// Returns the monitor of a text at a tick of 10 seconds.
fn monitor_of(rt: &impl Abort, alloc: Global, text: &[u8]) -> Result<Monitor, ParseFault>
    ensures past { IfOk result (λ m. past_rows m ≡ 0) }
    ensures fed { IfOk result (λ m. fed_rows m ≡ 0) }
{
    is_true(rt, text.len() <= 1024);
    let formula = parse(alloc, text, 10)?;
    Ok(Monitor::new(alloc, &formula)?)
}

/// Returns all answers of that monitor over fewer than a thousand rows.
fn answers_of(
    rt: &impl Abort,
    alloc: Global,
    text: &[u8],
    rows: &[Row],
) -> Result<Vec<Option<(u32, Verdict)>>, ParseFault> {
    is_true(rt, rows.len() < 1000);
    let mut monitor = monitor_of(rt, alloc, text)?;
    answers(alloc, &mut monitor, rows)
}

/// A run: its name, its formula, its rows, and the answers: first those to each row, then those of the end.
type Run = (
    &'static str,
    &'static [u8],
    &'static [Row],
    &'static [Option<(u32, Verdict)>],
);

static RUNS: [Run; 4] = [
    (
        "a window ahead is answered late, and open at the end",
        b"F[0,20] risk",
        &[NO, NO, NO, NO],
        &[
            None,
            None,
            Some((0, Verdict::No)),
            Some((1, Verdict::No)),
            Some((2, Verdict::Open)),
            Some((3, Verdict::Open)),
            None,
            None,
        ],
    ),
    (
        "once, and then soon",
        b"F[0,10] O[0,10] risk",
        &[NO, YES, NO],
        &[
            None,
            Some((0, Verdict::Yes)),
            Some((1, Verdict::Yes)),
            Some((2, Verdict::Yes)),
            None,
            None,
        ],
    ),
    (
        "the past of the future at the beginning: once",
        b"O[10,20] F[0,10] risk",
        &[NO, NO, YES, NO],
        &[
            None,
            Some((0, Verdict::No)),
            Some((1, Verdict::No)),
            Some((2, Verdict::Yes)),
            Some((3, Verdict::Yes)),
            None,
            None,
            None,
        ],
    ),
    (
        "the past of the future at the beginning: historically",
        b"H[10,20] F[0,10] risk",
        &[NO, NO, YES, NO],
        &[
            None,
            Some((0, Verdict::Yes)),
            Some((1, Verdict::No)),
            Some((2, Verdict::No)),
            Some((3, Verdict::Yes)),
            None,
            None,
            None,
        ],
    ),
];

/// Checks that a run has its answers.
fn has_answers(rt: &impl Abort, alloc: Global, run: &Run) -> Result<(), ParseFault> {
    let (shows, text, rows, expected) = run;
    let all = answers_of(rt, alloc, text, rows)?;
    is(rt, (*shows, all.as_slice()), (*shows, *expected));
    Ok(())
}

#[test]
fn each_run_has_its_answers(rt: HostRuntime) -> Result<(), ParseFault> {
    for run in &RUNS {
        has_answers(&rt, rt.alloc(), run)?;
    }
    Ok(())
}

/// Returns the number of answers with this value.
fn count(answers: &[Option<(u32, Verdict)>], wanted: Verdict) -> usize {
    answers
        .iter()
        .filter(|answer| match answer {
            Some((_, value)) => *value as u8 == wanted as u8,
            None => false,
        })
        .count()
}

static LONG: [Row; 40] = [YES; 40];

#[test]
fn many_windows_in_one_another(rt: HostRuntime) -> Result<(), ParseFault> {
    let text = repeated(rt.alloc(), b"G[0,100] ", 16, b"seen")?;
    let all = answers_of(&rt, rt.alloc(), &text, &LONG)?;
    let counts = (count(&all, Verdict::Open), count(&all, Verdict::Yes));
    is(&rt, counts, (40, 0));
    Ok(())
}

static BOUNDS: [&str; 5] = ["[0,0] ", "[0,20] ", "[10,30] ", "[20,20] ", "[10,70] "];

/// Writes the unary operator of this number, before its operand.
fn write_before(source: &mut Pcg32, text: &mut String, operator: usize) -> Result<(), AllocError>
    requires { operator ≤ 4 }
{
    if operator == 0 {
        return text.push_str("!");
    }
    text.push_str(SPANS[operator - 1])?;
    text.push_str(BOUNDS[below(source, 5) as usize])
}

/// Writes the binary operator of this number, between its operands.
fn write_between(source: &mut Pcg32, text: &mut String, operator: usize) -> Result<(), AllocError>
    requires { operator < 5 }
{
    text.push_str(LINKS[operator])?;
    if operator < 3 {
        return Ok(());
    }
    text.push_str(BOUNDS[below(source, 5) as usize])
}

/// Writes a random formula of this many nested operators.
fn write_random(source: &mut Pcg32, text: &mut String, depth: u8) -> Result<(), AllocError> {
    if depth == 0 {
        return text.push_str(ATOMS[below(source, 3) as usize]);
    }
    let operator = below(source, 10) as usize;
    if operator <= 4 {
        write_before(source, text, operator)?;
        return write_random(source, text, depth - 1);
    }
    text.push_str("(")?;
    write_random(source, text, depth - 1)?;
    write_between(source, text, operator - 5)?;
    write_random(source, text, depth - 1)?;
    text.push_str(")")
}

static ATOMS: [&str; 3] = ["risk", "seen", "true"];

static SPANS: [&str; 4] = ["F", "G", "O", "H"];

static LINKS: [&str; 5] = [" & ", " | ", " -> ", " U", " S"];

/// Returns whether an answer is that of a plain program of the definition over these rows.
fn is_right(
    answer: Option<(u32, Verdict)>,
    formula: &Formula,
    rows: &[Row],
    position: usize,
) -> bool
    requires { IsValid (tree_of formula.now) }
{
    match answer {
        Some((at, given)) => {
            at as usize == position && given as u8 == value(formula, rows, position) as u8
        }
        None => false,
    }
}

/// Feeds the rows to a monitor and finishes it; returns whether each answer is that of the plain program.
fn agrees(alloc: Global, formula: &Formula, rows: &[Row]) -> Result<bool, Memory>
    requires valid { IsValid (tree_of formula.now) }
    requires few { length rows.now < 1000 }
{
    let mut monitor = Monitor::new(alloc, formula)?;
    let reach = future_reach(formula) as usize;
    let mut right = true;
    for i in 0..rows.len() {
        let answer = monitor.feed(&rows[i]);
        if i < reach {
            right = right && answer.is_none();
        } else {
            right = right && is_right(answer, formula, &rows[..i + 1], i - reach);
        }
    }
    for position in rows.len().saturating_sub(reach)..rows.len() {
        right = right && is_right(monitor.finish_next(), formula, rows, position);
    }
    Ok(right && monitor.finish_next().is_none())
}

/// Tries a formula over some rows.
fn agrees_on(rt: &impl Abort, alloc: Global, text: &str, rows: &[Row]) -> Result<(), ParseFault>
    requires few { length rows.now < 1000 }
{
    is_true(rt, text.len() <= 1024);
    let formula = parse(alloc, text.as_bytes(), 10)?;
    let right = agrees(alloc, &formula, rows)?;
    is(rt, (text, right), (text, true));
    Ok(())
}

/// Tries one random formula over random rows.
fn one_agrees(
    rt: &impl Abort,
    alloc: Global,
    source: &mut Pcg32,
    depth: u8,
) -> Result<(), ParseFault> {
    let mut text = String::new(alloc);
    write_random(source, &mut text, depth)?;
    let rows = random_rows(alloc, source, 30)?;
    agrees_on(rt, alloc, text.as_str(), &rows)
}

#[test]
fn random_formulas_agree_with_the_plain_program(rt: HostRuntime) -> Result<(), ParseFault> {
    let mut source = Pcg32::new(42, 54);
    for _ in 0..120u8 {
        for depth in 1..4u8 {
            one_agrees(&rt, rt.alloc(), &mut source, depth)?;
        }
    }
    Ok(())
}

/// Returns the program of two formulas.
fn program_of(alloc: Global, first: &Formula, second: &Formula) -> Result<Program, ParseFault>
    requires first { IsValid (tree_of first.now) }
    requires second { IsValid (tree_of second.now) }
    ensures { IfOk result (λ p. count_of p ≡ 2) }
{
    let of_first = Program::new(alloc).with(first)?;
    Ok(of_first.with(second)?)
}

/// Returns the program of two formulas that share a part.
fn program_of_two(alloc: Global) -> Result<Program, ParseFault>
    ensures { IfOk result (λ p. count_of p ≡ 2) }
{
    let soon = parse(alloc, b"F[0,10] risk", 10)?;
    let not_soon = parse(alloc, b"!F[0,10] risk", 10)?;
    program_of(alloc, &soon, &not_soon)
}

/// Checks that a program follows two traces, and that the second can take over the first.
fn traces_are_followed(rt: &impl Abort, alloc: Global, program: &Program) -> Result<(), Memory>
    requires { count_of program.now ≡ 2 }
{
    let mut one = TraceState::new(alloc, program)?;
    let mut two = TraceState::new(alloc, program)?;
    let _first = one.feed(program, &NO);
    let _first = two.feed(program, &NO);
    is(rt, one.answer(program, 0), None);
    let _second = one.feed(program, &YES);
    let _second = two.feed(program, &NO);
    let (yes, no) = (Some((0, Verdict::Yes)), Some((0, Verdict::No)));
    let of_one = (one.answer(program, 0), one.answer(program, 1));
    is(rt, of_one, (yes, no));
    is(rt, two.answer(program, 1), yes);
    two.copy_from(program, &one);
    two.pass_end(program);
    let (yes, no) = (Some((1, Verdict::Yes)), Some((1, Verdict::No)));
    let of_two = (two.answer(program, 0), two.answer(program, 1));
    is(rt, of_two, (yes, no));
    Ok(())
}

#[test]
fn two_formulas_over_two_traces(rt: HostRuntime) -> Result<(), ParseFault> {
    let program = program_of_two(rt.alloc())?;
    is(&rt, (program.formula_count(), program.reach()), (2, 1));
    let followed = traces_are_followed(&rt, rt.alloc(), &program);
    drop(program);
    Ok(followed?)
}

/// Checks that a monitor takes over another.
fn is_taken_over(rt: &impl Abort, alloc: Global, formula: &Formula) -> Result<(), Memory>
    requires { IsValid (tree_of formula.now) }
{
    let mut one = Monitor::new(alloc, formula)?;
    let mut two = Monitor::new(alloc, formula)?;
    let first = one.feed(&YES);
    two.copy_from(&one);
    let answer = two.feed(&NO);
    is(rt, (first, answer), (None, Some((0, Verdict::Yes))));
    let (next, last) = (two.finish_next(), two.finish_next());
    is(rt, (next, last), (Some((1, Verdict::No)), None));
    Ok(())
}

#[test]
fn a_monitor_takes_over_another(rt: HostRuntime) -> Result<(), ParseFault> {
    let formula = parse(rt.alloc(), b"risk U[0,10] seen", 10)?;
    let taken_over = is_taken_over(&rt, rt.alloc(), &formula);
    drop(formula);
    Ok(taken_over?)
}
