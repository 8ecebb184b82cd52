//! Beyond the contracts: a worked case, many random formulas against the values over every prefix of their rows, and a
//! formula that stays open for long.
ghost use Rattle.std.specs.Prelude.{◌≡◌, ◌≤◌, ◌<◌, ◌+◌, true, length, IfOk};
ghost use Rattle.mtl_formulas.specs.FormulaTree.{tree_of};
ghost use Rattle.mtl_formulas.specs.FormulaMeasures.{IsValid};
ghost use Rattle.early_monitor.specs.Standing.{HasGivenAll, rows_fed};

use crate::compared::{is, is_true};
use crate::rows::{NO, Row, YES, below, random_rows};
use early_monitor::{EarlyMonitor, is_no_last};
use mtl_formulas::{Formula, Verdict, value};
use mtl_language::parse;
use out_of_memory::Memory;
use rand_pcg::Pcg32;
use std::alloc::{AllocError, Global};
use std::process::Abort;
use std::test::Fail;

/// Checks that the rows so far decide no more positions than the monitor has returned.
fn gives_nothing(rt: &impl Abort, monitor: &mut EarlyMonitor)
    ensures done { HasGivenAll monitor.new }
    ensures fed { rows_fed monitor.new ≡ rows_fed monitor.old }
{
    let answer = monitor.next();
    is_true(rt, answer.is_none());
}

#[test]
fn soon_is_known_as_soon_as_it_is(rt: HostRuntime) -> Result<(), Fail> {
    let formula = parse(rt.alloc(), b"F[0,20] risk", 10)?;
    let mut monitor = EarlyMonitor::new(rt.alloc(), &formula)?;
    monitor.feed(&NO);
    gives_nothing(&rt, &mut monitor);
    monitor.feed(&NO);
    gives_nothing(&rt, &mut monitor);
    monitor.feed(&YES);
    is(&rt, monitor.next(), Some((0, Verdict::Yes)));
    is(&rt, monitor.next(), Some((1, Verdict::Yes)));
    is(&rt, monitor.next(), Some((2, Verdict::Yes)));
    gives_nothing(&rt, &mut monitor);
    Ok(())
}

/// Returns the value at a position, if all of these rows decide it and fewer do not.
pub(crate) fn newly(formula: &Formula, rows: &[Row], position: usize) -> Option<Verdict>
    requires { IsValid (tree_of formula.now) }
{
    let before = value(formula, &rows[..rows.len().saturating_sub(1)], position);
    match (before, value(formula, rows, position)) {
        (Verdict::Open, Verdict::No) => Some(Verdict::No),
        (Verdict::Open, Verdict::Yes) => Some(Verdict::Yes),
        _ => None,
    }
}

/// Returns whether an answer has this value at this position.
pub(crate) fn is_given(answer: Option<(u32, Verdict)>, position: usize, wanted: Verdict) -> bool {
    match answer {
        Some((at, given)) => at as usize == position && given as u8 == wanted as u8,
        None => false,
    }
}

/// Returns whether the monitor, after these rows, returns the positions that the last of them decides, and then
/// nothing.
fn gives_all(monitor: &mut EarlyMonitor, formula: &Formula, rows: &[Row]) -> bool
    requires { IsValid (tree_of formula.now) }
    ensures fed { rows_fed monitor.new ≡ rows_fed monitor.old }
    ensures done { result ≡ true → HasGivenAll monitor.new }
{
    for position in 0..rows.len() {
        if let Some(wanted) = newly(formula, rows, position) {
            if !is_given(monitor.next(), position, wanted) {
                return false;
            }
        }
    }
    monitor.next().is_none()
}

/// Feeds the rows to an early monitor; returns whether it returns each position after the row that decides it.
fn agrees(alloc: Global, formula: &Formula, rows: &[Row]) -> Result<bool, Memory>
    requires valid { IsValid (tree_of formula.now) }
    requires few { length rows.now < 1000 }
{
    let mut monitor = EarlyMonitor::new(alloc, formula)?;
    for i in 0..rows.len() {
        monitor.feed(&rows[i]);
        if !gives_all(&mut monitor, formula, &rows[..i + 1]) {
            return Ok(false);
        }
    }
    Ok(true)
}

const OUTER: [&str; 7] = [
    "",
    "!",
    "F[0,30] ",
    "G[10,20] ",
    "O[10,30] ",
    "H[0,20] ",
    "F[0,10] G[0,30] ",
];

const PARTS: [&str; 7] = [
    "risk",
    "seen",
    "!risk",
    "F[0,20] seen",
    "G[0,20] risk",
    "O[0,20] F[0,10] risk",
    "H[10,20] seen",
];

const LINKS: [&str; 6] = [" & ", " | ", " -> ", " U[0,30] ", " U[10,10] ", " S[0,20] "];

/// Writes a random formula.
pub(crate) fn write_random(source: &mut Pcg32, text: &mut String) -> Result<(), AllocError> {
    text.push_str(OUTER[below(source, 7) as usize])?;
    text.push_str("(")?;
    text.push_str(PARTS[below(source, 7) as usize])?;
    text.push_str(LINKS[below(source, 6) as usize])?;
    text.push_str(PARTS[below(source, 7) as usize])?;
    text.push_str(")")
}

/// Tries one random formula over random rows.
fn one_agrees(rt: &impl Abort, alloc: Global, source: &mut Pcg32) -> Result<(), Fail> {
    let mut text = String::new(alloc);
    write_random(source, &mut text)?;
    let rows = random_rows(alloc, source, 20)?;
    is_true(rt, text.len() <= 1024);
    let formula = parse(alloc, text.as_bytes(), 10)?;
    let right = agrees(alloc, &formula, &rows)?;
    is(rt, (text.as_str(), right), (text.as_str(), true));
    Ok(())
}

#[test]
fn random_formulas_agree_with_the_values_over_every_front(rt: HostRuntime) -> Result<(), Fail> {
    let alloc = rt.alloc();
    let mut source = Pcg32::new(42, 54);
    for _ in 0..200u8 {
        one_agrees(&rt, alloc, &mut source)?;
    }
    Ok(())
}

/// Returns the monitor of sixteen nested windows.
fn nested(rt: &impl Abort, alloc: Global) -> Result<EarlyMonitor, Fail>
    ensures fed { IfOk result (λ m. rows_fed m ≡ 0) }
    ensures done { IfOk result HasGivenAll }
{
    let mut text = Vec::new(alloc);
    for _ in 0..16u8 {
        text.extend_from_slice(b"G[0,100] ")?;
    }
    text.extend_from_slice(b"seen")?;
    is_true(rt, text.len() <= 1024);
    let formula = parse(alloc, &text, 10)?;
    Ok(EarlyMonitor::new(alloc, &formula)?)
}

/// Returns whether each of this many rows decides nothing.
fn waits(monitor: &mut EarlyMonitor, rows: u8) -> bool
    requires done { HasGivenAll monitor.old }
    requires fed { rows_fed monitor.old ≡ 0 }
    ensures done { result ≡ true → HasGivenAll monitor.new }
    ensures fed { rows_fed monitor.new ≤ rows }
{
    for _ in 0..rows {
        monitor.feed(&YES);
        if monitor.next().is_some() {
            return false;
        }
    }
    true
}

#[test]
fn many_windows_in_one_another_wait_for_the_row_that_breaks_them(
    rt: HostRuntime,
) -> Result<(), Fail> {
    let mut monitor = nested(&rt, rt.alloc())?;
    let waited = waits(&mut monitor, 40);
    is_true(&rt, waited);
    monitor.feed(&NO);
    for position in 0..41usize {
        is_true(&rt, is_given(monitor.next(), position, Verdict::No));
    }
    gives_nothing(&rt, &mut monitor);
    Ok(())
}

#[test]
fn a_rule_is_broken_at_the_last_row_that_it_reaches(rt: HostRuntime) -> Result<(), Fail> {
    let rule = parse(rt.alloc(), b"alters -> F[0,60] (apparent | !engaged)", 10)?;
    is(&rt, is_no_last(&rule), true);
    let always = parse(rt.alloc(), b"engaged -> G[0,60] clear(300)", 10)?;
    is(&rt, is_no_last(&always), false);
    Ok(())
}
