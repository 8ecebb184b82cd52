//! Beyond the contracts of sweeps: a worked case, many random formulas against the values over every prefix of their
//! rows, and the formulas that sweeps cannot compute.
ghost use Rattle.std.specs.Prelude.{◌≡◌, ◌<◌, true, length};
ghost use Rattle.mtl_formulas.specs.FormulaTree.{tree_of};
ghost use Rattle.mtl_formulas.specs.FormulaMeasures.{IsValid};
ghost use Rattle.mtl_early.specs.Standing.{HasGivenAll, IsStateOf, rows_fed};

use crate::compared::{is, is_true};
use crate::early::{is_given, newly, write_random};
use crate::rows::{NO, Row, YES, random_rows};
use mtl_early::{SweepProgram, SweepState};
use mtl_formulas::{Formula, Verdict};
use mtl_language::parse;
use out_of_memory::Memory;
use rand_pcg::Pcg32;
use std::alloc::Global;
use std::process::Abort;
use std::test::Fail;

/// Checks that the rows so far decide no more positions than the state has returned.
fn gives_nothing(rt: &impl Abort, program: &SweepProgram, state: &mut SweepState)
    requires of { IsStateOf program.now state.old }
    ensures of { IsStateOf program.now state.new }
    ensures done { HasGivenAll state.new }
    ensures fed { rows_fed state.new ≡ rows_fed state.old }
{
    let answer = state.next(program);
    is_true(rt, answer.is_none());
}

/// Feeds rows one after another to a state of `F[0,20] risk`.
fn soon(rt: &impl Abort, program: &SweepProgram, state: &mut SweepState)
    requires of { IsStateOf program.now state.old }
    requires done { HasGivenAll state.old }
    requires fed { rows_fed state.old ≡ 0 }
{
    state.feed(program, &NO);
    gives_nothing(rt, program, state);
    state.feed(program, &NO);
    gives_nothing(rt, program, state);
    state.feed(program, &YES);
    is(rt, state.next(program), Some((0, Verdict::Yes)));
    is(rt, state.next(program), Some((1, Verdict::Yes)));
    is(rt, state.next(program), Some((2, Verdict::Yes)));
    gives_nothing(rt, program, state);
}

#[test]
fn sweeps_know_soon_as_soon_as_it_is(rt: HostRuntime) -> Result<(), Fail> {
    let formula = parse(rt.alloc(), b"F[0,20] risk", 10)?;
    let made = SweepProgram::of(rt.alloc(), &formula)?;
    is_true(&rt, made.is_some());
    if let Some(program) = made {
        let mut state = SweepState::new(rt.alloc(), &program)?;
        soon(&rt, &program, &mut state);
    }
    Ok(())
}

#[test]
fn sweeps_leave_out_what_looks_back_at_what_looks_ahead(rt: HostRuntime) -> Result<(), Fail> {
    let formula = parse(rt.alloc(), b"O[0,20] F[0,10] risk", 10)?;
    is_true(&rt, SweepProgram::of(rt.alloc(), &formula)?.is_none());
    Ok(())
}

/// Returns whether the state, after these rows, returns the positions that the last of them decides, and then nothing.
fn gives_all(
    state: &mut SweepState,
    program: &SweepProgram,
    formula: &Formula,
    rows: &[Row],
) -> bool
    requires valid { IsValid (tree_of formula.now) }
    requires of { IsStateOf program.now state.old }
    ensures of { IsStateOf program.now state.new }
    ensures fed { rows_fed state.new ≡ rows_fed state.old }
    ensures done { result ≡ true → HasGivenAll state.new }
{
    for position in 0..rows.len() {
        if let Some(wanted) = newly(formula, rows, position) {
            if !is_given(state.next(program), position, wanted) {
                return false;
            }
        }
    }
    state.next(program).is_none()
}

/// Feeds the rows to a state; returns whether it returns each position after the row that decides it.
fn agrees(
    alloc: Global,
    program: &SweepProgram,
    formula: &Formula,
    rows: &[Row],
) -> Result<bool, Memory>
    requires valid { IsValid (tree_of formula.now) }
    requires few { length rows.now < 1000 }
{
    let mut state = SweepState::new(alloc, program)?;
    for i in 0..rows.len() {
        state.feed(program, &rows[i]);
        if !gives_all(&mut state, program, formula, &rows[..i + 1]) {
            return Ok(false);
        }
    }
    Ok(true)
}

/// Tries one random formula over random rows; returns whether sweeps can compute it.
fn one_agrees(rt: &impl Abort, alloc: Global, source: &mut Pcg32) -> Result<bool, Fail> {
    let mut text = String::new(alloc);
    write_random(source, &mut text)?;
    let rows = random_rows(alloc, source, 20)?;
    is_true(rt, text.len() <= 1024);
    let formula = parse(alloc, text.as_bytes(), 10)?;
    let Some(program) = SweepProgram::of(alloc, &formula)? else {
        return Ok(false);
    };
    let right = agrees(alloc, &program, &formula, &rows)?;
    is(rt, (text.as_str(), right), (text.as_str(), true));
    Ok(true)
}

#[test]
fn sweeps_of_random_formulas_agree_with_the_values_over_every_front(
    rt: HostRuntime,
) -> Result<(), Fail> {
    let alloc = rt.alloc();
    let mut source = Pcg32::new(42, 54);
    let mut computed = 0u8;
    for _ in 0..200u8 {
        if one_agrees(&rt, alloc, &mut source)? {
            computed = computed.saturating_add(1);
        }
    }
    is_true(&rt, computed > 100);
    Ok(())
}
