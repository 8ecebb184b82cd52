//! The arguments of the program that a call's numbers stand for.
ghost use Rattle.std.specs.Prelude.{◌≡◌, ◌++◌, ◌∷◌, [], IfOk, OnOk};
ghost use Rattle.std.specs.Fmt.{decimal};
ghost use Rattle.std.specs.List.{flat_map};
ghost use Rattle.command_line.specs.GivenArguments.{setting_words};
ghost use Rattle.colregs_c.specs.Arguments.{arguments_of, start_given, ticks_given, why_given};

use crate::numbers::{OWN_START, OWN_TICKS, OptionNumbers};
use out_of_memory::Memory;
use outside::Word;
use std::alloc::Global;

/// Appends an argument.
fn push_word(alloc: Global, words: &mut Vec<Word>, text: &str) -> Result<(), Memory>
    ensures { OnOk result (words.new.items ≡ words.old.items ++ text.now ∷ []) }
{
    words.push(Word::new(alloc, text)?)?;
    Ok(())
}

/// Appends an option and its number.
fn push_number(
    alloc: Global,
    words: &mut Vec<Word>,
    option: &str,
    number: u64,
) -> Result<(), Memory>
    ensures { OnOk result (words.new.items ≡ words.old.items ++ option.now ∷ decimal number ∷ []) }
{
    push_word(alloc, words, option)?;
    let digits = format!(in alloc; "{number}")?;
    push_word(alloc, words, digits.as_str())
}

/// Appends the start, unless it is the scenario's own.
fn push_start(alloc: Global, words: &mut Vec<Word>, start: u64) -> Result<(), Memory>
    ensures { OnOk result
        (words.new.items ≡ words.old.items ++ flat_map setting_words (start_given start)) }
{
    if start == OWN_START {
        return Ok(());
    }
    push_number(alloc, words, "--start", start)
}

/// Appends the length of the window, unless it is the scenario's own.
fn push_ticks(alloc: Global, words: &mut Vec<Word>, ticks: u32) -> Result<(), Memory>
    ensures { OnOk result
        (words.new.items ≡ words.old.items ++ flat_map setting_words (ticks_given ticks)) }
{
    if ticks == OWN_TICKS {
        return Ok(());
    }
    push_number(alloc, words, "--ticks", u64::from(ticks))
}

/// Appends the question why there is no plan, if it is asked.
fn push_why(alloc: Global, words: &mut Vec<Word>, flags: u32) -> Result<(), Memory>
    ensures { OnOk result
        (words.new.items ≡ words.old.items ++ flat_map setting_words (why_given flags)) }
{
    if flags == 0 {
        return Ok(());
    }
    push_word(alloc, words, "--why")
}

/// Returns the arguments: the mode, the name of the scenario, and then the options.
pub(crate) fn arguments_for(
    alloc: Global,
    mode: &str,
    options: &OptionNumbers,
) -> Result<Vec<Word>, Memory>
    ensures { IfOk result (λ words. words.items ≡ arguments_of mode.now options.now) }
{
    let mut words = Vec::new(alloc);
    push_word(alloc, &mut words, mode)?;
    push_word(alloc, &mut words, "scenario.toml")?;
    push_start(alloc, &mut words, options.start)?;
    push_ticks(alloc, &mut words, options.ticks)?;
    push_number(alloc, &mut words, "--seed", u64::from(options.seed))?;
    push_why(alloc, &mut words, options.flags)?;
    Ok(words)
}
