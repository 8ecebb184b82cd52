//! What the arguments of the command line hold, as `clap` reads them.
ghost use Rattle.std.specs.Prelude.{◌≡◌, ◌≢◌, ◌⊎◌, ◌<◌, ◌^◌, ◌∷◌, IfOk, IfSome, Some, codes, map, option_map};
ghost use Rattle.std.specs.Borrow.{Bor};
ghost use Rattle.clap.specs.Words.{first_of, found_of, rows_of};
ghost use Rattle.clap.specs.declared.error.kind.ErrorKind.{ErrorKind};
ghost use Rattle.command_line.specs.GivenArguments.{ArePlain, AskForNothing, GiveArguments, HoldsArguments, said, with_program_name};
ghost use Rattle.command_line.specs.CommandLine.{a_flag, flag};
ghost use Rattle.command_line.specs.Inner.Reading.{GivesNumber, GivesOptions, HoldsNone};
ghost use Rattle.command_line.specs.declared.arguments.Arguments.{Arguments};

use crate::colregs::colregs;
use crate::mode::{ModeArgument, mode_named, mode_values};
use crate::number::number_in;
use clap::ArgMatches;
use clap::error::ErrorKind;
use out_of_memory::Memory;
use outside::Word;
use std::alloc::{AllocError, Global};

/// The options. Each has an effect only in the modes that use it.
#[derive(Drop)]
pub struct Options {
    /// The start of the window instead of the scenario's, in seconds since the Unix epoch, 0 to 9999999999.
    pub start: Option<u64>,
    /// The length of the window instead of the scenario's, in ticks, 1 to 20000.
    pub ticks: Option<u32>,
    /// The seed of a drill's log, 0 to 999999.
    pub seed: u32,
    /// Whether the report is to say why there is no plan.
    pub why: bool,
    /// The name of the file with the rows that say so, which may be empty.
    pub rows: Word,
}

/// What the arguments hold: a mode, the name of a scenario, and the options.
#[derive(Drop)]
pub struct Arguments {
    /// What to do.
    pub mode: ModeArgument,
    /// The name of the scenario, which may be empty.
    pub name: Word,
    /// The options.
    pub options: Options,
}

/// Why words ask for nothing.
#[derive(Clone, Copy, PartialEq, Eq)]
pub enum WordsFault {
    /// They are invalid.
    Usage,
    /// There was no memory to read them.
    Memory,
}

/// The text of an argument, where it has one.
fn text_given<'a>(matches: &ArgMatches<'a>, name: &str) -> Option<&'a str>
    ensures { option_map (λ text. text.now) result
        ≡ first_of name.now (rows_of (found_of matches.now)) }
{
    matches.get_str(name)
}

/// The number of an option, where it is given.
fn number_given(
    matches: &ArgMatches<'_>,
    name: &str,
    least: u64,
    most: u64,
) -> Result<Option<u64>, WordsFault>
    ensures { GivesNumber (rows_of (found_of matches.now)) name.now least most result }
{
    match text_given(matches, name) {
        Some(text) => match number_in(text, least, most) {
            Some(number) => Ok(Some(number)),
            None => Err(WordsFault::Usage),
        },
        None => Ok(None),
    }
}

/// The same number, in 32 bits.
fn narrow(number: Option<u64>) -> Option<u32>
    requires { IfSome number (λ n. n < 2 ^ 32) }
    ensures { result ≡ number }
{
    match number {
        Some(number) => Some(number as u32),
        None => None,
    }
}

/// Whether a flag is given: `clap` keeps that as a text.
fn flag_given(matches: &ArgMatches<'_>, name: &str) -> bool
    ensures { Some (a_flag result) ≡ said flag
        (first_of name.now (rows_of (found_of matches.now))) }
{
    match text_given(matches, name) {
        Some("true") => true,
        _ => false,
    }
}

/// The options that the matches hold.
fn options_in(alloc: Global, matches: &ArgMatches<'_>) -> Result<Options, WordsFault>
    ensures { GivesOptions (rows_of (found_of matches.now)) result }
{
    let start = number_given(matches, "start", 0, 9_999_999_999)?;
    let ticks = narrow(number_given(matches, "ticks", 1, 20_000)?);
    let Some(seed) = number_given(matches, "seed", 0, 999_999)? else {
        return Err(WordsFault::Usage);
    };
    let why = flag_given(matches, "why");
    let Some(rows) = text_given(matches, "rows") else {
        return Err(WordsFault::Usage);
    };
    match Word::new(alloc, rows) {
        Ok(rows) => Ok(Options {
            start,
            ticks,
            seed: seed as u32,
            why,
            rows,
        }),
        Err(Memory) => Err(WordsFault::Memory),
    }
}

/// The arguments that the matches hold.
fn arguments_in(alloc: Global, matches: &ArgMatches<'_>) -> Result<Arguments, WordsFault>
    ensures held { IfOk result (HoldsArguments (rows_of (found_of matches.now))) }
    ensures unheld { result ≡ Err WordsFault.Usage → HoldsNone (rows_of (found_of matches.now)) }
{
    let Some(mode) = text_given(matches, "mode") else {
        return Err(WordsFault::Usage);
    };
    let Some(mode) = mode_named(mode) else {
        return Err(WordsFault::Usage);
    };
    let Some(name) = text_given(matches, "scenario") else {
        return Err(WordsFault::Usage);
    };
    let options = options_in(alloc, matches)?;
    match Word::new(alloc, name) {
        Ok(name) => Ok(Arguments {
            mode,
            name,
            options,
        }),
        Err(Memory) => Err(WordsFault::Memory),
    }
}

/// The words behind the program's name, which `clap` reads too.
fn named_words<'a>(alloc: Global, words: &'a [Word]) -> Result<Vec<&'a str>, AllocError>
    ensures { IfOk result (λ texts. map (λ text. text.now) texts.items
        ≡ with_program_name words.entry.now) }
{
    let mut texts = Vec::new(alloc);
    texts.push("colregs")?;
    for word in words {
        texts.push(word.text())?;
    }
    Ok(texts)
}

/// The fault where `clap` gives an error of this kind.
fn fault_by(kind: ErrorKind) -> WordsFault
    ensures usage { result ≡ WordsFault.Usage → kind ≢ ErrorKind.OutOfMemory }
    ensures memory { result ≡ WordsFault.Memory → kind ≡ ErrorKind.OutOfMemory }
{
    if kind == ErrorKind::OutOfMemory {
        WordsFault::Memory
    } else {
        WordsFault::Usage
    }
}

/// What the words behind the program's name hold, as `clap` reads them by the command `colregs`: a mode and the name of a
/// scenario, and options anywhere. A number is what `u64` reads from its text. `Usage` comes only where `clap` refuses the words.
pub(crate) fn arguments_of(alloc: Global, words: &[Word]) -> Result<Arguments, WordsFault>
    ensures asked { IfOk result (GiveArguments words.now) }
    ensures refused { result ≡ Err WordsFault.Usage → AskForNothing words.now }
    ensures accepted { (arguments : Arguments) → GiveArguments words.now arguments
        → (result ≡ Ok arguments) ⊎ (result ≡ Err WordsFault.Memory) }
{
    let Ok(texts) = named_words(alloc, words) else {
        return Err(WordsFault::Memory);
    };
    let modes = mode_values();
    let Ok(command) = colregs(alloc, modes.as_slice()) else {
        return Err(WordsFault::Memory);
    };
    match command.try_get_matches_from(texts.as_slice()) {
        Ok(matches) => {
            let arguments = arguments_in(alloc, &matches);
            drop(matches);
            arguments
        }
        Err(error) => Err(fault_by(error.kind())),
    }
}
