//! The command `colregs` of `clap`.
ghost use Rattle.std.specs.Prelude.{◌≡◌, IfOk, None, Some, codes};
ghost use Rattle.clap.specs.Words.{app_of, rule_of};
ghost use Rattle.command_line.specs.CommandLine.{colregs, flag, mode_rule, option_rule, program, rows_file, scenario_rule, seed, setting_rule, start, takes_number, takes_text, ticks, why};

use clap::builder::{PossibleValue, ValueParser};
use clap::{Arg, ArgAction, Command};
use std::alloc::{AllocError, Global};

/// What help says behind the options.
const STATUSES_AND_EXAMPLE: &str = "\
Statuses:
  0  the report is written whole
  1  every plan fails, and the report says so
  2  invalid command line
  3  the scenario has a fault
  4  the scenario cannot be read
  5  the log cannot be read
  6  the report cannot be written
  7  a limit is exceeded
  8  out of memory
  9  own ship's state is not known
 10  the rows do not show that every plan fails
 20  the system does not provide the arguments

Example:
  colregs audit scenario.toml --ticks 60 < log.nmea";

/// An option that takes a number of a range.
fn number_option<'a>(
    alloc: Global,
    name: &'a str,
    unit: &'a str,
    least: u64,
    most: u64,
    help: &'a str,
) -> Arg<'a>
    ensures { rule_of result ≡ option_rule name.entry.now (takes_number least most None) }
{
    Arg::new(alloc, name)
        .long(name)
        .action(ArgAction::Set)
        .value_name(unit)
        .value_parser(ValueParser::Unsigned(least, most))
        .help(help)
}

/// An option that takes nothing.
fn flag<'a>(alloc: Global, name: &'a str, help: &'a str) -> Arg<'a>
    ensures { rule_of result ≡ option_rule name.entry.now flag }
{
    Arg::new(alloc, name)
        .long(name)
        .action(ArgAction::SetTrue)
        .help(help)
}

/// An option that takes a text.
fn text_option<'a>(alloc: Global, name: &'a str, unit: &'a str, help: &'a str) -> Arg<'a>
    ensures { rule_of result ≡ option_rule name.entry.now (takes_text None) }
{
    Arg::new(alloc, name)
        .long(name)
        .action(ArgAction::Set)
        .value_name(unit)
        .help(help)
}

/// What to do.
fn mode<'a>(alloc: Global, modes: &'a [PossibleValue<'a>]) -> Arg<'a>
    ensures { rule_of result ≡ mode_rule modes.entry }
{
    Arg::new(alloc, "mode")
        .required(true)
        .action(ArgAction::Set)
        .value_name("MODE")
        .value_parser(modes)
        .help("What to do")
}

/// The argument for the scenario file, which says what is examined, and how.
fn scenario<'a>(alloc: Global) -> Arg<'a>
    ensures { rule_of result ≡ scenario_rule }
{
    Arg::new(alloc, "scenario")
        .required(true)
        .action(ArgAction::Set)
        .value_name("SCENARIO")
        .help("The file of the scenario, a TOML text")
}

/// When the window begins.
fn start<'a>(alloc: Global) -> Arg<'a>
    ensures { rule_of result ≡ setting_rule start }
{
    number_option(
        alloc,
        "start",
        "SECONDS",
        0,
        9_999_999_999,
        "The start of the window instead of the scenario's, in seconds since the Unix epoch, 0 to 9999999999",
    )
}

/// How long the window lasts.
fn ticks<'a>(alloc: Global) -> Arg<'a>
    ensures { rule_of result ≡ setting_rule ticks }
{
    number_option(
        alloc,
        "ticks",
        "TICKS",
        1,
        20_000,
        "The length of the window instead of the scenario's, in ticks, 1 to 20000",
    )
}

/// What a drill's log is made from.
fn seed<'a>(alloc: Global) -> Arg<'a>
    ensures { rule_of result ≡ setting_rule seed }
{
    number_option(
        alloc,
        "seed",
        "SEED",
        0,
        999_999,
        "The seed of a drill's log, 0 to 999999",
    )
    .default_value("1")
}

/// Whether the report says why there is no plan.
fn why<'a>(alloc: Global) -> Arg<'a>
    ensures { rule_of result ≡ setting_rule why }
{
    flag(
        alloc,
        "why",
        "If every plan fails, report why each one fails",
    )
}

/// The file with the rows that say so.
fn rows<'a>(alloc: Global) -> Arg<'a>
    ensures { rule_of result ≡ setting_rule rows_file }
{
    text_option(
        alloc,
        "rows",
        "FILE",
        "The file of the rows that a recheck checks",
    )
    .default_value("why.csv")
}

/// The command with no argument yet.
fn program<'a>(alloc: Global) -> Command<'a>
    ensures { app_of result ≡ program }
{
    Command::new(alloc, "colregs")
        .version("0.1.0")
        .about("Reads a log of AIS sentences (AIVDM) and a scenario, and writes a report.")
        .after_help(STATUSES_AND_EXAMPLE)
}

/// The command, with these values of its argument `mode`.
pub(crate) fn colregs<'a>(
    alloc: Global,
    modes: &'a [PossibleValue<'a>],
) -> Result<Command<'a>, AllocError>
    ensures { IfOk result (λ c. app_of c ≡ colregs modes.entry) }
{
    let arguments = vec![in alloc;
        mode(alloc, modes),
        scenario(alloc),
        start(alloc),
        ticks(alloc),
        seed(alloc),
        why(alloc),
        rows(alloc),
    ]?;
    program(alloc).args(arguments)
}
