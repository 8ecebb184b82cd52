//! The values of the argument `mode`.
ghost use Rattle.std.specs.Prelude.{◌≡◌, ◌≢◌, MatchOption, true};
ghost use Rattle.std.specs.List.{list_any};
ghost use Rattle.std.specs.Str.{bytes_eq};
ghost use Rattle.command_line.specs.CommandLine.{AreModes, mode_text};
ghost use Rattle.command_line.specs.declared.mode.ModeArgument.{ModeArgument};

use clap::builder::PossibleValue;
use tasks::Mode;

/// What the argument `mode` names: a migration, or the report of a mode.
#[derive(Clone, Copy, PartialEq, Eq)]
pub enum ModeArgument {
    /// The scenario as one of version 2, with the same meaning.
    Migrate,
    /// The report of this mode.
    Report(Mode),
}

/// The modes as values of an argument, each with its line of help.
pub(crate) fn mode_values() -> [PossibleValue<'static>; 7]
    ensures { AreModes result }
{
    [
        PossibleValue::new("points").help("Write the positions of a log, as points of the plane"),
        PossibleValue::new("audit").help(
            "Report how the vessels of a log met, and which duties were broken",
        ),
        PossibleValue::new("plan").help(
            "Find own ship's first plan that newly breaks no rule and enters no domain",
        ),
        PossibleValue::new("drill").help(
            "Make a log of forty vessels, and write the totals of its audit",
        ),
        PossibleValue::new("migrate").help(
            "Write a scenario of version 1 as one of version 2 with the same meaning",
        ),
        PossibleValue::new("recheck").help(
            "Check rows that say why there is no plan, without a search",
        ),
        PossibleValue::new("watch").help(
            "Report each breach of a rule at the first step that decides it",
        ),
    ]
}

/// The mode of this name.
pub(crate) fn mode_named(text: &str) -> Option<ModeArgument>
    ensures { MatchOption result ((mode : ModeArgument) → text.now ≢ mode_text mode)
        (λ mode. text.now ≡ mode_text mode) }
{
    match text {
        "points" => Some(ModeArgument::Report(Mode::Points)),
        "audit" => Some(ModeArgument::Report(Mode::Audit)),
        "plan" => Some(ModeArgument::Report(Mode::Plan)),
        "drill" => Some(ModeArgument::Report(Mode::Drill)),
        "migrate" => Some(ModeArgument::Migrate),
        "recheck" => Some(ModeArgument::Report(Mode::Recheck)),
        "watch" => Some(ModeArgument::Report(Mode::Watch)),
        _ => None,
    }
}
