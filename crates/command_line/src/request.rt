//! What the arguments of the command line ask for.
ghost use Rattle.std.specs.Prelude.{◌≡◌, ◌⊎◌, IfOk, Ok, Err};
ghost use Rattle.command_line.specs.GivenArguments.{AskForNothing};
ghost use Rattle.command_line.specs.Requests.{AskFor, IsPlain, request_by};
ghost use Rattle.command_line.specs.declared.request.Request.{Request};

use crate::arguments::{Arguments, Options, WordsFault, arguments_of};
use crate::mode::ModeArgument;
use outside::Word;
use std::alloc::Global;
use tasks::Task;

/// What replaces the scenario's own window.
#[derive(Clone, Copy, PartialEq, Eq)]
pub struct WindowOptions {
    /// The start of the window, in seconds since the Unix epoch, 0 to 9999999999.
    pub start: Option<u64>,
    /// The length of the window, in ticks, 1 to 20000.
    pub ticks: Option<u32>,
}

/// A request for a report: a task, on the scenario of a name.
#[derive(Drop)]
pub struct ReportRequest {
    /// What is asked of the log.
    pub task: Task,
    /// The name of the scenario, which may be empty.
    pub name: Word,
    /// What replaces the scenario's own window.
    pub window: WindowOptions,
}

/// What is asked for: a report, or a migration, which reports on no log.
#[derive(Drop)]
pub enum Request {
    /// The scenario of this name as one of version 2, with the same meaning.
    Migration(Word),
    /// A report.
    Report(ReportRequest),
}

/// Returns the request that arguments make.
fn request_by(arguments: Arguments) -> Request
    ensures { result ≡ request_by arguments }
{
    let Arguments {
        mode,
        name,
        options,
    } = arguments;
    let Options {
        start,
        ticks,
        seed,
        why,
        rows,
    } = options;
    match mode {
        ModeArgument::Migrate => {
            drop(rows);
            Request::Migration(name)
        }
        ModeArgument::Report(mode) => Request::Report(ReportRequest {
            task: Task::of(mode, seed, why, rows),
            name,
            window: WindowOptions { start, ticks },
        }),
    }
}

/// Returns what the arguments after the program's name ask for, as `clap` reads them by the command `colregs`: a migration, or the report of
/// a task. An option that the task does not need has no effect. `Usage` occurs only if `clap` refuses the arguments.
pub fn request_of(alloc: Global, words: &[Word]) -> Result<Request, WordsFault>
    ensures asked { IfOk result (AskFor words.now) }
    ensures refused { result ≡ Err WordsFault.Usage → AskForNothing words.now }
    ensures accepted { (request : Request) → AskFor words.now request
        → (result ≡ Ok request) ⊎ (result ≡ Err WordsFault.Memory) }
    ensures plain { (request : Request) → IsPlain words.now request
        → (result ≡ Ok request) ⊎ (result ≡ Err WordsFault.Memory) }
{
    match arguments_of(alloc, words) {
        Ok(arguments) => Ok(request_by(arguments)),
        Err(fault) => Err(fault),
    }
}
