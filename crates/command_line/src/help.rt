//! The texts that the program writes about itself.
ghost use Rattle.std.specs.Prelude.{◌≡◌, IfOk, string_bytes};
ghost use Rattle.command_line.specs.InfoArguments.{info_of, version_line};
ghost use Rattle.command_line.specs.declared.help.InfoRequest.{InfoRequest};

use crate::colregs::colregs;
use crate::mode::mode_values;
use out_of_memory::Memory;
use outside::Word;
use std::alloc::Global;

/// What a single argument asks the program about itself.
#[derive(Clone, Copy, Debug, PartialEq, Eq)]
pub enum InfoRequest {
    /// How it is used, with each mode.
    Help,
    /// How it is used, in short.
    Summary,
    /// Its version.
    Version,
}

/// Returns what the arguments ask the program about itself, if they are a single argument that does.
pub fn info_request(words: &[Word]) -> Option<InfoRequest>
    ensures { result ≡ info_of words.now }
{
    let [word] = words else {
        return None;
    };
    match word.text() {
        "--help" => Some(InfoRequest::Help),
        "-h" => Some(InfoRequest::Summary),
        "--version" | "-V" => Some(InfoRequest::Version),
        _ => None,
    }
}

/// The text that `clap` makes of the command by which [`request_of`](crate::request_of) reads words: the long one or the short one. No clause
/// of `clap` says which bytes it has.
fn usage_text(alloc: Global, is_long: bool) -> Result<String, Memory> {
    let modes = mode_values();
    let mut command = colregs(alloc, modes.as_slice())?;
    let text = if is_long {
        command.render_long_help()
    } else {
        command.render_help()
    };
    drop(command);
    Ok(text?)
}

/// Returns what the program writes about itself: how it is used, with each mode or in short, or a line with its name and its version.
pub fn info_text(alloc: Global, request: InfoRequest) -> Result<String, Memory>
    ensures { request ≡ InfoRequest.Version
        → IfOk result (λ text. string_bytes text ≡ version_line) }
{
    match request {
        InfoRequest::Help => usage_text(alloc, true),
        InfoRequest::Summary => usage_text(alloc, false),
        InfoRequest::Version => Ok(String::from_str(alloc, "colregs 0.1.0\n")?),
    }
}
