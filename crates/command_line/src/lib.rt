//! The arguments of the command line, as `clap` reads them: a mode, the name of a scenario and options.
//!
//! `colregs audit harbour.toml --start 1700000000` asks for the mode `audit`, the scenario `harbour.toml` and that start.
//! `colregs audit` names no scenario, and so asks for nothing.
//! Out of scope: what a mode does, and the contents of files.
#![tactic(auto)]

mod arguments;
mod colregs;
mod help;
pub mod laws;
mod mode;
mod number;
mod request;

pub use arguments::{Arguments, Options, WordsFault};
pub use help::{InfoRequest, info_request, info_text};
pub use mode::ModeArgument;
pub use request::{ReportRequest, Request, WindowOptions, request_of};
