//! The line on standard error that names a fault.
ghost use Rattle.std.specs.Prelude.{◌≡◌, IfOk, OnErr, IsTrue, MatchOption};
ghost use Rattle.colregs_program.specs.FaultLines.{fault_line, is_made};

use crate::status::Status;
use plan_situations::Unready;
use scenario::ScenarioFault;
use std::alloc::{AllocError, Global};
use std::error::Error;
use std::fmt;

/// A line for standard error, or nothing.
#[derive(Drop)]
pub(crate) enum FaultLine {
    Fixed(&'static str),
    Made(String),
}

/// Returns the line of a fault whose words hold no number, so that no memory is needed for it; nothing where the run is
/// finished.
fn fixed_line(status: &Status) -> Option<&'static str>
    ensures { MatchOption result (IsTrue (is_made status.now))
        (λ line. line.now ≡ fault_line status.now) }
{
    match status {
        Status::Done | Status::NoManoeuvre => Some(""),
        Status::Usage => Some("usage: points|audit|plan|drill|migrate|recheck|watch SCENARIO\n"),
        Status::ShelfFault => Some("scenario: not read\n"),
        Status::ReadFault => Some("log: not read\n"),
        Status::WriteFault => Some("report: not written\n"),
        Status::Memory => Some("memory\n"),
        Status::OwnUnready(Unready::NoPoint(_)) => Some("own: no point\n"),
        Status::OwnUnready(Unready::NoCourse(_)) => Some("own: no course\n"),
        Status::OwnUnready(Unready::NoSpeed(_)) => Some("own: no speed\n"),
        Status::Scenario(..) | Status::Limit(..) | Status::BadEntry(_) => None,
    }
}

impl fmt::Display for Status {
    ghost use Rattle.std.specs.Prelude.{Some};
    ghost use Rattle.colregs_program.specs.FaultLines.{status_text};

    ghost output = { λ status. Some (status_text status) };

    fn fmt<W: fmt::Write>(&self, f: &mut fmt::Formatter<W>) -> fmt::Result {
        match self {
            Status::Done | Status::NoManoeuvre => Ok(()),
            Status::Usage => f.write_str(
                "usage: points|audit|plan|drill|migrate|recheck|watch SCENARIO",
            ),
            Status::Scenario(key, cause) => {
                let fault = ScenarioFault::Fault(*key, *cause);
                write!(f, "scenario: {fault}")
            }
            Status::ShelfFault => f.write_str("scenario: not read"),
            Status::ReadFault => f.write_str("log: not read"),
            Status::WriteFault => f.write_str("report: not written"),
            Status::Limit(which, most) => write!(f, "limit: {which} {most}"),
            Status::Memory => f.write_str("memory"),
            Status::OwnUnready(why) => write!(f, "own: {why}"),
            Status::BadEntry(index) => write!(f, "rows: entry {index}"),
        }
    }
}

impl Error for Status {}

impl FaultLine {
    ghost use Rattle.colregs_program.specs.Inner.LineBytes.{line_bytes};

    /// Returns the line of a fault. Only one that is made of numbers or names needs memory.
    pub(crate) fn of(alloc: Global, status: &Status) -> Result<FaultLine, AllocError>
        ensures text { IfOk result (λ line. line_bytes line ≡ fault_line status.now) }
        ensures memory { OnErr result (IsTrue (is_made status.now)) }
    {
        match fixed_line(status) {
            Some(line) => Ok(FaultLine::Fixed(line)),
            None => Ok(FaultLine::Made(format!(in alloc; "{status}\n")?)),
        }
    }

    pub(crate) fn as_bytes(&self) -> &[u8]
        ensures { result.now ≡ line_bytes self.now }
    {
        match self {
            FaultLine::Fixed(text) => text.as_bytes(),
            FaultLine::Made(text) => text.as_bytes(),
        }
    }
}
