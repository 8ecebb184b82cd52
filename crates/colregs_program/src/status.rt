//! How a run ends.
ghost use Rattle.std.specs.Prelude.{◌≡◌};
ghost use Rattle.colregs_program.specs.FaultLines.{exit_status_of};

use command_line::WordsFault;
use plan_situations::Unready;
use scenario::{Cause, Key};
use std::fmt;

/// What is limited.
#[derive(Clone, Copy, Debug, PartialEq, Eq)]
pub enum Which {
    /// The bytes of the scenario, at most 2^20.
    Scenario,
    /// The bytes of the log, at most as many as the scenario allows.
    Log,
    /// The vessels that are held, at most 4096.
    Vessels,
    /// The ordered pairs of vessels whose traces have begun, at most 4096.
    Pairs,
    /// The vessels near own ship, at most 64.
    Targets,
    /// The bytes of the rows that say why there is no plan, at most 2^24.
    Rows,
}

impl fmt::Display for Which {
    ghost use Rattle.std.specs.Prelude.{Some};
    ghost use Rattle.colregs_program.specs.FaultLines.{limited};

    ghost output = { λ which. Some (limited which) };

    fn fmt<W: fmt::Write>(&self, f: &mut fmt::Formatter<W>) -> fmt::Result {
        f.write_str(match self {
            Which::Scenario => "scenario",
            Which::Log => "log",
            Which::Vessels => "vessels",
            Which::Pairs => "pairs",
            Which::Targets => "targets",
            Which::Rows => "rows",
        })
    }
}

/// How a run ends. Standard error gets a line that names each fault: it is printed as that line's words.
#[derive(Clone, Copy, Debug, PartialEq, Eq)]
pub enum Status {
    /// The whole report is written, and the log that it is of was read to its end.
    Done,
    /// The same, where every plan of own ship fails.
    NoManoeuvre,
    /// The words are not accepted.
    Usage,
    /// The scenario is refused at this key, the first with a fault, for this cause.
    Scenario(Key, Cause),
    /// The scenario or the rows were not to be had: the shelf failed, or has nothing under the name.
    ShelfFault,
    /// The log could not be read on.
    ReadFault,
    /// The report could not be written on.
    WriteFault,
    /// Something is more than this many.
    Limit(Which, u64),
    /// Memory ran out.
    Memory,
    /// Own ship cannot be planned for: this is what she lacks.
    OwnUnready(Unready),
    /// The rows do not say rightly why there is no plan: this is the least index of one that is not right, or how many there are where they leave out
    /// a plan.
    BadEntry(u32),
}

impl Status {
    /// Returns the exit status of the program.
    pub fn number(&self) -> u8
        ensures { result ≡ exit_status_of self.now }
    {
        match self {
            Status::Done => 0,
            Status::NoManoeuvre => 1,
            Status::Usage => 2,
            Status::Scenario(..) => 3,
            Status::ShelfFault => 4,
            Status::ReadFault => 5,
            Status::WriteFault => 6,
            Status::Limit(..) => 7,
            Status::Memory => 8,
            Status::OwnUnready(_) => 9,
            Status::BadEntry(_) => 10,
        }
    }
}

impl From<WordsFault> for Status {
    ghost use Rattle.std.specs.Prelude.{◌≡◌};
    ghost use Rattle.colregs_program.specs.Inner.WordsFaults.{answer_of};

    ghost from_gives = { λ fault status. status ≡ answer_of fault };

    fn from(fault: WordsFault) -> Status {
        match fault {
            WordsFault::Usage => Status::Usage,
            WordsFault::Memory => Status::Memory,
        }
    }
}
