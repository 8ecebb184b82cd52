//! Why a session gives no report.
use auditor::{AuditFault, MOST_TRACES};
use out_of_memory::Memory;
use plan_situations::{MOST_TARGETS, PrepareFault, Unready};
use std::error::Error;
use std::fmt;
use tracks::{BookFault, MOST_VESSELS};

/// Why a session gives no report. It prints as the start of the program's line for it: `limit: vessels 4096`, `own: no
/// point`, `memory`.
#[derive(Clone, Copy, Debug, PartialEq, Eq)]
pub enum SessionFault {
    /// A line adds a 4097th vessel.
    Vessels,
    /// A tick begins a 4097th trace.
    Pairs,
    /// The log has more bytes than the scenario allows.
    LogBytes,
    /// There can be no plan for own ship; this is what she lacks.
    Own(Unready),
    /// More than 64 vessels are targets.
    Targets,
    /// The rows with the reasons why there is no plan are wrong: the index of the first wrong one, or their number.
    Entry(u32),
    /// Memory ran out.
    Memory,
}

impl fmt::Display for SessionFault {
    ghost use Rattle.std.specs.Prelude.{Some};
    ghost use Rattle.sessions.specs.SessionFaultTexts.{session_fault_text};

    ghost output = { λ fault. Some (session_fault_text fault) };

    fn fmt<W: fmt::Write>(&self, f: &mut fmt::Formatter<W>) -> fmt::Result {
        match self {
            SessionFault::Vessels => write!(f, "limit: vessels {MOST_VESSELS}"),
            SessionFault::Pairs => write!(f, "limit: pairs {MOST_TRACES}"),
            SessionFault::LogBytes => f.write_str("limit: log"),
            SessionFault::Own(why) => write!(f, "own: {why}"),
            SessionFault::Targets => write!(f, "limit: targets {MOST_TARGETS}"),
            SessionFault::Entry(index) => write!(f, "rows: entry {index}"),
            SessionFault::Memory => f.write_str("memory"),
        }
    }
}

impl Error for SessionFault {}

impl From<Memory> for SessionFault {
    ghost use Rattle.std.specs.Prelude.{◌≡◌};
    ghost use Rattle.sessions.specs.declared.session_fault.SessionFault.TheVariants.{Memory};

    ghost from_gives = { λ _ made. made ≡ Memory };

    fn from(_: Memory) -> SessionFault {
        SessionFault::Memory
    }
}

impl From<BookFault> for SessionFault {
    ghost use Rattle.std.specs.Prelude.{◌≡◌};
    ghost use Rattle.sessions.specs.Inner.Faults.{judging_fault};

    ghost from_gives = { λ fault made. made ≡ judging_fault fault };

    fn from(fault: BookFault) -> SessionFault {
        match fault {
            BookFault::TooManyVessels => SessionFault::Vessels,
            BookFault::Memory => SessionFault::Memory,
        }
    }
}

impl From<AuditFault> for SessionFault {
    ghost use Rattle.std.specs.Prelude.{◌≡◌};
    ghost use Rattle.sessions.specs.Inner.Faults.{auditing_fault};

    ghost from_gives = { λ fault made. made ≡ auditing_fault fault };

    fn from(fault: AuditFault) -> SessionFault {
        match fault {
            AuditFault::TooManyPairs => SessionFault::Pairs,
            AuditFault::Memory => SessionFault::Memory,
        }
    }
}

impl From<PrepareFault> for SessionFault {
    ghost use Rattle.std.specs.Prelude.{◌≡◌};
    ghost use Rattle.sessions.specs.Inner.Faults.{preparing_fault};

    ghost from_gives = { λ fault made. made ≡ preparing_fault fault };

    fn from(fault: PrepareFault) -> SessionFault {
        match fault {
            PrepareFault::Unready(why) => SessionFault::Own(why),
            PrepareFault::TooManyTargets => SessionFault::Targets,
            PrepareFault::Memory => SessionFault::Memory,
        }
    }
}
