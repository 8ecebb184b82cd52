//! Why a tick could not be taken.
use out_of_memory::Memory;
use std::error::Error;
use std::fmt;

/// Why a tick could not be taken.
#[derive(Clone, Copy, Debug, PartialEq, Eq)]
pub enum TickFault {
    /// The tick begins a 4097th trace.
    TooManyPairs,
    /// Memory ran out.
    Memory,
}

impl fmt::Display for TickFault {
    ghost use Rattle.std.specs.Prelude.{Some};
    ghost use Rattle.traces.specs.FaultTexts.{tick_fault_text};

    ghost output = { λ fault. Some (tick_fault_text fault) };

    fn fmt<W: fmt::Write>(&self, f: &mut fmt::Formatter<W>) -> fmt::Result {
        f.write_str(match self {
            TickFault::TooManyPairs => "too many pairs",
            TickFault::Memory => "out of memory",
        })
    }
}

impl Error for TickFault {}

impl From<Memory> for TickFault {
    ghost use Rattle.std.specs.Prelude.{◌≡◌};
    ghost use Rattle.traces.specs.declared.fault.TickFault.TheVariants.{Memory};

    ghost from_gives = { λ _ e. e ≡ Memory };

    fn from(_: Memory) -> TickFault {
        TickFault::Memory
    }
}
