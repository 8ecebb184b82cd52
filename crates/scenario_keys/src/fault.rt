//! Why there is no scenario.
ghost use Rattle.std.specs.Prelude.{Some};
ghost use Rattle.scenario_keys.specs.ScenarioTexts.{refusal_text};

use crate::cause::Cause;
use crate::key::Key;
use out_of_memory::Memory;
use std::alloc::AllocError;
use std::error::Error;
use std::fmt;

/// Why there is no scenario. It is printed as `KEY: CAUSE`.
#[derive(Clone, Copy, Debug, PartialEq, Eq)]
pub enum ScenarioFault {
    /// The first fault in the order of the keys.
    Fault(Key, Cause),
    /// Memory ran out.
    Memory,
}

impl fmt::Display for ScenarioFault {
    ghost output = { λ fault. Some (refusal_text fault) };

    fn fmt<W: fmt::Write>(&self, f: &mut fmt::Formatter<W>) -> fmt::Result {
        match self {
            ScenarioFault::Fault(key, cause) => write!(f, "{key}: {cause}"),
            ScenarioFault::Memory => f.write_str("out of memory"),
        }
    }
}

impl Error for ScenarioFault {}

impl From<Memory> for ScenarioFault {
    ghost use Rattle.std.specs.Prelude.{◌≡◌};
    ghost use Rattle.scenario_keys.specs.declared.fault.ScenarioFault.TheVariants as fault;

    ghost from_gives = { λ _ made. made ≡ fault.Memory };

    fn from(_: Memory) -> ScenarioFault {
        ScenarioFault::Memory
    }
}

impl From<AllocError> for ScenarioFault {
    ghost use Rattle.std.specs.Prelude.{◌≡◌};
    ghost use Rattle.scenario_keys.specs.declared.fault.ScenarioFault.TheVariants as fault;

    ghost from_gives = { λ _ made. made ≡ fault.Memory };

    fn from(_: AllocError) -> ScenarioFault {
        ScenarioFault::Memory
    }
}
