//! The log of the drill as a source.
ghost use Rattle.std.specs.Prelude.{◌≡◌, ◌<◌, ◌≤◌, IfOk, Some, length};
ghost use Rattle.outside.specs.Streams.{Gives, ReadCause};
ghost use Rattle.scenario_values.specs.ValueRanges.{IsWindow};
ghost use Rattle.drill_log.specs.DrillLog.{drill_log_of};

use crate::minute_log::MinuteLog;
use out_of_memory::Memory;
use outside::{Source, Taken};
use scenario_values::Scenario;
use std::alloc::Global;
use std::marker::Model;

/// The log of a drill, made while it is read. It stores only the lines of a few minutes. A read fails only if memory
/// runs out.
#[derive(Drop)]
pub struct DrillSource {
    log: MinuteLog,
}

impl Model for DrillSource {
    ghost use Rattle.drill_log.specs.Inner.MinuteLines.{left_of};
    ghost use Rattle.drill_log.specs.MadeLog.{MadeBytes};

    ghost Value = { MadeBytes };

    ghost view = { λ s. record { left = left_of s.log; faults = s.log.faults } };
}

impl DrillSource {
    /// Returns the log of the drill with this seed, 0 to 999999: that of [`drill_log`](crate::drill_log).
    pub fn new(alloc: Global, scenario: &Scenario, seed: u32) -> Result<DrillSource, Memory>
        requires window { IsWindow scenario.now.window }
        requires seed { seed ≤ 999999 }
        ensures left { IfOk result (λ source. source.left ≡ drill_log_of scenario.now seed) }
        ensures faults { IfOk result (λ source. source.faults ≡ 0) }
    {
        Ok(DrillSource {
            log: MinuteLog::new(alloc, scenario, seed)?,
        })
    }
}

impl Source for DrillSource {
    ghost left = { λ s. Some s.left };

    ghost faults = { λ s. s.faults };

    fn read(&mut self, room: &mut [u8]) -> Taken {
        self.log.read(room)
    }
}
