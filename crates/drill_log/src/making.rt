//! Making the log of the drill while it is read.
ghost use Rattle.std.specs.Prelude.{◌≡◌, ◌+◌, ◌-◌, ◌*◌, ◌<◌, ◌≤◌, [], All, IfOk, Some, false, flat_map, length, true};
ghost use Rattle.std.specs.List.{range_with_len};
ghost use Rattle.outside.specs.Streams.{Gives, ReadCause};
ghost use Rattle.scenario_values.specs.ValueRanges.{IsWindow};
ghost use Rattle.drill_log.specs.DrillLog.{drill_log_of};
ghost use Rattle.drill_log.specs.Inner.VesselFigures.{IsVessel};
ghost use Rattle.drill_log.specs.Inner.MinuteLines.{left_of, lines_at};

use crate::log::{lines_between, minutes_in};
use crate::minute_log::MinuteLog;
use crate::vessel::vessels;
use out_of_memory::Memory;
use outside::{PlainSource, Source, Taken};
use scenario_values::Scenario;
use std::alloc::Global;

/// The minutes whose lines are made at a time: about one block.
const MINUTES: u32 = 24;

/// The most bytes of a read.
const BLOCK: usize = 65536;

impl MinuteLog {
    /// Returns the log of the drill with this seed.
    pub(crate) fn new(alloc: Global, scenario: &Scenario, seed: u32) -> Result<MinuteLog, Memory>
        requires window { IsWindow scenario.now.window }
        requires seed { seed ≤ 999999 }
        ensures left { IfOk result (λ log. left_of log ≡ drill_log_of scenario.now seed) }
        ensures faults { IfOk result (λ log. log.faults ≡ 0) }
    {
        Ok(MinuteLog {
            alloc,
            vessels: vessels(alloc, seed)?,
            reference: scenario.reference,
            start: scenario.window.start,
            reports: minutes_in(scenario.window) + 1,
            made: 0,
            block: PlainSource::new(Vec::new(alloc), BLOCK),
            faults: 0,
        })
    }

    /// Makes the lines of the next minutes; returns whether any minutes were left.
    fn make(&mut self) -> Result<bool, Memory>
        requires { self.old.block.left ≡ [] }
        ensures left { left_of self.new ≡ left_of self.old }
        ensures faults { self.new.faults ≡ self.old.faults }
        ensures reports { self.new.reports ≡ self.old.reports }
        ensures more { IfOk result (λ more. more ≡ true → self.old.made < self.new.made) }
        ensures end { IfOk result (λ more. more ≡ false → left_of self.new ≡ []) }
    {
        if self.made == self.reports {
            return Ok(false);
        }
        let next = self.reports.min(self.made + MINUTES);
        let lines = lines_between(
            self.alloc,
            &self.vessels,
            self.reference,
            self.start,
            self.made,
            next,
        )?;
        self.made = next;
        self.block = PlainSource::new(lines, BLOCK);
        Ok(true)
    }

    /// Reads from the remaining lines.
    pub(crate) fn read(&mut self, room: &mut [u8]) -> Taken
        requires { 0 < length room.old }
        ensures bytes { Gives (Some (left_of self.old)) (Some (left_of self.new)) room.new result }
        ensures cause { ReadCause self.old.faults self.new.faults result }
    {
        loop {
            match self.block.read(room) {
                Taken::End => {}
                taken => return taken,
            }
            match self.make() {
                Ok(true) => {}
                Ok(false) => return Taken::End,
                Err(Memory) => {
                    self.faults = self.faults.saturating_add(1);
                    return Taken::Failed;
                }
            }
        }
    }
}
