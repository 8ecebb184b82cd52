//! What a scenario sets.
use crate::own_part::OwnPart;
use crate::subjects::Subjects;
use encounters::{Act, Detect};
use fixed_geometry::Reference;
use rule_set::RuleSet;

/// The window of ticks.
#[derive(Clone, Copy, Debug, PartialEq, Eq)]
pub struct Window {
    /// Tick 0, in seconds since the Unix epoch, 0 to 9,999,999,999.
    pub start: u64,
    /// The length of a tick, 1 to 60 s.
    pub tick: u32,
    /// The number of ticks after tick 0, 1 to 20,000.
    pub ticks: u32,
}

impl Window {
    ghost use Rattle.std.specs.Prelude.{◌≡◌};
    ghost use Rattle.scenario_values.specs.ValueRanges.{IsWindow};
    ghost use Rattle.scenario_values.specs.Ticks.{time_of_tick};

    /// Returns the time of a tick, in seconds since the Unix epoch, also for a tick after the last one.
    pub fn time(&self, tick: u32) -> u64
        requires { IsWindow self.now }
        ensures { result ≡ time_of_tick self.now tick }
    {
        self.start + u64::from(tick) * u64::from(self.tick)
    }
}

/// The numbers for judging a log's lines.
#[derive(Clone, Copy, Debug, PartialEq, Eq)]
pub struct LogNumbers {
    /// The greatest time between two reports of one leg, from the tick to 3600 s.
    pub gap: u32,
    /// The most seconds by which a line's time may be before the clock, 0 to 3600 s.
    pub slack: u32,
    /// The greatest speed that is believed, 1 to 1022 tenths of a knot.
    pub max_speed: u16,
    /// The greatest length of a log, 1 to 2^30 bytes.
    pub max_bytes: u64,
}

/// What a scenario sets.
#[derive(Drop)]
pub struct Scenario {
    pub window: Window,
    /// The origin of the plane.
    pub reference: Reference,
    pub log: LogNumbers,
    /// The limits for risk of collision, and for past and clear.
    pub detect: Detect,
    /// The limits for keeping course and speed, and for a readily apparent alteration.
    pub act: Act,
    /// The rules: those of the COLREGs with the scenario's numbers, eleven, or with ranks twelve, followed by at most
    /// five formulas.
    pub rules: RuleSet,
    /// Whether ranks count (Rule 18).
    pub ranks: bool,
    /// The vessels whose encounters are audited.
    pub subjects: Subjects,
    /// Own ship, if she is needed.
    pub own: Option<OwnPart>,
}
