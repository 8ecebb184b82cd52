//! The times of a log's lines.
ghost use Rattle.std.specs.Prelude.{◌≡◌, unwrap_or};
ghost use Rattle.log_lines.specs.LineTimes.{is_late, reach_behind};

use crate::outcome::LineOutcome;
use scenario_values::{Scenario, Window};

/// Returns the seconds that the window of lines lasts after the last tick: a gap, or 0 for a plan of own ship.
fn reach_behind(scenario: &Scenario) -> u32
    ensures { result ≡ reach_behind scenario.now.own scenario.now.log.gap }
{
    match scenario.own {
        Some(_) => 0,
        None => scenario.log.gap,
    }
}

/// The first and the last time of the window of lines.
#[derive(Clone, Copy, PartialEq, Eq)]
struct LineWindow {
    first: u64,
    last: u64,
}

impl LineWindow {
    ghost use Rattle.std.specs.Prelude.{ℕ, ◌<◌, ◌^◌};
    ghost use Rattle.log_lines.specs.LineTimes.{is_in_window};
    ghost use Rattle.log_lines.specs.Inner.Times.{is_between};

    /// Returns the window of lines: from a gap before the first tick to `reach_behind` after the
    /// last.
    fn of(scenario: &Scenario) -> LineWindow
        ensures { (time : ℕ) → time < 2 ^ 64
            → is_between result time ≡ is_in_window scenario.now time }
    {
        let Window { start, tick, ticks } = scenario.window;
        let length = u64::from(ticks) * u64::from(tick);
        let end = start.saturating_add(length);
        LineWindow {
            first: start.saturating_sub(u64::from(scenario.log.gap)),
            last: end.saturating_add(u64::from(reach_behind(scenario))),
        }
    }

    /// Returns whether a time is in the window of lines.
    #[inline(always)]
    fn contains(&self, time: u64) -> bool
        ensures { result ≡ is_between self.now time }
    {
        self.first <= time && time <= self.last
    }
}

/// Returns whether the clock is past a time by more than the slack.
fn is_late(slack: u32, clock: Option<u64>, time: u64) -> bool
    ensures { result ≡ is_late slack clock time }
{
    match clock {
        None => false,
        Some(clock) => time.saturating_add(u64::from(slack)) < clock,
    }
}

/// The nearest stamp and the clock, after the lines so far.
#[derive(Clone, Copy, PartialEq, Eq)]
pub(crate) struct LineTimes {
    window: LineWindow,
    /// The window's start: the time of a line before any stamp.
    start: u64,
    /// The most seconds by which the clock may be past the time of a sentence.
    slack: u32,
    /// The stamp of the last line that has one.
    nearest: Option<u64>,
    /// The greatest stamp in the window of lines.
    clock: Option<u64>,
}

impl LineTimes {
    ghost use Rattle.std.specs.Prelude.{[]};
    ghost use Rattle.log_lines.specs.Inner.Times.{KeepsTimes, clock_behind, is_between, nearest_of, times_behind, untimely_by};

    /// Returns the times before the first line.
    pub(crate) fn new(scenario: &Scenario) -> LineTimes
        ensures { KeepsTimes result scenario.now [] }
    {
        LineTimes {
            window: LineWindow::of(scenario),
            start: scenario.window.start,
            slack: scenario.log.slack,
            nearest: None,
            clock: None,
        }
    }

    /// Returns the time of the next line in seconds: its stamp, or the nearest one, or the start.
    pub(crate) fn time(&self, stamp: Option<u64>) -> u64
        ensures { result ≡ unwrap_or (nearest_of stamp self.now.nearest) self.now.start }
    {
        match (stamp, self.nearest) {
            (Some(stamp), _) => stamp,
            (None, Some(nearest)) => nearest,
            (None, None) => self.start,
        }
    }

    /// Returns the outcome of a sentence of this time if it is outside or late.
    pub(crate) fn untimely(&self, time: u64) -> Option<LineOutcome>
        ensures { result ≡ untimely_by self.now time }
    {
        if !self.window.contains(time) {
            return Some(LineOutcome::Outside);
        }
        if is_late(self.slack, self.clock, time) {
            return Some(LineOutcome::Late);
        }
        None
    }

    /// Returns the clock: the greatest stamp so far in the window of lines.
    pub(crate) fn clock(&self) -> Option<u64>
        ensures { result ≡ self.now.clock }
    {
        self.clock
    }

    /// Returns the clock after a stamp.
    fn clock_behind(&self, stamp: u64) -> Option<u64>
        ensures { result ≡ clock_behind (is_between self.now.window stamp) self.now.clock stamp }
    {
        if !self.window.contains(stamp) {
            return self.clock;
        }
        match self.clock {
            Some(clock) => Some(stamp.max(clock)),
            None => Some(stamp),
        }
    }

    /// Takes the next line's stamp.
    pub(crate) fn pass(&mut self, stamp: Option<u64>)
        ensures { self.new ≡ times_behind self.old stamp }
    {
        if let Some(stamp) = stamp {
            self.clock = self.clock_behind(stamp);
            self.nearest = Some(stamp);
        }
    }
}
