//! What is known of a vessel, tick by tick.
ghost use Rattle.std.specs.Prelude.{◌≡◌, ◌==◌, ◌≤◌, ◌<◌, ◌+◌, ◌*◌, ℕ, IfOk, IfSome, Some, map, slice_get};
ghost use Rattle.std.specs.List.{find, range_with_len};
ghost use Rattle.std.specs.Option.{option_copied};
ghost use Rattle.meetings.specs.Traces.{IsShortMove};
ghost use Rattle.motion.specs.TickStates.{IsTickState};
ghost use Rattle.plan_situations.specs.Prediction.{predicted_state};
ghost use Rattle.plan_situations.specs.Situations.{sighting};
ghost use Rattle.scenario_values.specs.Ticks.{window_end, time_of_tick};
ghost use Rattle.predictions.specs.declared.predictions.Predict.{Predict as PredictValue};
ghost use Rattle.plan_situations.specs.KnownStates.{changes_for};
ghost use Rattle.plan_situations.specs.Inner.Facts.{known_at, predicted_at, IsKnownBelow, IsTrack};

use crate::lists::{Ahead, Past};
use crate::prediction::predicted;
use motion::{Legs, TickState};
use out_of_memory::Memory;
use predictions::{Change, Predict};
use scenario_values::Window;
use std::alloc::Global;
use tracks::Accepted;

/// What is predicted of a vessel, if anything is.
fn predict_for(predictions: &[Predict], mmsi: u32) -> Option<&Predict>
    ensures { option_copied result
        ≡ find (λ (predict : PredictValue). predict.mmsi == mmsi) predictions.now }
{
    predictions.iter().find(|predict| predict.mmsi == mmsi)
}

/// Returns the changes that are predicted of a vessel.
pub(crate) fn changes_for(predictions: &[Predict], mmsi: u32) -> &[Change]
    ensures { result.now ≡ changes_for predictions.now mmsi }
{
    match predict_for(predictions, mmsi) {
        Some(predict) => predict.changes.as_slice(),
        None => &[],
    }
}

/// What is known of a vessel at now, the last tick: her latest accepted report, the legs up to it, and the changes that are predicted
/// of her from now on.
#[derive(Clone, Copy)]
pub(crate) struct KnownTrack<'a> {
    pub(crate) window: Window,
    pub(crate) latest: Accepted,
    /// None if she has none.
    pub(crate) legs: Option<&'a Legs>,
    pub(crate) changes: &'a [Change],
}

impl KnownTrack<'_> {
    /// Her state at a tick from her latest accepted report on.
    fn predicted(&self, tick: u32) -> TickState
        requires track { IsTrack self.now }
        requires from { self.now.latest.time ≤ time_of_tick self.now.window tick }
        requires to { time_of_tick self.now.window tick ≤ window_end self.now.window + 7200 }
        ensures value { result
            ≡ predicted_state self.now.latest self.now.changes.now (window_end self.now.window)
            (time_of_tick self.now.window tick) }
        ensures state { IsTickState 7900640400 result }
        ensures moves { (earlier : ℕ) → tick ≡ earlier + 1
            → IsShortMove (known_at self.now earlier) (Some result) }
    {
        let now = self.window.time(self.window.ticks);
        predicted(&self.latest, self.changes, now, self.window.time(tick))
    }

    /// Her state at a tick, if she is seen then or predicted.
    fn at(&self, tick: u32) -> Option<TickState>
        requires track { IsTrack self.now }
        requires to { time_of_tick self.now.window tick ≤ window_end self.now.window + 7200 }
        ensures value { result ≡ known_at self.now tick }
        ensures state { IfSome result (IsTickState 7900640400) }
        ensures moves { (earlier : ℕ) → tick ≡ earlier + 1
            → IsShortMove (known_at self.now earlier) result }
    {
        let time = self.window.time(tick);
        if time >= self.latest.time {
            return Some(self.predicted(tick));
        }
        match self.legs {
            Some(legs) => legs.at(time),
            None => None,
        }
    }

    /// Her states at the ticks up to now.
    pub(crate) fn past(&self, alloc: Global) -> Result<Past, Memory>
        requires { IsTrack self.now }
        ensures value { IfOk result
            (λ past. past ≡ map (known_at self.now)
            (range_with_len 0 (self.now.window.ticks + 1))) }
        ensures known { IfOk result
            (λ past. IsKnownBelow (self.now.window.ticks + 1) (sighting past)) }
    {
        let mut list = Vec::new(alloc);
        for tick in 0..self.window.ticks + 1 {
            list.push(self.at(tick))?;
        }
        Ok(Past::new(list))
    }

    /// Her states at the ticks from now on, up to this many ticks later.
    pub(crate) fn ahead(&self, alloc: Global, ticks: u32) -> Result<Ahead, Memory>
        requires track { IsTrack self.now }
        requires short { ticks * self.now.window.tick ≤ 7200 }
        requires few { ticks ≤ 7200 }
        ensures value { IfOk result
            (λ ahead. ahead ≡ map (predicted_at self.now) (range_with_len 0 (ticks + 1))) }
        ensures known { IfOk result (λ ahead. IsKnownBelow (ticks + 1) (slice_get ahead)) }
    {
        let mut list = Vec::new(alloc);
        for tick in 0..ticks + 1 {
            list.push(self.predicted(self.window.ticks + tick))?;
        }
        Ok(Ahead::new(list))
    }
}
