//! The targets of own ship.
ghost use Rattle.std.specs.Prelude.{ℕ, ◌≡◌, ◌≤◌, ◌<◌, ◌+◌, ◌*◌, ◌^◌, List, [], length, map, All, IfOk};
ghost use Rattle.std.specs.Option.{option_copied};
ghost use Rattle.lattice.specs.Grids.{positions_of};
ghost use Rattle.plan_situations.specs.Prediction.{AreChanges};
ghost use Rattle.plan_situations.specs.Domains.{IsDomain};
ghost use Rattle.plan_situations.specs.Situations.{sighting};
ghost use Rattle.scenario_values.specs.Ticks.{window_end};
ghost use Rattle.tracks.specs.AcceptedReports.{JudgingNumbers};
ghost use Rattle.tracks.specs.Lengths.{length_of};
ghost use Rattle.tracks.specs.Standing.{StandsFor};
ghost use Rattle.tracks.specs.VesselsHeld.{Sent, legs_of, statics_of};
ghost use Rattle.plan_situations.specs.NearVessels.{others_of};
ghost use Rattle.plan_situations.specs.PlanSituations.{metre, past_of, target_of};
ghost use Rattle.plan_situations.specs.Inner.Facts.{legs_known, IsKnownBelow, IsNear, IsSetting, IsTargetOver, IsTrack};

use crate::domain::Domain;
use crate::lists::Past;
use crate::near::Near;
use crate::situation::Target;
use crate::track::{KnownTrack, changes_for};
use out_of_memory::Memory;
use predictions::Change;
use scenario_values::{OwnPart, Window};
use std::alloc::Global;
use tracks::Book;

/// What a situation is made of: what is known of the vessels at the ticks of a window, and own ship's plans.
#[derive(Clone, Copy)]
pub(crate) struct Setting<'a> {
    pub(crate) window: Window,
    pub(crate) own: &'a OwnPart,
    pub(crate) book: &'a Book,
}

impl Setting<'_> {
    /// Returns the track of a vessel for which these changes are predicted.
    fn track<'b>(&'b self, vessel: &Near, changes: &'b [Change]) -> KnownTrack<'b>
        requires setting { IsSetting self.now }
        requires near { IsNear (window_end self.now.window) self.now.book.now vessel.now }
        requires changes { AreChanges changes.now }
        ensures track { IsTrack result }
        ensures window { result.window ≡ self.now.window }
        ensures latest { result.latest ≡ vessel.now.latest }
        ensures changes { result.changes.now ≡ changes.now }
        ensures legs { (numbers : JudgingNumbers) (messages : List Sent)
            → StandsFor self.now.book.now numbers messages
            → legs_known (option_copied result.legs) ≡ legs_of numbers messages vessel.now.mmsi }
    {
        self.book.comes_to_latest(vessel.mmsi);
        KnownTrack {
            window: self.window,
            latest: vessel.latest,
            legs: self.book.legs(vessel.mmsi),
            changes,
        }
    }

    /// How a vessel without predicted changes is known at the ticks up to now.
    pub(crate) fn past(&self, alloc: Global, vessel: &Near) -> Result<Past, Memory>
        requires setting { IsSetting self.now }
        requires near { IsNear (window_end self.now.window) self.now.book.now vessel.now }
        ensures value { IfOk result
            (λ past. (numbers : JudgingNumbers) (messages : List Sent)
            → StandsFor self.now.book.now numbers messages
            → past ≡ past_of numbers messages self.now.window [] vessel.now) }
        ensures known { IfOk result
            (λ past. IsKnownBelow (self.now.window.ticks + 1) (sighting past)) }
    {
        self.track(vessel, &[]).past(alloc)
    }

    /// Returns a vessel's domain.
    fn domain(&self, vessel: &Near) -> Domain
        requires setting { IsSetting self.now }
        requires near { IsNear (window_end self.now.window) self.now.book.now vessel.now }
        ensures value { (numbers : JudgingNumbers) (messages : List Sent)
            → StandsFor self.now.book.now numbers messages
            → result.radius ≡ metre
            * (self.now.own.now.base
            + self.now.own.now.lengths * length_of (statics_of messages vessel.now.mmsi).ship) }
        ensures domain { IsDomain result }
    {
        let length = u64::from(self.book.length(vessel.mmsi));
        Domain {
            radius: 10_000 * (u64::from(self.own.base) + u64::from(self.own.lengths) * length),
        }
    }

    /// Returns a vessel as a target.
    fn target(&self, alloc: Global, vessel: &Near) -> Result<Target, Memory>
        requires setting { IsSetting self.now }
        requires near { IsNear (window_end self.now.window) self.now.book.now vessel.now }
        ensures value { IfOk result
            (λ target. (numbers : JudgingNumbers) (messages : List Sent)
            → StandsFor self.now.book.now numbers messages
            → target ≡ target_of numbers messages self.now.window self.now.own.now vessel.now) }
        ensures over { IfOk result
            (IsTargetOver self.now.window.ticks (positions_of self.now.own.now.lattice)) }
    {
        let changes = changes_for(self.own.predict.as_slice(), vessel.mmsi);
        let track = self.track(vessel, changes);
        Ok(Target {
            mmsi: vessel.mmsi,
            past: track.past(alloc)?,
            ahead: track.ahead(alloc, self.own.lattice.positions())?,
            domain: self.domain(vessel),
        })
    }

    /// Returns the targets among the vessels near own ship: all but herself.
    pub(crate) fn targets(&self, alloc: Global, near: &[Near]) -> Result<Vec<Target>, Memory>
        requires setting { IsSetting self.now }
        requires near { All (IsNear (window_end self.now.window) self.now.book.now) near.now }
        ensures value { IfOk result
            (λ targets. (numbers : JudgingNumbers) (messages : List Sent)
            → StandsFor self.now.book.now numbers messages
            → targets.items ≡ map (target_of numbers messages self.now.window self.now.own.now)
            (others_of self.now.own.now.mmsi near.now)) }
        ensures over { IfOk result
            (λ targets. All (IsTargetOver self.now.window.ticks
            (positions_of self.now.own.now.lattice)) targets.items) }
    {
        let mut targets = Vec::new(alloc);
        for vessel in near {
            if vessel.mmsi != self.own.mmsi {
                targets.push(self.target(alloc, vessel)?)?;
            }
        }
        Ok(targets)
    }
}

/// How many vessels near own ship are another one.
pub(crate) fn count_others(near: &[Near], own: u32) -> usize
    ensures { result ≡ length (others_of own near.now) }
{
    near.iter().filter(|vessel| vessel.mmsi != own).count()
}
