//! The situation for the search of own ship's plan.
ghost use Rattle.std.specs.Prelude.{ℕ, ◌≡◌, ◌≤◌, ◌<◌, ◌+◌, ◌*◌, List, [], length, map, All, IfOk, IfSome, IsSome, Err, Ok, Some};
ghost use Rattle.lattice.specs.Grids.{positions_of};
ghost use Rattle.motion.specs.TickStates.{IsTickState};
ghost use Rattle.scenario_values.specs.ValueRanges.{IsInRange, IsWindow};
ghost use Rattle.scenario_values.specs.Ticks.{window_end};
ghost use Rattle.tracks.specs.AcceptedReports.{JudgingNumbers};
ghost use Rattle.tracks.specs.Standing.{StandsFor};
ghost use Rattle.tracks.specs.VesselsHeld.{Sent};
ghost use Rattle.tracks.specs.declared.keeping.Keeping.TheVariants.{Tracks};
ghost use Rattle.plan_situations.specs.NearVessels.{near_of, others_of, point_now};
ghost use Rattle.plan_situations.specs.PlanSituations.{greatest_targets, metre, own_readiness, past_of, target_of};
ghost use Rattle.plan_situations.specs.Preparing.{HasManyTargets, IsPrepared, StandsForSome};
ghost use Rattle.plan_situations.specs.Readiness.{readiness_of};
ghost use Rattle.plan_situations.specs.Situations.{sighting};
ghost use Rattle.plan_situations.specs.Inner.Facts.{HasMany, IsFresh, IsKnownBelow, IsNear, IsReady, IsSetting, IsSized, IsTargetOver, own_near};
ghost use Rattle.plan_situations.specs.declared.preparation.PrepareFault.{PrepareFault};
ghost use Rattle.plan_situations.specs.declared.readiness.Unready.{Unready};

use crate::lists::{Past, Targets};
use crate::near::{Circle, Near, point_now};
use crate::readiness::{Ready, Unready, readiness};
use crate::situation::{Situation, Target};
use crate::targets::{Setting, count_others};
use lattice::Lattice;
use motion::TickState;
use out_of_memory::Memory;
use scenario_values::{OwnPart, Scenario, Window};
use std::alloc::Global;
use tracks::Book;

/// The greatest number of targets.
pub const MOST_TARGETS: usize = 64;

/// Why there is no situation for a search.
#[derive(Clone, Copy, PartialEq, Eq)]
pub enum PrepareFault {
    /// Own ship is not ready.
    Unready(Unready),
    /// More than 64 vessels are targets.
    TooManyTargets,
    Memory,
}

impl From<Memory> for PrepareFault {
    ghost use Rattle.std.specs.Prelude.{◌≡◌};
    ghost use Rattle.plan_situations.specs.declared.preparation.PrepareFault.TheVariants.{Memory};

    ghost from_gives = { λ _ made. made ≡ Memory };

    fn from(_: Memory) -> PrepareFault {
        PrepareFault::Memory
    }
}

impl From<Unready> for PrepareFault {
    ghost use Rattle.std.specs.Prelude.{◌≡◌};
    ghost use Rattle.plan_situations.specs.declared.preparation.PrepareFault.TheVariants as fault;

    ghost from_gives = { λ why made. made ≡ fault.Unready why };

    fn from(why: Unready) -> PrepareFault {
        PrepareFault::Unready(why)
    }
}

/// Own ship at now, and the situation of the search.
#[derive(Drop)]
pub struct Prepared {
    pub ready: Ready,
    /// The vessels near her, herself among them, in the order of their MMSIs.
    pub near: Vec<Near>,
    pub situation: Situation,
}

/// What is known of own ship and of the vessels near her.
#[derive(Drop)]
struct Surroundings {
    ready: Ready,
    near: Vec<Near>,
    own_past: Past,
    targets: Vec<Target>,
}

/// What a book knows of own ship and of the vessels near her. It may end early, so it owns nothing of the scenario: all that is owned at
/// such an end is dropped there, and the proof has to follow each drop.
fn surroundings_of(alloc: Global, setting: &Setting, gap: u32) -> Result<Surroundings, PrepareFault>
    requires setting { IsSetting setting.now }
    requires gap { setting.now.book.now.numbers.gap ≡ gap }
    requires short { gap ≤ 3600 }
    ensures ready { IfOk result
        (λ found. (numbers : JudgingNumbers) (messages : List Sent)
        → StandsFor setting.now.book.now numbers messages
        → readiness_of numbers messages (window_end setting.now.window) setting.now.own.now.mmsi
        ≡ Ok found.ready) }
    ensures own { IfOk result
        (λ found. IsReady found.ready
        × IsNear (window_end setting.now.window) setting.now.book.now
        (own_near setting.now.own.now found.ready)) }
    ensures near { IfOk result
        (λ found. (numbers : JudgingNumbers) (messages : List Sent)
        → StandsFor setting.now.book.now numbers messages
        → found.near.items
        ≡ near_of numbers messages (window_end setting.now.window)
        (metre * setting.now.own.now.range)
        (point_now (window_end setting.now.window) found.ready.latest)) }
    ensures few { IfOk result
        (λ found. length (others_of setting.now.own.now.mmsi found.near.items) ≤ greatest_targets) }
    ensures past { IfOk result
        (λ found. (numbers : JudgingNumbers) (messages : List Sent)
        → StandsFor setting.now.book.now numbers messages
        → found.own_past ≡ past_of numbers messages setting.now.window []
        (own_near setting.now.own.now found.ready)) }
    ensures seen { IfOk result
        (λ found. IsKnownBelow (setting.now.window.ticks + 1) (sighting found.own_past)) }
    ensures targets { IfOk result
        (λ found. (numbers : JudgingNumbers) (messages : List Sent)
        → StandsFor setting.now.book.now numbers messages
        → found.targets.items
        ≡ map (target_of numbers messages setting.now.window setting.now.own.now)
        (others_of setting.now.own.now.mmsi found.near.items)) }
    ensures over { IfOk result
        (λ found. All (IsTargetOver setting.now.window.ticks
        (positions_of setting.now.own.now.lattice)) found.targets.items) }
    ensures unready { (why : Unready) → result ≡ Err (PrepareFault.Unready why)
        → (numbers : JudgingNumbers) (messages : List Sent)
        → StandsFor setting.now.book.now numbers messages
        → readiness_of numbers messages (window_end setting.now.window) setting.now.own.now.mmsi
        ≡ Err why }
    ensures many { result ≡ Err PrepareFault.TooManyTargets
        → (numbers : JudgingNumbers) (messages : List Sent)
        → StandsFor setting.now.book.now numbers messages
        → HasMany numbers messages setting.now.window setting.now.own.now }
{
    let now = setting.window.time(setting.window.ticks);
    let ready = readiness(gap, now, setting.book.latest(setting.own.mmsi))?;
    let circle = Circle {
        time: now,
        point: point_now(now, &ready.latest),
        range: 10_000 * u64::from(setting.own.range),
    };
    let near = circle.vessels(alloc, gap, setting.book)?;
    if count_others(&near, setting.own.mmsi) > MOST_TARGETS {
        return Err(PrepareFault::TooManyTargets);
    }
    let herself = Near {
        mmsi: setting.own.mmsi,
        latest: ready.latest,
    };
    let own_past = setting.past(alloc, &herself)?;
    let targets = setting.targets(alloc, &near)?;
    Ok(Surroundings {
        ready,
        near,
        own_past,
        targets,
    })
}

/// A law of a lattice, which does nothing: its sizes are those that a search asks for.
fn is_sized(lattice: &Lattice)
    ensures { IsSized lattice.now }
{
    let _ = lattice.legs();
    let _ = lattice.choices();
    let _ = lattice.positions();
}

/// Her state at now, from which she is planned.
fn start_of(window: &Window, ready: &Ready) -> TickState
    requires window { IsWindow window.now }
    requires ready { IsReady ready.now }
    requires fresh { IsFresh (window_end window.now) ready.now.latest }
    ensures value { result
        ≡ record {
          point = point_now
              (window_end window.now) ready.now.latest;
          direction = Some ready.now.course;
          speed = Some
              ready.now.speed;
        } }
    ensures state { IsTickState (2222400000 + 3600 * 525763) result }
{
    let now = window.time(window.ticks);
    TickState {
        point: point_now(now, &ready.latest),
        direction: Some(ready.course),
        speed: Some(ready.speed),
    }
}

/// Prepares the search for a plan of own ship at now, the last tick of the scenario's window, by the vessels of a book that keeps their
/// tracks. `Unready` comes if she is not ready, and `TooManyTargets` if she is and more than 64 other vessels are near.
pub fn prepare(alloc: Global, scenario: Scenario, book: &Book) -> Result<Prepared, PrepareFault>
    requires in_range { IsInRange scenario }
    requires own { IsSome scenario.own }
    requires keeping { book.now.keeping ≡ Tracks }
    requires gap { book.now.numbers.gap ≡ scenario.log.gap }
    requires stands { StandsForSome book.now }
    ensures prepared { IfOk result
        (λ prepared. (numbers : JudgingNumbers) (messages : List Sent)
        → StandsFor book.now numbers messages
        → IfSome scenario.own (λ own. IsPrepared numbers messages scenario own prepared)) }
    ensures unready { (why : Unready) → result ≡ Err (PrepareFault.Unready why)
        → (numbers : JudgingNumbers) (messages : List Sent) → StandsFor book.now numbers messages
        → IfSome scenario.own (λ own. own_readiness numbers messages scenario own ≡ Err why) }
    ensures many { result ≡ Err PrepareFault.TooManyTargets
        → (numbers : JudgingNumbers) (messages : List Sent) → StandsFor book.now numbers messages
        → IfSome scenario.own (HasManyTargets numbers messages scenario) }
    ensures course { IfOk result (λ prepared. prepared.ready.course < 3600) }
    ensures speed { IfOk result (λ prepared. prepared.ready.speed ≤ 1022) }
{
    let Scenario {
        window,
        log,
        detect,
        act,
        rules,
        subjects,
        own,
        ..
    } = scenario;
    drop(subjects);
    let own = own.unwrap();
    is_sized(&own.lattice);
    let setting = Setting {
        window,
        own: &own,
        book,
    };
    match surroundings_of(alloc, &setting, log.gap) {
        Ok(found) => {
            let OwnPart {
                lattice,
                predict,
                shape,
                ..
            } = own;
            drop(predict);
            let situation = Situation {
                own_past: found.own_past,
                start: start_of(&window, &found.ready),
                targets: Targets::new(found.targets),
                rules,
                detect,
                act,
                lattice,
                tick: window.tick,
                shape,
            };
            Ok(Prepared {
                ready: found.ready,
                near: found.near,
                situation,
            })
        }
        Err(why) => {
            drop(own);
            drop(rules);
            Err(why)
        }
    }
}
