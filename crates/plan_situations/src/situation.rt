//! The situation in which a plan is searched for.
use crate::domain::Domain;
use crate::lists::{Ahead, Past, Targets};
use encounters::{Act, Detect};
use hull_domains::Shape;
use lattice::Lattice;
use motion::TickState;
use rule_set::RuleSet;

/// A vessel whose domain own ship is to stay out of, and towards which she is to keep the rules.
#[derive(Drop)]
pub struct Target {
    /// Her MMSI.
    pub mmsi: u32,
    /// How she was seen at the ticks up to now; the first is tick 0.
    pub past: Past,
    /// How she is predicted at the ticks from now on, up to the last planned one.
    pub ahead: Ahead,
    /// The water round her that own ship is to stay out of, if the situation's shape does not stand for it.
    pub domain: Domain,
}

/// What is known at now, and the plans among which one is searched for.
#[derive(Drop)]
pub struct Situation {
    /// How own ship was seen at the ticks up to now, 2 to 20,001 of them. The last one is now, where `start` is her state.
    pub own_past: Past,
    /// Own ship at now: her point, her course as direction, and her speed.
    pub start: TickState,
    /// At most 64, in ascending order of their MMSIs.
    pub targets: Targets,
    /// The rules that she is not to break.
    pub rules: RuleSet,
    /// When two vessels are in risk of collision, and when they are past and clear.
    pub detect: Detect,
    /// What counts as keeping course and speed, and what as a readily apparent alteration.
    pub act: Act,
    /// Her plans.
    pub lattice: Lattice,
    /// The length of a tick, at most 60 s.
    pub tick: u32,
    /// The domain of each target in a step at whose first tick she has a direction, with which it turns. `None` if domains are circles.
    pub shape: Option<Shape>,
}
