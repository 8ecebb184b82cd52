//! Laws of engagements, which follow from the definitions alone.
ghost use Rattle.std.specs.Prelude.{ℕ, ◌≡◌, ◌+◌, List, Option};
ghost use Rattle.encounters.specs.Engagement.{IsEngagedFrom, IsState, later_by};
ghost use Rattle.encounters.specs.declared.detect.Detect.{Detect};
ghost use Rattle.encounters.specs.declared.pair_step.PairStep.{PairStep};
ghost use Rattle.encounters.specs.declared.engagement_state.EngagementState.{EngagementState};

/// At each step there is at most one state.
pub fn at_most_one_state()
    ensures { (detect : Detect) (steps : List (Option PairStep)) (i : ℕ)
        (state other : EngagementState) → IsState detect steps i state
        → IsState detect steps i other → state ≡ other }
{}

/// The kind of an engagement does not change while it lasts, nor do the states at its beginning: only its age grows.
pub fn the_kind_stays()
    ensures { (detect : Detect) (steps : List (Option PairStep)) (i n : ℕ)
        (state later : EngagementState) → IsEngagedFrom detect steps i (i + n)
        → IsState detect steps i state → IsState detect steps (i + n) later
        → later ≡ later_by n state }
{}
