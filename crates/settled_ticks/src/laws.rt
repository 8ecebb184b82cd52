//! Laws of settled ticks, which follow from the definitions alone.
ghost use Rattle.std.specs.Prelude.{ℕ, ◌≡◌, ◌≤◌, ◌++◌, List};
ghost use Rattle.log_lines.specs.SentLines.{sent};
ghost use Rattle.scenario_values.specs.declared.values.Scenario.{Scenario};
ghost use Rattle.settled_ticks.specs.Settled.{IsSettled};
ghost use Rattle.settled_ticks.specs.Sightings.{sighting_by};

/// A settled tick stays settled, whatever lines follow.
pub fn settled_ticks_stay()
    ensures { (scenario : Scenario) (lines more : List (List ℕ)) (i : ℕ)
        → IsSettled scenario lines i → IsSettled scenario (lines ++ more) i }
{}

/// The settled ticks are the first ones: if a tick is settled, so is each earlier one.
pub fn settled_ticks_are_first()
    ensures { (scenario : Scenario) (lines : List (List ℕ)) (i j : ℕ) → IsSettled scenario lines i
        → j ≤ i → IsSettled scenario lines j }
{}

/// The vessels that are seen at a settled tick, their states there and their ranks are the same whatever lines follow.
pub fn what_is_settled_stays()
    ensures { (scenario : Scenario) (lines more : List (List ℕ)) (i : ℕ)
        → IsSettled scenario lines i
        → sighting_by scenario (sent scenario (lines ++ more)) i
        ≡ sighting_by scenario (sent scenario lines) i }
{}
