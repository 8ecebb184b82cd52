//! Laws of scenarios, which follow from the definitions alone.
ghost use Rattle.std.specs.Prelude.{◌≡◌, ℕ, List, Bool};
ghost use Rattle.toml.specs.Data.{Members};
ghost use Rattle.scenario.specs.Migration.{IsMigrated, IsMigratedDocument, MeansTheSame};
ghost use Rattle.scenario.specs.ScenarioReading.{HasOneReading, Means};
ghost use Rattle.scenario_values.specs.declared.values.Scenario.{Scenario};

/// Any bytes have exactly one reading, with or without own ship: either they mean one scenario, or they are refused at
/// one key for one cause, the first in the order of the keys.
pub fn one_reading()
    ensures { (need_own : Bool) (bytes : List ℕ) → HasOneReading need_own bytes }
{}

/// If a text is the migration of some bytes, it means the same scenario, with the single safe distance for each kind of
/// encounter; or, if its rules together are too heavy, it is refused for that.
pub fn a_migrated_text_means_the_same()
    ensures { (bytes text : List ℕ) (need_own : Bool) (scenario : Scenario) → IsMigrated bytes text
        → Means need_own bytes scenario → MeansTheSame need_own scenario text }
{}

/// Each document of a scenario of version 1 becomes exactly one document of version 2.
pub fn one_migrated_document()
    ensures some { (document : Members) → (after : Members) × IsMigratedDocument document after }
    ensures one { (document after other : Members) → IsMigratedDocument document after
        → IsMigratedDocument document other → after ≡ other }
{}
