//! The law of answers that a run needs, which follows from the definitions alone. The others are in the crate `laws`.
ghost use Rattle.std.specs.Prelude.{◌≡◌, ℕ, List};
ghost use Rattle.scenario_values.specs.declared.values.Scenario.{Scenario};
ghost use Rattle.sessions.specs.Endings.{Came};
ghost use Rattle.sessions.specs.Tasks.{Task};
ghost use Rattle.sessions.specs.Refusals.{IsMet};

use log_lines::laws::ended_lines_stay;
use settling::laws::many_settled_stay;

/// A log has at most one result.
pub fn one_answer()
    ensures { (task : Task) (scenario : Scenario) (log : List ℕ) (came other : Came) →
        IsMet task scenario log came → IsMet task scenario log other → came ≡ other }
{
    ended_lines_stay();
    many_settled_stay();
}
