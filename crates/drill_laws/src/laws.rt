//! A law about the log of a drill, which follows from the definitions alone.
ghost use Rattle.std.specs.Prelude.{ℕ};
ghost use Rattle.scenario_values.specs.ValueRanges.{IsWindow};
ghost use Rattle.scenario_values.specs.declared.values.Scenario.{Scenario};
ghost use Rattle.drill_log.specs.DrillLog.{drill_log_of};
ghost use Rattle.drill_laws.specs.Limits.{MeetsNoLimit};

use log_lines::laws::ended_lines_stay;

/// No prefix of a drill's log has more vessels than a book can store, or begins more traces than an audit can follow.
pub fn a_drill_meets_no_limit()
    ensures { (scenario : Scenario) (seed : ℕ) → IsWindow scenario.window
        → MeetsNoLimit scenario (drill_log_of scenario seed) }
{
    ended_lines_stay();
}
