//! The report of a log without one of its lines.
ghost use Rattle.std.specs.Prelude.{◌++◌, ℕ, List};
ghost use Rattle.aivdm.specs.declared.sentence.LineCause.{LineCause};
ghost use Rattle.laws.specs.InertLines.{IsInert, IsOneLine, IsWithoutLine};
ghost use Rattle.log_lines.specs.GrowingLog.{ended_lines};
ghost use Rattle.log_lines.specs.LineOutcomes.{line_outcome};
ghost use Rattle.log_lines.specs.LogLines.{without_carriage_return};
ghost use Rattle.scenario_values.specs.declared.values.Scenario.{Scenario};
ghost use Rattle.sessions.specs.Endings.{IsEnding};
ghost use Rattle.sessions.specs.Tasks.{Task};

/// A line without a stamp that is dropped for its form changes only a count: for every task, the log without it, and
/// without the carriage return and the line feed that end it, has the same report, except that the count of the line's
/// outcome, if it is reported, is smaller by one.
pub fn inert_lines()
    ensures { (task : Task) (scenario : Scenario) (before part ending after text : List ℕ)
        (cause : LineCause) → IsOneLine before part ending after
        → IsInert scenario (ended_lines before) (without_carriage_return part) cause
        → IsEnding task scenario (before ++ part ++ ending ++ after) text
        → (other : List ℕ) × IsEnding task scenario (before ++ after) other
        × IsWithoutLine task.mode (line_outcome cause) text other }
{}
