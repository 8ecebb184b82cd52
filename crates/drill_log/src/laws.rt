//! Laws about the log of a drill, which follow from the definitions alone.
ghost use Rattle.std.specs.Prelude.{◌≡◌, ◌≤◌, ℕ, All, Some};
ghost use Rattle.aivdm.specs.SentenceWriting.{line_of, IsWritten};
ghost use Rattle.ais_messages.specs.MessageFields.{decoded_of};
ghost use Rattle.ais_messages.specs.PositionWriting.{encoded_of};
ghost use Rattle.ais_messages.specs.declared.message.Decoded.TheVariants as decoded;
ghost use Rattle.ais_messages.specs.declared.message.Message.TheVariants.{Position};
ghost use Rattle.scenario_values.specs.ValueRanges.{IsWindow};
ghost use Rattle.scenario_values.specs.declared.values.Scenario.{Scenario};
ghost use Rattle.scenario_values.specs.declared.values.Window.{Window};
ghost use Rattle.drill_log.specs.DrillFacts.{IsDrillReport};
ghost use Rattle.drill_log.specs.DrillLog.{drill_reports, TimedReport};

/// Each report of a drill comes from one of forty ships, has its fields in range, and has a time in the window.
pub fn reports_are_of_forty_ships()
    ensures { (scenario : Scenario) (seed : ℕ)
        → All (IsDrillReport scenario.window) (drill_reports scenario seed) }
{}

/// Reading the line of such a report gives a whole message with the same report.
pub fn lines_are_read_again()
    ensures { (window : Window) (timed : TimedReport) → IsWindow window → IsDrillReport window timed
        → IsWritten (Some timed.time) (encoded_of timed.report) 65
        (line_of (Some timed.time) (encoded_of timed.report) 65)
        × (decoded_of (encoded_of timed.report) ≡ decoded.Message (Position timed.report)) }
{}

/// The line of such a report has only visible characters, so the line feed after it is the first line end.
pub fn lines_hold_no_line_end()
    ensures { (window : Window) (timed : TimedReport) → IsWindow window → IsDrillReport window timed
        → All (λ byte. 33 ≤ byte) (line_of (Some timed.time) (encoded_of timed.report) 65) }
{}
