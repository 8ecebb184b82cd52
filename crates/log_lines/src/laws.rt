//! Laws of a log's lines, which follow from the definitions alone.
ghost use Rattle.std.specs.Prelude.{◌≡◌, ◌++◌, ◌∷◌, [], ℕ, List, false, length, sum_by};
ghost use Rattle.std.specs.List.{All};
ghost use Rattle.log_lines.specs.GrowingLog.{ended_lines, open_lines, open_part};
ghost use Rattle.log_lines.specs.JudgedLines.{count_of, judged_lines};
ghost use Rattle.log_lines.specs.LineOutcomes.{all_outcomes};
ghost use Rattle.log_lines.specs.LogLines.{is_line_feed, lines_of, without_carriage_return};
ghost use Rattle.scenario_values.specs.declared.values.Scenario.{Scenario};

/// Each line of a log has exactly one outcome: the counts of the outcomes sum to the number of lines.
pub fn each_line_has_one_outcome()
    ensures { (scenario : Scenario) (log : List ℕ)
        → sum_by (λ outcome. count_of outcome (judged_lines scenario (lines_of log))) all_outcomes
        ≡ length (lines_of log) }
{}

/// The lines of a log are the ended ones, and then the open part if it has a byte.
pub fn lines_are_ended_or_open()
    ensures { (log : List ℕ) → lines_of log ≡ ended_lines log ++ open_lines (open_part log) }
{}

/// Bytes without a line feed continue the open part.
pub fn a_part_goes_on()
    ensures ended { (log part : List ℕ) → All (λ byte. is_line_feed byte ≡ false) part
        → ended_lines (log ++ part) ≡ ended_lines log }
    ensures open { (log part : List ℕ) → All (λ byte. is_line_feed byte ≡ false) part
        → open_part (log ++ part) ≡ open_part log ++ part }
{}

/// A line feed ends the open part, and a new one begins.
pub fn a_line_feed_ends()
    ensures ended { (log : List ℕ)
        → ended_lines (log ++ 10 ∷ [])
        ≡ ended_lines log ++ without_carriage_return (open_part log) ∷ [] }
    ensures open { (log : List ℕ) → open_part (log ++ 10 ∷ []) ≡ [] }
{}

/// Ended lines stay, whatever follows.
pub fn ended_lines_stay()
    ensures ended { (log more : List ℕ)
        → (lines : List (List ℕ)) × (ended_lines (log ++ more) ≡ ended_lines log ++ lines) }
    ensures all { (log more : List ℕ)
        → (lines : List (List ℕ)) × (lines_of (log ++ more) ≡ ended_lines log ++ lines) }
{}
