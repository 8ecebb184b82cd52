//! Laws of accepted reports and of the vessels of a book, which follow from the definitions alone.
ghost use Rattle.std.specs.Prelude.{ℕ, ◌≡◌, ◌↔◌, ◌+◌, ◌<◌, ◌++◌, ◌∷◌, [], Bool, Contains, List, true};
ghost use Rattle.std.specs.List.Sorted.{IsStrictlyIncreasing};
ghost use Rattle.ais_messages.specs.declared.message.PositionReport.{PositionReport};
ghost use Rattle.motion.specs.TickStates.{state_at};
ghost use Rattle.tracks.specs.AcceptedReports.{AreAccepted, JudgingNumbers, Reported, accepted_list, same_report};
ghost use Rattle.tracks.specs.VesselsHeld.{Sent, held_of, is_held, legs_of};
ghost use Rattle.tracks.specs.declared.accepted.Accepted.{Accepted};

/// For each list of a vessel's reports there is exactly one accepted list, which the function returns.
pub fn one_accepted_list()
    ensures exists { (numbers : JudgingNumbers) (reports : List Reported)
        → AreAccepted numbers reports (accepted_list numbers reports) }
    ensures at_most_one { (numbers : JudgingNumbers) (reports : List Reported)
        (accepted : List Accepted) → AreAccepted numbers reports accepted
        → accepted ≡ accepted_list numbers reports }
{}

/// The test of two reports returns whether they are equal.
pub fn equal_reports()
    ensures { (a b : PositionReport) → (same_report a b ≡ true) ↔ (a ≡ b) }
{}

/// The book lists its vessels in ascending order, each once.
pub fn vessels_are_listed()
    ensures ascending { (numbers : JudgingNumbers) (sent : List Sent)
        → IsStrictlyIncreasing (held_of numbers sent) }
    ensures all { (numbers : JudgingNumbers) (sent : List Sent) (mmsi : ℕ)
        → Contains (held_of numbers sent) mmsi ↔ (is_held numbers sent mmsi ≡ true) }
{}

/// A message does not change the places of a vessel more than the gap before it.
pub fn the_past_stays()
    ensures { (numbers : JudgingNumbers) (sent : List Sent) (one : Sent) (mmsi t : ℕ)
        → t + numbers.gap < one.time
        → state_at t (legs_of numbers (sent ++ one ∷ []) mmsi)
        ≡ state_at t (legs_of numbers sent mmsi) }
{}
