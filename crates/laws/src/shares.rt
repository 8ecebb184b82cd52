//! Laws of shares, which follow from the definitions alone.
ghost use Rattle.std.specs.Prelude.{ℕ, ◌≡◌, ◌↔◌, ◌+◌, ◌*◌, ◌<◌, ◌≤◌, ◌++◌, length, List, [], None};
ghost use Rattle.std.specs.List.{Contains};
ghost use Rattle.audit_rows.specs.Order.{first_step_of, last_step_of};
ghost use Rattle.audit_rows.specs.declared.row.Row.{Row};
ghost use Rattle.auditor.specs.AuditRows.{IsAuditRow};
ghost use Rattle.auditor.specs.SettledRows.{audit_reach};
ghost use Rattle.log_lines.specs.LineTimes.{stamps_of};
ghost use Rattle.log_lines.specs.SentLines.{heard_of};
ghost use Rattle.scenario_values.specs.declared.values.Scenario.{Scenario};
ghost use Rattle.sessions.specs.AuditReport.{IsAuditReport, sightings_of};
ghost use Rattle.audit_report.specs.StretchRows.{stretch_rows};
ghost use Rattle.settling.specs.ScenarioAudit.{audit_numbers};
ghost use Rattle.traces.specs.Audited.{AuditNumbers, Sighting};
ghost use Rattle.laws.specs.Reported.{AreReported, IsReported, pair_of};
ghost use Rattle.laws.specs.Subjects.{AreJoined, AreShares, CoverAllSeen, Share, for_subjects, of_all};
ghost use Rattle.laws.specs.Vessels.{HasSentAlike, IsSeenAs};
ghost use Rattle.laws.specs.Windows.{BeginsAnew, ComeIntoContactBehind, HaveMetBy, IsJudgedAlike, IsMeeting, IsRankedAlike, IsSeenAlike, IsTypedAlike, LooksBackTo, moved, over, with_window};

/// A row whose subject is in a group belongs to the audit with this group as subjects exactly if it belongs to the
/// audit of all pairs.
pub fn rows_of_a_subject()
    ensures { (numbers : AuditNumbers) (ticks : List Sighting) (group : List ℕ) (row : Row)
        → Contains group (pair_of row).subject
        → IsAuditRow (for_subjects group numbers) ticks row
        ↔ IsAuditRow (for_subjects [] numbers) ticks row }
{}

/// If the groups of shares cover all vessels seen, the rows of each group's own subjects, merged in order, are the rows
/// of all pairs. There is such a list for all shares, and the report of all pairs begins with its text.
pub fn shares_by_subjects()
    ensures whole { (scenario : Scenario) (log : List ℕ) (shares : List Share) (rows : List Row)
        → AreShares scenario log shares → CoverAllSeen scenario log shares
        → AreJoined shares rows ↔ AreReported (of_all scenario) log rows }
    ensures some { (scenario : Scenario) (log : List ℕ) (shares : List Share)
        → AreShares scenario log shares → (rows : List Row) × AreJoined shares rows }
    ensures text { (scenario : Scenario) (log text : List ℕ) (shares : List Share) (rows : List Row)
        → AreShares scenario log shares
        → CoverAllSeen scenario log shares → AreJoined shares rows
        → IsAuditReport (of_all scenario) log text
        → (behind : List ℕ) × (text ≡ stretch_rows scenario.rules rows ++ behind) }
{}

/// If two windows see the two vessels of a pair alike, a meeting of theirs that ends early enough in both, and begins
/// after both windows have begun, belongs to the earlier window exactly if it belongs to the later one, and no meeting
/// is under way in the earlier one when it begins.
pub fn meetings_of_two_windows()
    ensures { (numbers : AuditNumbers) (behind : ℕ) (earlier later : List Sighting) (row : Row)
        → IsSeenAlike behind earlier later (pair_of row).subject
        → IsSeenAlike behind earlier later (pair_of row).other → IsMeeting row
        → last_step_of row + 2 < length later → behind + last_step_of row + 2 < length earlier
        → IsAuditRow (over earlier numbers) earlier (moved behind row)
        ↔ (IsAuditRow (over later numbers) later row
        × BeginsAnew numbers earlier (pair_of row) (behind + first_step_of row)) }
{}

/// If two windows see the two vessels of a pair alike and rank them alike, and the two first come into contact after
/// both windows have begun, the rows that the windows decide are the same in both.
pub fn rows_of_two_windows()
    ensures { (numbers : AuditNumbers) (behind : ℕ) (earlier later : List Sighting) (row : Row)
        → IsSeenAlike behind earlier later (pair_of row).subject
        → IsSeenAlike behind earlier later (pair_of row).other
        → IsRankedAlike behind earlier later (pair_of row).subject
        → IsRankedAlike behind earlier later (pair_of row).other
        → ComeIntoContactBehind behind numbers earlier (pair_of row)
        → last_step_of row + audit_reach numbers + 2 < length later
        → behind + last_step_of row + audit_reach numbers + 2 < length earlier
        → IsAuditRow (over earlier numbers) earlier (moved behind row)
        ↔ IsAuditRow (over later numbers) later row }
{}

/// If two windows see the two vessels of a pair alike and rank them alike, a verdict that both windows decide is the
/// same in both, provided that its rule looks back no further than to a step by which the two had met in the later
/// window, and before which none of their meetings was under way.
pub fn verdicts_of_two_windows()
    ensures { (numbers : AuditNumbers) (behind : ℕ) (earlier later : List Sighting) (step : ℕ)
        (row : Row) → IsSeenAlike behind earlier later (pair_of row).subject
        → IsSeenAlike behind earlier later (pair_of row).other
        → IsRankedAlike behind earlier later (pair_of row).subject
        → IsRankedAlike behind earlier later (pair_of row).other
        → HaveMetBy numbers later (pair_of row) step
        → BeginsAnew numbers earlier (pair_of row) (behind + step) → LooksBackTo numbers step row
        → last_step_of row + audit_reach numbers + 2 < length later
        → behind + last_step_of row + audit_reach numbers + 2 < length earlier
        → IsAuditRow (over earlier numbers) earlier (moved behind row)
        ↔ IsAuditRow (over later numbers) later row }
{}

/// If two windows judge a vessel's reports alike, they see her alike.
pub fn windows_see_alike()
    ensures { (scenario : Scenario) (log : List ℕ) (start ticks behind more mmsi : ℕ)
        → scenario.own ≡ None
        → IsJudgedAlike (with_window start ticks scenario)
        (with_window (start + behind * scenario.window.tick) more scenario) log mmsi
        → IsSeenAlike behind (sightings_of (with_window start ticks scenario) log)
        (sightings_of (with_window (start + behind * scenario.window.tick) more scenario) log)
        mmsi }
{}

/// Two windows that judge the reports of a pair's vessels alike. A meeting that ends two ticks before the end of either
/// and begins after both have begun is in the report of the earlier one exactly if it is in that of the later one, and
/// no meeting is under way in the earlier one when it begins. If a pair first comes into contact after both have begun,
/// each row that both windows decide is in the report of the one exactly if it is in that of the other.
pub fn shares_by_time()
    ensures meetings { (scenario : Scenario) (log : List ℕ) (start ticks behind more : ℕ)
        (row : Row) → scenario.own ≡ None
        → IsJudgedAlike (with_window start ticks scenario)
        (with_window (start + behind * scenario.window.tick) more scenario) log
        (pair_of row).subject
        → IsJudgedAlike (with_window start ticks scenario)
        (with_window (start + behind * scenario.window.tick) more scenario) log (pair_of row).other
        → IsMeeting row → last_step_of row + 2 ≤ more → behind + last_step_of row + 2 ≤ ticks
        → IsReported (with_window start ticks scenario) log (moved behind row)
        ↔ (IsReported (with_window (start + behind * scenario.window.tick) more scenario) log row
        × BeginsAnew (audit_numbers scenario) (sightings_of (with_window start ticks scenario) log)
        (pair_of row) (behind + first_step_of row)) }
    ensures rows { (scenario : Scenario) (log : List ℕ) (start ticks behind more : ℕ) (row : Row)
        → scenario.own ≡ None
        → IsJudgedAlike (with_window start ticks scenario)
        (with_window (start + behind * scenario.window.tick) more scenario) log
        (pair_of row).subject
        → IsJudgedAlike (with_window start ticks scenario)
        (with_window (start + behind * scenario.window.tick) more scenario) log (pair_of row).other
        → IsTypedAlike (with_window start ticks scenario)
        (with_window (start + behind * scenario.window.tick) more scenario) log
        (pair_of row).subject
        → IsTypedAlike (with_window start ticks scenario)
        (with_window (start + behind * scenario.window.tick) more scenario) log (pair_of row).other
        → ComeIntoContactBehind behind (audit_numbers scenario)
        (sightings_of (with_window start ticks scenario) log) (pair_of row)
        → last_step_of row + audit_reach (audit_numbers scenario) + 2 ≤ more
        → behind + last_step_of row + audit_reach (audit_numbers scenario) + 2 ≤ ticks
        → IsReported (with_window start ticks scenario) log (moved behind row)
        ↔ IsReported (with_window (start + behind * scenario.window.tick) more scenario) log row }
{}

/// Whether an audit has a row of a pair depends only on the states and ranks of its two vessels.
pub fn rows_of_two_vessels()
    ensures { (numbers : AuditNumbers) (ticks others : List Sighting) (row : Row)
        → length ticks ≡ length others → IsSeenAs ticks others (pair_of row).subject
        → IsSeenAs ticks others (pair_of row).other
        → IsAuditRow numbers ticks row ↔ IsAuditRow numbers others row }
{}

/// If the two vessels of a pair have sent the same in two logs, a row of theirs is in the report of the one exactly if
/// it is in that of the other.
pub fn shares_by_vessels()
    ensures { (scenario : Scenario) (log other : List ℕ) (row : Row)
        → HasSentAlike scenario log other (pair_of row).subject
        → HasSentAlike scenario log other (pair_of row).other
        → IsReported scenario log row ↔ IsReported scenario other row }
{}

/// Whether a line's sentence is in time, and its time, depend only on the stamps up to the line.
pub fn stamps_keep_the_clock()
    ensures { (scenario : Scenario) (before others : List (List ℕ)) (line : List ℕ)
        → stamps_of before ≡ stamps_of others
        → heard_of scenario before line ≡ heard_of scenario others line }
{}
