//! Laws of decided rows and alarms, which follow from the definitions alone.
ghost use Rattle.std.specs.Prelude.{ℕ, ◌≡◌, ◌+◌, ◌-◌, ◌<◌, ◌≤◌, ◌↔◌, ◌++◌, length, List};
ghost use Rattle.audit_rows.specs.Order.{last_step_of};
ghost use Rattle.audit_rows.specs.declared.row.Row.{Row};
ghost use Rattle.traces.specs.Audited.{AuditNumbers, Sighting, sighting_at};
ghost use Rattle.auditor.specs.AuditRows.{AreAuditRows, AreAuditRowsBelow, IsAuditRow};
ghost use Rattle.auditor.specs.SettledRows.{audit_reach, settled_by};
ghost use Rattle.early_monitor.specs.Alarms.{AreAlarms, IsAlarm};
ghost use Rattle.early_monitor.specs.declared.alarm.Alarm.{Alarm};
ghost use Rattle.log_lines.specs.SentLines.{sent};
ghost use Rattle.scenario_values.specs.declared.values.Scenario.{Scenario};
ghost use Rattle.settling.specs.DecidedAlarms.{AreDecidedAlarms};
ghost use Rattle.settling.specs.DecidedRows.{AreDecided};
ghost use Rattle.settled_ticks.specs.Settled.{IsSettled};
ghost use Rattle.settling.specs.ManySettled.{HaveManySettled};
ghost use Rattle.settled_ticks.specs.Sightings.{seen_first, sighted};
ghost use Rattle.settling.specs.ScenarioAudit.{audit_numbers};

/// If too many traces begin at settled ticks, they do so whatever lines follow.
pub fn many_settled_stay()
    ensures { (scenario : Scenario) (lines more : List (List ℕ)) → HaveManySettled scenario lines
        → HaveManySettled scenario (lines ++ more) }
{}

/// Whether an audit has a row depends only on the ticks up to the row's last step plus the greatest reach of a rule
/// plus two.
pub fn rows_look_so_far_ahead()
    ensures { (numbers : AuditNumbers) (ticks others : List Sighting) (row : Row)
        → last_step_of row + audit_reach numbers + 2 < length ticks
        → last_step_of row + audit_reach numbers + 2 < length others
        → ((k : ℕ) → k ≤ last_step_of row + audit_reach numbers + 2
        → sighting_at ticks k ≡ sighting_at others k)
        → IsAuditRow numbers ticks row → IsAuditRow numbers others row }
{}

/// If the first `s` ticks are the settled ones, the rows that an audit of them has decided are those that the lines
/// decide.
pub fn rows_by_settled_ticks()
    ensures { (scenario : Scenario) (lines : List (List ℕ)) (s : ℕ) (rows : List Row)
        → ((i : ℕ) → IsSettled scenario lines i ↔ (i < s))
        → AreAuditRowsBelow (audit_numbers scenario) (seen_first scenario (sent scenario lines) s)
        (settled_by (audit_numbers scenario) (s - 1)) rows
        → AreDecided scenario lines rows }
{}

/// Lines decide at most one list of rows.
pub fn one_list_of_decided_rows()
    ensures { (scenario : Scenario) (lines : List (List ℕ)) (rows others : List Row)
        → AreDecided scenario lines rows → AreDecided scenario lines others
        → rows ≡ others }
{}

/// The decided rows are a prefix of those decided with further lines.
pub fn decided_rows_are_a_front()
    ensures { (scenario : Scenario) (lines more : List (List ℕ)) (rows later : List Row)
        → AreDecided scenario lines rows
        → AreDecided scenario (lines ++ more) later → (rest : List Row) × (later ≡ rows ++ rest) }
{}

/// The decided rows are a prefix of the whole report's rows, whatever lines follow.
pub fn decided_rows_begin_the_report()
    ensures { (scenario : Scenario) (lines more : List (List ℕ)) (rows all : List Row)
        → AreDecided scenario lines rows
        → AreAuditRows (audit_numbers scenario) (sighted scenario (sent scenario (lines ++ more)))
        all → (rest : List Row) × (all ≡ rows ++ rest) }
{}

/// Whether a watch has an alarm depends only on the ticks up to the end of its deciding step.
pub fn alarms_look_so_far_ahead()
    ensures { (numbers : AuditNumbers) (ticks others : List Sighting) (alarm : Alarm)
        → alarm.decided + 1 < length ticks → alarm.decided + 1 < length others
        → ((k : ℕ) → k ≤ alarm.decided + 1 → sighting_at ticks k ≡ sighting_at others k)
        → IsAlarm numbers ticks alarm → IsAlarm numbers others alarm }
{}

/// If the first `s` ticks are the settled ones, their alarms are those that the lines decide.
pub fn alarms_by_settled_ticks()
    ensures { (scenario : Scenario) (lines : List (List ℕ)) (s : ℕ) (alarms : List Alarm)
        → ((i : ℕ) → IsSettled scenario lines i ↔ (i < s))
        → AreAlarms (audit_numbers scenario) (seen_first scenario (sent scenario lines) s) alarms
        → AreDecidedAlarms scenario lines alarms }
{}

/// Lines decide at most one list of alarms.
pub fn one_list_of_decided_alarms()
    ensures { (scenario : Scenario) (lines : List (List ℕ)) (alarms others : List Alarm)
        → AreDecidedAlarms scenario lines alarms
        → AreDecidedAlarms scenario lines others → alarms ≡ others }
{}

/// The decided alarms are a prefix of those decided with further lines.
pub fn decided_alarms_are_a_front()
    ensures { (scenario : Scenario) (lines more : List (List ℕ)) (alarms later : List Alarm)
        → AreDecidedAlarms scenario lines alarms
        → AreDecidedAlarms scenario (lines ++ more) later
        → (rest : List Alarm) × (later ≡ alarms ++ rest) }
{}

/// The decided alarms are a prefix of all alarms, whatever lines follow.
pub fn decided_alarms_begin_the_report()
    ensures { (scenario : Scenario) (lines more : List (List ℕ)) (alarms all : List Alarm)
        → AreDecidedAlarms scenario lines alarms
        → AreAlarms (audit_numbers scenario) (sighted scenario (sent scenario (lines ++ more))) all
        → (rest : List Alarm) × (all ≡ alarms ++ rest) }
{}
