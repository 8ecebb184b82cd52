//! The audit of a window's ticks when the lines of a log settle them.
ghost use Rattle.std.specs.Prelude.{◌≡◌, ◌++◌, [], ℕ, List, IfOk, OnOk, Err};
ghost use Rattle.audit_rows.specs.declared.row.Row.{Row};
ghost use Rattle.auditor.specs.AuditRows.{AreAuditRows};
ghost use Rattle.auditor.specs.AuditTotals.{AreTotals};
ghost use Rattle.traces.specs.ManyTraces.{HaveMoreThan};
ghost use Rattle.traces.specs.declared.fault.TickFault.TheVariants.{TooManyPairs};
ghost use Rattle.log_lines.specs.SentLines.{sent};
ghost use Rattle.log_lines.specs.Standing.{keeping_of};
ghost use Rattle.scenario_values.specs.ValueRanges.{IsInRange};
ghost use Rattle.settling.specs.DecidedRows.{AreDecided};
ghost use Rattle.settling.specs.Further.{Then};
ghost use Rattle.settling.specs.ManySettled.{HaveManySettled};
ghost use Rattle.traces.specs.declared.all_traces.TheConstants.{MOST_TRACES};
ghost use Rattle.settled_ticks.specs.Standing.{RemembersTicks, latest_time};
ghost use Rattle.settled_ticks.specs.Sightings.{sighted};
ghost use Rattle.settling.specs.ScenarioAudit.{audit_numbers};
ghost use Rattle.settling.specs.Standing.{AreOfOneLog, StandsFor, audited_ticks};

use crate::settled::{Settled, TickTaker};
use auditor::{Audit, AuditEnd, AuditFault, Row};
use log_lines::Judge;
use motion::TickState;
use out_of_memory::Memory;
use ranks::Rank;
use scenario_values::Scenario;
use std::alloc::Global;

impl TickTaker for Audit {
    ghost use Rattle.settling.specs.Inner.AuditedTicks.{audit_taker};

    type Item = Row;

    ghost taker = { audit_taker };

    fn take_tick(
        &mut self,
        seen: &[(u32, TickState)],
        ranks: &[Rank],
    ) -> Result<Vec<Row>, AuditFault> {
        self.step_ranked(seen, ranks)
    }
}

/// The audit of a window's ticks. It takes each tick once the lines of a log settle it.
#[derive(Drop)]
pub struct SettledAudit {
    settled: Settled<Audit>,
}

impl SettledAudit {
    /// Returns the audit of a scenario's window, before the first line.
    pub fn new(alloc: Global, scenario: &Scenario) -> Result<SettledAudit, Memory>
        requires { IsInRange scenario.now }
        ensures { IfOk result (λ audit. StandsFor audit scenario.now [] []) }
    {
        let audit = Audit::new(
            alloc,
            &scenario.rules,
            scenario.detect,
            scenario.act,
            scenario.subjects.as_slice(),
            scenario.window,
        )?;
        Ok(SettledAudit {
            settled: Settled::new(alloc, audit),
        })
    }

    /// Returns the number of ticks taken so far.
    pub fn count(&self) -> u32
        ensures { result ≡ audited_ticks self.now }
    {
        self.settled.count()
    }

    /// Returns the time of the last tick taken, or of the first tick before any. Earlier places of vessels are not
    /// needed again and may be forgotten.
    pub fn latest_time(&self, scenario: &Scenario) -> u64
        requires { IsInRange scenario.now }
        ensures { result ≡ latest_time scenario.now (audited_ticks self.now) }
    {
        self.settled.latest_time(scenario)
    }

    /// Audits each further tick that the judge's lines settle, and returns the next rows that they decide. If no
    /// further tick is settled, this takes no memory. After an `Err` the caller may only drop the audit.
    pub fn settle(&mut self, scenario: &Scenario, judge: &Judge) -> Result<Vec<Row>, AuditFault>
        requires in_range { IsInRange scenario.now }
        requires remembers { RemembersTicks (keeping_of judge.now) scenario.now
            (audited_ticks self.old) }
        requires one_log { AreOfOneLog self.old scenario.now judge.now }
        ensures stands { IfOk result
            (λ rows. Then (StandsFor self.old scenario.now) scenario.now judge.now
            (λ lines given. StandsFor self.new scenario.now lines (given ++ rows.items))) }
        ensures remembers { OnOk result
            (RemembersTicks (keeping_of judge.now) scenario.now (audited_ticks self.new)) }
        ensures decided { IfOk result
            (λ rows. Then (StandsFor self.old scenario.now) scenario.now judge.now
            (λ lines given. AreDecided scenario.now lines (given ++ rows.items))) }
        // The limit is exceeded exactly if a 4097th trace begins at a settled tick; memory may run out before.
        ensures many { result ≡ Err TooManyPairs
            → Then (StandsFor self.old scenario.now) scenario.now judge.now
            (λ lines given. HaveManySettled scenario.now lines) }
        ensures few { OnOk result (Then (StandsFor self.old scenario.now) scenario.now judge.now
            (λ lines given. HaveManySettled scenario.now lines → ⊥)) }
    {
        self.settled.settle(scenario, judge)
    }

    /// Audits the remaining ticks, from the lines of the whole log, and ends the audit. Returns the remaining rows, and
    /// one total per rule.
    pub fn end(self, scenario: &Scenario, judge: &Judge) -> Result<AuditEnd, AuditFault>
        requires in_range { IsInRange scenario.now }
        requires remembers { RemembersTicks (keeping_of judge.now) scenario.now
            (audited_ticks self) }
        requires one_log { AreOfOneLog self scenario.now judge.now }
        ensures rows { IfOk result (λ end. Then (StandsFor self scenario.now) scenario.now judge.now
            (λ lines given. AreAuditRows (audit_numbers scenario.now)
            (sighted scenario.now (sent scenario.now lines))
            (given ++ end.rows.items))) }
        ensures totals { IfOk result
            (λ end. Then (StandsFor self scenario.now) scenario.now judge.now
            (λ lines given. AreTotals (audit_numbers scenario.now)
            (sighted scenario.now (sent scenario.now lines))
            (given ++ end.rows.items) end.totals.items)) }
        // The limit is exceeded exactly if a 4097th trace begins; memory may run out before.
        ensures many { result ≡ Err TooManyPairs
            → Then (StandsFor self scenario.now) scenario.now judge.now
            (λ lines given. HaveMoreThan MOST_TRACES (audit_numbers scenario.now)
            (sighted scenario.now (sent scenario.now lines))) }
        ensures few { OnOk result (Then (StandsFor self scenario.now) scenario.now judge.now
            (λ lines given. HaveMoreThan MOST_TRACES (audit_numbers scenario.now)
            (sighted scenario.now (sent scenario.now lines)) → ⊥)) }
    {
        let SettledAudit { mut settled } = self;
        let mut rows = settled.finish(scenario, judge)?;
        let totals = settled.taker.end_into(&mut rows)?;
        Ok(AuditEnd { rows, totals })
    }
}
