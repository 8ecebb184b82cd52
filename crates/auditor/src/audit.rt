//! The audit of a window, tick by tick.
ghost use Rattle.std.specs.Prelude.{◌≡◌, ◌+◌, ◌≤◌, ◌++◌, ◌∷◌, [], List, length, IfOk, OnOk, Err};
ghost use Rattle.encounters.specs.Risk.{IsDetect};
ghost use Rattle.audit_rows.specs.declared.row.Row.{Row};
ghost use Rattle.traces.specs.Audited.{AreAscending, ArePlaced, MoveLittle, AuditNumbers, Sighting, unranked};
ghost use Rattle.traces.specs.ManyTraces.{HaveMoreThan};
ghost use Rattle.traces.specs.declared.all_traces.TheConstants.{MOST_TRACES};
ghost use Rattle.traces.specs.declared.fault.TickFault.TheVariants.{TooManyPairs};
ghost use Rattle.auditor.specs.AuditRows.{AreAuditRows, AreAuditRowsBelow};
ghost use Rattle.auditor.specs.AuditTotals.{AreTotals};
ghost use Rattle.auditor.specs.Standing.{HasEnded, IsSound, StandsFor, given_of, last_tick_of, latest_vessels};
ghost use Rattle.auditor.specs.SettledRows.{settled_by};

use crate::audit_keeper::AuditKeeper;
use crate::counting::totals_of;
use crate::total::Total;
use audit_rows::{Row, RowQueue};
use encounters::{Act, Detect};
use motion::TickState;
use out_of_memory::Memory;
use ranks::Rank;
use rule_program::program_of;
use rule_set::RuleSet;
use scenario_values::Window;
use std::alloc::Global;
use traces::{AllTraces, TickFault, TraceWindow};

/// The audit of a window. Its model is the list of vessels seen at each tick so far, and the rows that it has returned.
#[derive(Drop)]
pub struct Audit {
    alloc: Global,
    window: TraceWindow<AuditKeeper>,
}

/// The results at the end of the window: the remaining rows, and the total of each rule.
#[derive(Drop)]
pub struct AuditEnd {
    pub rows: Vec<Row>,
    pub totals: Vec<Total>,
}

impl Audit {
    /// Returns the audit of a window by these rules and numbers. It audits the pairs in which one vessel is a subject, or all pairs
    /// if there are no subjects.
    pub fn new(
        alloc: Global,
        rules: &RuleSet,
        detect: Detect,
        act: Act,
        subjects: &[u32],
        window: Window,
    ) -> Result<Audit, Memory>
        requires detect { IsDetect detect }
        requires ticks { window.ticks ≤ 20000 }
        ensures sound { IfOk result (λ audit. IsSound audit) }
        ensures stands { IfOk result (λ audit. StandsFor audit (record {
          detect = detect;
          act = act;
          tick = window.tick;
          last_tick = window.ticks;
          subjects = subjects.now;
          rules = rules.now;
        }) [] []) }
    {
        let keeper = AuditKeeper {
            alloc,
            program: program_of(alloc, rules)?,
            queue: RowQueue::new(alloc),
        };
        let traces = AllTraces::new(alloc, detect, act, subjects, window.tick, window.ticks)?;
        Ok(Audit {
            alloc,
            window: TraceWindow::new(alloc, traces, keeper),
        })
    }

    /// Takes the vessels seen at the next tick, in the order of their MMSIs, if ranks do not count. Returns the next
    /// rows of the report. After call `k`, counted from 0, all rows whose last step is at most `k - R - 2` have been
    /// returned; `R` is the greatest reach of a rule's formula. After an `Err` the caller may only drop the audit.
    pub fn step(&mut self, seen: &[(u32, TickState)]) -> Result<Vec<Row>, TickFault>
        requires sound { IsSound self.old }
        requires ascending { AreAscending seen.now }
        requires placed { ArePlaced seen.now }
        requires moves { MoveLittle (latest_vessels self.old) seen.now }
        requires more { given_of self.old ≤ last_tick_of self.old }
        ensures sound { OnOk result (IsSound self.new) }
        ensures given { OnOk result (given_of self.new ≡ given_of self.old + 1) }
        ensures last_tick { OnOk result (last_tick_of self.new ≡ last_tick_of self.old) }
        ensures latest { OnOk result (latest_vessels self.new ≡ seen.now) }
        ensures stands { IfOk result
            (λ rows. (numbers : AuditNumbers) (ticks : List Sighting) (given : List Row)
            → StandsFor self.old numbers ticks given
            → StandsFor self.new numbers (ticks ++ unranked seen.now ∷ []) (given ++ rows.items)) }
        ensures rows { IfOk result
            (λ rows. (numbers : AuditNumbers) (ticks : List Sighting) (given : List Row)
            → StandsFor self.old numbers ticks given
            → AreAuditRowsBelow numbers (ticks ++ unranked seen.now ∷ [])
            (settled_by numbers (length ticks)) (given ++ rows.items)) }
        // The limit is exceeded exactly if the tick begins a 4097th trace; memory may run out before.
        ensures many { result ≡ Err TooManyPairs
            → (numbers : AuditNumbers) (ticks : List Sighting) (given : List Row)
            → StandsFor self.old numbers ticks given
            → HaveMoreThan MOST_TRACES numbers (ticks ++ unranked seen.now ∷ []) }
        ensures few { OnOk result
            ((numbers : AuditNumbers) (ticks : List Sighting) (given : List Row)
            → StandsFor self.old numbers ticks given
            → HaveMoreThan MOST_TRACES numbers (ticks ++ unranked seen.now ∷ []) → ⊥) }
    {
        self.step_ranked(seen, &[])
    }

    /// Does the same if ranks count; `ranks` has the ranks of the vessels in the same order. A vessel without a rank is
    /// power-driven.
    pub fn step_ranked(
        &mut self,
        seen: &[(u32, TickState)],
        ranks: &[Rank],
    ) -> Result<Vec<Row>, TickFault>
        requires sound { IsSound self.old }
        requires ascending { AreAscending seen.now }
        requires placed { ArePlaced seen.now }
        requires moves { MoveLittle (latest_vessels self.old) seen.now }
        requires more { given_of self.old ≤ last_tick_of self.old }
        ensures sound { OnOk result (IsSound self.new) }
        ensures given { OnOk result (given_of self.new ≡ given_of self.old + 1) }
        ensures last_tick { OnOk result (last_tick_of self.new ≡ last_tick_of self.old) }
        ensures latest { OnOk result (latest_vessels self.new ≡ seen.now) }
        ensures stands { IfOk result
            (λ rows. (numbers : AuditNumbers) (ticks : List Sighting) (given : List Row)
            → StandsFor self.old numbers ticks given
            → StandsFor self.new numbers
            (ticks ++ record { vessels = seen.now; ranks = ranks.now } ∷ [])
            (given ++ rows.items)) }
        ensures rows { IfOk result
            (λ rows. (numbers : AuditNumbers) (ticks : List Sighting) (given : List Row)
            → StandsFor self.old numbers ticks given
            → AreAuditRowsBelow numbers
            (ticks ++ record { vessels = seen.now; ranks = ranks.now } ∷ [])
            (settled_by numbers (length ticks)) (given ++ rows.items)) }
        // The limit is exceeded exactly if the tick begins a 4097th trace; memory may run out before.
        ensures many { result ≡ Err TooManyPairs
            → (numbers : AuditNumbers) (ticks : List Sighting) (given : List Row)
            → StandsFor self.old numbers ticks given
            → HaveMoreThan MOST_TRACES numbers
            (ticks ++ record { vessels = seen.now; ranks = ranks.now } ∷ []) }
        ensures few { OnOk result
            ((numbers : AuditNumbers) (ticks : List Sighting) (given : List Row)
            → StandsFor self.old numbers ticks given
            → HaveMoreThan MOST_TRACES numbers
            (ticks ++ record { vessels = seen.now; ranks = ranks.now } ∷ []) → ⊥) }
    {
        let given = self.window.given();
        self.window.tick(seen, ranks)?;
        let keeper = &mut self.window.keeper;
        let bound = given
            .saturating_sub(keeper.program.reach())
            .saturating_sub(1);
        Ok(keeper.queue.rows_below(bound)?)
    }

    /// Ends the audit after the last tick of the window. Returns the remaining rows, and one total per rule.
    pub fn end(self) -> Result<AuditEnd, Memory>
        requires sound { IsSound self }
        requires all { given_of self ≡ last_tick_of self + 1 }
        ensures rows { IfOk result
            (λ end. (numbers : AuditNumbers) (ticks : List Sighting) (given : List Row)
            → StandsFor self numbers ticks given
            → AreAuditRows numbers ticks (given ++ end.rows.items)) }
        ensures totals { IfOk result
            (λ end. (numbers : AuditNumbers) (ticks : List Sighting) (given : List Row)
            → StandsFor self numbers ticks given
            → AreTotals numbers ticks (given ++ end.rows.items) end.totals.items) }
    {
        let mut rows = Vec::new(self.alloc);
        let totals = self.end_into(&mut rows)?;
        Ok(AuditEnd { rows, totals })
    }

    /// Does the same, but appends the rows to a list, which avoids a second one.
    pub fn end_into(self, rows: &mut Vec<Row>) -> Result<Vec<Total>, Memory>
        requires sound { IsSound self }
        requires all { given_of self ≡ last_tick_of self + 1 }
        ensures { IfOk result (λ totals. HasEnded self rows.old.items rows.new.items totals.items) }
    {
        let end = self.window.last_tick();
        let keeper = self.window.end()?;
        let AuditKeeper {
            alloc,
            program,
            queue,
        } = keeper;
        let totals = totals_of(alloc, &queue, program.formula_count(), end)?;
        queue.finish_into(end, rows)?;
        Ok(totals)
    }
}
