//! A rule whose breaches may be decided before the last row that its formula reaches.
use crate::alarm::Alarm;
use crate::alarm_set::{Place, take_value};
use crate::early_program::{EarlyProgram, EarlyState};
use meetings::AtomRow;
use mtl_formulas::Formula;
use out_of_memory::Memory;
use rule_program::is_no_last;
use std::alloc::Global;
use std::collections::BTreeSet;

/// The formula of such a rule as a separate program.
#[derive(Drop)]
pub(crate) struct EarlyRule {
    pub(crate) program: EarlyProgram,
}

impl EarlyRule {
    ghost use Rattle.std.specs.Prelude.{◌≡◌, ◌<◌, ◌+◌, ◌^◌, ◌++◌, ◌∷◌, [], IfOk, OnOk};
    ghost use Rattle.meetings.specs.Answers.{answer_of};
    ghost use Rattle.mtl_formulas.specs.FormulaTree.{FormulaTree, tree_of};
    ghost use Rattle.mtl_formulas.specs.FormulaMeasures.{IsValid};
    ghost use Rattle.mtl_formulas.specs.Traces.{Trace};
    ghost use Rattle.early_monitor.specs.Inner.Breaches.{Adds, IsBreach};
    ghost use Rattle.early_monitor.specs.Inner.EarlyStates.{HasGivenAll, IsAt, IsEarlyProgramOf, IsStateOf, rows_fed};
    ghost use Rattle.early_monitor.specs.Inner.RulesWatched.{IsWatchedAs};

    /// Returns the rule of a formula. Returns `None` if the last row that the formula reaches decides each breach.
    pub(crate) fn of(alloc: Global, formula: &Formula) -> Result<Option<EarlyRule>, Memory>
        requires { IsValid (tree_of formula.now) }
        ensures { IfOk result (λ early. IsWatchedAs early (tree_of formula.now)) }
    {
        if is_no_last(formula) {
            return Ok(None);
        }
        let program = EarlyProgram::of(alloc, formula)?;
        Ok(Some(EarlyRule { program }))
    }

    /// Returns the state over a trace before its first row.
    pub(crate) fn begin(&self, alloc: Global) -> Result<EarlyState, Memory>
        ensures of { IfOk result (IsStateOf self.now.program) }
        ensures done { IfOk result HasGivenAll }
        ensures fed { IfOk result (λ s. rows_fed s ≡ 0) }
        ensures at { IfOk result
            (λ s. (t : FormulaTree) → IsEarlyProgramOf self.now.program t
            → IsAt self.now.program s t []) }
    {
        self.program.begin(alloc)
    }

    /// Feeds the next row of a trace, and adds the alarms of the positions that it decides.
    pub(crate) fn take_row(
        &self,
        state: &mut EarlyState,
        row: &AtomRow,
        place: Place,
        alarms: &mut BTreeSet<Alarm>,
    ) -> Result<(), Memory>
        requires of { IsStateOf self.now.program state.old }
        requires done { HasGivenAll state.old }
        requires few { rows_fed state.old < 2 ^ 31 }
        requires start { place.start < 2 ^ 31 }
        ensures of { OnOk result (IsStateOf self.now.program state.new) }
        ensures done { OnOk result (HasGivenAll state.new) }
        ensures fed { OnOk result (rows_fed state.new ≡ rows_fed state.old + 1) }
        ensures adds { OnOk result
            ((t : FormulaTree) (rows : Trace) → IsAt self.now.program state.old t rows
            → IsAt self.now.program state.new t (rows ++ answer_of row.now ∷ [])
            × Adds (IsBreach place t (rows ++ answer_of row.now ∷ [])) alarms.old.keys
            alarms.new.keys) }
    {
        self.program.feed(state, row);
        while let Some((position, value)) = self.program.next(state) {
            take_value(alarms, place, position, value)?;
        }
        Ok(())
    }
}
