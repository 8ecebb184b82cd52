//! The rules of a watch: all of them as one program, and separately those whose breaches may be decided early.
ghost use Rattle.std.specs.Prelude.{◌≡◌, false, length, true};
ghost use Rattle.mtl_monitor.specs.Following.{count_of};

use crate::alarm::Alarm;
use crate::alarm_set::{Place, is_not_broken, take_answer};
use crate::early_program::EarlyState;
use crate::early_rule::EarlyRule;
use crate::rule_lists::{early_rules, plain_program};
use meetings::AtomRow;
use mtl_monitor::{Program, TraceState};
use out_of_memory::Memory;
use rule_set::RuleSet;
use std::alloc::Global;
use std::collections::BTreeSet;

/// One program for all traces, which answers the positions of a trace once they can no longer change. A rule whose
/// breaches may be decided earlier has its own program instead, without the parts of this one.
#[derive(Drop)]
pub(crate) struct WatchedRules {
    pub(crate) program: Program,
    pub(crate) early: Vec<Option<EarlyRule>>,
    ghost as_many: { length early.items ≡ count_of program },
}

impl WatchedRules {
    ghost use Rattle.std.specs.Prelude.{◌<◌, ◌≤◌, ◌-◌, ◌^◌, ◌++◌, ◌∷◌, [], IfOk, List, OnOk};
    ghost use Rattle.rule_set.specs.NamedTrees.{NamedTree};
    ghost use Rattle.meetings.specs.Answers.{answer_of};
    ghost use Rattle.mtl_monitor.specs.Following.{Fits, Follows, fed_of};
    ghost use Rattle.mtl_formulas.specs.Traces.{Trace};
    ghost use Rattle.early_monitor.specs.Alarms.{tree_of_rule};
    ghost use Rattle.early_monitor.specs.Inner.Breaches.{Adds, IsBreach};
    ghost use Rattle.early_monitor.specs.Inner.RulesWatched.{AreWatched, FitsRule, IsCalmRule, StandsForRule, early_at, plain_trees};

    /// Returns the watched form of these rules.
    pub(crate) fn new(alloc: Global, rules: &RuleSet) -> Result<WatchedRules, Memory>
        ensures of { IfOk result (λ w. AreWatched w rules.now) }
        ensures few { IfOk result (λ w. count_of w.program ≤ 17) }
    {
        let early = early_rules(alloc, rules)?;
        let program = plain_program(alloc, rules, &early)?;
        Ok(WatchedRules { program, early })
    }

    /// Returns the early state of the rule at an index before a trace's first row, if the rule has one.
    pub(crate) fn begin_rule(
        &self,
        alloc: Global,
        rule: usize,
    ) -> Result<Option<EarlyState>, Memory>
        requires { rule < length self.now.early.items }
        ensures fits { IfOk result (FitsRule 0 (early_at self.now rule)) }
        ensures stands { IfOk result (λ state. (rules : List NamedTree) → AreWatched self.now rules
            → StandsForRule (early_at self.now rule) state (tree_of_rule rules rule) []) }
    {
        match &self.early[rule] {
            None => Ok(None),
            Some(early) => Ok(Some(early.begin(alloc)?)),
        }
    }

    /// Adds the alarms of the latest row of a trace for the rule of the place. The values have already taken the row;
    /// the rule's early state takes it here. A quiet row changes no rule's value, so it has no alarm of a rule without
    /// a program of its own. Returns whether further rows have none either unless they change the rule's value.
    pub(crate) fn take_row(
        &self,
        quiet: bool,
        values: &TraceState,
        state: &mut Option<EarlyState>,
        row: &AtomRow,
        place: Place,
        alarms: &mut BTreeSet<Alarm>,
    ) -> Result<bool, Memory>
        requires rule { place.rule < length self.now.early.items }
        requires values { Fits self.now.program values.now }
        requires fed { fed_of values.now ≤ 2 ^ 31 }
        requires start { place.start < 2 ^ 31 }
        requires fits { FitsRule (fed_of values.now - 1) (early_at self.now place.rule) state.old }
        requires some { 0 < fed_of values.now }
        requires quiet { quiet ≡ true → IsCalmRule self.now values.now place.rule }
        ensures calm { IfOk result
            (λ calm. calm ≡ true → IsCalmRule self.now values.now place.rule) }
        ensures fits { OnOk result
            (FitsRule (fed_of values.now) (early_at self.now place.rule) state.new) }
        ensures adds { OnOk result
            ((rules : List NamedTree) (rows : Trace) → AreWatched self.now rules
            → Follows self.now.program values.now (plain_trees self.now.early.items rules)
            (rows ++ answer_of row.now ∷ [])
            → StandsForRule (early_at self.now place.rule) state.old
            (tree_of_rule rules place.rule) rows
            → StandsForRule (early_at self.now place.rule) state.new (tree_of_rule rules place.rule)
            (rows ++ answer_of row.now ∷ [])
            × Adds (IsBreach place (tree_of_rule rules place.rule) (rows ++ answer_of row.now ∷ []))
            alarms.old.keys alarms.new.keys) }
    {
        let rule = place.rule as usize;
        match &self.early[rule] {
            None => {
                if quiet {
                    return Ok(true);
                }
                let answer = values.answer(&self.program, rule);
                take_answer(alarms, place, answer)?;
                Ok(is_not_broken(answer))
            }
            Some(early) => match state {
                None => Ok(false),
                Some(state) => {
                    early.take_row(state, row, place, alarms)?;
                    Ok(true)
                }
            },
        }
    }
}

/// Returns whether a row changes no value after rows that leave all rules without own programs calm.
pub(crate) fn is_quiet(calm: bool, changes: bool) -> bool
    ensures { result ≡ true → (calm ≡ true) × (changes ≡ false) }
{
    calm && !changes
}

/// Returns whether a row is quiet and no rule has a program of its own.
pub(crate) fn has_no_alarm(quiet: bool, plain: bool) -> bool
    ensures { result ≡ true → (quiet ≡ true) × (plain ≡ true) }
{
    quiet && plain
}
