//! The marks of one trace.
ghost use Rattle.std.specs.Prelude.{◌≡◌, ◌<◌, ◌^◌, ◌∷◌, ◌++◌, [], ℕ, List, length, Option, false, true, OnOk};
ghost use Rattle.std.specs.Option.{option_copied};
ghost use Rattle.encounters.specs.Standing.{IsStateAfter};
ghost use Rattle.encounters.specs.declared.detect.Detect.{Detect};
ghost use Rattle.encounters.specs.declared.pair_step.PairStep.{PairStep};
ghost use Rattle.audit_rows.specs.Tracks.{Repeats, Track, longer, next_step};
ghost use Rattle.audit_rows.specs.declared.row.Row.{Row};
ghost use Rattle.auditor.specs.AuditTracks.{IsMeetingMark};
ghost use Rattle.audit_rows.specs.Standing.{QueueStandsFor};
ghost use Rattle.auditor.specs.ValueMarks.{mark_of};

use audit_rows::{Mark, RowQueue};
use closest_approach::least;
use encounters::{EngagementState, PairStep};
use mtl_formulas::{Glance, Verdict};
use mtl_monitor::{Program, TraceState};
use out_of_memory::Memory;
use std::alloc::Global;
use traces::NextRow;

/// Returns the mark of the meeting's track at a step: the kind of the engagement, and the least distance within the
/// step.
#[inline(always)]
fn meeting_mark(state: &EngagementState, seen: Option<&PairStep>) -> Mark
    ensures { (detect : Detect) (steps : List (Option PairStep))
        → IsStateAfter detect (steps ++ option_copied seen.entry ∷ []) state.now
        → IsMeetingMark detect (steps ++ option_copied seen.entry ∷ []) (length steps) result }
{
    match (state, seen) {
        (EngagementState::Engaged { kind, .. }, Some(pair)) => Mark::Engaged {
            kind: *kind,
            least: least(&pair.step),
        },
        _ => Mark::Nothing,
    }
}

/// Returns the mark of a rule's track at a position at which its formula has this value.
fn mark_of(value: Verdict) -> Mark
    ensures { result ≡ mark_of value }
{
    match value {
        Verdict::Yes => Mark::Nothing,
        Verdict::No => Mark::Broken,
        Verdict::Open => Mark::Undecided,
    }
}

/// Adds the mark for the step to the track at the index. A mark that repeats the last one needs no work.
#[inline(always)]
fn mark_or_repeat(
    queue: &mut RowQueue,
    index: usize,
    step: u32,
    mark: Mark,
    repeats: bool,
) -> Result<(), Memory>
    ensures { OnOk result
        ((bound : ℕ) (before after : List Track) (track : Track) (given : List Row)
        → QueueStandsFor queue.old (before ++ track ∷ after) bound given → index ≡ length before
        → step ≡ next_step track → (repeats ≡ true → Repeats track mark)
        → QueueStandsFor queue.new (before ++ longer track mark ∷ after) bound given) }
{
    if repeats {
        return Ok(());
    }
    queue.mark(index, step, mark)
}

/// One trace: its first step, and the values of the rules' formulas so far. Its model is the list of the atoms' values
/// at the steps so far.
#[derive(Drop)]
pub struct AuditTrace {
    start: u32,
    values: TraceState,
    ghost early: { start < 2 ^ 31 },
}

impl AuditTrace {
    ghost use Rattle.std.specs.Prelude.{◌+◌, ◌≤◌, IfOk};
    ghost use Rattle.encounters.specs.declared.engagement_state.EngagementState.TheVariants.{Apart};
    ghost use Rattle.meetings.specs.Answers.{answer_of};
    ghost use Rattle.meetings.specs.declared.by_rank.ByRank.{ByRank};
    ghost use Rattle.meetings.specs.declared.pair.Pair.{Pair};
    ghost use Rattle.mtl_formulas.specs.FormulaTree.{FormulaTree};
    ghost use Rattle.mtl_monitor.specs.Following.{Fits, IsProgramOf, count_of, fed_of};
    ghost use Rattle.mtl_monitor.specs.Reaches.{greatest_reach};
    ghost use Rattle.mtl_monitor.specs.declared.program.Program.{Program};
    ghost use Rattle.traces.specs.Audited.{AuditNumbers};
    ghost use Rattle.mtl_formulas.specs.declared.atom.Atom.{Atom};
    ghost use Rattle.mtl_formulas.specs.declared.verdict.Verdict.{Verdict};
    ghost use Rattle.audit_rows.specs.declared.row_queue.RowQueue.{RowQueue};
    ghost use Rattle.traces.specs.Keeping.{IsApartRow, IsNextRow};
    ghost use Rattle.traces.specs.Known.{Known, opened};
    ghost use Rattle.auditor.specs.Inner.RowAnswers.{MarksRule, MarksRules};
    ghost use Rattle.auditor.specs.TraceKeeping.{AreTracksSoFar, HasTracksOf, IsReady, StandsFor, Steps, steps_of};
    ghost use Rattle.auditor.specs.SettledRows.{formulas_of};

    /// Returns the trace that begins at a step, before its first step.
    pub fn new(alloc: Global, program: &Program, start: u32) -> Result<AuditTrace, Memory>
        requires early { start < 2 ^ 31 }
        ensures ready { IfOk result (IsReady program.now) }
        ensures steps { IfOk result (λ trace. steps_of trace ≡ 0) }
        ensures stands { IfOk result
            (λ trace. (numbers : AuditNumbers) (pair : Pair)
            → IsProgramOf program.now (formulas_of numbers)
            → StandsFor program.now numbers trace (opened pair start)) }
    {
        Ok(AuditTrace {
            start,
            values: TraceState::new(alloc, program)?,
        })
    }

    /// Marks the position that the last row has decided for a rule, if there is one. The rule's track is at this index.
    fn mark_rule(
        &self,
        program: &Program,
        queue: &mut RowQueue,
        index: usize,
        rule: usize,
    ) -> Result<(), Memory>
        requires fits { Fits program.now self.now.values }
        requires few { fed_of self.now.values ≤ 2 ^ 31 }
        requires formula { rule < count_of program.now }
        ensures { OnOk result (MarksRule program.now self.now index rule queue.old queue.new) }
    {
        match self.values.answer(program, rule) {
            Some((position, value)) => queue.mark(index, self.start + position, mark_of(value)),
            None => Ok(()),
        }
    }

    /// Marks the positions that the last row has decided. The track of rule 0 is at this index in the queue, and the
    /// others follow.
    fn mark_rules(
        &self,
        program: &Program,
        queue: &mut RowQueue,
        first: usize,
    ) -> Result<(), Memory>
        requires fits { Fits program.now self.now.values }
        requires few { fed_of self.now.values ≤ 2 ^ 31 }
        requires room { first + count_of program.now < 2 ^ 64 }
        ensures { OnOk result
            (MarksRules program.now self.now first (count_of program.now) queue.old queue.new) }
    {
        for rule in 0..program.formula_count() {
            self.mark_rule(program, queue, first + rule, rule)?;
        }
        Ok(())
    }

    /// Returns whether each formula has read a row before the row of the step.
    #[inline(always)]
    fn has_answered(&self, program: &Program, step: u32) -> bool
        ensures { result ≡ true → (formulas : List FormulaTree) → IsProgramOf program.now formulas
            → self.now.start + greatest_reach formulas < step }
    {
        program.reach() < step.saturating_sub(self.start)
    }

    /// Returns whether the trace has a step before this one, and the vessels were apart there and still are.
    #[inline(always)]
    fn stays_apart(&self, was: &EngagementState, is: &EngagementState, step: u32) -> bool
        ensures was { result ≡ true → was.now ≡ Apart }
        ensures is { result ≡ true → is.now ≡ Apart }
        ensures later { result ≡ true → self.now.start < step }
    {
        match (was, is) {
            (EngagementState::Apart, EngagementState::Apart) => self.start < step,
            _ => false,
        }
    }

    /// Takes the row of the next step and adds the marks that it decides to the trace's tracks. The meeting's track is
    /// at this index. If no formula's value changes, the marks of the rules repeat and need no work. The mark of the
    /// meeting needs none if the vessels stay apart.
    #[inline(always)]
    pub fn step(
        &mut self,
        program: &Program,
        next: NextRow<'_>,
        step: u32,
        queue: &mut RowQueue,
        first: usize,
    ) -> Result<(), Memory>
        requires ready { IsReady program.now self.old }
        requires few { steps_of self.old < 2 ^ 31 }
        requires room { first + count_of program.now + 1 < 2 ^ 64 }
        ensures ready { IsReady program.now self.new }
        ensures steps { steps_of self.new ≡ steps_of self.old + 1 }
        ensures stands { OnOk result
            ((numbers : AuditNumbers) (ranks : ℕ → ByRank) (known : Known) (seen : Option PairStep)
            (before mine after : List Track) (bound : ℕ) (given : List Row)
            → StandsFor program.now numbers self.old known → step ≡ known.start + length known.steps
            → IsNextRow numbers ranks known seen next.entry → AreTracksSoFar numbers known mine
            → first ≡ length before → QueueStandsFor queue.old (before ++ mine ++ after) bound given
            → Steps program.now numbers self.new known seen
            (answer_of next.entry.row.now) queue.new before after bound given) }
    {
        let NextRow { seen, row, was, is } = next;
        let changes = self.values.feed(program, row);
        let apart = self.stays_apart(was, is, step);
        mark_or_repeat(queue, first, step, meeting_mark(is, seen), apart)?;
        if !changes && self.has_answered(program, step) {
            return Ok(());
        }
        self.mark_rules(program, queue, first + 1)
    }

    /// Takes the next step without its row, if a glance at the row suffices: each mark repeats, as the vessels stay apart.
    /// Otherwise changes nothing and returns false.
    #[inline(always)]
    pub fn rest(&mut self, program: &Program, glance: Glance, step: u32) -> bool
        requires ready { IsReady program.now self.old }
        requires few { steps_of self.old < 2 ^ 31 }
        ensures stays { result ≡ false → self.new ≡ self.old }
        ensures ready { IsReady program.now self.new }
        ensures steps { result ≡ true → steps_of self.new ≡ steps_of self.old + 1 }
        ensures rests { result ≡ true → (numbers : AuditNumbers) (ranks : ℕ → ByRank)
            (known : Known) (seen : Option PairStep) (answers : Atom → Verdict) (queue : RowQueue)
            (before mine after : List Track) (bound : ℕ) (given : List Row)
            → StandsFor program.now numbers self.old known → step ≡ known.start + length known.steps
            → IsApartRow numbers ranks known seen glance answers → AreTracksSoFar numbers known mine
            → QueueStandsFor queue (before ++ mine ++ after) bound given
            → Steps program.now numbers self.new known seen answers queue before after bound given }
    {
        if !self.has_answered(program, step) {
            return false;
        }
        self.values.rest(program, glance)
    }

    /// Ends the trace and adds the marks of all remaining positions to its tracks.
    pub fn end(
        &mut self,
        program: &Program,
        queue: &mut RowQueue,
        first: usize,
    ) -> Result<(), Memory>
        requires ready { IsReady program.now self.old }
        requires few { steps_of self.old ≤ 2 ^ 31 }
        requires room { first + count_of program.now + 1 < 2 ^ 64 }
        ensures { OnOk result
            ((numbers : AuditNumbers) (known : Known) (before mine after : List Track) (bound : ℕ)
            (given : List Row) → StandsFor program.now numbers self.old known
            → AreTracksSoFar numbers known mine → first ≡ length before
            → QueueStandsFor queue.old (before ++ mine ++ after) bound given
            → HasTracksOf numbers known queue.new before after bound given) }
    {
        for _ in 0..program.reach() {
            self.values.pass_end(program);
            self.mark_rules(program, queue, first + 1)?;
        }
        Ok(())
    }
}
