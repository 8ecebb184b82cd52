//! Laws of atoms and traces, which follow from the definitions alone.
ghost use Rattle.std.specs.Prelude.{ℕ, ◌≡◌, ◌+◌, ◌<◌, ◌++◌, List, Option, length, take};
ghost use Rattle.motion.specs.declared.leg.TickState.{TickState};
ghost use Rattle.mtl_formulas.specs.declared.atom.Atom.{Atom};
ghost use Rattle.mtl_formulas.specs.declared.verdict.Verdict.{Verdict};
ghost use Rattle.encounters.specs.declared.engagement_state.EngagementState.{EngagementState};
ghost use Rattle.encounters.specs.declared.pair_step.PairStep.{PairStep};
ghost use Rattle.meetings.specs.Atoms.{AreRankedRows, IsAtomValue, IsRankedRow};
ghost use Rattle.meetings.specs.Terms.{Terms};
ghost use Rattle.meetings.specs.Traces.{BeginsTrace, IsTrace, steps_from};
ghost use Rattle.meetings.specs.declared.by_rank.ByRank.{ByRank};

/// At each step there is at most one value of an atom.
pub fn at_most_one_value()
    ensures { (terms : Terms) (ranks : ByRank) (state : EngagementState) (seen : Option PairStep)
        (atom : Atom) (verdict other : Verdict) → IsAtomValue terms ranks state seen atom verdict
        → IsAtomValue terms ranks state seen atom other → verdict ≡ other }
{}

/// At each step there is at most one row of values, and a list of steps has at most one list of rows.
pub fn at_most_one_row()
    ensures row { (terms : Terms) (ranks : ℕ → ByRank) (steps : List (Option PairStep)) (i : ℕ)
        (answers others : Atom → Verdict) → IsRankedRow terms ranks steps i answers
        → IsRankedRow terms ranks steps i others → answers ≡ others }
    ensures rows { (terms : Terms) (ranks : ℕ → ByRank) (steps : List (Option PairStep))
        (rows others : List (Atom → Verdict)) → AreRankedRows terms ranks steps rows
        → AreRankedRows terms ranks steps others → rows ≡ others }
{}

/// Each step has a row of values, and each list of steps has a list of rows.
pub fn there_are_rows()
    ensures row { (terms : Terms) (ranks : ℕ → ByRank) (steps : List (Option PairStep)) (i : ℕ) →
        (answers : Atom → Verdict) × IsRankedRow terms ranks steps i answers }
    ensures rows { (terms : Terms) (ranks : ℕ → ByRank) (steps : List (Option PairStep)) →
        (rows : List (Atom → Verdict)) × AreRankedRows terms ranks steps rows }
{}

/// Further steps do not change the row of a step: the rows of the first steps are the first rows of all steps.
pub fn the_past_stays()
    ensures row { (terms : Terms) (ranks : ℕ → ByRank) (steps more : List (Option PairStep)) (i : ℕ)
        (answers : Atom → Verdict) → i < length steps → IsRankedRow terms ranks steps i answers
        → IsRankedRow terms ranks (steps ++ more) i answers }
    ensures rows { (terms : Terms) (ranks : ℕ → ByRank) (steps more : List (Option PairStep))
        (rows : List (Atom → Verdict)) → AreRankedRows terms ranks (steps ++ more) rows
        → AreRankedRows terms ranks steps (take (length steps) rows) }
{}

/// A pair has at most one trace.
pub fn at_most_one_trace()
    ensures { (a b : ℕ → Option TickState) (watch end start other : ℕ)
        → BeginsTrace a b watch end start → BeginsTrace a b watch end other → start ≡ other }
{}

/// The rows of a trace are those of all steps of the window: no pair is engaged before its trace begins.
pub fn no_engagement_before_the_trace()
    ensures { (terms : Terms) (ranks : ℕ → ByRank) (a b : ℕ → Option TickState) (end start : ℕ)
        (steps : List (Option PairStep)) (i : ℕ) (answers : Atom → Verdict)
        → IsTrace a b terms.detect.watch end start steps
        → IsRankedRow terms (λ k. ranks (start + k)) steps i answers
        → IsRankedRow terms ranks (steps_from a b 0 end) (start + i) answers }
{}
