//! Laws of an audit's rows and totals, and of the rules' values over traces. They follow from the definitions alone.
ghost use Rattle.std.specs.Prelude.{ℕ, ◌≡◌, List, Option};
ghost use Rattle.encounters.specs.declared.pair_step.PairStep.{PairStep};
ghost use Rattle.meetings.specs.Atoms.{AreRankedRows};
ghost use Rattle.meetings.specs.Terms.{Terms};
ghost use Rattle.meetings.specs.declared.by_rank.ByRank.{ByRank};
ghost use Rattle.mtl_formulas.specs.Traces.{Trace, value_in};
ghost use Rattle.rule_set.specs.RuleTrees.{passes_safely};
ghost use Rattle.rule_set.specs.declared.numbers.Safe.TheVariants.{One, PerKind};
ghost use Rattle.audit_rows.specs.declared.row.Row.{Row};
ghost use Rattle.traces.specs.Audited.{AuditNumbers, Sighting};
ghost use Rattle.auditor.specs.declared.total.Total.{Total};
ghost use Rattle.auditor.specs.AuditRows.{AreAuditRows};
ghost use Rattle.auditor.specs.AuditTotals.{AreTotals};

/// An audit has at most one list of rows.
pub fn one_list_of_rows()
    ensures { (numbers : AuditNumbers) (ticks : List Sighting) (rows others : List Row)
        → AreAuditRows numbers ticks rows → AreAuditRows numbers ticks others → rows ≡ others }
{}

/// Besides its rows, an audit has at most one list of totals, whatever the order of its traces.
pub fn one_list_of_totals()
    ensures { (numbers : AuditNumbers) (ticks : List Sighting) (rows : List Row)
        (totals others : List Total) → AreTotals numbers ticks rows totals
        → AreTotals numbers ticks rows others → totals ≡ others }
{}

/// Passing at a safe distance (Rule 8(d)) with four equal distances, one per kind of encounter, is the same at every position
/// as with that one distance.
pub fn equal_distances_are_one()
    ensures { (terms : Terms) (ranks : ℕ → ByRank) (steps : List (Option PairStep)) (trace : Trace)
        (metres i : ℕ) → AreRankedRows terms ranks steps trace
        → value_in trace (passes_safely (PerKind metres metres metres metres)) i
        ≡ value_in trace (passes_safely (One metres)) i }
{}
