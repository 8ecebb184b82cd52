//! The parts that several rules share.
ghost use Rattle.std.specs.Prelude.{◌≡◌, ◌+◌, ◌<◌, ◌≤◌, IfOk, Ok};
ghost use Rattle.mtl_formulas.specs.FormulaTree.{leaf, negation, tree_of};
ghost use Rattle.mtl_formulas.specs.FormulaMeasures.{IsValidAtom, node_count};
ghost use Rattle.rule_set.specs.Inner.Drafts.{IsMade};
ghost use Rattle.rule_set.specs.RuleTrees.{AreMetres, AreSeconds, AreRuleNumbers, ◌and◌, ◌or◌, ◌implies◌, between_power, soon, keeps_out, stands_on, extremis, waits, free};

use crate::draft::{Draft, atom, join, not, over, since};
use crate::numbers::RuleNumbers;
use crate::ranking::Ranking;
use mtl_formulas::{Atom, PairKind, SpanKind};
use out_of_memory::Memory;
use std::alloc::Global;

/// Returns both, or the out-of-memory error of the second after dropping the first.
pub(crate) fn paired(a: Draft, b: Result<Draft, Memory>) -> Result<(Draft, Draft), Memory>
    ensures { IfOk result (λ made. (made.0 ≡ a) × (b ≡ Ok made.1)) }
{
    match b {
        Ok(b) => Ok((a, b)),
        Err(memory) => {
            drop(a);
            Err(memory)
        }
    }
}

/// Returns `a & b`.
pub(crate) fn both(alloc: Global, a: Draft, b: Draft) -> Result<Draft, Memory>
    requires { node_count (tree_of a.formula) + node_count (tree_of b.formula) < 64 }
    ensures { IfOk result (λ d. IsMade d.formula (tree_of a.formula and tree_of b.formula)
        (node_count (tree_of a.formula) + node_count (tree_of b.formula) + 1)) }
{
    join(alloc, PairKind::And, a, b)
}

/// Returns `a | b`.
pub(crate) fn either(alloc: Global, a: Draft, b: Draft) -> Result<Draft, Memory>
    requires { node_count (tree_of a.formula) + node_count (tree_of b.formula) < 64 }
    ensures { IfOk result (λ d. IsMade d.formula (tree_of a.formula or tree_of b.formula)
        (node_count (tree_of a.formula) + node_count (tree_of b.formula) + 1)) }
{
    join(alloc, PairKind::Or, a, b)
}

/// Returns `a | b` of two atoms.
pub(crate) fn one_of(alloc: Global, a: Atom, b: Atom) -> Result<Draft, Memory>
    requires a { IsValidAtom a }
    requires b { IsValidAtom b }
    ensures { IfOk result (λ d. IsMade d.formula (leaf a or leaf b) 3) }
{
    either(alloc, atom(a), atom(b))
}

/// Returns `a -> b`.
pub(crate) fn implies(alloc: Global, a: Draft, b: Draft) -> Result<Draft, Memory>
    requires { node_count (tree_of a.formula) + node_count (tree_of b.formula) < 64 }
    ensures { IfOk result (λ d. IsMade d.formula (tree_of a.formula implies tree_of b.formula)
        (node_count (tree_of a.formula) + node_count (tree_of b.formula) + 1)) }
{
    join(alloc, PairKind::Implies, a, b)
}

/// Returns `engaged & a`.
pub(crate) fn engaged_and(alloc: Global, a: Draft) -> Result<Draft, Memory>
    requires { node_count (tree_of a.formula) < 63 }
    ensures { IfOk result
        (λ d. IsMade d.formula (leaf Atom.Engaged and tree_of a.formula)
        (node_count (tree_of a.formula) + 2)) }
{
    both(alloc, atom(Atom::Engaged), a)
}

/// Returns `a`, or, if ranks count, `a & both_power`: between two power-driven vessels.
#[tactic(auto, unfolding(crate::specs::RuleTrees::between_power))]
pub(crate) fn between_power(alloc: Global, ranks: Ranking, a: Draft) -> Result<Draft, Memory>
    requires { node_count (tree_of a.formula) < 63 }
    ensures { IfOk result
        (λ d. IsMade d.formula (between_power ranks (tree_of a.formula))
        (node_count (tree_of a.formula) + 2)) }
{
    match ranks {
        Ranking::Ignored => Ok(a),
        Ranking::Counted => both(alloc, a, atom(Atom::BothPower)),
    }
}

/// Returns `engaged & kind`, or, if ranks count, the same between two power-driven vessels.
pub(crate) fn engaged_in(alloc: Global, ranks: Ranking, kind: Atom) -> Result<Draft, Memory>
    requires { IsValidAtom kind }
    ensures { IfOk result
        (λ d. IsMade d.formula (between_power ranks (leaf Atom.Engaged and leaf kind)) 5) }
{
    between_power(alloc, ranks, engaged_and(alloc, atom(kind))?)
}

/// Returns `F[0,seconds] (act | !engaged)`.
#[tactic(auto, unfolding(crate::specs::RuleTrees::soon))]
pub(crate) fn soon(alloc: Global, tick: u32, seconds: u32, act: Atom) -> Result<Draft, Memory>
    requires tick { 1 ≤ tick }
    requires seconds { AreSeconds tick seconds }
    requires act { IsValidAtom act }
    ensures { IfOk result (λ d. IsMade d.formula (soon tick seconds (leaf act)) 5) }
{
    let (act, done) = paired(atom(act), not(alloc, atom(Atom::Engaged)))?;
    over(
        alloc,
        SpanKind::F,
        seconds / tick,
        either(alloc, act, done)?,
    )
}

/// Returns `overtaking | rank_gives | crossing_gives & both_power`, or the corresponding formula of a vessel that
/// stands on.
fn with_rank(alloc: Global, overtaking: Atom, rank: Atom, crossing: Atom) -> Result<Draft, Memory>
    requires overtaking { IsValidAtom overtaking }
    requires rank { IsValidAtom rank }
    requires crossing { IsValidAtom crossing }
    ensures { IfOk result
        (λ d. IsMade d.formula
        (leaf overtaking or leaf rank or (leaf crossing and leaf Atom.BothPower)) 7) }
{
    let before_crossing = one_of(alloc, overtaking, rank)?;
    let crossing = both(alloc, atom(crossing), atom(Atom::BothPower));
    let (before_crossing, crossing) = paired(before_crossing, crossing)?;
    either(alloc, before_crossing, crossing)
}

/// Returns the condition that the vessel must keep out of the way.
#[tactic(auto, unfolding(crate::specs::RuleTrees::keeps_out))]
pub(crate) fn keeps_out(alloc: Global, ranks: Ranking) -> Result<Draft, Memory>
    ensures { IfOk result (λ d. IsMade d.formula (keeps_out ranks) 7) }
{
    match ranks {
        Ranking::Ignored => one_of(alloc, Atom::Overtaking, Atom::CrossingGives),
        Ranking::Counted => {
            with_rank(
                alloc,
                Atom::Overtaking,
                Atom::RankGives,
                Atom::CrossingGives,
            )
        }
    }
}

/// Returns the condition that the vessel must stand on.
#[tactic(auto, unfolding(crate::specs::RuleTrees::stands_on))]
pub(crate) fn stands_on(alloc: Global, ranks: Ranking) -> Result<Draft, Memory>
    ensures { IfOk result (λ d. IsMade d.formula (stands_on ranks) 7) }
{
    match ranks {
        Ranking::Ignored => one_of(alloc, Atom::Overtaken, Atom::CrossingStands),
        Ranking::Counted => {
            with_rank(
                alloc,
                Atom::Overtaken,
                Atom::RankStands,
                Atom::CrossingStands,
            )
        }
    }
}

/// Returns `engaged & risk`.
fn in_risk(alloc: Global) -> Result<Draft, Memory>
    ensures { IfOk result (λ d. IsMade d.formula (leaf Atom.Engaged and leaf Atom.Risk) 3) }
{
    engaged_and(alloc, atom(Atom::Risk))
}

/// Returns in extremis: in risk, and nearer than the distance at which the other may be unable to avoid collision
/// alone.
#[tactic(auto, unfolding(crate::specs::RuleTrees::extremis))]
pub(crate) fn extremis(alloc: Global, numbers: &RuleNumbers) -> Result<Draft, Memory>
    requires { AreMetres numbers.now.close }
    ensures { IfOk result (λ d. IsMade d.formula (extremis numbers.now) 5) }
{
    both(alloc, in_risk(alloc)?, atom(Atom::Close(numbers.close)))
}

/// Returns not in extremis.
pub(crate) fn not_in_extremis(alloc: Global, numbers: &RuleNumbers) -> Result<Draft, Memory>
    requires { AreMetres numbers.now.close }
    ensures { IfOk result (λ d. IsMade d.formula (negation (extremis numbers.now)) 6) }
{
    not(alloc, extremis(alloc, numbers)?)
}

/// Returns the condition that there was risk for the waiting time, in which the other did not act.
#[tactic(auto, unfolding(crate::specs::RuleTrees::waits))]
fn waits(alloc: Global, tick: u32, numbers: &RuleNumbers) -> Result<Draft, Memory>
    requires { AreRuleNumbers tick numbers.now }
    ensures { IfOk result (λ d. IsMade d.formula (waits tick numbers.now) 9) }
{
    let (in_risk, idle) = paired(in_risk(alloc)?, not(alloc, atom(Atom::OtherApparent)))?;
    let idle = both(alloc, in_risk, idle)?;
    let so_long = over(alloc, SpanKind::H, numbers.tw / tick, idle)?;
    both(alloc, atom(Atom::Age(numbers.tw)), so_long)
}

/// Returns the condition that the vessel that stands on is free to act: she has waited, or was in extremis.
#[tactic(auto, unfolding(crate::specs::RuleTrees::free))]
pub(crate) fn free(alloc: Global, tick: u32, numbers: &RuleNumbers) -> Result<Draft, Memory>
    requires { AreRuleNumbers tick numbers.now }
    ensures { IfOk result (λ d. IsMade d.formula (free tick numbers.now) 17) }
{
    let (waited, in_extremis) = paired(waits(alloc, tick, numbers)?, extremis(alloc, numbers))?;
    let cause = either(alloc, waited, in_extremis)?;
    since(alloc, numbers.te / tick, atom(Atom::Engaged), cause)
}

/// Returns the condition that she is not free to act.
pub(crate) fn not_free(alloc: Global, tick: u32, numbers: &RuleNumbers) -> Result<Draft, Memory>
    requires { AreRuleNumbers tick numbers.now }
    ensures { IfOk result (λ d. IsMade d.formula (negation (free tick numbers.now)) 18) }
{
    not(alloc, free(alloc, tick, numbers)?)
}
