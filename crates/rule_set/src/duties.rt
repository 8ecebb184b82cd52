//! The rules, without ranks and with them.
ghost use Rattle.std.specs.Prelude.{◌≡◌, ◌+◌, ◌<◌, ◌≤◌, IfOk, codes, length};
ghost use Rattle.mtl_formulas.specs.FormulaTree.{leaf, negation, tree_of};
ghost use Rattle.mtl_formulas.specs.FormulaMeasures.{IsValidAtom, node_count};
ghost use Rattle.rule_set.specs.Inner.Drafts.{IsMade};
ghost use Rattle.rule_set.specs.Inner.Rules.{named_tree};
ghost use Rattle.rule_set.specs.NamedTrees.{rule_named};
ghost use Rattle.rule_set.specs.RuleTrees.{AreMetres, AreSafeMetres, AreSeconds, AreRuleNumbers, soon, passes_clear, passes_safely, other_metres, r8b, r8d, r13, r14a, r14b, r14p, r15, r16, r17a, r17b, r17c, r18, ◌or◌, ◌implies◌};

use crate::draft::{Draft, atom, not};
use crate::numbers::{RuleNumbers, Safe};
use crate::ranking::Ranking;
use crate::rule::Rule;
use crate::words::{
    between_power, both, engaged_and, engaged_in, extremis, free, implies, keeps_out, not_free,
    not_in_extremis, one_of, paired, soon, stands_on,
};
use mtl_formulas::Atom;
use out_of_memory::Memory;
use std::alloc::Global;

/// Rule 8(b): an alteration is readily apparent.
pub(crate) fn r8b(alloc: Global, tick: u32, numbers: &RuleNumbers) -> Result<Rule, Memory>
    requires { AreRuleNumbers tick numbers.now }
    ensures { IfOk result
        (λ rule. named_tree rule ≡ rule_named (codes "r8b") (r8b tick numbers.now)) }
{
    let apparent = soon(alloc, tick, numbers.t8, Atom::Apparent)?;
    Ok(Rule::of(b"r8b", implies(alloc, atom(Atom::Alters), apparent)?))
}

/// Returns the rule that vessels engaged in an encounter of this kind pass at this distance.
fn passes_clear(alloc: Global, kind: Draft, metres: u32) -> Result<Draft, Memory>
    requires metres { AreMetres metres }
    requires few { node_count (tree_of kind.formula) < 60 }
    ensures { IfOk result
        (λ d. IsMade d.formula (passes_clear (tree_of kind.formula) metres)
        (node_count (tree_of kind.formula) + 4)) }
{
    implies(alloc, engaged_and(alloc, kind)?, atom(Atom::Clear(metres)))
}

/// Returns the same for two kinds.
fn either_passes_clear(alloc: Global, one: Atom, two: Atom, metres: u32) -> Result<Draft, Memory>
    requires metres { AreMetres metres }
    requires one { IsValidAtom one }
    requires two { IsValidAtom two }
    ensures { IfOk result (λ d. IsMade d.formula (passes_clear (leaf one or leaf two) metres) 7) }
{
    passes_clear(alloc, one_of(alloc, one, two)?, metres)
}

fn passes_clear_per_kind(
    alloc: Global,
    head_on: u32,
    overtaking: u32,
    crossing: u32,
    other: u32,
) -> Result<Draft, Memory>
    requires { AreSafeMetres (Safe.PerKind head_on overtaking crossing other) }
    ensures { IfOk result
        (λ d. tree_of d.formula ≡ passes_safely (Safe.PerKind head_on overtaking crossing other)) }
{
    let head_on = passes_clear(alloc, atom(Atom::HeadOn), head_on)?;
    let overtaking = either_passes_clear(alloc, Atom::Overtaking, Atom::Overtaken, overtaking);
    let (head_on, overtaking) = paired(head_on, overtaking)?;
    let two = both(alloc, head_on, overtaking)?;
    let crossing = either_passes_clear(alloc, Atom::CrossingGives, Atom::CrossingStands, crossing);
    let (two, crossing) = paired(two, crossing)?;
    let three = both(alloc, two, crossing)?;
    let other = either_passes_clear(alloc, Atom::Passing, Atom::Unclassified, other);
    let (three, other) = paired(three, other)?;
    both(alloc, three, other)
}

/// Returns the rule that the vessels pass at a safe distance.
fn passes_safely(alloc: Global, safe: Safe) -> Result<Draft, Memory>
    requires { AreSafeMetres safe }
    ensures { IfOk result (λ d. tree_of d.formula ≡ passes_safely safe) }
{
    match safe {
        Safe::One(metres) => implies(alloc, atom(Atom::Engaged), atom(Atom::Clear(metres))),
        Safe::PerKind {
            head_on,
            overtaking,
            crossing,
            other,
        } => passes_clear_per_kind(alloc, head_on, overtaking, crossing, other),
    }
}

/// Rule 8(d): the vessels pass at a safe distance.
pub(crate) fn r8d(alloc: Global, numbers: &RuleNumbers) -> Result<Rule, Memory>
    requires { AreSafeMetres numbers.now.safe }
    ensures { IfOk result (λ rule. named_tree rule ≡ rule_named (codes "r8d") (r8d numbers.now)) }
{
    Ok(Rule::of(b"r8d", passes_safely(alloc, numbers.safe)?))
}

/// Rule 13: an overtaking vessel keeps out of the way.
pub(crate) fn r13(alloc: Global, numbers: &RuleNumbers) -> Result<Rule, Memory>
    requires { AreMetres numbers.now.overtake }
    ensures { IfOk result (λ rule. named_tree rule ≡ rule_named (codes "r13") (r13 numbers.now)) }
{
    Ok(Rule::of(
        b"r13",
        passes_clear(alloc, atom(Atom::Overtaking), numbers.overtake)?,
    ))
}

/// Returns a rule: if the draft holds, the vessel does not do this.
fn forbidding(alloc: Global, name: &[u8], when: Draft, act: Atom) -> Result<Rule, Memory>
    requires some { 1 ≤ length name.now }
    requires short { length name.now ≤ 16 }
    requires few { node_count (tree_of when.formula) < 62 }
    requires act { IsValidAtom act }
    ensures { IfOk result
        (λ rule. named_tree rule
        ≡ rule_named name.now (tree_of when.formula implies negation (leaf act))) }
{
    let (when, keeps) = paired(when, not(alloc, atom(act)))?;
    Ok(Rule::of(name, implies(alloc, when, keeps)?))
}

/// Returns a rule: if the draft holds, the vessel does this soon.
fn demanding(
    alloc: Global,
    name: &[u8],
    when: Draft,
    tick: u32,
    seconds: u32,
    act: Atom,
) -> Result<Rule, Memory>
    requires some { 1 ≤ length name.now }
    requires short { length name.now ≤ 16 }
    requires few { node_count (tree_of when.formula) < 59 }
    requires tick { 1 ≤ tick }
    requires seconds { AreSeconds tick seconds }
    requires act { IsValidAtom act }
    ensures { IfOk result
        (λ rule. named_tree rule
        ≡ rule_named name.now (tree_of when.formula implies soon tick seconds (leaf act))) }
{
    let (when, acts) = paired(when, soon(alloc, tick, seconds, act))?;
    Ok(Rule::of(name, implies(alloc, when, acts)?))
}

/// Rule 14(a): head-on, each alters course to starboard.
pub(crate) fn r14a(
    alloc: Global,
    ranks: Ranking,
    tick: u32,
    numbers: &RuleNumbers,
) -> Result<Rule, Memory>
    requires { AreRuleNumbers tick numbers.now }
    ensures { IfOk result
        (λ rule. named_tree rule ≡ rule_named (codes "r14a") (r14a ranks tick numbers.now)) }
{
    let begins = both(alloc, atom(Atom::Begin), atom(Atom::HeadOn))?;
    let begins = between_power(alloc, ranks, begins)?;
    demanding(alloc, b"r14a", begins, tick, numbers.ta, Atom::ToStarboard)
}

/// Rule 14(a): head-on, neither alters course to port.
pub(crate) fn r14b(alloc: Global, ranks: Ranking) -> Result<Rule, Memory>
    ensures { IfOk result (λ rule. named_tree rule ≡ rule_named (codes "r14b") (r14b ranks)) }
{
    let head_on = engaged_in(alloc, ranks, Atom::HeadOn)?;
    forbidding(alloc, b"r14b", head_on, Atom::ToPort)
}

/// Rule 14(a): head-on, each passes on the port side of the other.
pub(crate) fn r14p(alloc: Global, ranks: Ranking) -> Result<Rule, Memory>
    ensures { IfOk result (λ rule. named_tree rule ≡ rule_named (codes "r14p") (r14p ranks)) }
{
    let head_on = engaged_in(alloc, ranks, Atom::HeadOn)?;
    let opens = both(alloc, head_on, atom(Atom::Opening))?;
    Ok(Rule::of(b"r14p", implies(alloc, opens, atom(Atom::OtherOnPort))?))
}

/// Rule 15: the vessel that gives way does not cross ahead.
pub(crate) fn r15(alloc: Global, ranks: Ranking) -> Result<Rule, Memory>
    ensures { IfOk result (λ rule. named_tree rule ≡ rule_named (codes "r15") (r15 ranks)) }
{
    let crosses = engaged_in(alloc, ranks, Atom::CrossingGives)?;
    forbidding(alloc, b"r15", crosses, Atom::Ahead)
}

/// Rule 16: the vessel that gives way takes early and substantial action.
pub(crate) fn r16(
    alloc: Global,
    ranks: Ranking,
    tick: u32,
    numbers: &RuleNumbers,
) -> Result<Rule, Memory>
    requires { AreRuleNumbers tick numbers.now }
    ensures { IfOk result
        (λ rule. named_tree rule ≡ rule_named (codes "r16") (r16 ranks tick numbers.now)) }
{
    let (begin, keeps_out) = paired(atom(Atom::Begin), keeps_out(alloc, ranks))?;
    let begins = both(alloc, begin, keeps_out)?;
    demanding(alloc, b"r16", begins, tick, numbers.ta, Atom::Apparent)
}

/// Rule 17(a): the vessel that stands on keeps her course and speed until she is free to act.
pub(crate) fn r17a(
    alloc: Global,
    ranks: Ranking,
    tick: u32,
    numbers: &RuleNumbers,
) -> Result<Rule, Memory>
    requires { AreRuleNumbers tick numbers.now }
    ensures { IfOk result
        (λ rule. named_tree rule ≡ rule_named (codes "r17a") (r17a ranks tick numbers.now)) }
{
    let stands = engaged_and(alloc, stands_on(alloc, ranks)?)?;
    let (stands, bound) = paired(stands, not_free(alloc, tick, numbers))?;
    let bound = both(alloc, stands, bound)?;
    forbidding(alloc, b"r17a", bound, Atom::Alters)
}

/// Rule 17(b): the vessel that stands on acts in extremis.
pub(crate) fn r17b(
    alloc: Global,
    ranks: Ranking,
    tick: u32,
    numbers: &RuleNumbers,
) -> Result<Rule, Memory>
    requires { AreRuleNumbers tick numbers.now }
    ensures { IfOk result
        (λ rule. named_tree rule ≡ rule_named (codes "r17b") (r17b ranks tick numbers.now)) }
{
    let (stands, in_extremis) = paired(stands_on(alloc, ranks)?, extremis(alloc, numbers))?;
    let in_extremis = both(alloc, stands, in_extremis)?;
    demanding(
        alloc,
        b"r17b",
        in_extremis,
        tick,
        numbers.tl,
        Atom::Apparent,
    )
}

/// Rule 17(c): crossing, the vessel that stands on does not alter course to port when she is free to act and not in extremis.
pub(crate) fn r17c(
    alloc: Global,
    ranks: Ranking,
    tick: u32,
    numbers: &RuleNumbers,
) -> Result<Rule, Memory>
    requires { AreRuleNumbers tick numbers.now }
    ensures { IfOk result
        (λ rule. named_tree rule ≡ rule_named (codes "r17c") (r17c ranks tick numbers.now)) }
{
    let stands = engaged_in(alloc, ranks, Atom::CrossingStands)?;
    let (stands, free) = paired(stands, free(alloc, tick, numbers))?;
    let may_act = both(alloc, stands, free)?;
    let (may_act, early) = paired(may_act, not_in_extremis(alloc, numbers))?;
    let early = both(alloc, may_act, early)?;
    forbidding(alloc, b"r17c", early, Atom::ToPort)
}

/// Returns the safe distance in an encounter of a kind without its own distance.
fn other_metres(safe: Safe) -> u32
    ensures { result ≡ other_metres safe }
{
    match safe {
        Safe::One(metres) => metres,
        Safe::PerKind { other, .. } => other,
    }
}

/// Rule 18: a vessel keeps out of the way of vessels that are less able to manoeuvre.
pub(crate) fn r18(alloc: Global, numbers: &RuleNumbers) -> Result<Rule, Memory>
    requires { AreSafeMetres numbers.now.safe }
    ensures { IfOk result (λ rule. named_tree rule ≡ rule_named (codes "r18") (r18 numbers.now)) }
{
    Ok(Rule::of(
        b"r18",
        passes_clear(alloc, atom(Atom::RankGives), other_metres(numbers.safe))?,
    ))
}
