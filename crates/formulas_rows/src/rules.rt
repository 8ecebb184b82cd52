//! The texts of the rules, their weights, and added rules.
use crate::compared::{is, is_true};
use crate::formulas::is_reprinted;
use mtl_formulas::weight;
use mtl_language::{ParseFault, parse, print};
use out_of_memory::Memory;
use rule_set::{Name, RuleNumbers, RuleSet, Safe};
use std::alloc::Global;
use std::process::Abort;

const TICK: u32 = 10;

const NUMBERS: RuleNumbers = RuleNumbers {
    safe: Safe::One(200),
    overtake: 250,
    close: 300,
    t8: 60,
    ta: 70,
    tl: 20,
    tw: 100,
    te: 600,
};

const PER_KIND: RuleNumbers = RuleNumbers {
    safe: Safe::PerKind {
        head_on: 100,
        overtaking: 200,
        crossing: 300,
        other: 400,
    },
    ..NUMBERS
};

/// Checks that the rule at an index has this name and prints as this text.
fn is_rule(
    rt: &impl Abort,
    alloc: Global,
    set: &RuleSet,
    k: usize,
    name: &[u8],
    text: &[u8],
) -> Result<(), Memory> {
    is_true(rt, k < set.len());
    let printed = print(alloc, set.formula(k), TICK)?;
    is(rt, (set.name(k), printed.as_slice()), (name, text));
    Ok(())
}

/// The rules in order: the name of each, its printed form, and a text with the same meaning.
static RULES: [(&[u8], &[u8], &[u8]); 11] = [
    (
        b"r8b",
        b"(alters -> F[0,60] (apparent | !engaged))",
        b"alters -> F[0,60] (apparent | !engaged)",
    ),
    (b"r8d", b"(engaged -> clear(200))", b"engaged -> clear(200)"),
    (
        b"r13",
        b"((engaged & overtaking) -> clear(250))",
        b"engaged & overtaking -> clear(250)",
    ),
    (
        b"r14a",
        b"((begin & head_on) -> F[0,70] (to_starboard | !engaged))",
        b"begin & head_on -> F[0,70] (to_starboard | !engaged)",
    ),
    (
        b"r14b",
        b"((engaged & head_on) -> !to_port)",
        b"engaged & head_on -> !to_port",
    ),
    (
        b"r14p",
        b"(((engaged & head_on) & opening) -> other_on_port)",
        b"engaged & head_on & opening -> other_on_port",
    ),
    (
        b"r15",
        b"((engaged & crossing_gives) -> !ahead)",
        b"engaged & crossing_gives -> !ahead",
    ),
    (
        b"r16",
        b"((begin & (overtaking | crossing_gives)) -> F[0,70] (apparent | !engaged))",
        b"begin & (overtaking | crossing_gives) -> F[0,70] (apparent | !engaged)",
    ),
    (
        b"r17a",
        b"(((engaged & (overtaken | crossing_stands)) & !(engaged S[0,600] ((age(100) & H[0,100] ((engaged & risk) & !other_apparent)) | ((engaged & risk) & close(300))))) -> !alters)",
        b"engaged & (overtaken | crossing_stands) & !(engaged S[0,600] ((age(100) & H[0,100] (engaged & risk & !other_apparent)) | (engaged & risk & close(300)))) -> !alters",
    ),
    (
        b"r17b",
        b"(((overtaken | crossing_stands) & ((engaged & risk) & close(300))) -> F[0,20] (apparent | !engaged))",
        b"(overtaken | crossing_stands) & (engaged & risk & close(300)) -> F[0,20] (apparent | !engaged)",
    ),
    (
        b"r17c",
        b"((((engaged & crossing_stands) & (engaged S[0,600] ((age(100) & H[0,100] ((engaged & risk) & !other_apparent)) | ((engaged & risk) & close(300))))) & !((engaged & risk) & close(300))) -> !to_port)",
        b"engaged & crossing_stands & (engaged S[0,600] ((age(100) & H[0,100] (engaged & risk & !other_apparent)) | (engaged & risk & close(300)))) & !(engaged & risk & close(300)) -> !to_port",
    ),
];

/// Checks that these are the rules of a set, and that they print like the texts with the same meaning.
fn are_meant(
    rt: &impl Abort,
    alloc: Global,
    set: &RuleSet,
    rules: &[(&[u8], &[u8], &[u8])],
) -> Result<(), ParseFault> {
    is(rt, set.len(), rules.len());
    for (k, (name, printed, meant)) in rules.iter().enumerate() {
        is_rule(rt, alloc, set, k, name, printed)?;
        is_reprinted(rt, alloc, meant, printed)?;
    }
    Ok(())
}

#[test]
fn each_rule_is_printed_as_its_text_means(rt: HostRuntime) -> Result<(), ParseFault> {
    let set = RuleSet::new(rt.alloc(), &NUMBERS, TICK)?;
    are_meant(&rt, rt.alloc(), &set, &RULES)
}

/// The same for the rules with ranks: the name of each, and its printed form.
static RANKED: [(&[u8], &[u8]); 12] = [
    (b"r8b", b"(alters -> F[0,60] (apparent | !engaged))"),
    (b"r8d", b"(engaged -> clear(200))"),
    (b"r13", b"((engaged & overtaking) -> clear(250))"),
    (
        b"r14a",
        b"(((begin & head_on) & both_power) -> F[0,70] (to_starboard | !engaged))",
    ),
    (b"r14b", b"(((engaged & head_on) & both_power) -> !to_port)"),
    (
        b"r14p",
        b"((((engaged & head_on) & both_power) & opening) -> other_on_port)",
    ),
    (
        b"r15",
        b"(((engaged & crossing_gives) & both_power) -> !ahead)",
    ),
    (
        b"r16",
        b"((begin & ((overtaking | rank_gives) | (crossing_gives & both_power))) -> F[0,70] (apparent | !engaged))",
    ),
    (
        b"r17a",
        b"(((engaged & ((overtaken | rank_stands) | (crossing_stands & both_power))) & !(engaged S[0,600] ((age(100) & H[0,100] ((engaged & risk) & !other_apparent)) | ((engaged & risk) & close(300))))) -> !alters)",
    ),
    (
        b"r17b",
        b"((((overtaken | rank_stands) | (crossing_stands & both_power)) & ((engaged & risk) & close(300))) -> F[0,20] (apparent | !engaged))",
    ),
    (
        b"r17c",
        b"(((((engaged & crossing_stands) & both_power) & (engaged S[0,600] ((age(100) & H[0,100] ((engaged & risk) & !other_apparent)) | ((engaged & risk) & close(300))))) & !((engaged & risk) & close(300))) -> !to_port)",
    ),
    (b"r18", b"((engaged & rank_gives) -> clear(200))"),
];

/// Checks that these are the rules of a set.
fn are_rules(
    rt: &impl Abort,
    alloc: Global,
    set: &RuleSet,
    rules: &[(&[u8], &[u8])],
) -> Result<(), Memory> {
    is(rt, set.len(), rules.len());
    for (k, (name, printed)) in rules.iter().enumerate() {
        is_rule(rt, alloc, set, k, name, printed)?;
    }
    Ok(())
}

#[test]
fn each_ranked_rule_is_printed(rt: HostRuntime) -> Result<(), Memory> {
    let set = RuleSet::new_ranked(rt.alloc(), &NUMBERS, TICK)?;
    are_rules(&rt, rt.alloc(), &set, &RANKED)
}

/// The printed form of the rule of the safe distance with one distance per kind.
const MEANT_PER_KIND: &[u8] =
    b"(engaged & head_on -> clear(100)) & (engaged & (overtaking | overtaken) -> clear(200)) & (engaged & (crossing_gives | crossing_stands) -> clear(300)) & (engaged & (passing | unclassified) -> clear(400))";

const PRINTED_PER_KIND: &[u8] =
    b"(((((engaged & head_on) -> clear(100)) & ((engaged & (overtaking | overtaken)) -> clear(200))) & ((engaged & (crossing_gives | crossing_stands)) -> clear(300))) & ((engaged & (passing | unclassified)) -> clear(400)))";

#[test]
fn a_distance_per_kind_has_a_part_each(rt: HostRuntime) -> Result<(), ParseFault> {
    is_reprinted(&rt, rt.alloc(), MEANT_PER_KIND, PRINTED_PER_KIND)?;
    let set = RuleSet::new(rt.alloc(), &PER_KIND, TICK)?;
    is_rule(&rt, rt.alloc(), &set, 1, b"r8d", PRINTED_PER_KIND)?;
    drop(set);
    let ranked = RuleSet::new_ranked(rt.alloc(), &PER_KIND, TICK)?;
    let last = b"((engaged & rank_gives) -> clear(400))";
    is_rule(&rt, rt.alloc(), &ranked, 11, b"r18", last)?;
    Ok(())
}

fn all_weigh(set: &RuleSet) -> u64 {
    let mut sum = 0u64;
    for k in 0..set.len() {
        sum = sum.saturating_add(weight(set.formula(k)));
    }
    sum
}

/// Compares the weight of the rules of a set.
fn weigh(rt: &impl Abort, set: Result<RuleSet, Memory>, wanted: u64) -> Result<(), Memory> {
    let set = set?;
    is(rt, all_weigh(&set), wanted);
    Ok(())
}

#[test]
fn the_rules_have_their_weights(rt: HostRuntime) -> Result<(), Memory> {
    let alloc = rt.alloc();
    // 7 * 7 + 7, 3, 5, 9 * 8 + 8, 6, 7, 6, 11 * 8 + 8, 27 + 11 + 61, 15 * 3 + 3, 31 + 11 + 61.
    weigh(&rt, RuleSet::new(alloc, &NUMBERS, TICK), 509)?;
    // The rule of the safe distance has 29 nodes instead of 3.
    weigh(&rt, RuleSet::new(alloc, &PER_KIND, TICK), 535)?;
    // With ranks, 16 more for r14a, 32 for r16, 4 for r17a, 12 for r17b, 2 each for r14b, r14p, r15 and r17c, and 5 for
    // r18.
    weigh(&rt, RuleSet::new_ranked(alloc, &NUMBERS, TICK), 586)
}

/// Adds a rule with the name `mine`.
fn add_mine(rt: &impl Abort, alloc: Global, set: &mut RuleSet) -> Result<(), ParseFault> {
    let name = Name::of(b"mine");
    is_true(rt, set.len() < 17 && !set.holds(name.bytes()));
    let formula = parse(alloc, b"F[0,20] risk", TICK)?;
    is_true(rt, set.add(name, formula).is_ok());
    Ok(())
}

/// Checks that the twelve rules are the eleven and `mine`.
fn are_with_mine(rt: &impl Abort, alloc: Global, set: &RuleSet) -> Result<(), Memory> {
    let held = (set.holds(b"r17c"), set.holds(b"mine"));
    is(rt, (held, set.len()), ((true, true), 12));
    is_rule(rt, alloc, set, 11, b"mine", b"F[0,20] risk")
}

#[test]
fn a_rule_is_added_behind_the_eleven(rt: HostRuntime) -> Result<(), ParseFault> {
    let mut set = RuleSet::new(rt.alloc(), &NUMBERS, TICK)?;
    add_mine(&rt, rt.alloc(), &mut set)?;
    are_with_mine(&rt, rt.alloc(), &set)?;
    Ok(())
}
