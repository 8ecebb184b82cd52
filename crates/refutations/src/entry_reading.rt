//! Reads an entry from its row. This takes no memory.
ghost use Rattle.std.specs.Prelude.{ℕ, ◌≡◌, ◌≢◌, ◌==◌, ◌<◌, ◌≤◌, List, [], ◌∷◌, length, position, IfSome, MatchOption};
ghost use Rattle.std.specs.List.{slice_split};
ghost use Rattle.closest_approach.specs.declared.nearest.Moment.{Moment};
ghost use Rattle.csv.specs.Records.{fields_of};
ghost use Rattle.lattice.specs.Grids.{choices_of};
ghost use Rattle.rule_set.specs.NamedTrees.{rule_at};
ghost use Rattle.refutations.specs.EntryRows.{IsEntryOf};
ghost use Rattle.refutations.specs.Inner.Readings.{parts_left, AreChoicesIn, IsMomentIn, IsNumberIn, IsReasonIn};
ghost use Rattle.refutations.specs.declared.entry.Reason.{Reason};
ghost use Rattle.refutations.specs.declared.entry.WhyEntry.{WhyEntry};

use crate::entry::{Reason, WhyEntry};
use crate::prefix::Prefix;
use closest_approach::Moment;
use csv::ByteRecord;
use itoa::Buffer;
use plan_situations::Situation;
use report_csv::digits;
use rule_set::RuleSet;
use smallvec::SmallVec;
use std::alloc::Global;

/// Returns the number of at most so much that is written so, in decimal and with no zero in front.
fn number_in(text: &[u8], most: u64) -> Option<u64>
    ensures { MatchOption result ((number : ℕ) → ¬ IsNumberIn text.now most number)
        (IsNumberIn text.now most) }
{
    let Ok(word) = std::str::from_utf8(text) else {
        return None;
    };
    let Ok(number) = word.parse::<u64>() else {
        return None;
    };
    if number > most {
        return None;
    }
    let mut buffer = Buffer::new();
    if digits(&mut buffer, number) != text {
        return None;
    }
    Some(number)
}

/// Where the first point of a text stands.
fn first_point(text: &[u8]) -> Option<usize>
    ensures { result ≡ position (λ byte. byte == 46) text.now }
{
    text.iter().position(|byte| *byte == b'.')
}

/// Returns the bytes before the first point, and those after it, if there is one.
fn first_part(text: &[u8]) -> (&[u8], Option<&[u8]>)
    ensures { slice_split (λ byte. byte == 46) text.now ≡ result.0.now ∷ parts_left result.1 }
{
    match first_point(text) {
        Some(at) => (&text[..at], Some(&text[at + 1..])),
        None => (text, None),
    }
}

/// Returns the prefix of at most this many legs, each of this many choices, that is written so.
fn choices_in(alloc: Global, text: &[u8], choices: u32, legs: u8) -> Option<Prefix>
    requires some { 1 ≤ choices }
    requires few { choices ≤ 512 }
    requires legs { legs ≤ 8 }
    ensures { MatchOption result ((prefix : List ℕ) → ¬ AreChoicesIn text.now choices legs prefix)
        (AreChoicesIn text.now choices legs) }
{
    let mut list = SmallVec::<u16, 8>::new(alloc);
    let mut left = Some(text);
    while let Some(rest) = left {
        if list.len() == usize::from(legs) {
            return None;
        }
        let (part, behind) = first_part(rest);
        let Some(choice) = number_in(part, u64::from(choices - 1)) else {
            return None;
        };
        list.push_reserved(choice as u16);
        left = behind;
    }
    Some(Prefix::of(alloc, list.as_slice()))
}

/// Returns the index of the rule with a name.
fn rule_in(rules: &RuleSet, name: &[u8]) -> Option<u32>
    ensures { MatchOption result
        ((index : ℕ) → index < length rules.now → (rule_at rules.now index).name ≢ name.now)
        (λ index. (index < length rules.now) × ((rule_at rules.now index).name ≡ name.now)) }
{
    for index in 0..rules.len() {
        if rules.name(index) == name {
            return Some(index as u32);
        }
    }
    None
}

/// Returns the moment of a domain, whose name this has to be.
fn moment_in(name: &[u8], a: &[u8], b: &[u8]) -> Option<Moment>
    ensures { MatchOption result ((moment : Moment) → ¬ IsMomentIn name.now a.now b.now moment)
        (IsMomentIn name.now a.now b.now) }
{
    if name != b"domain".as_slice() {
        return None;
    }
    let Some(a) = number_in(a, u64::MAX) else {
        return None;
    };
    match number_in(b, u64::MAX) {
        Some(b) => Some(Moment { a, b }),
        None => None,
    }
}

/// Returns the reason that is written so. A rule may be named `domain` too: with a moment it is a domain, without one
/// the rule of that name.
fn reason_in(situation: &Situation, name: &[u8], step: &[u8], a: &[u8], b: &[u8]) -> Option<Reason>
    ensures { MatchOption result
        ((reason : Reason)
        → ¬ IsReasonIn situation.now (name.now ∷ step.now ∷ a.now ∷ b.now ∷ []) reason)
        (IsReasonIn situation.now (name.now ∷ step.now ∷ a.now ∷ b.now ∷ [])) }
{
    let Some(tick) = number_in(step, u64::from(u32::MAX)) else {
        return None;
    };
    let step = tick as u32;
    if !a.is_empty() {
        return match moment_in(name, a, b) {
            Some(moment) => Some(Reason::Domain { step, moment }),
            None => None,
        };
    }
    if !b.is_empty() {
        return None;
    }
    match rule_in(&situation.rules, name) {
        Some(index) => Some(Reason::Rule { index, step }),
        None => None,
    }
}

/// The fields of a row.
#[derive(Clone, Copy)]
struct Row<'a> {
    kind: &'a [u8],
    choices: &'a [u8],
    target: &'a [u8],
    name: &'a [u8],
    step: &'a [u8],
    a: &'a [u8],
    b: &'a [u8],
}

/// Returns the fields of a record, if it has seven.
fn row_of(fields: &ByteRecord) -> Option<Row<'_>>
    ensures { MatchOption result (length (fields_of fields.now) ≢ 7)
        (λ row. fields_of fields.now
        ≡ row.kind.now ∷ row.choices.now ∷ row.target.now ∷ row.name.now ∷ row.step.now ∷ row.a.now
        ∷ row.b.now ∷ []) }
{
    if fields.len() != 7 {
        return None;
    }
    Some(Row {
        kind: fields.get(0)?,
        choices: fields.get(1)?,
        target: fields.get(2)?,
        name: fields.get(3)?,
        step: fields.get(4)?,
        a: fields.get(5)?,
        b: fields.get(6)?,
    })
}

/// Returns the entry whose row has exactly these fields; `None` if there is none. It is one that a check may be given.
pub fn read_entry(alloc: Global, situation: &Situation, fields: &ByteRecord) -> Option<WhyEntry>
    ensures entry { MatchOption result
        ((entry : WhyEntry) → ¬ IsEntryOf situation.now (fields_of fields.now) entry)
        (IsEntryOf situation.now (fields_of fields.now)) }
    ensures only { IfSome result
        (λ entry. (other : WhyEntry) → IsEntryOf situation.now (fields_of fields.now) other
        → other ≡ entry) }
{
    let Some(row) = row_of(fields) else {
        return None;
    };
    if row.kind != b"why".as_slice() {
        return None;
    }
    let lattice = &situation.lattice;
    let _rules = situation.rules.len();
    let Some(prefix) = choices_in(alloc, row.choices, lattice.choices(), lattice.legs()) else {
        return None;
    };
    let Some(target) = number_in(row.target, u64::from(u32::MAX)) else {
        return None;
    };
    match reason_in(situation, row.name, row.step, row.a, row.b) {
        Some(reason) => Some(WhyEntry {
            prefix,
            target: target as u32,
            reason,
        }),
        None => None,
    }
}
