//! The pairs with a trace.
ghost use Rattle.std.specs.Prelude.{◌≡◌, ◌↔◌, ◌⊎◌, [], IsTrue, OnOk};
ghost use Rattle.std.specs.List.{Contains};
ghost use Rattle.meetings.specs.declared.pair.Pair.{Pair};

use meetings::Pair;
use out_of_memory::Memory;
use std::collections::BTreeSet;

/// Returns whether a pair is among these.
pub fn is_among(pairs: &BTreeSet<Pair>, pair: Pair) -> bool
    ensures { IsTrue result ↔ Contains pairs.now.keys pair }
{
    pairs.contains(&pair)
}

/// Adds a pair to these.
pub fn add(pairs: &mut BTreeSet<Pair>, pair: Pair) -> Result<(), Memory>
    ensures { OnOk result
        ((other : Pair) → Contains pairs.new.keys other
        ↔ (Contains pairs.old.keys other ⊎ (pair ≡ other))) }
{
    pairs.insert(pair)?;
    Ok(())
}

/// Returns whether a pair is audited, whichever of the two is the subject; without subjects, every pair is audited.
pub fn is_chosen(subjects: &[u32], pair: Pair) -> bool
    ensures { IsTrue result
        ↔ ((subjects.now ≡ []) ⊎ Contains subjects.now pair.subject
        ⊎ Contains subjects.now pair.other) }
{
    subjects.is_empty() || has_one(subjects, pair)
}

/// Returns whether one of a pair is among these. They are few, so a linear search suffices.
fn has_one(subjects: &[u32], pair: Pair) -> bool
    ensures { IsTrue result
        ↔ (Contains subjects.now pair.subject ⊎ Contains subjects.now pair.other) }
{
    for mmsi in subjects {
        if is_one(pair, *mmsi) {
            return true;
        }
    }
    false
}

/// Returns whether a vessel is one of a pair.
fn is_one(pair: Pair, mmsi: u32) -> bool
    ensures { IsTrue result ↔ ((mmsi ≡ pair.subject) ⊎ (mmsi ≡ pair.other)) }
{
    mmsi == pair.subject || mmsi == pair.other
}
