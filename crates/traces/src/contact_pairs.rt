//! Finds the vessels in contact at a tick by a sweep from west to east. Each vessel, or each subject if there are
//! subjects, is tested only against vessels at most the watch distance further east.
ghost use Rattle.std.specs.Prelude.{◌≡◌, ◌<◌, ◌≤◌, ◌^◌, [], Some, IfOk, IfSome, IsTrue, ◌↔◌, ◌-ℤ◌, ◌≤ℤ◌, pos, IsPermutation};
ghost use Rattle.std.specs.List.{Contains};
ghost use Rattle.fixed_geometry.specs.Sizes.{IsBelow};
ghost use Rattle.meetings.specs.declared.pair.Pair.{Pair};
ghost use Rattle.traces.specs.Audited.{AreAscending, ArePlaced};
ghost use Rattle.traces.specs.Contacts.{AreContacts};
ghost use Rattle.traces.specs.Inner.Pairing.{AreWestToEast, AreJoined, MakePair, HasPairWith, HasPair, HasPairOf, HasSubjectPair, AreAdded};

use meetings::{Pair, contact};
use motion::TickState;
use out_of_memory::Memory;
use std::alloc::Global;

/// Returns the pair of two vessels if they are in contact. The first one has the lesser MMSI.
fn joined(first: &(u32, TickState), second: &(u32, TickState), watch: u64) -> Option<Pair>
    requires first { IsBelow (2 ^ 33) first.now.1.point }
    requires second { IsBelow (2 ^ 33) second.now.1.point }
    requires order { first.now.0 < second.now.0 }
    requires watch { watch ≤ 1000000000 }
    ensures sound { IfSome result (AreJoined watch first.now second.now) }
    ensures complete { (pair : Pair) → AreJoined watch first.now second.now pair
        → result ≡ Some pair }
{
    if contact(&first.1, &second.1, watch) {
        Some(Pair {
            subject: first.0,
            other: second.0,
        })
    } else {
        None
    }
}

/// Returns the pair of two vessels, if they are in contact.
fn pair_of(a: &(u32, TickState), b: &(u32, TickState), watch: u64) -> Option<Pair>
    requires a { IsBelow (2 ^ 33) a.now.1.point }
    requires b { IsBelow (2 ^ 33) b.now.1.point }
    requires watch { watch ≤ 1000000000 }
    ensures sound { IfSome result (MakePair watch a.now b.now) }
    ensures complete { (pair : Pair) → MakePair watch a.now b.now pair → result ≡ Some pair }
{
    if a.0 < b.0 {
        joined(a, b, watch)
    } else if b.0 < a.0 {
        joined(b, a, watch)
    } else {
        None
    }
}

/// Adds the pair of two vessels, if they are in contact.
fn add_pair(
    pairs: &mut Vec<Pair>,
    a: &(u32, TickState),
    b: &(u32, TickState),
    watch: u64,
) -> Result<(), Memory>
    requires a { IsBelow (2 ^ 33) a.now.1.point }
    requires b { IsBelow (2 ^ 33) b.now.1.point }
    requires watch { watch ≤ 1000000000 }
    ensures { IfOk result
        (λ _. AreAdded pairs.old.items (MakePair watch a.now b.now) pairs.new.items) }
{
    if let Some(pair) = pair_of(a, b, watch) {
        pairs.push(pair)?;
    }
    Ok(())
}

/// Returns whether the other vessel lies at most `watch` to the east of a vessel.
fn is_in_reach(vessel: &(u32, TickState), other: &(u32, TickState), watch: u64) -> bool
    requires vessel { IsBelow (2 ^ 33) vessel.now.1.point }
    requires other { IsBelow (2 ^ 33) other.now.1.point }
    requires watch { watch ≤ 1000000000 }
    ensures { IsTrue result ↔ (other.now.1.point.x -ℤ vessel.now.1.point.x) ≤ℤ pos watch }
{
    other.1.point.x - vessel.1.point.x <= watch as i64
}

/// Adds the pairs of a vessel with the others. It stops at the first vessel that is too far east.
fn add_pairs(
    pairs: &mut Vec<Pair>,
    vessel: &(u32, TickState),
    others: &[(u32, TickState)],
    watch: u64,
) -> Result<(), Memory>
    requires vessel { IsBelow (2 ^ 33) vessel.now.1.point }
    requires others { ArePlaced others.now }
    requires order { AreWestToEast others.now }
    requires watch { watch ≤ 1000000000 }
    ensures { IfOk result
        (λ _. AreAdded pairs.old.items (HasPairWith watch vessel.now others.now) pairs.new.items) }
{
    for other in others {
        if !is_in_reach(vessel, other, watch) {
            return Ok(());
        }
        add_pair(pairs, vessel, other, watch)?;
    }
    Ok(())
}

/// Returns the pairs of vessels that stand from west to east.
fn pairs_among(alloc: Global, vessels: &[(u32, TickState)], watch: u64) -> Result<Vec<Pair>, Memory>
    requires placed { ArePlaced vessels.now }
    requires order { AreWestToEast vessels.now }
    requires watch { watch ≤ 1000000000 }
    ensures { IfOk result (λ pairs. AreAdded [] (HasPair watch vessels.now) pairs.items) }
{
    let mut pairs = Vec::new(alloc);
    for (index, vessel) in vessels.iter().enumerate() {
        add_pairs(&mut pairs, vessel, &vessels[index + 1..], watch)?;
    }
    Ok(pairs)
}

/// Returns whether a vessel is among these.
fn is_one_of(subjects: &[u32], vessel: &(u32, TickState)) -> bool
    ensures { IsTrue result ↔ Contains subjects.now vessel.now.0 }
{
    subjects.contains(&vessel.0)
}

/// Adds the pairs of a vessel with all, if she is among the subjects.
fn add_pairs_of(
    pairs: &mut Vec<Pair>,
    subjects: &[u32],
    vessel: &(u32, TickState),
    vessels: &[(u32, TickState)],
    watch: u64,
) -> Result<(), Memory>
    requires vessel { IsBelow (2 ^ 33) vessel.now.1.point }
    requires vessels { ArePlaced vessels.now }
    requires order { AreWestToEast vessels.now }
    requires watch { watch ≤ 1000000000 }
    ensures { IfOk result
        (λ _. AreAdded pairs.old.items
        (HasPairOf watch subjects.now vessel.now vessels.now) pairs.new.items) }
{
    if !is_one_of(subjects, vessel) {
        return Ok(());
    }
    add_pairs(pairs, vessel, vessels, watch)
}

/// Returns the pairs of vessels that stand from west to east in which one of the subjects is: each of these is tested
/// against all.
fn pairs_with(
    alloc: Global,
    subjects: &[u32],
    vessels: &[(u32, TickState)],
    watch: u64,
) -> Result<Vec<Pair>, Memory>
    requires placed { ArePlaced vessels.now }
    requires order { AreWestToEast vessels.now }
    requires watch { watch ≤ 1000000000 }
    ensures { IfOk result
        (λ pairs. AreAdded []
        (HasSubjectPair watch subjects.now vessels.now vessels.now) pairs.items) }
{
    let mut pairs = Vec::new(alloc);
    for vessel in vessels {
        add_pairs_of(&mut pairs, subjects, vessel, vessels, watch)?;
    }
    Ok(pairs)
}

/// Returns the vessels in the order of their eastings.
fn west_to_east(alloc: Global, seen: &[(u32, TickState)]) -> Result<Vec<(u32, TickState)>, Memory>
    ensures same { IfOk result (λ vessels. IsPermutation seen.now vessels.items) }
    ensures order { IfOk result (λ vessels. AreWestToEast vessels.items) }
{
    let mut vessels = seen.to_vec(alloc)?;
    vessels.sort_unstable_by_key(|vessel| vessel.1.point.x);
    Ok(vessels)
}

/// Returns the pairs of vessels that are at most `watch` apart, the one with the lesser MMSI first, in no certain order: those with
/// a subject, or all if there are no subjects. `watch` is tenths of a millimetre, at most 10^9. The vessels ascend by their MMSIs, and their components are below 2^33 in size. The only error
/// is out of memory.
pub fn contacts(
    alloc: Global,
    subjects: &[u32],
    seen: &[(u32, TickState)],
    watch: u64,
) -> Result<Vec<Pair>, Memory>
    requires ascending { AreAscending seen.now }
    requires placed { ArePlaced seen.now }
    requires watch { watch ≤ 1000000000 }
    ensures { IfOk result (λ pairs. AreContacts subjects.now watch seen.now pairs.items) }
{
    let vessels = west_to_east(alloc, seen)?;
    if subjects.is_empty() {
        return pairs_among(alloc, &vessels, watch);
    }
    pairs_with(alloc, subjects, &vessels, watch)
}
