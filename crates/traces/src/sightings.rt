//! Vessels that are seen at a tick.
ghost use Rattle.std.specs.Prelude.{◌≡◌, ◌<◌, ◌≤◌, true, get_or, length};
ghost use Rattle.std.specs.List.Sorted.{IsPartitionPoint};
ghost use Rattle.std.specs.Option.{option_copied};
ghost use Rattle.traces.specs.Inner.Places.{IsPlaceOf};
ghost use Rattle.traces.specs.Audited.{AreAscending, rank_in, state_in};
ghost use Rattle.ranks.specs.declared.rank.Rank.TheVariants.{Power};

use motion::TickState;
use ranks::Rank;

/// Returns the number of vessels with a smaller MMSI, by bisection.
fn count_below(seen: &[(u32, TickState)], mmsi: u32) -> usize
    requires { AreAscending seen.now }
    ensures bound { result ≤ length seen.now }
    ensures parts { IsPartitionPoint (λ vessel. vessel.0 < mmsi)
        (λ vessel. mmsi ≤ vessel.0) seen.now result }
{
    seen.partition_point(|vessel| vessel.0 < mmsi)
}

/// Returns whether this number of the vessels have a lesser MMSI, which the two at that place show.
#[inline(always)]
fn is_count_below(seen: &[(u32, TickState)], count: usize, mmsi: u32) -> bool
    requires { AreAscending seen.now }
    ensures { result ≡ true
        → IsPartitionPoint (λ vessel. vessel.0 < mmsi) (λ vessel. mmsi ≤ vessel.0) seen.now count }
{
    if seen.len() < count || (count > 0 && mmsi <= seen[count - 1].0) {
        return false;
    }
    count == seen.len() || mmsi <= seen[count].0
}

/// Returns the state of a vessel where so many of those seen have lesser MMSIs.
fn state_behind(seen: &[(u32, TickState)], below: usize, mmsi: u32) -> Option<&TickState>
    requires ascending { AreAscending seen.now }
    requires parts { IsPartitionPoint (λ vessel. vessel.0 < mmsi)
        (λ vessel. mmsi ≤ vessel.0) seen.now below }
    ensures { option_copied result ≡ state_in mmsi seen.now }
{
    let vessel = seen.get(below)?;
    if vessel.0 == mmsi {
        Some(&vessel.1)
    } else {
        None
    }
}

/// Returns the state of a vessel among those seen, which ascend by their MMSIs: `None` where she is not seen.
pub fn state_of(seen: &[(u32, TickState)], mmsi: u32) -> Option<&TickState>
    requires { AreAscending seen.now }
    ensures { option_copied result ≡ state_in mmsi seen.now }
{
    state_behind(seen, count_below(seen, mmsi), mmsi)
}

/// The same state, found without a search where the vessel has the place that is given. It may be any: where another vessel has
/// it, or none, she is searched. The place becomes hers where she is seen.
#[inline(always)]
pub(crate) fn state_near<'a>(
    seen: &'a [(u32, TickState)],
    mmsi: u32,
    place: &mut usize,
) -> Option<&'a TickState>
    requires { AreAscending seen.now }
    ensures { option_copied result ≡ state_in mmsi seen.now }
{
    if let Some(vessel) = seen.get(*place) {
        if vessel.0 == mmsi {
            return Some(&vessel.1);
        }
    }
    if !is_count_below(seen, *place, mmsi) {
        *place = count_below(seen, mmsi);
    }
    state_behind(seen, *place, mmsi)
}

/// Returns the place of a vessel among those seen, if she is among them: the one that is given, where she has it, or
/// the one that a search finds.
fn place_near(seen: &[(u32, TickState)], mmsi: u32, place: usize) -> usize
    requires { AreAscending seen.now }
    ensures { IsPlaceOf seen.now mmsi result }
{
    if let Some(vessel) = seen.get(place) {
        if vessel.0 == mmsi {
            return place;
        }
    }
    count_below(seen, mmsi)
}

/// Returns the rank at a place; a vessel without one is power-driven.
fn rank_at(ranks: &[Rank], place: usize) -> Rank
    ensures { result ≡ get_or ranks.now place Power }
{
    match ranks.get(place) {
        None => Rank::Power,
        Some(rank) => *rank,
    }
}

/// Returns the rank of a vessel among those seen, which have these ranks. The place is where she may be: where another
/// vessel has it, or none, she is searched.
pub(crate) fn rank_near(seen: &[(u32, TickState)], ranks: &[Rank], mmsi: u32, place: usize) -> Rank
    requires { AreAscending seen.now }
    ensures { result ≡ rank_in mmsi (record { vessels = seen.now; ranks = ranks.now }) }
{
    let place = place_near(seen, mmsi, place);
    match seen.get(place) {
        None => Rank::Power,
        Some(vessel) => {
            if vessel.0 == mmsi {
                rank_at(ranks, place)
            } else {
                Rank::Power
            }
        }
    }
}
