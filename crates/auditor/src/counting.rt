//! The totals of the rules, counted track by track.
ghost use Rattle.std.specs.Prelude.{◌≡◌, ◌==◌, [], ℕ, List, length, IfOk};
ghost use Rattle.audit_rows.specs.Standing.{QueueStandsFor};
ghost use Rattle.audit_rows.specs.Tracks.{EndAt, Track};
ghost use Rattle.audit_rows.specs.declared.row.Row.{Row};
ghost use Rattle.auditor.specs.Inner.TrackCounts.{AddsTrack};
ghost use Rattle.auditor.specs.Tallies.{AreTallies, is_of_rule};

use crate::total::Total;
use audit_rows::{MarkCounts, RowQueue, Topic};
use out_of_memory::Memory;
use std::alloc::Global;

/// Counts a track for its rule, if it is the track of a rule.
fn take_track(totals: &mut [Total], topic: Topic, counts: MarkCounts)
    ensures { AddsTrack (λ rule. is_of_rule rule topic) counts totals.old totals.new }
{
    match topic {
        Topic::Meeting(_) => {}
        Topic::Verdict(_, rule) => take_rule(totals, rule as usize, counts),
    }
}

/// Counts a track of a rule, if there is a total of that rule.
fn take_rule(totals: &mut [Total], rule: usize, counts: MarkCounts)
    ensures { AddsTrack (λ other. rule == other) counts totals.old totals.new }
{
    if rule < totals.len() {
        totals[rule].take(counts);
    }
}

/// Counts all tracks; their next marks would be for step `end`.
fn take_tracks(totals: &mut [Total], queue: &RowQueue, end: u32)
    ensures as_many { length totals.new ≡ length totals.old }
    ensures tallies { (rules bound : ℕ) (tracks : List Track) (given : List Row)
        → QueueStandsFor queue.now tracks bound given → EndAt end tracks
        → AreTallies totals.old rules [] → AreTallies totals.new rules tracks }
{
    for index in 0..queue.track_count() {
        if let Some((topic, counts)) = queue.counts(index, end) {
            take_track(totals, topic, counts);
        }
    }
}

/// Returns one total for each of `rules` rules over all tracks; their next marks would be for step `end`.
pub fn totals_of(
    alloc: Global,
    queue: &RowQueue,
    rules: usize,
    end: u32,
) -> Result<Vec<Total>, Memory>
    ensures { IfOk result
        (λ totals. (tracks : List Track) (bound : ℕ) (given : List Row)
        → QueueStandsFor queue.now tracks bound given → EndAt end tracks
        → AreTallies totals.items rules tracks) }
{
    let mut totals = vec![in alloc; Total::default(); rules]?;
    take_tracks(&mut totals, queue, end);
    Ok(totals)
}
