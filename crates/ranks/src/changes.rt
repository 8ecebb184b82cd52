//! The changes of one vessel's rank by ship type.
ghost use Rattle.std.specs.Prelude.{◌≡◌, ◌≤◌, ◌<◌, [], ℕ, length, IsOk, None, OnErr, OnOk, if◌then◌else◌, nat_le};
ghost use Rattle.std.specs.List.{last_or};
ghost use Rattle.std.specs.List.Sorted.{IsPartitionPoint};
ghost use Rattle.ranks.specs.Inner.ChangeOrder.{AreChanges};
ghost use Rattle.ranks.specs.Standing.{rank_after, rank_since, rank_until};
ghost use Rattle.ranks.specs.declared.change.Change.{Change};

use crate::change::Change;
use crate::rank::Rank;
use out_of_memory::Memory;
use std::alloc::Global;
use std::marker::Model;

/// Returns the number of changes up to the time, by bisection.
fn changes_by(changes: &[Change], time: u64) -> usize
    requires { AreChanges changes.now }
    ensures bound { result ≤ length changes.now }
    ensures parts { IsPartitionPoint (λ (change : Change). change.time ≤ time)
        (λ (change : Change). time < change.time) changes.now result }
{
    changes.partition_point(|change| change.time <= time)
}

/// Returns the number of changes before the time.
fn changes_before(changes: &[Change], time: u64) -> usize
    requires { AreChanges changes.now }
    ensures bound { result ≤ length changes.now }
    ensures parts { IsPartitionPoint (λ (change : Change). change.time < time)
        (λ (change : Change). time ≤ change.time) changes.now result }
{
    changes.partition_point(|change| change.time < time)
}

/// Returns the rank after the last change.
fn last_rank(changes: &[Change]) -> Rank
    ensures { result ≡ rank_since (last_or None changes.now) }
{
    match changes.last() {
        None => Rank::Power,
        Some(change) => change.rank,
    }
}

/// The changes of one vessel's rank by ship type, in the order of their times.
#[derive(Debug, Drop)]
pub(crate) struct Changes {
    changes: Vec<Change>,
}

impl Model for Changes {
    ghost use Rattle.std.specs.Prelude.{List};
    ghost use Rattle.ranks.specs.Inner.ChangeOrder.{AreChanges};
    ghost use Rattle.ranks.specs.declared.change.Change.{Change};

    ghost Value = { List Change };

    ghost view = { λ s. s.changes.items };

    ghost invariant = { λ s. AreChanges s.changes.items };
}

impl Changes {
    /// Returns no changes. This takes no memory.
    pub(crate) fn new(alloc: Global) -> Changes
        ensures { result ≡ [] }
    {
        Changes {
            changes: Vec::new(alloc),
        }
    }

    /// Returns all changes.
    pub(crate) fn all(&self) -> &[Change]
        ensures all { result.now ≡ self.now }
        ensures are { AreChanges result.now }
    {
        &self.changes
    }

    /// Returns the rank by ship type at a time.
    pub(crate) fn at(&self, time: u64) -> Rank
        ensures { result ≡ rank_after self.now time }
    {
        let come = changes_by(&self.changes, time);
        last_rank(&self.changes[..come])
    }

    /// Sets the rank from this time, and discards what was noted for this time and later. If the rank was the same
    /// before, this takes no memory. If memory runs out, nothing changes.
    pub(crate) fn note(&mut self, time: u64, rank: Rank) -> Result<(), Memory>
        ensures ok { OnOk result
            ((t : ℕ) → rank_after self.new t
            ≡ (if nat_le time t then rank else rank_after self.old t)) }
        ensures err { OnErr result (self.new ≡ self.old) }
        ensures known { rank_until self.old time ≡ rank → IsOk result }
    {
        let stay = changes_before(&self.changes, time);
        if last_rank(&self.changes[..stay]) == rank {
            self.changes.truncate(stay);
        } else {
            self.changes.insert(stay, Change { time, rank })?;
            self.changes.truncate(stay + 1);
        }
        Ok(())
    }
}
