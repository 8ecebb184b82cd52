//! The ranks of vessels.
ghost use Rattle.std.specs.Prelude.{◌≡◌, ◌<◌, ◌++◌, ◌∷◌, [], List, IsOk, IsSome, OnErr, OnOk};
ghost use Rattle.std.specs.List.{AllPairs};
ghost use Rattle.std.specs.List.Sorted.{IsNonDecreasingBy};
ghost use Rattle.ranks.specs.Standing.{AreChangesOf, StandsFor, changes_of, rank_until};
ghost use Rattle.ranks.specs.VesselRanks.{Note, rank_at, rank_by_type, rank_in, ranks_by_kind, report_at};

use crate::change::Change;
use crate::changes::Changes;
use crate::rank::Rank;
use crate::reading::{last_report, rank_of_kind, rank_of_status};
use out_of_memory::Memory;
use std::alloc::Global;
use std::collections::BTreeMap;
use std::marker::Model;
use tracks::Accepted;

/// The ship types that vessels reported, as far as they count for ranks. Its model is the changes of each vessel's rank
/// by ship type, which stand for the list of the types noted so far.
#[derive(Drop)]
pub struct Ranks {
    alloc: Global,
    /// The vessels that once had another rank than `Power` by type.
    vessels: BTreeMap<u32, Changes>,
}

impl Model for Ranks {
    ghost use Rattle.std.specs.Prelude.{ℕ, List};
    ghost use Rattle.ranks.specs.declared.change.Change.{Change};

    ghost Value = { List (ℕ × List Change) };

    ghost view = { λ r. r.vessels.entries };
}

impl Ranks {
    /// Returns ranks without any types. This takes no memory.
    pub fn new(alloc: Global) -> Ranks
        ensures { StandsFor result [] }
    {
        Ranks {
            alloc,
            vessels: BTreeMap::new(alloc),
        }
    }

    /// Takes the ship type that the next line with ship data reports for a vessel, and the line's time. If the type gives her the rank that
    /// she had by type before that time, this takes no memory. If memory runs out, nothing changes.
    pub fn note(&mut self, mmsi: u32, time: u64, kind: u8) -> Result<(), Memory>
        ensures stands { OnOk result ((noted : List Note) → StandsFor self.old noted
            → StandsFor self.new (noted ++ record { mmsi = mmsi; time = time; kind = kind } ∷ [])) }
        ensures same { OnErr result (self.new ≡ self.old) }
        ensures known { rank_until (changes_of self.old mmsi) time ≡ rank_in ranks_by_kind kind
            → IsOk result }
    {
        let rank = rank_of_kind(kind);
        if let Some(changes) = self.vessels.get_mut(&mmsi) {
            return changes.note(time, rank);
        }
        if rank == Rank::Power {
            return Ok(());
        }
        let mut changes = Changes::new(self.alloc);
        changes.note(time, rank)?;
        self.vessels.insert(mmsi, changes)?;
        Ok(())
    }

    /// Returns the stored changes of a vessel's rank by ship type, in the order of times.
    pub fn changes(&self, mmsi: u32) -> &[Change]
        ensures kept { result.now ≡ changes_of self.now mmsi }
        ensures order { AllPairs (λ earlier later. earlier.time < later.time) result.now }
        ensures alone { (noted : List Note) → StandsFor self.now noted
            → AreChangesOf (rank_by_type noted mmsi) result.now }
    {
        match self.vessels.get(&mmsi) {
            None => &[],
            Some(changes) => changes.all(),
        }
    }

    /// Returns the rank that her ship type gives a vessel at a time.
    fn by_type(&self, mmsi: u32, time: u64) -> Rank
        ensures { (noted : List Note) → StandsFor self.now noted
            → result ≡ rank_by_type noted mmsi time }
    {
        match self.vessels.get(&mmsi) {
            None => Rank::Power,
            Some(changes) => changes.at(time),
        }
    }

    /// Returns the rank of a vessel at a time, by her accepted reports in the order of their times; at least one must
    /// be at or before this time. This takes no memory.
    pub fn rank(&self, mmsi: u32, points: &[Accepted], time: u64) -> Rank
        requires order { IsNonDecreasingBy (λ point. point.time) points.now }
        requires begun { IsSome (report_at points.now time) }
        ensures { (noted : List Note) → StandsFor self.now noted
            → result ≡ rank_at noted mmsi points.now time }
    {
        match rank_of_status(last_report(points, time).report.status) {
            Some(rank) => rank,
            None => self.by_type(mmsi, time),
        }
    }
}
