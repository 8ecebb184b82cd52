//! Many tracks at once, and their rows in one order.
ghost use Rattle.std.specs.Prelude.{◌≡◌, ◌≤◌, ◌++◌, ◌∷◌, [], ℕ, List, length, IfOk, OnOk};
ghost use Rattle.std.specs.List.{AllZip, slice_get};
ghost use Rattle.std.specs.Map.{values_of};
ghost use Rattle.audit_rows.specs.declared.row.Row.{Row};
ghost use Rattle.audit_rows.specs.Inner.Lanes.{Stands};
ghost use Rattle.audit_rows.specs.Inner.Queues.{IsPopped};
ghost use Rattle.audit_rows.specs.MarkCounts.{IsCountOf};
ghost use Rattle.audit_rows.specs.Rows.{AreRows, AreRowsBelow};
ghost use Rattle.audit_rows.specs.Standing.{ArePlaced, Holds, QueueStandsFor};
ghost use Rattle.audit_rows.specs.Tracks.{AreSettled, EndAt, IsNew, IsNextAt, Track, begun, marked};

use crate::counts::MarkCounts;
use crate::lane::Lane;
use crate::mark::Mark;
use crate::row::Row;
use crate::sort_key::SortKey;
use crate::topic::Topic;
use out_of_memory::Memory;
use std::alloc::Global;
use std::collections::BTreeMap;

/// Removes the first rows that end below the bound, and returns them.
fn pop_below(
    alloc: Global,
    pending: &mut BTreeMap<SortKey, Row>,
    bound: u32,
) -> Result<Vec<Row>, Memory>
    ensures { IfOk result
        (λ rows. ArePlaced pending.old.entries
        → IsPopped bound pending.old.entries rows.items pending.new.entries) }
{
    let mut rows = Vec::new(alloc);
    while let Some((place, _)) = pending.first_key_value() {
        if bound <= place.last {
            break;
        }
        if let Some((_, row)) = pending.pop_first() {
            rows.push(row)?;
        }
    }
    Ok(rows)
}

/// Removes all rows, and appends them to others.
fn pop_all(pending: &mut BTreeMap<SortKey, Row>, rows: &mut Vec<Row>) -> Result<(), Memory>
    ensures { OnOk result (rows.new.items ≡ rows.old.items ++ values_of pending.old.entries) }
{
    while let Some((_, row)) = pending.pop_first() {
        rows.push(row)?;
    }
    Ok(())
}

/// Adds the rows that the end of all tracks closes.
fn end_all(lanes: &[Lane], end: u32, pending: &mut BTreeMap<SortKey, Row>) -> Result<(), Memory>
    ensures { OnOk result
        ((tracks : List Track) (bound : ℕ) (given : List Row) → AllZip Stands lanes.now tracks
        → EndAt end tracks → Holds pending.old.entries tracks bound given
        → AreRows tracks (given ++ values_of pending.new.entries)) }
{
    for lane in lanes {
        if let Some(row) = lane.end(end) {
            pending.insert(row.place(), row)?;
        }
    }
    Ok(())
}

/// Takes the marks of many tracks, one after the other, and returns their rows in order, each as soon as no further
/// mark can change the rows before it. Its model is the tracks, a bound, and the rows that it has returned: those that
/// end below the bound. After an `Err` the caller may only drop it.
#[derive(Drop)]
pub struct RowQueue {
    alloc: Global,
    lanes: Vec<Lane>,
    /// The rows that no further mark changes and that were not returned yet.
    pending: BTreeMap<SortKey, Row>,
}

impl RowQueue {
    /// Returns a queue without tracks. This takes no memory.
    pub fn new(alloc: Global) -> RowQueue
        ensures { QueueStandsFor result [] 0 [] }
    {
        RowQueue {
            alloc,
            lanes: Vec::new(alloc),
            pending: BTreeMap::new(alloc),
        }
    }

    /// Begins a track and returns its index: the number of tracks before it. No other track may have its topic, and it
    /// must not begin below the bound of the rows returned so far.
    pub fn begin(&mut self, topic: Topic) -> Result<usize, Memory>
        ensures index { IfOk result
            (λ index. (tracks : List Track) (bound : ℕ) (given : List Row)
            → QueueStandsFor self.old tracks bound given → index ≡ length tracks) }
        ensures stands { OnOk result
            ((tracks : List Track) (bound first : ℕ) (given : List Row)
            → QueueStandsFor self.old tracks bound given → IsNew topic tracks → bound ≤ first
            → QueueStandsFor self.new (tracks ++ begun topic first ∷ []) bound given) }
    {
        let index = self.lanes.len();
        self.lanes.push(Lane::new(topic))?;
        Ok(index)
    }

    /// Takes the next mark, which is for the step, of the track at the index. If there is no such track it does nothing.
    #[inline(always)]
    pub fn mark(&mut self, index: usize, step: u32, mark: Mark) -> Result<(), Memory>
        ensures { OnOk result
            ((tracks : List Track) (bound : ℕ) (given : List Row)
            → QueueStandsFor self.old tracks bound given → IsNextAt tracks index step
            → QueueStandsFor self.new (marked tracks index mark) bound given) }
    {
        let Some(lane) = self.lanes.get_mut(index) else {
            return Ok(());
        };
        if let Some(row) = lane.push(step, mark) {
            self.pending.insert(row.place(), row)?;
        }
        Ok(())
    }

    /// Returns the next rows that end below the bound, up to which the tracks must be settled. The bound must not
    /// decrease.
    pub fn rows_below(&mut self, bound: u32) -> Result<Vec<Row>, Memory>
        ensures stands { IfOk result
            (λ rows. (tracks : List Track) (old : ℕ) (given : List Row)
            → QueueStandsFor self.old tracks old given → old ≤ bound → AreSettled bound tracks
            → QueueStandsFor self.new tracks bound (given ++ rows.items)) }
        ensures rows { IfOk result
            (λ rows. (tracks : List Track) (old : ℕ) (given : List Row)
            → QueueStandsFor self.old tracks old given → old ≤ bound → AreSettled bound tracks
            → AreRowsBelow bound tracks (given ++ rows.items)) }
    {
        pop_below(self.alloc, &mut self.pending, bound)
    }

    /// Returns the number of tracks.
    pub fn track_count(&self) -> usize
        ensures { (tracks : List Track) (bound : ℕ) (given : List Row)
            → QueueStandsFor self.now tracks bound given → result ≡ length tracks }
    {
        self.lanes.len()
    }

    /// Returns the topic and the counts of the track at the index, if the next mark of each track would be for the
    /// step. `None` if there is no such track.
    pub fn counts(&self, index: usize, end: u32) -> Option<(Topic, MarkCounts)>
        ensures { (tracks : List Track) (bound : ℕ) (given : List Row)
            → QueueStandsFor self.now tracks bound given → EndAt end tracks
            → IsCountOf result (slice_get tracks index) }
    {
        let lane = self.lanes.get(index)?;
        Some((lane.topic(), lane.counts(end)))
    }

    /// Ends all tracks, whose next marks would be for the step, and returns the remaining rows.
    pub fn finish(self, end: u32) -> Result<Vec<Row>, Memory>
        ensures { IfOk result
            (λ rows. (tracks : List Track) (bound : ℕ) (given : List Row)
            → QueueStandsFor self tracks bound given → EndAt end tracks
            → AreRows tracks (given ++ rows.items)) }
    {
        let mut rows = Vec::new(self.alloc);
        self.finish_into(end, &mut rows)?;
        Ok(rows)
    }

    /// Ends all tracks, whose next marks would be for the step, and appends the remaining rows to others.
    pub fn finish_into(mut self, end: u32, rows: &mut Vec<Row>) -> Result<(), Memory>
        ensures { OnOk result
            ((rest : List Row) × (rows.new.items ≡ rows.old.items ++ rest)
            × ((tracks : List Track) (bound : ℕ) (given : List Row)
            → QueueStandsFor self tracks bound given → EndAt end tracks
            → AreRows tracks (given ++ rest))) }
    {
        end_all(&self.lanes, end, &mut self.pending)?;
        pop_all(&mut self.pending, rows)
    }
}
