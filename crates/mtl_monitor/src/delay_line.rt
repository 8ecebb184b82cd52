//! Values on their way through a delay.
ghost use Rattle.std.specs.Prelude.{◌≡◌, ◌+◌, nat_lt, true, false, if◌then◌else◌, min, IfOk, IfSome};
ghost use Rattle.mtl_formulas.specs.declared.verdict.Verdict.TheVariants.{Open};
ghost use Rattle.mtl_monitor.specs.Inner.Steps.{same_verdict, ring_value, ring_after, run_after, delayed_from};
ghost use Rattle.mtl_monitor.specs.Inner.Starting.{undelayed};
ghost use Rattle.mtl_monitor.specs.Inner.Runs.{IsFullAs, IsFullOf, IsRun};

use crate::copying::copy_ring;
use crate::node::Passed;
use crate::verdicts::is_same;
use circular_buffer::HeapCircularBuffer;
use mtl_formulas::Verdict;
use out_of_memory::Memory;
use std::alloc::Global;
use std::marker::Model;

/// The value that was read last, and how often without another, counted up to the cells of its ring.
#[derive(Clone, Copy)]
pub(crate) struct Run {
    pub value: Verdict,
    pub count: usize,
}

const NO_RUN: Run = Run {
    value: Verdict::Open,
    count: 0,
};

/// The values on their way, and how often the last one was read.
#[derive(Drop)]
pub(crate) struct Delayed {
    pub ring: HeapCircularBuffer<Verdict>,
    pub run: Run,
}

/// How often a value was read, up to so many cells.
fn counted(count: usize, same: bool, cells: usize) -> usize
    ensures { result ≡ (if same then min (count + 1) cells else min 1 cells) }
{
    if same {
        count.saturating_add(1).min(cells)
    } else {
        cells.min(1)
    }
}

impl Run {
    /// Counts a value, up to so many cells.
    fn read(&mut self, cells: usize, value: Verdict)
        ensures { self.new ≡ run_after self.old cells value }
    {
        self.count = counted(self.count, is_same(value, self.value), cells);
        self.value = value;
    }
}

fn push(ring: &mut HeapCircularBuffer<Verdict>, run: &mut Run, value: Verdict) -> Passed
    ensures value { result.value ≡ ring_value ring.old value }
    ensures ring { ring.new ≡ ring_after ring.old value }
    ensures run { run.new ≡ run_after run.old ring.old.capacity value }
    ensures still { result.moved ≡ false
        → (same_verdict value run.old.value ≡ true) × (run.old.count ≡ ring.old.capacity) }
{
    let cells = ring.capacity();
    let moved = !(is_same(value, run.value) && run.count == cells);
    run.read(cells, value);
    match ring.push_back(value) {
        Some(value) => Passed { value, moved },
        None => Passed {
            value: Verdict::Open,
            moved,
        },
    }
}

fn delay(
    ring: &mut HeapCircularBuffer<Verdict>,
    run: &mut Run,
    from: u32,
    value: Verdict,
    i: u32,
) -> Passed
    ensures value { result.value ≡ (if nat_lt i from then Open else ring_value ring.old value) }
    ensures ring { ring.new ≡ (if nat_lt i from then ring.old else ring_after ring.old value) }
    ensures run { run.new
        ≡ (if nat_lt i from then run.old else run_after run.old ring.old.capacity value) }
    ensures still { result.moved ≡ false → IsRun ring.old run.old
        → (ring.new ≡ ring.old) × (run.new ≡ run.old) }
{
    if i >= from {
        push(ring, run, value)
    } else {
        Passed {
            value: Verdict::Open,
            moved: false,
        }
    }
}

/// Returns the value that all cells hold, if they hold one alone.
fn only_value(delayed: &Delayed) -> Option<Verdict>
    ensures { IfSome result (IsFullOf delayed.now) }
{
    if delayed.run.count == delayed.ring.capacity() {
        Some(delayed.run.value)
    } else {
        None
    }
}

/// A delay in a block of its own.
#[derive(Drop)]
pub(crate) struct DelayLine {
    place: Box<Delayed>,
    /// The value that all cells hold, if they are known to hold one alone.
    only: Option<Verdict>,
}

impl Model for DelayLine {
    ghost use Rattle.mtl_monitor.specs.declared.delay_line.Delayed.{Delayed};

    ghost Value = { Delayed };

    ghost view = { λ line. line.place.value };

    ghost use Rattle.std.specs.Prelude.{IfSome};
    ghost use Rattle.mtl_monitor.specs.Inner.Runs.{IsFullOf, IsRun};

    ghost invariant = { λ line. IsRun line.place.value.ring line.place.value.run
        × IfSome line.only (IsFullOf line.place.value) };
}

impl DelayLine {
    /// Returns the delay by this number of values, before the first is read.
    pub(crate) fn new(alloc: Global, cells: usize) -> Result<DelayLine, Memory>
        ensures { IfOk result (λ line. line ≡ undelayed cells) }
    {
        let Ok(ring) = HeapCircularBuffer::with_capacity(alloc, cells) else {
            return Err(Memory);
        };
        match Box::new(alloc, Delayed { ring, run: NO_RUN }) {
            Ok(place) => Ok(DelayLine { place, only: None }),
            Err(_) => Err(Memory),
        }
    }

    /// Returns whether all cells are known to hold this value alone.
    fn holds_only(&self, value: Verdict) -> bool
        ensures { result ≡ true → IsFullAs self.now value }
    {
        match self.only {
            None => false,
            Some(only) => is_same(value, only),
        }
    }

    /// Returns whether both are known to be full of the same value: then they are equal, if they have as many cells.
    fn is_full_alike(&self, other: &DelayLine) -> bool
        ensures { result ≡ true → self.now.ring.capacity ≡ other.now.ring.capacity
            → self.now ≡ other.now }
    {
        match (self.only, other.only) {
            (Some(value), Some(other)) => is_same(value, other),
            _ => false,
        }
    }

    /// Passes a value at row `i`. There is none before row `from`.
    pub(crate) fn pass(&mut self, from: u32, value: Verdict, i: u32) -> Passed
        ensures value { result.value
            ≡ (if nat_lt i from then Open else ring_value self.old.ring value) }
        ensures after { self.new ≡ delayed_from self.old from value i }
        ensures still { result.moved ≡ false → self.new ≡ self.old }
    {
        if i >= from && self.holds_only(value) {
            return Passed {
                value,
                moved: false,
            };
        }
        let place = &mut *self.place;
        let passed = delay(&mut place.ring, &mut place.run, from, value, i);
        self.only = only_value(&self.place);
        passed
    }

    /// Takes over what another delay by as many values holds. Most delays hold one value alone for long, so nothing is written
    /// where both do.
    pub(crate) fn copy_from(&mut self, other: &DelayLine)
        requires { self.old.ring.capacity ≡ other.now.ring.capacity }
        ensures { self.new ≡ other.now }
    {
        if self.is_full_alike(other) {
            return;
        }
        let place = &mut *self.place;
        copy_ring(&mut place.ring, &other.place.ring);
        place.run = other.place.run;
        self.only = other.only;
    }
}
