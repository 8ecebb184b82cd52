//! What an operator U keeps of the positions ahead.
ghost use Rattle.std.specs.Prelude.{◌≡◌, ◌≤◌, [], length, IfOk};
ghost use Rattle.circular_buffer.specs.Buffer.{buffer};
ghost use Rattle.mtl_monitor.specs.Inner.Lookahead.{joined, nowhere, with_all_after, lookahead_after, lookahead_value, untouched};

use crate::verdicts::{greater, lesser};
use circular_buffer::HeapCircularBuffer;
use mtl_formulas::Verdict;
use out_of_memory::Memory;
use std::alloc::Global;

/// What a stretch of positions gives an U: whether the first operand holds at all of them, and whether the second is reached
/// at one of them with the first at all before it.
#[derive(Clone, Copy)]
pub(crate) struct Stretch {
    pub held: Verdict,
    pub reached: Verdict,
}

/// No position.
const NOWHERE: Stretch = Stretch {
    held: Verdict::Yes,
    reached: Verdict::No,
};

/// The positions of a window ahead, in blocks as long as the window: `older` cells of the block before, each summed up with
/// all that follow it there, then a cell for each position of the block that is read now, and the sum of these.
///
/// A block is summed up once it is full, so a position costs a constant on the average.
#[derive(Drop)]
pub(crate) struct Lookahead {
    pub cells: HeapCircularBuffer<Stretch>,
    pub older: usize,
    pub run: Stretch,
}

impl Lookahead {
    pub(crate) fn new(alloc: Global, width: u32) -> Result<Lookahead, Memory>
        ensures { IfOk result (λ s. s ≡ untouched width) }
    {
        match HeapCircularBuffer::with_capacity(alloc, width as usize) {
            Ok(cells) => Ok(Lookahead {
                cells,
                older: 0,
                run: NOWHERE,
            }),
            Err(_) => Err(Memory),
        }
    }

    /// Reads one position more, at which the operands have these values.
    pub(crate) fn read(&mut self, a: Verdict, b: Verdict)
        ensures { self.new ≡ lookahead_after self.old a b }
    {
        let here = Stretch {
            held: a,
            reached: b,
        };
        self.cells.push_back(here);
        self.older = self.older.saturating_sub(1);
        self.run = joined(self.run, here);
        if self.older == 0 && self.cells.is_full() {
            sum_up(&mut self.cells);
            self.older = self.cells.capacity();
            self.run = NOWHERE;
        }
    }

    /// Returns the value over the whole window, once all of it was read.
    pub(crate) fn value(&self) -> Verdict
        ensures { result ≡ lookahead_value self.now }
    {
        match self.cells.front() {
            Some(first) => joined(*first, self.run).reached,
            None => self.run.reached,
        }
    }
}

/// One stretch and the next.
fn joined(x: Stretch, y: Stretch) -> Stretch
    ensures { result ≡ joined x y }
{
    Stretch {
        held: lesser(x.held, y.held),
        reached: greater(x.reached, lesser(x.held, y.reached)),
    }
}

/// Joins each of the cells with all that follow it, the last first. Each goes round to the front.
fn sum_up(cells: &mut HeapCircularBuffer<Stretch>)
    requires { length cells.old.items ≤ cells.old.capacity }
    ensures { cells.new ≡ buffer (with_all_after cells.old.items) cells.old.capacity }
{
    let mut after = NOWHERE;
    for _ in 0..cells.len() {
        if let Some(cell) = cells.pop_back() {
            after = joined(cell, after);
            cells.push_front(after);
        }
    }
}
