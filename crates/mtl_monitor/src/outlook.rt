//! What an operator U keeps.
ghost use Rattle.std.specs.Prelude.{◌≡◌, IfOk};
ghost use Rattle.mtl_formulas.specs.VerdictOrder.{turned_round, least};
ghost use Rattle.mtl_monitor.specs.WindowCounts.{left_value};
ghost use Rattle.mtl_monitor.specs.Inner.Lookahead.{lookahead_value};
ghost use Rattle.mtl_monitor.specs.Inner.Steps.{before_after, window_read};
ghost use Rattle.mtl_monitor.specs.Inner.Starting.{unseen};

use crate::copying::copy_ring;
use crate::left::{Left, NOTHING};
use crate::lookahead::Lookahead;
use crate::verdicts::{lesser, negated};
use mtl_formulas::Verdict;
use out_of_memory::Memory;
use std::alloc::Global;
use std::marker::Model;

/// The window ahead, and what the first operand bars before it.
#[derive(Drop)]
pub(crate) struct Ahead {
    pub window: Lookahead,
    pub bars: Left,
}

/// What an U keeps, in a block of its own.
#[derive(Drop)]
pub(crate) struct Outlook {
    place: Box<Ahead>,
}

impl Model for Outlook {
    ghost use Rattle.mtl_monitor.specs.declared.outlook.Ahead.{Ahead};

    ghost Value = { Ahead };

    ghost view = { λ outlook. outlook.place.value };
}

impl Outlook {
    /// Before any position, for a window of so many.
    pub(crate) fn new(alloc: Global, width: u32) -> Result<Outlook, Memory>
        ensures { IfOk result (λ outlook. outlook ≡ unseen width) }
    {
        let window = Lookahead::new(alloc, width)?;
        let ahead = Ahead {
            window,
            bars: NOTHING,
        };
        match Box::new(alloc, ahead) {
            Ok(place) => Ok(Outlook { place }),
            Err(_) => Err(Memory),
        }
    }

    /// The operands in the window, which give values from row `from` on.
    pub(crate) fn read(&mut self, from: u32, a: Verdict, b: Verdict, i: u32)
        ensures { self.new
            ≡ (record { window = window_read self.old.window from a b i; bars = self.old.bars }) }
    {
        let place = &mut *self.place;
        if i >= from {
            place.window.read(a, b);
        }
    }

    /// The first operand before the window.
    pub(crate) fn bar(&mut self, lower: u32, from: u32, a: Verdict, i: u32)
        ensures { self.new
            ≡ (record {
              window = self.old.window;
              bars = before_after self.old.bars lower from a
                  i;
            }) }
    {
        let place = &mut *self.place;
        if i >= from {
            place.bars.read(negated(a), lower);
        }
    }

    /// Returns the value of U, once the whole window was read.
    pub(crate) fn value(&self) -> Verdict
        ensures { result ≡ least (turned_round (left_value self.now.bars))
            (lookahead_value self.now.window) }
    {
        let place = &*self.place;
        lesser(negated(place.bars.value()), place.window.value())
    }

    pub(crate) fn copy_from(&mut self, other: &Outlook)
        requires { self.old.window.cells.capacity ≡ other.now.window.cells.capacity }
        ensures { self.new ≡ other.now }
    {
        let place = &mut *self.place;
        copy_ring(&mut place.window.cells, &other.place.window.cells);
        place.window.older = other.place.window.older;
        place.window.run = other.place.window.run;
        place.bars = other.place.bars;
    }
}
