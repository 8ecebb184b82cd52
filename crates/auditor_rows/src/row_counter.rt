//! Another keeper of traces, which counts the rows of each.
use meetings::Pair;
use mtl_formulas::Glance;
use out_of_memory::Memory;
use traces::{NextRow, TraceKeeper};

/// The number of rows of each trace that has ended.
#[derive(Drop)]
pub(crate) struct RowCounter {
    pub(crate) ended: Vec<u32>,
}

impl TraceKeeper for RowCounter {
    ghost use Rattle.auditor_rows.specs.CountedRows.{counted_rows};

    type Kept = u32;

    ghost Given = { Unit {0} };

    ghost keeper = { λ _. counted_rows };

    fn begin(&mut self, _pair: Pair, _start: u32) -> Result<u32, Memory> {
        Ok(0)
    }

    fn step(&mut self, _: usize, rows: &mut u32, _: NextRow<'_>, _: u32) -> Result<(), Memory> {
        *rows += 1;
        Ok(())
    }

    fn rest(&self, _: usize, rows: &mut u32, _: Glance, _: u32) -> bool {
        *rows += 1;
        true
    }

    fn end(&mut self, _index: usize, rows: &mut u32) -> Result<(), Memory> {
        self.ended.push(*rows)?;
        Ok(())
    }
}
