//! The indices at which the last reports of vessels were found.
use out_of_memory::Memory;
use std::alloc::Global;

/// By the vessel's index in the book: the index of her last report at the last search. It is only a guess, which is
/// tested before use.
#[derive(Drop)]
pub(crate) struct Guesses {
    reports: Vec<usize>,
}

impl Guesses {
    /// Returns no guesses. This takes no memory.
    pub(crate) fn new(alloc: Global) -> Guesses {
        Guesses {
            reports: Vec::new(alloc),
        }
    }

    /// Makes room for `vessels` vessels.
    pub(crate) fn make_room(&mut self, vessels: usize) -> Result<(), Memory> {
        Ok(self.reports.resize(vessels, 0)?)
    }

    /// Returns the report of the vessel at this index that may be her last.
    pub(crate) fn at(&self, vessel: usize) -> usize {
        match self.reports.get(vessel) {
            None => 0,
            Some(report) => *report,
        }
    }

    /// Stores the last report of the vessel at this index, if there is room for her.
    pub(crate) fn note(&mut self, vessel: usize, report: usize) {
        if let Some(guess) = self.reports.get_mut(vessel) {
            *guess = report;
        }
    }
}
