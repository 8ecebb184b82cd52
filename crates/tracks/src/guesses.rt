//! The indices at which numbers were last found.
use crate::book::MOST_VESSELS;

/// By the remainder modulo [`MOST_VESSELS`]: the index at which a number with this remainder was last found. It is only
/// a guess, which is tested before use.
#[derive(Drop)]
pub(crate) struct Guesses {
    indices: [u16; MOST_VESSELS],
}

impl Guesses {
    pub(crate) fn new() -> Guesses {
        Guesses {
            indices: [0; MOST_VESSELS],
        }
    }

    /// Returns the index at which the number may be.
    #[inline(always)]
    pub(crate) fn at(&self, number: u32) -> usize {
        self.indices[number as usize % MOST_VESSELS] as usize
    }

    /// Stores the index of a number.
    pub(crate) fn note(&mut self, number: u32, at: usize) {
        self.indices[number as usize % MOST_VESSELS] = (at % 65536) as u16;
    }
}
