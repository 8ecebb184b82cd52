//! Whole contents, by name.
ghost use Rattle.std.specs.Prelude.{◌≡◌, List, ℕ};
ghost use Rattle.std.specs.declared.option.Option.{Option};
ghost use Rattle.outside.specs.Causes.{one_more};
ghost use Rattle.outside.specs.Shelves.{FetchCause, Fetches};

use crate::word::Word;
use std::alloc::Global;

/// The result of a fetch.
#[derive(Drop, PartialEq, Eq)]
pub enum Fetched {
    /// All the bytes under the name, at most the limit.
    Bytes(Vec<u8>),
    /// There are more bytes under the name than the limit.
    TooLong,
    /// The shelf failed, or has nothing under the name.
    Failed,
    /// Memory ran out.
    Memory,
}

/// Whole contents, by name.
pub trait Shelf {
    /// The names with their contents, if they are known.
    ghost files: { Self → Option (List (List ℕ × List ℕ)) };

    /// The number of failures; it saturates at the greatest value of 64 bits.
    ghost faults: { Self → ℕ };

    /// The number of fetches; it saturates at the greatest value of 64 bits.
    ghost fetches: { Self → ℕ };

    /// Returns all the bytes under the name, if there are at most `limit` of them.
    fn fetch(&mut self, alloc: Global, name: &Word, limit: u64) -> Fetched
        ensures content { Fetches (files self.old) name.now limit result }
        ensures same { files self.new ≡ files self.old }
        ensures cause { FetchCause (files self.old) name.now
            (faults self.old) (faults self.new) result }
        ensures counted { fetches self.new ≡ one_more (fetches self.old) };
}
