//! A shelf over the files of the system.
ghost use Rattle.std.specs.Prelude.{◌≡◌, None};
ghost use Rattle.outside.specs.Inner.FileReads.{FetchesAll, IsWithin};

use crate::shelf::{Fetched, Shelf};
use crate::source::{Source, StdSource};
use crate::whole::{ReadFault, read_whole};
use crate::word::Word;
use std::alloc::Global;
use std::fs;
use std::marker::Model;
use std::rt::Files;

/// The files of the system. Contracts do not know them; callers see its counts of faults and fetches.
#[derive(Drop)]
pub struct FileShelf<R> {
    rt: R,
    faults: u64,
    fetches: u64,
}

impl<R> Model for FileShelf<R> {
    ghost use Rattle.outside.specs.FileFetches.{FileCounts};

    ghost Value = { FileCounts };

    ghost view = { λ s. record { faults = s.faults; fetches = s.fetches } };
}

/// Returns the rest of the source as the result of a fetch.
fn fetch_all<S: Source>(alloc: Global, source: &mut S, limit: u64) -> Fetched
    ensures { FetchesAll (S.left source.old) (S.left source.new)
        (S.faults source.old) (S.faults source.new) limit result }
{
    match read_whole(alloc, source, limit) {
        Ok(bytes) => Fetched::Bytes(bytes),
        Err(ReadFault::TooLong) => Fetched::TooLong,
        Err(ReadFault::Failed) => Fetched::Failed,
        Err(ReadFault::Memory) => Fetched::Memory,
    }
}

impl<R: Files> FileShelf<R> {
    /// Returns a shelf that reads files through this runtime.
    pub fn new(rt: R) -> FileShelf<R>
        ensures { result ≡ record { faults = 0; fetches = 0 } }
    {
        FileShelf {
            rt,
            faults: 0,
            fetches: 0,
        }
    }

    fn read_file(&self, alloc: Global, name: &Word, limit: u64) -> Fetched
        ensures { IsWithin limit result }
    {
        let Ok(file) = fs::open(&self.rt, name.text()) else {
            return Fetched::Failed;
        };
        fetch_all(alloc, &mut StdSource::new(file), limit)
    }
}

impl<R: Files> Shelf for FileShelf<R> {
    ghost files = { λ _. None };

    ghost faults = { λ s. s.faults };

    ghost fetches = { λ s. s.fetches };

    fn fetch(&mut self, alloc: Global, name: &Word, limit: u64) -> Fetched {
        self.fetches = self.fetches.saturating_add(1);
        let fetched = self.read_file(alloc, name, limit);
        if let Fetched::Failed = fetched {
            self.faults = self.faults.saturating_add(1);
        }
        fetched
    }
}
