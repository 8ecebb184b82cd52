//! Shelves in memory.
ghost use Rattle.std.specs.Prelude.{◌≡◌, IsTrue, false, MatchOption, None, Some};
ghost use Rattle.outside.specs.Calls.{AreCallNumbers, faults_after, is_next_listed, with_one_more};
ghost use Rattle.outside.specs.Causes.{one_more};
ghost use Rattle.outside.specs.InMemory.{Answers};
ghost use Rattle.outside.specs.Shelves.{content_of, FetchCause, Fetches, files_of, FilesHaveDifferentNames};

use crate::schedule::Schedule;
use crate::shelf::{Fetched, Shelf};
use crate::word::Word;
use std::alloc::Global;
use std::marker::Model;

/// Returns the bytes under the name.
fn find<'a>(files: &'a [(Word, Vec<u8>)], name: &Word) -> Option<&'a [u8]>
    ensures { let content = content_of name.now (files_of files.now) in
        MatchOption result (content ≡ None) (λ bytes. content ≡ Some bytes.now) }
{
    for (held, bytes) in files {
        if name.bytes() == held.bytes() {
            return Some(bytes.as_slice());
        }
    }
    None
}

/// Returns a copy of the bytes, if there are at most `limit` of them.
fn copy_within(alloc: Global, bytes: &[u8], limit: u64) -> Fetched
    ensures { Answers (Some bytes.now) limit result }
{
    if bytes.len() as u64 > limit {
        return Fetched::TooLong;
    }
    match Vec::from_slice(alloc, bytes) {
        Ok(copy) => Fetched::Bytes(copy),
        Err(_) => Fetched::Memory,
    }
}

/// Files in memory. A fetch fails only if there is no file with the name. The model has the files and the number of
/// fetches.
#[derive(Drop)]
pub struct PlainShelf {
    files: Vec<(Word, Vec<u8>)>,
    fetches: u64,
}

impl Model for PlainShelf {
    ghost use Rattle.outside.specs.InMemory.{PlainFiles};
    ghost use Rattle.outside.specs.Shelves.{files_of};

    ghost Value = { PlainFiles };

    ghost view = { λ s. record { files = files_of s.files.items; fetches = s.fetches } };
}

impl PlainShelf {
    /// Returns a shelf with these files, each under its own name.
    pub fn new(files: Vec<(Word, Vec<u8>)>) -> PlainShelf
        requires { FilesHaveDifferentNames (files_of files.items) }
        ensures files { result.files ≡ files_of files.items }
        ensures fetches { result.fetches ≡ 0 }
    {
        PlainShelf { files, fetches: 0 }
    }
}

impl Shelf for PlainShelf {
    ghost files = { λ s. Some s.files };

    ghost faults = { λ _. 0 };

    ghost fetches = { λ s. s.fetches };

    fn fetch(&mut self, alloc: Global, name: &Word, limit: u64) -> Fetched
        // The model of a shelf.
        ensures content { Fetches (Some self.old.files) name.now limit result }
        ensures same { Some self.new.files ≡ Some self.old.files }
        ensures cause { FetchCause (Some self.old.files) name.now 0 0 result }
        ensures counted { self.new.fetches ≡ one_more self.old.fetches }

        // The model of this kind.
        ensures answer { Answers (content_of name.now self.old.files) limit result }
    {
        self.fetches = self.fetches.saturating_add(1);
        match find(self.files.as_slice(), name) {
            Some(bytes) => copy_within(alloc, bytes, limit),
            None => Fetched::Failed,
        }
    }
}

/// Files in memory. The listed calls fail and are counted. A call for a name without a file also fails, but is not
/// counted.
#[derive(Drop)]
pub struct MemoryShelf {
    plain: PlainShelf,
    schedule: Schedule,
    faults: u64,
}

impl Model for MemoryShelf {
    ghost use Rattle.std.specs.Prelude.{◌≤◌};
    ghost use Rattle.outside.specs.InMemory.{FailingFiles};

    ghost Value = { FailingFiles };

    ghost view = { λ s. record { files = s.plain.files; calls = s.schedule; faults = s.faults } };

    ghost invariant = { λ s. s.faults ≤ s.schedule.made };
}

impl MemoryShelf {
    /// Returns a shelf with these files, each under its own name.
    ///
    /// `fails` are the numbers of the fetches that fail, from 0, in ascending order.
    pub fn new(files: Vec<(Word, Vec<u8>)>, fails: Vec<u64>) -> MemoryShelf
        requires names { FilesHaveDifferentNames (files_of files.items) }
        requires fails { AreCallNumbers fails.items }
        ensures files { result.files ≡ files_of files.items }
        ensures fails { result.calls ≡ record { fails = fails.items; made = 0 } }
        ensures faults { result.faults ≡ 0 }
    {
        MemoryShelf {
            plain: PlainShelf::new(files),
            schedule: Schedule::new(fails),
            faults: 0,
        }
    }
}

impl Shelf for MemoryShelf {
    ghost files = { λ s. Some s.files };

    ghost faults = { λ s. s.faults };

    ghost fetches = { λ s. s.calls.made };

    fn fetch(&mut self, alloc: Global, name: &Word, limit: u64) -> Fetched
        // The model of a shelf.
        ensures content { Fetches (Some self.old.files) name.now limit result }
        ensures same { Some self.new.files ≡ Some self.old.files }
        ensures cause { FetchCause (Some self.old.files) name.now
            self.old.faults self.new.faults result }
        ensures counted { self.new.calls.made ≡ one_more self.old.calls.made }

        // The model of this kind.
        ensures listed { IsTrue (is_next_listed self.old.calls) → result ≡ Fetched.Failed }
        ensures not_listed { is_next_listed self.old.calls ≡ false
            → Answers (content_of name.now self.old.files) limit result }
        ensures calls { self.new.calls ≡ with_one_more self.old.calls }
        ensures faults { self.new.faults ≡ faults_after self.old.calls self.old.faults }
    {
        if self.schedule.is_next_failing() {
            self.faults += 1;
            return Fetched::Failed;
        }
        self.plain.fetch(alloc, name, limit)
    }
}
