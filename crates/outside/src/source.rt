//! Where bytes come from.
ghost use Rattle.std.specs.Prelude.{◌≡◌, ◌≢◌, ◌↔◌, ◌<◌, ◌≤◌, IsTrue, List, ℕ, take, length, Some};
ghost use Rattle.std.specs.declared.option.Option.{Option};
ghost use Rattle.outside.specs.Calls.{AreCallNumbers, faults_after, is_next_listed, with_one_more};
ghost use Rattle.outside.specs.InMemory.{GivesAtMost};
ghost use Rattle.outside.specs.Streams.{Gives, ReadCause};

use crate::schedule::Schedule;
use std::io::Read;
use std::marker::Model;

/// The result of one read.
#[derive(Clone, Copy, Debug, PartialEq, Eq)]
pub enum Taken {
    /// This many bytes, at least one, are at the front of the room.
    Got(usize),
    /// Nothing is left.
    End,
    /// The source failed; its remaining bytes are unchanged.
    Failed,
}

/// A source of bytes, in chunks of any length.
pub trait Source {
    /// The remaining bytes, if they are known.
    ghost left: { Self → Option (List ℕ) };

    /// The number of failures; it saturates at the greatest value of 64 bits.
    ghost faults: { Self → ℕ };

    /// Writes the next bytes to the front of the room, which must not be empty.
    fn read(&mut self, room: &mut [u8]) -> Taken
        requires { 0 < length room.old }
        ensures bytes { Gives (left self.old) (left self.new) room.new result }
        ensures cause { ReadCause (faults self.old) (faults self.new) result };
}

/// Bytes in memory, which never fail.
#[derive(Drop)]
pub struct PlainSource {
    bytes: Vec<u8>,
    at: usize,
    piece: usize,
}

impl Model for PlainSource {
    ghost use Rattle.std.specs.Prelude.{◌≤◌, drop, vec_len};
    ghost use Rattle.outside.specs.InMemory.{PlainBytes};

    ghost Value = { PlainBytes };

    ghost view = { λ s. record { left = drop s.at s.bytes.items; piece = s.piece } };

    ghost invariant = { λ s. (s.at ≤ vec_len s.bytes) × (1 ≤ s.piece) };
}

impl PlainSource {
    /// Returns a source of these bytes, which returns at most `piece` of them at a time.
    pub fn new(bytes: Vec<u8>, piece: usize) -> PlainSource
        requires { 1 ≤ piece }
        ensures left { result.left ≡ bytes.items }
        ensures piece { result.piece ≡ piece }
    {
        PlainSource {
            bytes,
            at: 0,
            piece,
        }
    }
}

/// Copies the first bytes of `rest` to the front of the room, at most `most` of them.
fn copy_front(room: &mut [u8], rest: &[u8], most: usize) -> usize
    requires some_room { 0 < length room.old }
    requires some_rest { 0 < length rest.now }
    requires some_most { 1 ≤ most }
    ensures some { 1 ≤ result }
    ensures in_room { result ≤ length room.old }
    ensures in_rest { result ≤ length rest.now }
    ensures at_most { result ≤ most }
    ensures copied { take result room.new ≡ take result rest.now }
{
    let count = rest.len().min(most).min(room.len());
    room[..count].copy_from_slice(&rest[..count]);
    count
}

impl Source for PlainSource {
    ghost left = { λ s. Some s.left };

    ghost faults = { λ _. 0 };

    fn read(&mut self, room: &mut [u8]) -> Taken
        requires { 0 < length room.old }

        // The model of a source.
        ensures bytes { Gives (Some self.old.left) (Some self.new.left) room.new result }
        ensures cause { ReadCause 0 0 result }

        // The model of this kind.
        ensures at_most { GivesAtMost self.old.piece result }
        ensures same { self.new.piece ≡ self.old.piece }
        ensures never { result ≢ Taken.Failed }
    {
        let rest = &self.bytes[self.at..];
        if rest.is_empty() {
            return Taken::End;
        }
        let count = copy_front(room, rest, self.piece);
        self.at += count;
        Taken::Got(count)
    }
}

/// Bytes in memory. The listed calls fail.
#[derive(Drop)]
pub struct MemorySource {
    plain: PlainSource,
    schedule: Schedule,
    faults: u64,
}

impl Model for MemorySource {
    ghost use Rattle.std.specs.Prelude.{◌≤◌};
    ghost use Rattle.outside.specs.InMemory.{FailingBytes};

    ghost Value = { FailingBytes };

    ghost view = { λ s. record {
      left = s.plain.left;
      piece = s.plain.piece;
      calls = s.schedule;
      faults = s.faults;
    } };

    ghost invariant = { λ s. s.faults ≤ s.schedule.made };
}

impl MemorySource {
    /// Returns a source of these bytes, which returns at most `piece` of them at a time.
    ///
    /// `fails` are the numbers of the reads that fail, from 0, in ascending order.
    pub fn new(bytes: Vec<u8>, piece: usize, fails: Vec<u64>) -> MemorySource
        requires piece { 1 ≤ piece }
        requires fails { AreCallNumbers fails.items }
        ensures left { result.left ≡ bytes.items }
        ensures piece { result.piece ≡ piece }
        ensures fails { result.calls ≡ record { fails = fails.items; made = 0 } }
        ensures faults { result.faults ≡ 0 }
    {
        MemorySource {
            plain: PlainSource::new(bytes, piece),
            schedule: Schedule::new(fails),
            faults: 0,
        }
    }
}

impl Source for MemorySource {
    ghost left = { λ s. Some s.left };

    ghost faults = { λ s. s.faults };

    fn read(&mut self, room: &mut [u8]) -> Taken
        requires { 0 < length room.old }

        // The model of a source.
        ensures bytes { Gives (Some self.old.left) (Some self.new.left) room.new result }
        ensures cause { ReadCause self.old.faults self.new.faults result }

        // The model of this kind.
        ensures at_most { GivesAtMost self.old.piece result }
        ensures same { self.new.piece ≡ self.old.piece }
        ensures listed { (result ≡ Taken.Failed) ↔ IsTrue (is_next_listed self.old.calls) }
        ensures calls { self.new.calls ≡ with_one_more self.old.calls }
        ensures counted { self.new.faults ≡ faults_after self.old.calls self.old.faults }
    {
        if self.schedule.is_next_failing() {
            self.faults += 1;
            return Taken::Failed;
        }
        self.plain.read(room)
    }
}

/// A reader of std, such as standard input. Its bytes are known if the reader's bytes are; those of standard input and
/// of files are not. Each error of the reader is a fault.
#[derive(Drop)]
pub struct StdSource<R: Read> {
    inner: R,
    faults: u64,
}

impl<R: Read> Model for StdSource<R> {
    ghost use Rattle.outside.specs.Streams.{Adapter};

    ghost Value = { Adapter };

    ghost view = { λ s. record { bytes = R.remaining s.inner; faults = s.faults } };
}

impl<R: Read> StdSource<R> {
    /// Returns a source of the reader's bytes.
    pub fn new(inner: R) -> StdSource<R>
        ensures bytes { result.bytes ≡ R.remaining inner }
        ensures faults { result.faults ≡ 0 }
    {
        StdSource { inner, faults: 0 }
    }
}

impl<R: Read> Source for StdSource<R> {
    ghost left = { λ s. s.bytes };

    ghost faults = { λ s. s.faults };

    fn read(&mut self, room: &mut [u8]) -> Taken {
        match self.inner.read(room) {
            Ok(0) => Taken::End,
            Ok(count) => Taken::Got(count),
            Err(_) => {
                self.faults = self.faults.saturating_add(1);
                Taken::Failed
            }
        }
    }
}
