//! Where bytes go.
ghost use Rattle.std.specs.Prelude.{◌≡◌, ◌<◌, ◌≤◌, ◌+◌, [], List, ℕ, false, IsTrue, length, min, None, Some};
ghost use Rattle.std.specs.declared.option.Option.{Option};
ghost use Rattle.std.specs.Io.KnownBytes.{Appends};
ghost use Rattle.outside.specs.Causes.{one_more};
ghost use Rattle.outside.specs.Calls.{AreCallNumbers, is_next_listed, with_one_more};
ghost use Rattle.outside.specs.InMemory.{TakesAtMost};
ghost use Rattle.outside.specs.Streams.{AppendsPart, PassesOn, Takes, WriteCause};

use crate::schedule::Schedule;
use std::alloc::Global;
use std::io::Write;
use std::marker::Model;

/// The result of one write.
#[derive(Clone, Copy, Debug, PartialEq, Eq)]
pub enum Put {
    /// It took this many bytes, at least one, from the front of the chunk.
    Took(usize),
    /// It failed and took nothing.
    Failed,
}

/// Where bytes go.
pub trait Sink {
    /// The bytes written so far, if they are known.
    ghost contents: { Self → Option (List ℕ) };

    /// The number of failures; it saturates at the greatest value of 64 bits.
    ghost faults: { Self → ℕ };

    /// Takes bytes from the front of the chunk, which must not be empty.
    fn write(&mut self, piece: &[u8]) -> Put
        requires { 0 < length piece.now }
        ensures bytes { Takes (contents self.old) (contents self.new) piece.now result }
        ensures cause { WriteCause (faults self.old) (faults self.new) result };
}

/// Writes all the bytes, in as many chunks as the sink needs; returns whether it succeeded. If `false`, the sink has
/// failed and has a proper prefix of them.
pub fn put_all<K: Sink>(sink: &mut K, bytes: &[u8]) -> bool
    ensures all { IsTrue result → Appends (K.contents sink.old) (K.contents sink.new) bytes.now }
    ensures part { result ≡ false
        → AppendsPart (K.contents sink.old) (K.contents sink.new) bytes.now }
    ensures failed { result ≡ false → K.faults sink.new ≡ one_more (K.faults sink.old) }
    ensures counted { IsTrue result → K.faults sink.new ≡ K.faults sink.old }
{
    let mut done = 0;
    while done < bytes.len() {
        match sink.write(&bytes[done..]) {
            Put::Took(count) => done += count,
            Put::Failed => return false,
        }
    }
    true
}

/// A sink in memory. The listed calls fail, and so does a call if memory runs out.
#[derive(Drop)]
pub struct MemorySink {
    bytes: Vec<u8>,
    piece: usize,
    schedule: Schedule,
    faults: u64,
}

impl Model for MemorySink {
    ghost use Rattle.std.specs.Prelude.{◌≤◌, vec_capacity};
    ghost use Rattle.outside.specs.InMemory.{Written};

    ghost Value = { Written };

    ghost view = { λ s. record {
      bytes = s.bytes.items;
      room = vec_capacity s.bytes;
      piece = s.piece;
      calls = s.schedule;
      faults = s.faults;
    } };

    ghost invariant = { λ s. 1 ≤ s.piece };
}

impl MemorySink {
    /// Returns an empty sink that takes at most `piece` bytes at a time.
    ///
    /// `fails` are the numbers of the writes that fail, from 0, in ascending order.
    pub fn new(alloc: Global, piece: usize, fails: Vec<u64>) -> MemorySink
        requires piece { 1 ≤ piece }
        requires fails { AreCallNumbers fails.items }
        ensures bytes { result.bytes ≡ [] }
        ensures piece { result.piece ≡ piece }
        ensures fails { result.calls ≡ record { fails = fails.items; made = 0 } }
        ensures faults { result.faults ≡ 0 }
    {
        MemorySink {
            bytes: Vec::new(alloc),
            piece,
            schedule: Schedule::new(fails),
            faults: 0,
        }
    }

    /// Returns the bytes appended so far.
    pub fn bytes(&self) -> &[u8]
        ensures { result.now ≡ self.now.bytes }
    {
        self.bytes.as_slice()
    }
}

impl Sink for MemorySink {
    ghost contents = { λ s. Some s.bytes };

    ghost faults = { λ s. s.faults };

    fn write(&mut self, piece: &[u8]) -> Put
        requires { 0 < length piece.now }

        // The model of a sink.
        ensures bytes { Takes (Some self.old.bytes) (Some self.new.bytes) piece.now result }
        ensures cause { WriteCause self.old.faults self.new.faults result }

        // The model of this kind.
        ensures at_most { TakesAtMost self.old.piece result }
        ensures same { self.new.piece ≡ self.old.piece }
        ensures listed { IsTrue (is_next_listed self.old.calls) → result ≡ Put.Failed }
        ensures no_room { is_next_listed self.old.calls ≡ false → result ≡ Put.Failed
            → self.old.room < length self.old.bytes + min (length piece.now) self.old.piece }
        ensures calls { self.new.calls ≡ with_one_more self.old.calls }
    {
        let count = piece.len().min(self.piece);
        if self.schedule.is_next_failing()
            || self.bytes.extend_from_slice(&piece[..count]).is_err()
        {
            self.faults = self.faults.saturating_add(1);
            return Put::Failed;
        }
        Put::Took(count)
    }
}

/// A writer of std, such as standard output or standard error, flushed after each write. If the writer takes nothing,
/// returns an error or fails to flush, that is a fault. As a sink, its bytes are unknown, because at a fault a part of
/// the chunk may already be written.
#[derive(Drop)]
pub struct StdSink<W: Write> {
    inner: W,
    faults: u64,
}

impl<W: Write> Model for StdSink<W> {
    ghost use Rattle.outside.specs.Streams.{Adapter};

    ghost Value = { Adapter };

    ghost view = { λ s. record { bytes = W.contents s.inner; faults = s.faults } };
}

impl<W: Write> StdSink<W> {
    /// Returns a sink that writes to the writer.
    pub fn new(inner: W) -> StdSink<W>
        ensures bytes { result.bytes ≡ W.contents inner }
        ensures faults { result.faults ≡ 0 }
    {
        StdSink { inner, faults: 0 }
    }
}

impl<W: Write> Sink for StdSink<W> {
    ghost contents = { λ _. None };

    ghost faults = { λ s. s.faults };

    fn write(&mut self, piece: &[u8]) -> Put
        requires { 0 < length piece.now }

        // The model of a sink.
        ensures bytes { Takes None None piece.now result }
        ensures cause { WriteCause self.old.faults self.new.faults result }

        // The model of this kind.
        ensures passed { PassesOn self.old.bytes self.new.bytes piece.now result }
    {
        match self.inner.write(piece) {
            Ok(count) if count > 0 && self.inner.flush().is_ok() => Put::Took(count),
            _ => {
                self.faults = self.faults.saturating_add(1);
                Put::Failed
            }
        }
    }
}
