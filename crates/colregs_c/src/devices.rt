//! A source and a sink over the memory of a call.
ghost use Rattle.std.specs.Prelude.{◌≡◌, ◌<◌, [], length, Some};
ghost use Rattle.outside.specs.Streams.{Gives, ReadCause, Takes, WriteCause};

use outside::{Put, Sink, Source, Taken};
use std::alloc::Global;

/// The rest of a log that the caller holds.
#[derive(Drop)]
pub(crate) struct LentLog<'a> {
    pub(crate) rest: &'a [u8],
}

impl Source for LentLog<'_> {
    ghost left = { λ s. Some s.rest.now };

    ghost faults = { λ _. 0 };

    fn read(&mut self, room: &mut [u8]) -> Taken {
        if self.rest.is_empty() {
            return Taken::End;
        }
        let count = self.rest.len().min(room.len());
        room[..count].copy_from_slice(&self.rest[..count]);
        self.rest = &self.rest[count..];
        Taken::Got(count)
    }
}

/// The bytes that were written. A write fails only if memory runs out, and then takes nothing.
#[derive(Drop)]
pub(crate) struct GatheredText {
    pub(crate) bytes: Vec<u8>,
    pub(crate) faults: u64,
}

impl GatheredText {
    /// Returns an empty text.
    pub(crate) fn new(alloc: Global) -> GatheredText
        ensures bytes { result.bytes.items ≡ [] }
        ensures faults { result.faults ≡ 0 }
    {
        GatheredText {
            bytes: Vec::new(alloc),
            faults: 0,
        }
    }
}

impl Sink for GatheredText {
    ghost contents = { λ s. Some s.bytes.items };

    ghost faults = { λ s. s.faults };

    fn write(&mut self, piece: &[u8]) -> Put {
        if self.bytes.extend_from_slice(piece).is_err() {
            self.faults = self.faults.saturating_add(1);
            return Put::Failed;
        }
        Put::Took(piece.len())
    }
}
