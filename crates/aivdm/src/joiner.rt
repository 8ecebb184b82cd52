//! From sentences to messages.
//!
//! A message of several sentences is joined by the sequential identifier and the channel of its sentences. For each such
//! key at most one message is open: the parts 1 to k that came last. A sentence that does not continue it closes it.
ghost use Rattle.std.specs.Prelude.{◌≡◌, ◌≤◌, ◌++◌, ◌∷◌, [], List, length, position, IfOk, IsOk, OnOk, OnErr};
ghost use Rattle.std.specs.Prelude.{Ok, Err, ◌==◌};
ghost use Rattle.aivdm.specs.FragmentJoining.{joined_of, Taken};
ghost use Rattle.aivdm.specs.OpenMessages.{StandsFor};
ghost use Rattle.aivdm.specs.Inner.OpenRuns.{has_key, joined_next, put, runs_next};
ghost use Rattle.aivdm.specs.PayloadBits.{bits_of};
ghost use Rattle.aivdm.specs.Sentences.{fields_seen, IsSentence};

use crate::bits::Bits;
use crate::sentence::Sentence;
use out_of_memory::Memory;
use std::alloc::Global;
use std::marker::Model;
use std::mem;

/// The most seconds from the first part of a message to a later part.
const LONGEST_WAIT: u64 = 30;

/// What a sentence completes.
#[derive(Drop)]
pub enum Joined {
    /// A message: the bits of its parts in order, each without its fill bits.
    Message(Bits),
    /// Nothing yet: the sentence begins or continues a message that needs more sentences.
    Waiting,
    /// Nothing: earlier sentences that it needs are missing or too old.
    Orphan,
}

/// A message of several sentences that has begun.
#[derive(Drop)]
pub(crate) struct Begun {
    seq: Option<u8>,
    channel: Option<u8>,
    total: u8,
    /// The number of parts so far; 0 if the message is closed.
    count: u8,
    /// The time of the first part, in seconds.
    since: u64,
    bits: Bits,
}

/// The messages that have begun.
#[derive(Drop)]
pub struct Joiner {
    alloc: Global,
    /// At most one per key.
    begun: Vec<Begun>,
}

impl Model for Joiner {
    ghost use Rattle.std.specs.Prelude.{List};
    ghost use Rattle.aivdm.specs.declared.joiner.Begun.{Begun};

    ghost Value = { List Begun };

    ghost view = { λ joiner. joiner.begun.items };
}

impl Joiner {
    /// Returns a joiner without begun messages.
    pub fn new(alloc: Global) -> Joiner
        ensures { StandsFor result [] }
    {
        Joiner {
            alloc,
            begun: Vec::new(alloc),
        }
    }

    /// Takes the next sentence, received at `time`, in seconds since the Unix epoch.
    ///
    /// A sentence of total 1 is a message by itself; up to 72 bytes of its payload take no memory. If memory runs out,
    /// the joiner is unchanged.
    #[inline]
    pub fn take(&mut self, sentence: &Sentence<'_>, time: u64) -> Result<Joined, Memory>
        requires sentence { IsSentence (fields_seen sentence.now) }
        ensures joined { IfOk result
            (λ joined. (taken : List Taken) → StandsFor self.old taken
            → joined ≡ joined_of taken
            (record { sentence = fields_seen sentence.now; time = time })) }
        ensures stands { OnOk result
            ((taken : List Taken) → StandsFor self.old taken
            → StandsFor self.new
            (taken ++ record { sentence = fields_seen sentence.now; time = time } ∷ [])) }
        ensures single { sentence.now.total ≡ 1
            → IfOk result (λ joined. joined
            ≡ Joined.Message (bits_of sentence.now.payload.now sentence.now.fill)) }
        ensures memory { OnErr result (self.new ≡ self.old) }
        ensures alone { sentence.now.total ≡ 1 → self.new ≡ self.old }
        ensures inline { sentence.now.total ≡ 1 → length sentence.now.payload.now ≤ 72
            → IsOk result }
    {
        if sentence.total == 1 {
            return Ok(Joined::Message(whole(self.alloc, sentence)?));
        }
        join(self.alloc, &mut self.begun, sentence, time)
    }
}

/// Returns the bits of a sentence.
#[inline(always)]
fn whole(alloc: Global, sentence: &Sentence<'_>) -> Result<Bits, Memory>
    requires sentence { IsSentence (fields_seen sentence.now) }
    ensures bits { IfOk result (λ bits. bits ≡ bits_of sentence.now.payload.now sentence.now.fill) }
    ensures inline { length sentence.now.payload.now ≤ 72 → IsOk result }
{
    Bits::from_payload(alloc, sentence.payload, sentence.fill)
}

impl Begun {
    ghost use Rattle.aivdm.specs.Inner.OpenRuns.{awaits, begun_by, has_key, joined_on, run_on};

    /// Returns whether the message has the key of this sentence.
    fn has_key(&self, sentence: &Sentence<'_>) -> bool
        ensures { result ≡ has_key (fields_seen sentence.now) self.now }
    {
        self.seq == sentence.seq && self.channel == sentence.channel
    }

    /// Returns a message that begins with this part.
    fn new(alloc: Global, sentence: &Sentence<'_>, time: u64) -> Result<Begun, Memory>
        requires sentence { IsSentence (fields_seen sentence.now) }
        ensures { IfOk result
            (λ begun. begun ≡ begun_by
            (record { sentence = fields_seen sentence.now; time = time })) }
    {
        let bits = whole(alloc, sentence)?;
        Ok(Begun {
            seq: sentence.seq,
            channel: sentence.channel,
            total: sentence.total,
            count: 1,
            since: time,
            bits,
        })
    }

    /// Returns whether a sentence of its key is its next part and not too late.
    fn awaits(&self, sentence: &Sentence<'_>, time: u64) -> bool
        ensures { result ≡ awaits self.now
            (record { sentence = fields_seen sentence.now; time = time }) }
    {
        self.total == sentence.total
            && self.count < sentence.number
            && sentence.number - self.count == 1
            && time <= self.since.saturating_add(LONGEST_WAIT)
    }

    /// Takes a sentence of its key that is not a first part.
    fn go_on(&mut self, alloc: Global, sentence: &Sentence<'_>, time: u64) -> Result<Joined, Memory>
        requires sentence { IsSentence (fields_seen sentence.now) }
        ensures joined { IfOk result
            (λ joined. joined
            ≡ joined_on self.old (record { sentence = fields_seen sentence.now; time = time })) }
        ensures run { OnOk result
            (self.new ≡ run_on self.old
            (record { sentence = fields_seen sentence.now; time = time })) }
        ensures err { OnErr result (self.new ≡ self.old) }
    {
        if !self.awaits(sentence, time) {
            self.count = 0;
            return Ok(Joined::Orphan);
        }
        if self
            .bits
            .append_payload(sentence.payload, sentence.fill)
            .is_err()
        {
            return Err(Memory);
        }
        if sentence.number < sentence.total {
            self.count = sentence.number;
            return Ok(Joined::Waiting);
        }
        self.count = 0;
        let bits = mem::replace(&mut self.bits, Bits::new(alloc));
        Ok(Joined::Message(bits))
    }
}

/// Takes the next sentence of a message of several.
#[inline(never)]
fn join(
    alloc: Global,
    begun: &mut Vec<Begun>,
    sentence: &Sentence<'_>,
    time: u64,
) -> Result<Joined, Memory>
    requires sentence { IsSentence (fields_seen sentence.now) }
    ensures joined { IfOk result
        (λ joined. joined
        ≡ joined_next begun.old.items
        (record { sentence = fields_seen sentence.now; time = time })) }
    ensures runs { OnOk result
        (begun.new.items ≡ runs_next begun.old.items
        (record { sentence = fields_seen sentence.now; time = time })) }
    ensures err { OnErr result (begun.new.items ≡ begun.old.items) }
{
    let place = place_of(begun.as_slice(), sentence);
    if sentence.number == 1 {
        let first = Begun::new(alloc, sentence, time)?;
        keep(begun, sentence, place, first)?;
        return Ok(Joined::Waiting);
    }
    match place {
        Some(at) => begun[at].go_on(alloc, sentence, time),
        None => Ok(Joined::Orphan),
    }
}

/// Stores a message: replaces the one of the sentence's key, or appends it.
fn keep(
    begun: &mut Vec<Begun>,
    sentence: &Sentence<'_>,
    place: Option<usize>,
    first: Begun,
) -> Result<(), Memory>
    requires { place ≡ position (has_key (fields_seen sentence.now)) begun.old.items }
    ensures ok { OnOk result
        (begun.new.items ≡ put (fields_seen sentence.now) first begun.old.items) }
    ensures err { OnErr result (begun.new.items ≡ begun.old.items) }
{
    if let Some(at) = place {
        begun[at] = first;
        return Ok(());
    }
    if begun.push(first).is_err() {
        return Err(Memory);
    }
    Ok(())
}

/// Returns the index of the message of the sentence's key.
fn place_of(begun: &[Begun], sentence: &Sentence<'_>) -> Option<usize>
    ensures { result ≡ position (has_key (fields_seen sentence.now)) begun.now }
{
    begun.iter().position(|run| run.has_key(sentence))
}
