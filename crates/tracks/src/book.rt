//! The book of vessels.
ghost use Rattle.std.specs.Prelude.{ℕ, true, ◌≡◌, ◌+◌, ◌-◌, ◌*◌, ◌^◌, ◌<◌, ◌≤◌, ◌++◌, ◌∷◌, [], ◌↔◌, All, Contains, Err, IfOk, IfSome, IsOk, IsSome, IsTrue, List, None, OnErr, OnOk, Some, length, map, slice_get, slice_index, vec_capacity, vec_len, if◌then◌else◌};
ghost use Rattle.std.specs.List.{insert, last_or};
ghost use Rattle.std.specs.List.Sorted.{IsStrictlyIncreasing};
ghost use Rattle.std.specs.Option.{option_copied, option_to_list};
ghost use Rattle.fixed_geometry.specs.Sizes.{IsBelow, IsWithin};
ghost use Rattle.ais_messages.specs.MessageFields.{IsMessage, IsReport};
ghost use Rattle.ais_messages.specs.declared.message.Message.TheVariants.{Position};
ghost use Rattle.fixed_geometry.specs.Displacement.{displacement};
ghost use Rattle.motion.specs.TickStates.{IsTickState, MovesLittle, state_at};
ghost use Rattle.motion.specs.declared.leg.TickState.{TickState};
ghost use Rattle.tracks.specs.AcceptedReports.{JudgingNumbers};
ghost use Rattle.tracks.specs.Inner.Keeping.{AreInOrder, IsKept, makes_held, vessel_since};
ghost use Rattle.tracks.specs.JoinedReports.{legs_between};
ghost use Rattle.tracks.specs.Lengths.{length_of};
ghost use Rattle.tracks.specs.SeenVessels.{seen_in, seen_of, seen_vessel};
ghost use Rattle.tracks.specs.Standing.{IsAccepted, IsHeldVessel, IsNumbers, Remembers, StandsFor, VesselValue, forgetting, forgotten, kept_legs, kept_points, legs_in, vessel_held, vessel_of};
ghost use Rattle.tracks.specs.VesselsHeld.{Sent, accepted_of, entry_at, entry_of, held_of, is_held, legs_of, reported_in, sender_of, statics_of, with_number};
ghost use Rattle.tracks.specs.declared.accepted.Accepted.{Accepted};
ghost use Rattle.tracks.specs.declared.entry.BookFault.TheVariants.{TooManyVessels};
ghost use Rattle.tracks.specs.declared.keeping.Keeping.TheVariants.{Tracks};

use crate::accepted::Accepted;
use crate::entry::{BookFault, Entry};
use crate::given::GivenNumbers;
use crate::guesses::Guesses;
use crate::held_vessel::HeldVessel;
use crate::judging::judge;
use crate::keeping::Keeping;
use crate::parts::{position_report, sender, static_report};
use crate::places::index_of;
use crate::statics::{Statics, length_of};
use crate::vessel::{Vessel, latest};
use ais_messages::{Message, PositionReport};
use fixed_geometry::Reference;
use motion::{Legs, TickState};
use out_of_memory::Memory;
use std::alloc::Global;
use std::marker::Model;

/// The most vessels of a book.
pub const MOST_VESSELS: usize = 4096;

/// Returns the result of a message of a new vessel.
fn first_entry(numbers: &GivenNumbers, message: &Message, time: u64) -> Entry
    requires numbers { IsNumbers numbers.now }
    requires message { IsMessage message.now }
    ensures { result ≡ entry_at numbers.now None
        (reported_in (record { message = message.now; time = time })) }
{
    let Some(report) = position_report(message) else {
        return Entry::Static;
    };
    match judge(numbers, None, report, time) {
        Ok(point) => Entry::Point(point),
        Err(cause) => Entry::Dropped(cause),
    }
}

/// Returns whether a message with this result adds its vessel to the book.
fn is_holding(message: &Message, entry: Entry) -> bool
    ensures { (numbers : JudgingNumbers) (time : ℕ)
        → entry ≡ entry_at numbers None
        (reported_in (record { message = message.now; time = time }))
        → result ≡ makes_held numbers (record { message = message.now; time = time }) }
{
    static_report(message).is_some() || matches!(entry, Entry::Point(_))
}

/// Inserts a vessel at an index, or changes nothing if memory runs out.
fn put(
    held: &mut Vec<u32>,
    vessels: &mut Vec<Vessel>,
    at: usize,
    mmsi: u32,
    vessel: Vessel,
) -> Result<(), Memory>
    requires each { vec_len vessels.old ≡ vec_len held.old }
    requires place { at ≤ vec_len held.old }
    ensures held { OnOk result (held.new.items ≡ insert held.old.items at mmsi) }
    ensures vessels { OnOk result (vessels.new.items ≡ insert vessels.old.items at vessel) }
    ensures held_same { OnErr result (held.new.items ≡ held.old.items) }
    ensures vessels_same { OnErr result (vessels.new.items ≡ vessels.old.items) }
{
    vessels.reserve(1)?;
    held.insert(at, mmsi)?;
    vessels.insert(at, vessel)?;
    Ok(())
}

/// Forgets, for each vessel, the reports before the last one that is earlier than a time, and the legs to these reports
/// and to that one.
fn forget_each(vessels: &mut Vec<Vessel>, gap: u32, time: u64)
    requires in_order { All (λ (vessel : VesselValue). AreInOrder vessel.points) vessels.old.items }
    requires legs { All
        (λ (vessel : VesselValue). vessel.legs ≡ legs_between gap vessel.points) vessels.old.items }
    ensures { vessels.new.items ≡ map (vessel_since gap time) vessels.old.items }
{
    for vessel in vessels.iter_mut() {
        vessel.forget(gap, time);
    }
}

/// The vessels heard so far, with their static data, and with their accepted reports and the legs between them, or with
/// only the latest report. Its model is the stored data, which stands for its numbers and the list of the messages so
/// far.
#[derive(Drop)]
pub struct Book {
    alloc: Global,
    keeping: Keeping,
    numbers: GivenNumbers,
    held: Vec<u32>,
    vessels: Vec<Vessel>,
    /// The indices at which vessels were last found, to save searches.
    guesses: Guesses,
}

impl Model for Book {
    ghost use Rattle.tracks.specs.Standing.{BookValue};
    ghost use Rattle.tracks.specs.Inner.Keeping.{IsBook};

    ghost Value = { BookValue };

    ghost view = { λ b.
        record {
          keeping = b.keeping;
          numbers = b.numbers;
          held = b.held.items;
          vessels = b.vessels.items;
        } };

    ghost invariant = { λ b. IsBook
        (record {
          keeping = b.keeping;
          numbers = b.numbers;
          held = b.held.items;
          vessels = b.vessels.items;
        }) };
}

impl Book {
    /// Returns an empty book around a reference that stores all accepted reports and the legs between them. It joins
    /// reports at most `gap` seconds apart, and a vessel moves at no more than `max_speed` tenths of a knot. This takes
    /// no memory.
    pub fn new(alloc: Global, reference: Reference, gap: u32, max_speed: u16) -> Book
        requires gap { gap ≤ 3600 }
        requires some_speed { 1 ≤ max_speed }
        requires max_speed { max_speed ≤ 1022 }
        ensures keeping { result.keeping ≡ Tracks }
        ensures stands { StandsFor result
            (record { reference = reference; gap = gap; max_speed = max_speed }) [] }
    {
        Book::with_keeping(alloc, Keeping::Tracks, reference, gap, max_speed)
    }

    /// Returns the same, for a book that stores of each vessel's accepted reports what `keeping` says: all, or only the
    /// latest.
    pub fn with_keeping(
        alloc: Global,
        keeping: Keeping,
        reference: Reference,
        gap: u32,
        max_speed: u16,
    ) -> Book
        requires gap { gap ≤ 3600 }
        requires some_speed { 1 ≤ max_speed }
        requires max_speed { max_speed ≤ 1022 }
        ensures keeping { result.keeping ≡ keeping }
        ensures stands { StandsFor result
            (record { reference = reference; gap = gap; max_speed = max_speed }) [] }
    {
        Book {
            alloc,
            keeping,
            numbers: GivenNumbers {
                reference,
                gap,
                max_speed,
            },
            held: Vec::new(alloc),
            vessels: Vec::new(alloc),
            guesses: Guesses::new(),
        }
    }

    /// Takes the next message, received at `time`, and returns its result: the position report of a message is
    /// accepted, or dropped for the first cause that applies; its static report is stored in either case. Returns
    /// `TooManyVessels` exactly if this message would add a vessel beyond [`MOST_VESSELS`], and `Memory` if memory runs
    /// out; the book is then unchanged. The positions of a vessel more than the gap before `time` do not change.
    pub fn take(&mut self, message: &Message, time: u64) -> Result<Entry, BookFault>
        requires { IsMessage message.now }
        ensures entry { IfOk result
            (λ entry. (numbers : JudgingNumbers) (sent : List Sent)
            → StandsFor self.old numbers sent
            → entry ≡ entry_of numbers sent (record { message = message.now; time = time })) }
        ensures stands { OnOk result
            ((numbers : JudgingNumbers) (sent : List Sent) → StandsFor self.old numbers sent
            → StandsFor self.new numbers
            (sent ++ record { message = message.now; time = time } ∷ [])) }
        ensures same { OnErr result (self.new ≡ self.old) }
        ensures keeping { self.new.keeping ≡ self.old.keeping }
        ensures too_many { (numbers : JudgingNumbers) (sent : List Sent)
            → StandsFor self.old numbers sent
            → (result ≡ Err TooManyVessels)
            ↔ (MOST_VESSELS < length
            (held_of numbers (sent ++ record { message = message.now; time = time } ∷ []))) }
        ensures settled { OnOk result
            ((numbers : JudgingNumbers) (sent : List Sent) → StandsFor self.old numbers sent
            → (mmsi t : ℕ) → forgotten self.old.keeping ≤ t → t + numbers.gap < time
            → state_at t (legs_in self.new mmsi) ≡ state_at t (legs_in self.old mmsi)) }
    {
        let mmsi = sender(message);
        match index_of(&self.held, mmsi) {
            Ok(at) => {
                self.guesses.note(mmsi, at);
                Ok(self.take_further(at, message, time)?)
            }
            Err(at) => self.take_first(at, mmsi, message, time),
        }
    }

    /// Takes the next message, which is only a position report; does the same as [`Book::take`] of that message.
    #[inline(always)]
    pub fn take_report(&mut self, report: &PositionReport, time: u64) -> Result<Entry, BookFault>
        requires { IsReport report.now }
        ensures entry { IfOk result
            (λ entry. (numbers : JudgingNumbers) (sent : List Sent)
            → StandsFor self.old numbers sent
            → entry ≡ entry_of numbers sent
            (record { message = Position report.now; time = time })) }
        ensures stands { OnOk result
            ((numbers : JudgingNumbers) (sent : List Sent) → StandsFor self.old numbers sent
            → StandsFor self.new numbers
            (sent ++ record { message = Position report.now; time = time } ∷ [])) }
        ensures same { OnErr result (self.new ≡ self.old) }
        ensures keeping { self.new.keeping ≡ self.old.keeping }
        ensures too_many { (numbers : JudgingNumbers) (sent : List Sent)
            → StandsFor self.old numbers sent
            → (result ≡ Err TooManyVessels)
            ↔ (MOST_VESSELS < length
            (held_of numbers (sent
            ++ record { message = Position report.now; time = time } ∷ []))) }
        ensures settled { OnOk result
            ((numbers : JudgingNumbers) (sent : List Sent) → StandsFor self.old numbers sent
            → (mmsi t : ℕ) → forgotten self.old.keeping ≤ t → t + numbers.gap < time
            → state_at t (legs_in self.new mmsi) ≡ state_at t (legs_in self.old mmsi)) }
    {
        match self.guess(report.mmsi) {
            Some(at) => Ok(self.report_further(at, report, time)?),
            None => self.take(&Message::Position(*report), time),
        }
    }

    /// Returns the index at which a vessel was last found, if she is still there.
    #[inline(always)]
    fn guess(&self, mmsi: u32) -> Option<usize>
        ensures { IfSome result (λ at. slice_get self.now.held at ≡ Some mmsi) }
    {
        let at = self.guesses.at(mmsi);
        if at < self.held.len() && self.held[at] == mmsi {
            Some(at)
        } else {
            None
        }
    }

    /// Takes a position report of the vessel at this index.
    #[inline(always)]
    fn report_further(
        &mut self,
        at: usize,
        report: &PositionReport,
        time: u64,
    ) -> Result<Entry, Memory>
        requires report { IsReport report.now }
        requires sender { slice_get self.old.held at ≡ Some report.now.mmsi }
        ensures entry { IfOk result
            (λ entry. (numbers : JudgingNumbers) (sent : List Sent)
            → StandsFor self.old numbers sent
            → entry ≡ entry_of numbers sent
            (record { message = Position report.now; time = time })) }
        ensures stands { OnOk result
            ((numbers : JudgingNumbers) (sent : List Sent) → StandsFor self.old numbers sent
            → StandsFor self.new numbers
            (sent ++ record { message = Position report.now; time = time } ∷ [])) }
        ensures same { OnErr result (self.new ≡ self.old) }
        ensures keeping { self.new.keeping ≡ self.old.keeping }
        ensures few { (numbers : JudgingNumbers) (sent : List Sent)
            → StandsFor self.old numbers sent
            → length (held_of numbers
            (sent ++ record { message = Position report.now; time = time } ∷ [])) ≤ MOST_VESSELS }
    {
        let vessel = &mut self.vessels[at];
        vessel.take_report(self.keeping, &self.numbers, report, time)
    }

    /// Takes a message of the vessel at this index.
    fn take_further(&mut self, at: usize, message: &Message, time: u64) -> Result<Entry, Memory>
        requires message { IsMessage message.now }
        requires sender { slice_get self.old.held at ≡ Some (sender_of message.now) }
        ensures entry { IfOk result
            (λ entry. (numbers : JudgingNumbers) (sent : List Sent)
            → StandsFor self.old numbers sent
            → entry ≡ entry_of numbers sent (record { message = message.now; time = time })) }
        ensures stands { OnOk result
            ((numbers : JudgingNumbers) (sent : List Sent) → StandsFor self.old numbers sent
            → StandsFor self.new numbers
            (sent ++ record { message = message.now; time = time } ∷ [])) }
        ensures same { OnErr result (self.new ≡ self.old) }
        ensures keeping { self.new.keeping ≡ self.old.keeping }
        ensures few { (numbers : JudgingNumbers) (sent : List Sent)
            → StandsFor self.old numbers sent
            → length (held_of numbers (sent ++ record { message = message.now; time = time } ∷ []))
            ≤ MOST_VESSELS }
    {
        let vessel = &mut self.vessels[at];
        vessel.take(self.keeping, &self.numbers, message, time)
    }

    /// Takes a message of a vessel that is not in the book.
    fn take_first(
        &mut self,
        at: usize,
        mmsi: u32,
        message: &Message,
        time: u64,
    ) -> Result<Entry, BookFault>
        requires message { IsMessage message.now }
        requires sender { mmsi ≡ sender_of message.now }
        requires place { at ≤ length self.old.held }
        requires absent { ¬ Contains self.old.held mmsi }
        requires more { with_number mmsi self.old.held ≡ insert self.old.held at mmsi }
        ensures entry { IfOk result
            (λ entry. (numbers : JudgingNumbers) (sent : List Sent)
            → StandsFor self.old numbers sent
            → entry ≡ entry_of numbers sent (record { message = message.now; time = time })) }
        ensures stands { OnOk result
            ((numbers : JudgingNumbers) (sent : List Sent) → StandsFor self.old numbers sent
            → StandsFor self.new numbers
            (sent ++ record { message = message.now; time = time } ∷ [])) }
        ensures same { OnErr result (self.new ≡ self.old) }
        ensures keeping { self.new.keeping ≡ self.old.keeping }
        ensures too_many { (numbers : JudgingNumbers) (sent : List Sent)
            → StandsFor self.old numbers sent
            → (result ≡ Err TooManyVessels)
            ↔ (MOST_VESSELS < length
            (held_of numbers (sent ++ record { message = message.now; time = time } ∷ []))) }
    {
        let entry = first_entry(&self.numbers, message, time);
        if !is_holding(message, entry) {
            return Ok(entry);
        }
        if self.held.len() >= MOST_VESSELS {
            return Err(BookFault::TooManyVessels);
        }
        match self.hold(at, mmsi, message, time) {
            Ok(()) => Ok(entry),
            Err(_) => Err(BookFault::Memory),
        }
    }

    /// Takes a message that adds its vessel to the book.
    fn hold(&mut self, at: usize, mmsi: u32, message: &Message, time: u64) -> Result<(), Memory>
        requires message { IsMessage message.now }
        requires sender { mmsi ≡ sender_of message.now }
        requires place { at ≤ length self.old.held }
        requires absent { ¬ Contains self.old.held mmsi }
        requires more { with_number mmsi self.old.held ≡ insert self.old.held at mmsi }
        requires room { length self.old.held < MOST_VESSELS }
        requires holding { makes_held self.old.numbers
            (record { message = message.now; time = time }) ≡ true }
        ensures stands { OnOk result
            ((numbers : JudgingNumbers) (sent : List Sent) → StandsFor self.old numbers sent
            → StandsFor self.new numbers
            (sent ++ record { message = message.now; time = time } ∷ [])) }
        ensures same { OnErr result (self.new ≡ self.old) }
        ensures keeping { self.new.keeping ≡ self.old.keeping }
    {
        let mut vessel = Vessel::new(self.alloc);
        vessel.take(self.keeping, &self.numbers, message, time)?;
        put(&mut self.held, &mut self.vessels, at, mmsi, vessel)
    }

    /// Forgets data before a time: for each vessel the accepted reports before the last one that is earlier, and the
    /// legs to these reports and to that one. This changes neither the vessels seen from that time, nor the counts, the
    /// static data and the results of further messages. A book that stores no tracks, or has already forgotten as much,
    /// does not change. It takes no memory; its time grows with the vessels and the stored reports.
    pub fn forget(&mut self, time: u64)
        ensures stands { (numbers : JudgingNumbers) (sent : List Sent)
            → StandsFor self.old numbers sent → StandsFor self.new numbers sent }
        ensures keeping { self.new.keeping ≡ forgetting self.old.keeping time }
        ensures held { self.new.held ≡ self.old.held }
    {
        let Some(earliest) = self.keeping.since(time) else {
            return;
        };
        forget_each(&mut self.vessels, self.numbers.gap, earliest);
        self.keeping = Keeping::Since(earliest);
    }

    /// Returns the vessel with this MMSI, if the book has her.
    fn vessel_of(&self, mmsi: u32) -> Option<&Vessel>
        ensures value { (numbers : JudgingNumbers) (sent : List Sent)
            → StandsFor self.now numbers sent
            → option_copied result ≡ vessel_held self.now.keeping numbers sent mmsi }
        ensures kept { IfSome (option_copied result)
            (IsKept self.now.keeping self.now.numbers.gap) }
    {
        match index_of(&self.held, mmsi) {
            Ok(at) => Some(&self.vessels[at]),
            Err(_) => None,
        }
    }

    /// Returns the stored accepted reports of a vessel, in the order of arrival.
    pub fn points(&self, mmsi: u32) -> &[Accepted]
        ensures value { (numbers : JudgingNumbers) (sent : List Sent)
            → StandsFor self.now numbers sent
            → result.now ≡ kept_points self.now.keeping (accepted_of numbers sent mmsi) }
        ensures ranges { All IsAccepted result.now }
    {
        match self.vessel_of(mmsi) {
            Some(vessel) => vessel.points(),
            None => &[],
        }
    }

    /// Returns the latest accepted report of a vessel, if she has one.
    pub fn latest(&self, mmsi: u32) -> Option<&Accepted>
        ensures value { self.now.keeping ≡ Tracks → (numbers : JudgingNumbers) (sent : List Sent)
            → StandsFor self.now numbers sent
            → option_copied result ≡ last_or None (accepted_of numbers sent mmsi) }
        ensures accepted { IfSome (option_copied result) IsAccepted }
    {
        latest(self.points(mmsi))
    }

    /// Returns the stored legs between the accepted reports of a vessel, or `None` if the book does not have her.
    pub fn legs(&self, mmsi: u32) -> Option<&Legs>
        ensures value { (numbers : JudgingNumbers) (sent : List Sent)
            → StandsFor self.now numbers sent
            → option_copied result
            ≡ (if is_held numbers sent mmsi
            then Some (kept_legs self.now.keeping numbers.gap (accepted_of numbers sent mmsi))
            else None) }
        ensures moves { IfSome (option_copied result) (MovesLittle self.now.numbers.gap) }
    {
        let legs = self.vessel_of(mmsi)?.legs();
        legs.moves_little(u64::from(self.numbers.gap));
        Some(legs)
    }

    /// Returns the vessel at this index.
    fn vessel_at(&self, at: usize) -> &Vessel
        requires { at < length self.now.held }
        ensures value { (numbers : JudgingNumbers) (sent : List Sent) (mmsi : ℕ)
            → StandsFor self.now numbers sent → slice_get self.now.held at ≡ Some mmsi
            → result.now ≡ vessel_of self.now.keeping numbers sent mmsi }
        ensures legs { result.now.legs ≡ legs_in self.now (slice_index self.now.held at) }
        ensures kept { IsKept self.now.keeping self.now.numbers.gap result.now }
    {
        &self.vessels[at]
    }

    /// Returns the legs of the vessel at this index.
    fn legs_at(&self, at: usize) -> &Legs
        requires { at < length self.now.held }
        ensures value { result.now ≡ legs_in self.now (slice_index self.now.held at) }
        ensures moves { MovesLittle self.now.numbers.gap result.now }
    {
        let legs = self.vessel_at(at).legs();
        legs.moves_little(u64::from(self.numbers.gap));
        legs
    }

    /// Appends the vessel at this index to `seen`, if she is seen at the time.
    fn look_at(&self, at: usize, time: u64, seen: &mut Vec<(u32, TickState)>) -> Result<(), Memory>
        requires { at < length self.now.held }
        ensures more { OnOk result
            (seen.new.items ≡ seen.old.items
            ++ option_to_list
            (seen_vessel time (legs_in self.now) (slice_index self.now.held at))) }
        ensures placed { OnOk result
            (All (λ (vessel : ℕ × TickState). IsTickState 2222400000 vessel.1) seen.old.items
            → All (λ (vessel : ℕ × TickState). IsTickState 2222400000 vessel.1) seen.new.items) }
        ensures few { vec_len seen.new ≤ vec_len seen.old + 1 }
        ensures capacity { vec_capacity seen.old ≤ vec_capacity seen.new }
        ensures room { vec_len seen.old < vec_capacity seen.old → IsOk result }
    {
        if let Some(state) = self.legs_at(at).at(time) {
            seen.push((self.held[at], state))?;
        }
        Ok(())
    }

    /// Replaces the content of `seen` with the vessels seen at a time, each with her state, in the order of their
    /// MMSIs. A book without legs sees no vessel, and at a forgotten time some vessels may be missing. `seen` keeps its
    /// capacity; if that suffices for all vessels of the book, memory cannot run out. If memory runs out, the content
    /// of `seen` is unspecified.
    pub fn look(&self, time: u64, seen: &mut Vec<(u32, TickState)>) -> Result<(), Memory>
        ensures value { OnOk result
            (Remembers self.now.keeping time → (numbers : JudgingNumbers) (sent : List Sent)
            → StandsFor self.now numbers sent → seen.new.items ≡ seen_of numbers sent time) }
        ensures kept { OnOk result (seen.new.items ≡ seen_in self.now time) }
        ensures ascending { OnOk result
            (IsStrictlyIncreasing (map (λ (vessel : ℕ × TickState). vessel.0) seen.new.items)) }
        ensures placed { OnOk result
            (All (λ (vessel : ℕ × TickState). IsTickState 2222400000 vessel.1) seen.new.items) }
        ensures capacity { vec_capacity seen.old ≤ vec_capacity seen.new }
        ensures room { length self.now.held ≤ vec_capacity seen.old → IsOk result }
    {
        seen.clear();
        for at in 0..self.held.len() {
            self.look_at(at, time, seen)?;
        }
        Ok(())
    }

    /// A law of the book, which does nothing at run time: from one time to another, at most a minute and at most the
    /// gap later, a vessel seen at both moves by less than 2^25 in each component.
    pub fn moves_little(&self)
        ensures { (t u mmsi : ℕ) (before after : TickState) → t ≤ u → u ≤ t + 60
            → u ≤ t + self.now.numbers.gap → Contains (seen_in self.now t) (mmsi, before)
            → Contains (seen_in self.now u) (mmsi, after)
            → IsBelow (2 ^ 25) (displacement before.point after.point) }
    {
        // The law holds of each vessel's legs.
        for at in 0..self.held.len() {
            let _ = self.legs_at(at);
        }
    }

    /// A law of the book, which does nothing at run time: a vessel seen on a leg before her latest accepted report, at
    /// most the gap before it, moves from there to that report's point by at most 525,763 per second in each component,
    /// plus 2.
    pub fn comes_to_latest(&self, mmsi: u32)
        requires { self.now.keeping ≡ Tracks }
        ensures { (numbers : JudgingNumbers) (sent : List Sent) → StandsFor self.now numbers sent
            → (latest : Accepted) → last_or None (accepted_of numbers sent mmsi) ≡ Some latest
            → (t : ℕ) (before : TickState) → t < latest.time → latest.time ≤ t + numbers.gap
            → state_at t (legs_of numbers sent mmsi) ≡ Some before
            → IsWithin ((latest.time - t) * 525763 + 2) (displacement before.point latest.point) }
    {
        // The law holds of her legs.
        let _ = self.legs(mmsi);
    }

    /// Returns a vessel's static data, or `None` if the book does not have her.
    pub fn statics(&self, mmsi: u32) -> Option<&Statics>
        ensures { (numbers : JudgingNumbers) (sent : List Sent) → StandsFor self.now numbers sent
            → option_copied result
            ≡ (if is_held numbers sent mmsi then Some (statics_of sent mmsi) else None) }
    {
        Some(self.vessel_of(mmsi)?.statics())
    }

    /// Returns the length of a vessel of the book in metres, from bow to stern, at most 1022; 0 if she sent none.
    pub fn length(&self, mmsi: u32) -> u32
        ensures value { (numbers : JudgingNumbers) (sent : List Sent)
            → StandsFor self.now numbers sent → is_held numbers sent mmsi ≡ true
            → result ≡ length_of (statics_of sent mmsi).ship }
        ensures short { result ≤ 1022 }
    {
        match self.vessel_of(mmsi) {
            Some(vessel) => length_of(vessel.statics().ship),
            None => 0,
        }
    }

    /// Returns the number of vessels.
    pub fn vessels(&self) -> usize
        ensures value { (numbers : JudgingNumbers) (sent : List Sent)
            → StandsFor self.now numbers sent → result ≡ length (held_of numbers sent) }
        ensures count { result ≡ length self.now.held }
        ensures few { result ≤ MOST_VESSELS }
    {
        self.held.len()
    }

    /// Returns the MMSI of the `k`-th vessel, in ascending order from 0.
    pub fn vessel(&self, k: usize) -> u32
        requires { k < length self.now.held }
        ensures { (numbers : JudgingNumbers) (sent : List Sent) → StandsFor self.now numbers sent
            → slice_get (held_of numbers sent) k ≡ Some result }
    {
        self.held[k]
    }

    /// Returns the `k`-th vessel, in ascending order of MMSIs from 0, with all her stored data.
    pub fn held(&self, k: usize) -> HeldVessel<'_>
        requires { k < length self.now.held }
        ensures mmsi { slice_get self.now.held k ≡ Some result.mmsi }
        ensures listed { (numbers : JudgingNumbers) (sent : List Sent)
            → StandsFor self.now numbers sent
            → slice_get (held_of numbers sent) k ≡ Some result.mmsi }
        ensures kept { (numbers : JudgingNumbers) (sent : List Sent)
            → StandsFor self.now numbers sent → IsHeldVessel self.now.keeping numbers sent result }
    {
        let vessel = self.vessel_at(k);
        HeldVessel {
            mmsi: self.held[k],
            points: vessel.points(),
            legs: vessel.legs(),
            counts: vessel.counts(),
            statics: vessel.statics(),
        }
    }

    /// Returns the vessel with this MMSI with all her stored data, or `None` if the book does not have her.
    pub fn find(&self, mmsi: u32) -> Option<HeldVessel<'_>>
        ensures held { (numbers : JudgingNumbers) (sent : List Sent)
            → StandsFor self.now numbers sent → IsTrue (is_held numbers sent mmsi) ↔ IsSome result }
        ensures mmsi { IfSome result (λ vessel. vessel.mmsi ≡ mmsi) }
        ensures kept { IfSome result
            (λ vessel. (numbers : JudgingNumbers) (sent : List Sent)
            → StandsFor self.now numbers sent → IsHeldVessel self.now.keeping numbers sent vessel) }
    {
        match index_of(&self.held, mmsi) {
            Ok(at) => Some(self.held(at)),
            Err(_) => None,
        }
    }
}
