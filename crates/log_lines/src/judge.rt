//! Judges a log's lines one after the other.
ghost use Rattle.std.specs.Prelude.{◌≡◌, ◌≤◌, ◌<◌, ◌+◌, ◌^◌, ◌++◌, ◌∷◌, [], ◌↔◌, Bool, List, ℕ, IfOk, IfSome, None, OnOk, Ok, Err, length, slice_index};
ghost use Rattle.std.specs.Option.{option_copied, option_to_list};
ghost use Rattle.aivdm.specs.FragmentJoining.{Taken};
ghost use Rattle.aivdm.specs.OpenMessages.{StandsFor as JoinerStandsFor};
ghost use Rattle.aivdm.specs.Sentences.{IfSentence, IsSentence, body_seen, fields_seen};
ghost use Rattle.ais_messages.specs.MessageFields.{decoded_of, IfMessage, IsMessage, IsReport};
ghost use Rattle.ais_messages.specs.declared.message.Message.{Message};
ghost use Rattle.ais_messages.specs.declared.message.Message.TheVariants.{Position};
ghost use Rattle.ais_messages.specs.declared.message.Decoded.TheVariants as decoded;
ghost use Rattle.aivdm.specs.PayloadBits.{bits_of};
ghost use Rattle.scenario_values.specs.ValueRanges.{IsInRange};
ghost use Rattle.scenario_values.specs.declared.values.Scenario.{Scenario};
ghost use Rattle.tracks.specs.AcceptedReports.{JudgingNumbers};
ghost use Rattle.tracks.specs.Standing.{StandsFor as BookStandsFor, forgetting};
ghost use Rattle.tracks.specs.VesselsHeld.{Sent, entry_of, held_of, report_in};
ghost use Rattle.tracks.specs.declared.entry.BookFault.TheVariants.{TooManyVessels};
ghost use Rattle.log_lines.specs.JudgedLines.{greatest_held, held_behind, judged_entry, judged_line, judged_lines, numbers_of};
ghost use Rattle.log_lines.specs.LineTimes.{clock_of};
ghost use Rattle.log_lines.specs.SentLines.{sent, sent_decoded, sent_heard};
ghost use Rattle.log_lines.specs.ShipTypes.{AreNoted, counts_ranks};
ghost use Rattle.log_lines.specs.StaticReports.{static_reports, told_of};

use crate::judged::Judged;
use crate::line_times::LineTimes;
use crate::outcome::LineOutcome;
use crate::ship_types::{no_ship_types, note};
use crate::told_static::{ToldStatic, static_told};
use ais_messages::{Decoded, Message, PositionReport, decode, position};
use aivdm::{Body, Joined, Joiner, Sentence, SentenceRoom, read_line};
use ranks::Ranks;
use scenario_values::Scenario;
use std::alloc::Global;
use tracks::{Accepted, Book, BookFault, Entry, Keeping};

/// Returns the position report of a message, if it has one.
fn position_report(message: &Message) -> Option<&PositionReport>
    ensures { option_copied result ≡ report_in message.now }
{
    match message {
        Message::Position(report) | Message::Both(report, _) => Some(report),
        Message::Static(_) => None,
    }
}

/// Returns the position report of a sentence that is a whole message with no other content.
#[inline(always)]
fn report_of(room: &mut SentenceRoom, sentence: &Sentence<'_>) -> Option<PositionReport>
    requires { IsSentence (fields_seen sentence.now) }
    ensures report { IfSome result
        (λ report. (sentence.now.total ≡ 1)
        × (decoded_of (bits_of sentence.now.payload.now sentence.now.fill)
        ≡ decoded.Message (Position report))) }
    ensures ranges { IfSome result IsReport }
{
    if sentence.total != 1 {
        return None;
    }
    position(&room.bits_of(sentence))
}

/// The result of a line without the accepted report itself, which the judge stores. Calls pass this instead of the
/// report.
#[derive(Clone, Copy)]
pub(crate) enum Came {
    /// Its report is accepted; it is the judge's latest report.
    Accepted,
    /// It has no accepted report.
    Without(LineOutcome),
}

/// The state after the lines of a log so far. Its model is the list of these lines.
#[derive(Drop)]
pub struct Judge {
    times: LineTimes,
    joiner: Joiner,
    book: Book,
    /// The static data of a vessel in the last line.
    told: Option<ToldStatic>,
    /// The ship types that vessels reported, if ranks count.
    ranks: Option<Ranks>,
    /// The latest accepted report.
    latest: Option<Accepted>,
    /// The number of lines of each outcome, by its index.
    counts: [u64; 21],
}

impl Judge {
    ghost use Rattle.std.specs.Prelude.{◌-◌, min, slice_set};
    ghost use Rattle.log_lines.specs.LineOutcomes.{outcome_index};
    ghost use Rattle.log_lines.specs.Standing.{AreCounts, StandsFor, keeping_of};
    ghost use Rattle.log_lines.specs.Inner.JudgeState.{Enters, GoesOn, Keeps, heard_by, held_with, judged_by};

    /// Returns a judge with the numbers of a scenario, before the first line. `keeping` says what its book stores of
    /// each vessel. This takes no memory.
    pub fn new(alloc: Global, keeping: Keeping, scenario: &Scenario) -> Judge
        requires { IsInRange scenario.now }
        ensures keeping { keeping_of result ≡ keeping }
        ensures stands { StandsFor result scenario.now [] }
    {
        Judge {
            times: LineTimes::new(scenario),
            joiner: Joiner::new(alloc),
            book: Book::with_keeping(
                alloc,
                keeping,
                scenario.reference,
                scenario.log.gap,
                scenario.log.max_speed,
            ),
            told: None,
            ranks: no_ship_types(alloc, keeping, scenario),
            latest: None,
            counts: [0; 21],
        }
    }

    /// Returns the number of lines of each outcome, by its index in the order of the report.
    pub fn counts(&self) -> &[u64; 21]
        ensures { (scenario : Scenario) (lines : List (List ℕ)) → StandsFor self.now scenario lines
            → AreCounts result.now (judged_lines scenario lines) }
    {
        &self.counts
    }

    /// Returns the book of vessels, from the lines so far.
    pub fn book(&self) -> &Book
        ensures keeping { result.now.keeping ≡ keeping_of self.now }
        ensures stands { (scenario : Scenario) (lines : List (List ℕ))
            → StandsFor self.now scenario lines
            → BookStandsFor result.now (numbers_of scenario) (sent scenario lines) }
    {
        &self.book
    }

    /// Forgets the places of vessels before a time, like [`Book::forget`].
    pub fn forget(&mut self, time: u64)
        ensures stands { (scenario : Scenario) (lines : List (List ℕ))
            → StandsFor self.old scenario lines → StandsFor self.new scenario lines }
        ensures keeping { keeping_of self.new ≡ forgetting (keeping_of self.old) time }
    {
        self.book.forget(time);
    }

    /// Returns the static report of the message that the last line completes, if it has one.
    pub fn told(&self) -> Option<ToldStatic>
        ensures line { (scenario : Scenario) (before : List (List ℕ)) (line : List ℕ)
            → StandsFor self.now scenario (before ++ line ∷ [])
            → result ≡ told_of scenario before line }
        ensures reports { (scenario : Scenario) (before : List (List ℕ)) (line : List ℕ)
            → StandsFor self.now scenario (before ++ line ∷ [])
            → static_reports scenario (before ++ line ∷ [])
            ≡ static_reports scenario before ++ option_to_list result }
    {
        self.told
    }

    /// Returns the ship types that the lines so far report, if ranks count.
    pub fn ranks(&self) -> Option<&Ranks>
        ensures { (scenario : Scenario) (lines : List (List ℕ)) → StandsFor self.now scenario lines
            → AreNoted (counts_ranks (keeping_of self.now) scenario) (option_copied result)
            (sent scenario lines) }
    {
        self.ranks.as_ref()
    }

    /// Returns the clock after the lines so far.
    pub fn clock(&self) -> Option<u64>
        ensures { (scenario : Scenario) (lines : List (List ℕ)) → StandsFor self.now scenario lines
            → result ≡ clock_of scenario lines }
    {
        self.times.clock()
    }

    /// Counts one more line, up to the greatest count.
    fn count(&mut self, outcome: LineOutcome)
        ensures { self.new ≡ record self.old {
          counts = slice_set self.old.counts (outcome_index outcome)
              (min (slice_index self.old.counts (outcome_index outcome) + 1) (2 ^ 64 - 1));
        } }
    {
        let place = outcome.place();
        self.counts[place] = self.counts[place].saturating_add(1);
    }

    /// Enters the result of a message with this position report, from its entry in the book.
    #[inline(always)]
    fn enter(&mut self, report: Option<&PositionReport>, time: u64, entry: Entry) -> Came
        ensures came { (message : Message) → report_in message ≡ option_copied report.entry
            → judged_by result self.new.latest
            ≡ judged_entry (record { message = message; time = time }) entry }
        ensures same { self.new ≡ record self.old { latest = self.new.latest } }
    {
        match (entry, report) {
            (Entry::Point(point), Some(report)) => {
                self.latest = Some(Accepted {
                    time,
                    point,
                    report: *report,
                });
                Came::Accepted
            }
            (Entry::Point(_), None) | (Entry::Static, _) => Came::Without(LineOutcome::Static),
            (Entry::Dropped(cause), _) => Came::Without(cause.into()),
        }
    }

    /// Returns the result of the latest line.
    #[inline(always)]
    fn judged(&self, came: Came) -> Judged
        ensures { result ≡ judged_by came self.now.latest }
    {
        match (came, &self.latest) {
            (Came::Accepted, Some(report)) => Judged::Accepted(*report),
            (Came::Accepted, None) => Judged::Without(LineOutcome::Point),
            (Came::Without(outcome), _) => Judged::Without(outcome),
        }
    }

    /// Judges a message, and stores what it reports.
    fn judge_message(&mut self, message: &Message, time: u64) -> Result<Came, BookFault>
        requires message { IsMessage message.now }
        requires untold { self.old.told ≡ None }
        ensures judged { IfOk result
            (λ came. (numbers : JudgingNumbers) (ranked : Bool) (before : List Sent)
            → Keeps self.old.book self.old.ranks numbers ranked before
            → Enters numbers ranked self.new (judged_by came self.new.latest) before
            (Ok (record { message = message.now; time = time }))) }
        ensures crowded { result ≡ Err TooManyVessels
            → (numbers : JudgingNumbers) (before : List Sent)
            → BookStandsFor self.old.book numbers before
            → greatest_held < held_with numbers before
            (Ok (record { message = message.now; time = time })) }
        ensures same { self.new
            ≡ record self.old {
              book = self.new.book;
              told = self.new.told;
              ranks = self.new.ranks;
              latest = self.new.latest;
            } }
        ensures keeping { keeping_of self.new ≡ keeping_of self.old }
    {
        let entry = self.book.take(message, time)?;
        self.told = static_told(message, time);
        note(&mut self.ranks, self.told)?;
        Ok(self.enter(position_report(message), time, entry))
    }

    /// Judges the result of reading a message's bits.
    fn judge_decoded(&mut self, decoded: &Decoded, time: u64) -> Result<Came, BookFault>
        requires message { IfMessage decoded.now IsMessage }
        requires untold { self.old.told ≡ None }
        ensures judged { IfOk result
            (λ came. (numbers : JudgingNumbers) (ranked : Bool) (before : List Sent)
            → Keeps self.old.book self.old.ranks numbers ranked before
            → Enters numbers ranked self.new (judged_by came self.new.latest) before
            (sent_decoded time decoded.now)) }
        ensures crowded { result ≡ Err TooManyVessels
            → (numbers : JudgingNumbers) (before : List Sent)
            → BookStandsFor self.old.book numbers before
            → greatest_held < held_with numbers before (sent_decoded time decoded.now) }
        ensures same { self.new
            ≡ record self.old {
              book = self.new.book;
              told = self.new.told;
              ranks = self.new.ranks;
              latest = self.new.latest;
            } }
        ensures keeping { keeping_of self.new ≡ keeping_of self.old }
    {
        match decoded {
            Decoded::Message(message) => self.judge_message(message, time),
            Decoded::Dropped(cause) => Ok(Came::Without((*cause).into())),
        }
    }

    /// Judges a position report that is a message by itself.
    #[inline(always)]
    fn judge_report(&mut self, report: &PositionReport, time: u64) -> Result<Came, BookFault>
        requires report { IsReport report.now }
        requires untold { self.old.told ≡ None }
        ensures judged { IfOk result
            (λ came. (numbers : JudgingNumbers) (ranked : Bool) (before : List Sent)
            → Keeps self.old.book self.old.ranks numbers ranked before
            → Enters numbers ranked self.new (judged_by came self.new.latest) before
            (Ok (record { message = Position report.now; time = time }))) }
        ensures crowded { result ≡ Err TooManyVessels
            → (numbers : JudgingNumbers) (before : List Sent)
            → BookStandsFor self.old.book numbers before
            → greatest_held < held_with numbers before
            (Ok (record { message = Position report.now; time = time })) }
        ensures same { self.new
            ≡ record self.old {
              book = self.new.book;
              told = self.new.told;
              ranks = self.new.ranks;
              latest = self.new.latest;
            } }
        ensures keeping { keeping_of self.new ≡ keeping_of self.old }
    {
        let entry = self.book.take_report(report, time)?;
        Ok(self.enter(Some(report), time, entry))
    }

    /// Judges a sentence that is in time. Most sentences are whole position reports, which it reads in place.
    #[inline(always)]
    fn judge_sentence(
        &mut self,
        room: &mut SentenceRoom,
        sentence: Sentence<'_>,
        time: u64,
    ) -> Result<Came, BookFault>
        requires sentence { IsSentence (fields_seen sentence) }
        requires untold { self.old.told ≡ None }
        ensures judged { IfOk result
            (λ came. (numbers : JudgingNumbers) (ranked : Bool) (taken : List Taken)
            (messages : List Sent) → JoinerStandsFor self.old.joiner taken
            → Keeps self.old.book self.old.ranks numbers ranked messages
            → GoesOn numbers ranked self.new (judged_by came self.new.latest) taken messages
            (Ok (record { sentence = fields_seen sentence.entry; time = time }))) }
        ensures crowded { result ≡ Err TooManyVessels
            → (numbers : JudgingNumbers) (taken : List Taken) (messages : List Sent)
            → JoinerStandsFor self.old.joiner taken → BookStandsFor self.old.book numbers messages
            → greatest_held < held_with numbers messages
            (sent_heard taken
            (Ok (record { sentence = fields_seen sentence.entry; time = time }))) }
        ensures same { self.new
            ≡ record self.old {
              joiner = self.new.joiner;
              book = self.new.book;
              told = self.new.told;
              ranks = self.new.ranks;
              latest = self.new.latest;
            } }
        ensures keeping { keeping_of self.new ≡ keeping_of self.old }
    {
        match report_of(room, &sentence) {
            Some(report) => self.judge_report(&report, time),
            None => self.judge_part(&sentence, time),
        }
    }

    /// Judges a sentence that is in time with the joiner.
    #[inline(never)]
    fn judge_part(&mut self, sentence: &Sentence<'_>, time: u64) -> Result<Came, BookFault>
        requires sentence { IsSentence (fields_seen sentence.now) }
        requires untold { self.old.told ≡ None }
        ensures judged { IfOk result
            (λ came. (numbers : JudgingNumbers) (ranked : Bool) (taken : List Taken)
            (messages : List Sent) → JoinerStandsFor self.old.joiner taken
            → Keeps self.old.book self.old.ranks numbers ranked messages
            → GoesOn numbers ranked self.new (judged_by came self.new.latest) taken messages
            (Ok (record { sentence = fields_seen sentence.now; time = time }))) }
        ensures crowded { result ≡ Err TooManyVessels
            → (numbers : JudgingNumbers) (taken : List Taken) (messages : List Sent)
            → JoinerStandsFor self.old.joiner taken → BookStandsFor self.old.book numbers messages
            → greatest_held < held_with numbers messages
            (sent_heard taken (Ok (record { sentence = fields_seen sentence.now; time = time }))) }
        ensures same { self.new
            ≡ record self.old {
              joiner = self.new.joiner;
              book = self.new.book;
              told = self.new.told;
              ranks = self.new.ranks;
              latest = self.new.latest;
            } }
        ensures keeping { keeping_of self.new ≡ keeping_of self.old }
    {
        match self.joiner.take(sentence, time)? {
            Joined::Message(bits) => self.judge_decoded(&decode(&bits), time),
            Joined::Waiting => Ok(Came::Without(LineOutcome::Part)),
            Joined::Orphan => Ok(Came::Without(LineOutcome::Orphan)),
        }
    }

    /// Judges the content of a line.
    #[inline(always)]
    fn judge_body(
        &mut self,
        room: &mut SentenceRoom,
        body: Body<'_>,
        time: u64,
    ) -> Result<Came, BookFault>
        requires sentence { IfSentence body (λ s. IsSentence (fields_seen s)) }
        requires untold { self.old.told ≡ None }
        ensures judged { IfOk result
            (λ came. (numbers : JudgingNumbers) (ranked : Bool) (taken : List Taken)
            (messages : List Sent) → JoinerStandsFor self.old.joiner taken
            → Keeps self.old.book self.old.ranks numbers ranked messages
            → GoesOn numbers ranked self.new (judged_by came self.new.latest) taken messages
            (heard_by self.old.times time (body_seen body.entry))) }
        ensures crowded { result ≡ Err TooManyVessels
            → (numbers : JudgingNumbers) (taken : List Taken) (messages : List Sent)
            → JoinerStandsFor self.old.joiner taken → BookStandsFor self.old.book numbers messages
            → greatest_held < held_with numbers messages
            (sent_heard taken (heard_by self.old.times time (body_seen body.entry))) }
        ensures same { self.new
            ≡ record self.old {
              joiner = self.new.joiner;
              book = self.new.book;
              told = self.new.told;
              ranks = self.new.ranks;
              latest = self.new.latest;
            } }
        ensures keeping { keeping_of self.new ≡ keeping_of self.old }
    {
        match body {
            Body::Dropped(cause) => Ok(Came::Without(cause.into())),
            Body::Sentence(sentence) => match self.times.untimely(time) {
                Some(outcome) => Ok(Came::Without(outcome)),
                None => self.judge_sentence(room, sentence, time),
            },
        }
    }

    /// Takes the next line and returns its result. If it adds a 4097th vessel, or memory runs out, the caller may only
    /// drop the judge.
    #[inline(always)]
    pub fn take(&mut self, room: &mut SentenceRoom, line: &[u8]) -> Result<Judged, BookFault>
        ensures judged { IfOk result
            (λ judged. (scenario : Scenario) (before : List (List ℕ))
            → StandsFor self.old scenario before → judged ≡ judged_line scenario before line.now) }
        ensures stands { OnOk result
            ((scenario : Scenario) (before : List (List ℕ)) → length before + 1 < 2 ^ 64
            → StandsFor self.old scenario before
            → StandsFor self.new scenario (before ++ line.now ∷ [])) }
        ensures keeping { keeping_of self.new ≡ keeping_of self.old }
        ensures crowded { result ≡ Err TooManyVessels
            → (scenario : Scenario) (before : List (List ℕ)) → StandsFor self.old scenario before
            → greatest_held < held_behind scenario before line.now }
    {
        let reading = read_line(line);
        let time = self.times.time(reading.stamp);
        self.told = None;
        let came = self.judge_body(room, reading.body, time)?;
        self.times.pass(reading.stamp);
        let judged = self.judged(came);
        self.count(judged.outcome());
        Ok(judged)
    }

    /// Takes the next line, known only to be longer than a line may be, and returns its result. It does not read such a
    /// line any further, so the line has no stamp.
    pub fn take_long(&mut self) -> Judged
        ensures judged { (scenario : Scenario) (before : List (List ℕ)) (line : List ℕ)
            → 1024 < length line → StandsFor self.old scenario before
            → result ≡ judged_line scenario before line }
        ensures stands { (scenario : Scenario) (before : List (List ℕ)) (line : List ℕ)
            → 1024 < length line → length before + 1 < 2 ^ 64 → StandsFor self.old scenario before
            → StandsFor self.new scenario (before ++ line ∷ []) }
        ensures keeping { keeping_of self.new ≡ keeping_of self.old }
    {
        self.told = None;
        self.times.pass(None);
        self.count(LineOutcome::Long);
        Judged::Without(LineOutcome::Long)
    }
}
