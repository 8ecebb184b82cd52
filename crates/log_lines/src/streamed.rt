//! Lines of a stream, each judged when it ends.
ghost use Rattle.std.specs.Prelude.{◌≡◌, ◌+◌, ◌<◌, ◌^◌, ◌++◌, ◌∷◌, [], ℕ, List, IfOk, IsTrue, OnOk, Err, false, if◌then◌else◌, length};
ghost use Rattle.std.specs.List.{All};
ghost use Rattle.std.specs.Option.{option_copied};
ghost use Rattle.log_lines.specs.GrowingLog.{ended_lines};
ghost use Rattle.log_lines.specs.JudgedLines.{greatest_held, held_behind, is_crowded, judged_line, judged_lines};
ghost use Rattle.log_lines.specs.LogLines.{is_line_feed, lines_of};
ghost use Rattle.log_lines.specs.Standing.{IsKnownLine, LinesStandFor, StandsFor as JudgeStandsFor, kept_of, keeping_of};
ghost use Rattle.scenario_values.specs.ValueRanges.{IsInRange};
ghost use Rattle.scenario_values.specs.declared.values.Scenario.{Scenario};
ghost use Rattle.tracks.specs.Standing.{forgetting};
ghost use Rattle.tracks.specs.declared.entry.BookFault.TheVariants.{TooManyVessels};

use crate::judge::Judge;
use crate::judged::Judged;
use crate::open_line::OpenLine;
use aivdm::SentenceRoom;
use out_of_memory::Memory;
use scenario_values::Scenario;
use std::alloc::Global;
use tracks::{BookFault, Keeping};

/// Judges a line. `None` is a line of more than 1024 bytes.
fn judge_line(
    judge: &mut Judge,
    room: &mut SentenceRoom,
    line: Option<&[u8]>,
) -> Result<Judged, BookFault>
    ensures judged { IfOk result
        (λ judged. (scenario : Scenario) (before : List (List ℕ)) (known : List ℕ)
        → JudgeStandsFor judge.old scenario before → IsKnownLine (option_copied line.entry) known
        → judged ≡ judged_line scenario before known) }
    ensures stands { OnOk result
        ((scenario : Scenario) (before : List (List ℕ)) (known : List ℕ)
        → length before + 1 < 2 ^ 64 → JudgeStandsFor judge.old scenario before
        → IsKnownLine (option_copied line.entry) known
        → JudgeStandsFor judge.new scenario (before ++ known ∷ [])) }
    ensures keeping { keeping_of judge.new ≡ keeping_of judge.old }
    ensures crowded { result ≡ Err TooManyVessels
        → (scenario : Scenario) (before : List (List ℕ)) (known : List ℕ)
        → JudgeStandsFor judge.old scenario before → IsKnownLine (option_copied line.entry) known
        → greatest_held < held_behind scenario before known }
{
    match line {
        Some(line) => judge.take(room, line),
        None => Ok(judge.take_long()),
    }
}

/// The lines of a log that arrives in chunks, each judged when it ends.
#[derive(Drop)]
pub struct StreamedLines {
    judge: Judge,
    room: SentenceRoom,
    line: OpenLine,
}

impl StreamedLines {
    /// Returns the state before the first byte. This takes no memory.
    pub fn new(alloc: Global, keeping: Keeping, scenario: &Scenario) -> StreamedLines
        requires { IsInRange scenario.now }
        ensures keeping { kept_of result ≡ keeping }
        ensures stands { LinesStandFor result scenario.now [] }
    {
        StreamedLines {
            judge: Judge::new(alloc, keeping, scenario),
            room: SentenceRoom::new(),
            line: OpenLine::new(alloc),
        }
    }

    /// Returns the judge of the ended lines.
    pub fn judge(&self) -> &Judge
        ensures keeping { keeping_of result.now ≡ kept_of self.now }
        ensures stands { (scenario : Scenario) (log : List ℕ) → LinesStandFor self.now scenario log
            → JudgeStandsFor result.now scenario (ended_lines log) }
    {
        &self.judge
    }

    /// Forgets the places of vessels before a time, like [`Judge::forget`].
    pub fn forget(&mut self, time: u64)
        ensures stands { (scenario : Scenario) (log : List ℕ) → LinesStandFor self.old scenario log
            → LinesStandFor self.new scenario log }
        ensures keeping { kept_of self.new ≡ forgetting (kept_of self.old) time }
    {
        self.judge.forget(time);
    }

    /// Takes bytes of a log that contain no line feed. After an `Err` the caller may only drop the lines.
    pub fn extend(&mut self, part: &[u8]) -> Result<(), Memory>
        requires { All (λ byte. is_line_feed byte ≡ false) part.now }
        ensures stands { OnOk result
            ((scenario : Scenario) (log : List ℕ) → LinesStandFor self.old scenario log
            → LinesStandFor self.new scenario (log ++ part.now)) }
        ensures keeping { kept_of self.new ≡ kept_of self.old }
    {
        self.line.extend(part)
    }

    /// Takes bytes of a log that contain no line feed, and the line feed after them. Returns the result of the line
    /// that it ends. After an `Err` the caller may only drop the lines.
    pub fn end_line(&mut self, part: &[u8]) -> Result<Judged, BookFault>
        requires { All (λ byte. is_line_feed byte ≡ false) part.now }
        ensures judged { IfOk result
            (λ judged. (scenario : Scenario) (log : List ℕ) → LinesStandFor self.old scenario log
            → judged_lines scenario (ended_lines (log ++ (part.now ++ 10 ∷ [])))
            ≡ judged_lines scenario (ended_lines log) ++ judged ∷ []) }
        ensures stands { OnOk result
            ((scenario : Scenario) (log : List ℕ) → length (ended_lines log) + 1 < 2 ^ 64
            → LinesStandFor self.old scenario log
            → LinesStandFor self.new scenario (log ++ (part.now ++ 10 ∷ []))) }
        ensures keeping { kept_of self.new ≡ kept_of self.old }
        ensures crowded { result ≡ Err TooManyVessels → (scenario : Scenario) (log : List ℕ)
            → LinesStandFor self.old scenario log
            → IsTrue (is_crowded scenario (ended_lines (log ++ (part.now ++ 10 ∷ [])))) }
    {
        self.line.extend_open(part)?;
        let line = self.line.ended_by(part);
        let judged = judge_line(&mut self.judge, &mut self.room, line)?;
        self.line.end();
        Ok(judged)
    }

    /// Returns whether a line is open: there are bytes after the last line feed. At the end of a
    /// log, an open line counts as a line, as if a line feed ended it.
    pub fn is_open(&self) -> bool
        ensures { (scenario : Scenario) (log : List ℕ) → LinesStandFor self.now scenario log
            → lines_of log ≡ (if result then ended_lines (log ++ 10 ∷ []) else ended_lines log) }
    {
        !self.line.is_empty()
    }
}
