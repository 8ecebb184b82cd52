//! A report on a log that comes in pieces.
ghost use Rattle.std.specs.Prelude.{◌≡◌, ◌≤◌, ◌<◌, ◌+◌, ◌-◌, ◌++◌, ◌∷◌, [], ℕ, List, All, false, IfErr, IfOk, IsSome, IsTrue, OnOk, Err, Ok, length, take};
ghost use Rattle.audit_report.specs.ReportTexts.{HasText};
ghost use Rattle.scenario_values.specs.ValueRanges.{IsInRange};
ghost use Rattle.sessions.specs.Endings.{IsAnswerTo, IsEnding};
ghost use Rattle.sessions.specs.Feeding.{Refuses, TookPiece, UnlessMemory};
ghost use Rattle.sessions.specs.Inner.Lines.{EndedLine, IsReadyToTake, RefusesLine, RefusesPiece, TookLines};
ghost use Rattle.tasks.specs.Modes.{needs_own};
ghost use Rattle.sessions.specs.SessionScenarios.{scenario_for};
ghost use Rattle.sessions.specs.Refusals.{IsStopped};
ghost use Rattle.sessions.specs.PlanReport.{IsSituationOn};
ghost use Rattle.sessions.specs.Standing.{IsInUse, StandsFor, mode_of, session_scenario, taken_of};
ghost use Rattle.sessions.specs.Tasks.{Task, task_by};
ghost use Rattle.log_lines.specs.JudgedLines.{is_crowded};
ghost use Rattle.log_lines.specs.LogLines.{is_line_feed, lines_of};
ghost use Rattle.refutation_check.specs.declared.checked_text.TheConstants.{GREATEST_TEXT};
ghost use Rattle.plan_situations.specs.Situations.{IsSituation};

use crate::asked::Asked;
use crate::ending::Ending;
use crate::recheck::situation_at_end;
use crate::session_fault::SessionFault;
use crate::work::Work;
use audit_report::ReportText;
use log_lines::laws::{a_part_goes_on, ended_lines_stay};
use log_lines::{StreamedLines, first_line_feed};
use out_of_memory::Memory;
use plan_situations::Situation;
use scenario_values::Scenario;
use settling::laws::many_settled_stay;
use std::alloc::Global;
use tasks::{Mode, needs_own};

/// The least number of ticks that are taken before what lies before them is forgotten.
const TICKS_AT_LEAST: u32 = 64;

/// Returns the prefix of `piece` that fits in `room`.
fn fitting(piece: &[u8], room: u64) -> &[u8]
    ensures { result.now ≡ take room piece.now }
{
    if piece.len() as u64 > room {
        &piece[..room as usize]
    } else {
        piece
    }
}

/// Returns the values that a mode uses: own ship's only if it needs her.
fn scenario_for(mut scenario: Scenario, mode: Mode) -> Scenario
    requires { IsInRange scenario }
    ensures value { result ≡ scenario_for mode scenario }
    ensures in_range { IsInRange result }
    ensures own { (IsTrue (needs_own mode) → IsSome scenario.own) → IsTrue (needs_own mode)
        → IsSome result.own }
{
    if !needs_own(mode) {
        scenario.own = None;
    }
    scenario
}

/// Returns how many ticks pass before what lies before them is forgotten: those of the time that lines leave unsettled, and some more.
fn ticks_remembered(scenario: &Scenario) -> u32
    requires { IsInRange scenario.now }
{
    let unsettled = scenario.log.gap + scenario.log.slack;
    unsettled / scenario.window.tick + TICKS_AT_LEAST
}

/// The report of a mode on a log that comes in pieces, however it is cut. Each piece results in what the bytes so far decide, and the log's
/// end in the rest.
#[derive(Drop)]
pub struct Session {
    alloc: Global,
    scenario: Scenario,
    work: Work,
    lines: StreamedLines,
    /// How many bytes were fed.
    taken: u64,
    /// Once this number of ticks is taken, what lies before them is forgotten.
    forgets_at: u32,
}

impl Session {
    /// Returns the session of a mode on a scenario, before the first byte. A mode that plans for own ship needs her; any other mode leaves her
    /// out, and its window of lines ends one gap after the last tick.
    pub fn new(alloc: Global, scenario: Scenario, mode: Mode) -> Result<Session, Memory>
        requires in_range { IsInRange scenario }
        requires own { IsTrue (needs_own mode) → IsSome scenario.own }
        ensures mode { IfOk result (λ session. mode_of session ≡ mode) }
        ensures scenario { IfOk result
            (λ session. session_scenario session ≡ scenario_for mode scenario) }
        ensures stands { IfOk result (λ session. StandsFor session [] []) }
    {
        let scenario = scenario_for(scenario, mode);
        let work = Work::of(alloc, &scenario, mode)?;
        let lines = StreamedLines::new(alloc, work.keeping(), &scenario);
        let forgets_at = ticks_remembered(&scenario);
        Ok(Session {
            alloc,
            scenario,
            work,
            lines,
            taken: 0,
            forgets_at,
        })
    }

    /// Returns how many bytes may still come.
    pub fn room(&self) -> u64
        requires { IsInUse self.now }
        ensures { (fed given : List ℕ) → StandsFor self.now fed given
            → result ≡ (session_scenario self.now).log.max_bytes - length fed }
    {
        self.scenario.log.max_bytes - self.taken
    }

    /// Takes the bytes before a line feed and the line feed, and writes what the line decides.
    fn take_line(&mut self, part: &[u8], text: &mut ReportText) -> Result<(), SessionFault>
        requires ready { IsReadyToTake self.old (part.now ++ 10 ∷ []) }
        requires part { All (λ byte. is_line_feed byte ≡ false) part.now }
        ensures mode { mode_of self.new ≡ mode_of self.old }
        ensures scenario { session_scenario self.new ≡ session_scenario self.old }
        ensures count { taken_of self.new ≡ taken_of self.old }
        ensures taken { OnOk result
            ((front : List ℕ) → HasText text.old front
            → TookLines self.old self.new (part.now ++ 10 ∷ []) front text.new) }
        ensures refused { IfErr result
            (λ why. UnlessMemory why
            ((text.new ≡ text.old) × RefusesPiece self.old (part.now ++ 10 ∷ []) why)) }
    {
        ended_lines_stay();
        let judged = self.lines.end_line(part)?;
        self.work
            .go_on(&self.scenario, self.lines.judge(), &judged, text)
    }

    /// Takes the next bytes line by line, and writes what they decide. Every byte of a log goes through this one loop, and so does the line
    /// feed that ends an open line at the log's end: what is called for a line has one caller, and is inlined.
    fn take_lines(&mut self, bytes: &[u8], text: &mut ReportText) -> Result<(), SessionFault>
        requires ready { IsReadyToTake self.old bytes.now }
        requires text { (front : List ℕ) × HasText text.old front }
        ensures mode { mode_of self.new ≡ mode_of self.old }
        ensures scenario { session_scenario self.new ≡ session_scenario self.old }
        ensures count { taken_of self.new ≡ taken_of self.old }
        ensures taken { OnOk result
            ((front : List ℕ) → HasText text.old front
            → TookLines self.old self.new bytes.now front text.new) }
        ensures refused { IfErr result
            (λ why. UnlessMemory why
            ((front : List ℕ) → HasText text.old front
            → RefusesLine self.old bytes.now front text.new why)) }
    {
        a_part_goes_on();
        let mut at = 0;
        while at < bytes.len() {
            let rest = &bytes[at..];
            let Some(count) = first_line_feed(rest) else {
                self.lines.extend(rest)?;
                return Ok(());
            };
            self.take_line(&rest[..count], text)?;
            at += count + 1;
        }
        Ok(())
    }

    /// Forgets where vessels were before the latest tick that was taken, each time that as many ticks are taken as are remembered. So the
    /// stored data does not grow with the log, and forgetting a report costs no more than storing it.
    fn forget(&mut self)
        requires { IsInUse self.old }
        ensures mode { mode_of self.new ≡ mode_of self.old }
        ensures scenario { session_scenario self.new ≡ session_scenario self.old }
        ensures count { taken_of self.new ≡ taken_of self.old }
        ensures stands { (fed given : List ℕ) → StandsFor self.old fed given
            → StandsFor self.new fed given }
    {
        if let Some(time) = self.work.looks_back_to(&self.scenario, self.forgets_at) {
            self.lines.forget(time);
            self.forgets_at = self
                .forgets_at
                .saturating_add(ticks_remembered(&self.scenario));
        }
    }

    /// Takes the next bytes of a log, and writes what they decide after the rows of the text. If the log is refused, it writes what the
    /// bytes before the refusal's place decide. After an `Err` the session may only be dropped, and so may the text if memory ran out.
    pub fn feed_into(&mut self, piece: &[u8], text: &mut ReportText) -> Result<(), SessionFault>
        requires in_use { IsInUse self.old }
        requires text { (front : List ℕ) × HasText text.old front }
        ensures mode { mode_of self.new ≡ mode_of self.old }
        ensures scenario { session_scenario self.new ≡ session_scenario self.old }
        ensures in_use { OnOk result (IsInUse self.new) }
        ensures count { OnOk result (taken_of self.new ≡ taken_of self.old + length piece.now) }
        ensures taken { OnOk result
            ((front : List ℕ) → HasText text.old front
            → TookPiece self.old self.new piece.now front text.new) }
        ensures refused { IfErr result
            (λ why. UnlessMemory why
            ((front : List ℕ) → HasText text.old front
            → Refuses self.old piece.now front text.new why)) }
    {
        ended_lines_stay();
        a_part_goes_on();
        many_settled_stay();
        let first = fitting(piece, self.room());
        self.take_lines(first, text)?;
        self.taken += first.len() as u64;
        if first.len() < piece.len() {
            return Err(SessionFault::LogBytes);
        }
        self.forget();
        Ok(())
    }

    /// Takes the next bytes of a log, and returns what they decide. After an `Err` the session may only be dropped: a caller who wants what
    /// earlier lines of the piece decided feeds no more than one line feed, or calls `feed_into`.
    pub fn feed(&mut self, piece: &[u8]) -> Result<Vec<u8>, SessionFault>
        requires in_use { IsInUse self.old }
        ensures mode { mode_of self.new ≡ mode_of self.old }
        ensures scenario { session_scenario self.new ≡ session_scenario self.old }
        ensures in_use { OnOk result (IsInUse self.new) }
        ensures given { IfOk result
            (λ bytes. (fed given : List ℕ) → StandsFor self.old fed given
            → StandsFor self.new (fed ++ piece.now) (given ++ bytes.items)) }
        ensures refused { IfErr result
            (λ why. UnlessMemory why
            ((fed given : List ℕ) → StandsFor self.old fed given
            → (decided : List ℕ)
            × IsStopped (mode_of self.old) (session_scenario self.old) (fed ++ piece.now) why
            (given ++ decided))) }
    {
        let mut text = ReportText::new(self.alloc);
        self.feed_into(piece, &mut text)?;
        Ok(text.into_bytes()?)
    }

    /// Ends the line that is open, if one is, as a line feed does, and returns the text of what it decides.
    fn end_line(&mut self) -> Result<ReportText, SessionFault>
        requires { IsInUse self.old }
        ensures mode { mode_of self.new ≡ mode_of self.old }
        ensures scenario { session_scenario self.new ≡ session_scenario self.old }
        ensures ended { IfOk result (EndedLine self.old self.new []) }
        ensures refused { IfErr result
            (λ why. UnlessMemory why
            ((fed given : List ℕ) → StandsFor self.old fed given → (task : Task)
            → task.mode ≡ mode_of self.old
            → IsAnswerTo task (session_scenario self.old) fed (Err why))) }
    {
        let mut text = ReportText::new(self.alloc);
        if !self.lines.is_open() {
            return Ok(text);
        }
        self.take_lines(b"\n", &mut text)?;
        Ok(text)
    }

    /// Ends the log, and returns the rest of the report, which does not say why every plan fails. A recheck checks no rows.
    pub fn end(self) -> Result<Ending, SessionFault>
        requires in_use { IsInUse self }
        ensures report { IfOk result
            (λ ending. (fed given : List ℕ) → StandsFor self fed given
            → IsEnding (record { mode = mode_of self; why = false; rows = [] })
            (session_scenario self) fed (given ++ ending.bytes.items)) }
        ensures answer { IfOk result
            (λ ending. (fed given : List ℕ) → StandsFor self fed given
            → IsAnswerTo (record { mode = mode_of self; why = false; rows = [] })
            (session_scenario self) fed (Ok ending.none)) }
        ensures refused { IfErr result
            (λ why. UnlessMemory why
            ((fed given : List ℕ) → StandsFor self fed given
            → IsAnswerTo (record { mode = mode_of self; why = false; rows = [] })
            (session_scenario self) fed (Err why))) }
    {
        self.finish(&Asked {
            why: false,
            rows: &[],
        })
    }

    /// Ends the log, and returns the rest of the report that is asked for. Rows that a recheck checks have at most 2^24 bytes.
    pub fn finish(mut self, asked: &Asked<'_>) -> Result<Ending, SessionFault>
        requires in_use { IsInUse self }
        requires rows { length asked.now.rows.now ≤ GREATEST_TEXT }
        ensures report { IfOk result
            (λ ending. (fed given : List ℕ) → StandsFor self fed given
            → IsEnding (task_by (mode_of self) asked.now) (session_scenario self) fed
            (given ++ ending.bytes.items)) }
        ensures answer { IfOk result
            (λ ending. (fed given : List ℕ) → StandsFor self fed given
            → IsAnswerTo (task_by (mode_of self) asked.now) (session_scenario self) fed
            (Ok ending.none)) }
        ensures refused { IfErr result
            (λ why. UnlessMemory why
            ((fed given : List ℕ) → StandsFor self fed given
            → IsAnswerTo (task_by (mode_of self) asked.now) (session_scenario self) fed
            (Err why))) }
    {
        match self.end_line() {
            Ok(text) => {
                let Session {
                    alloc,
                    scenario,
                    work,
                    lines,
                    ..
                } = self;
                let ending = work.end(alloc, scenario, lines.judge(), asked, text);
                drop(lines);
                ending
            }
            Err(why) => {
                drop(self);
                Err(why)
            }
        }
    }

    /// Ends the log, and returns the situation in which own ship's plan is sought. The mode must need her.
    pub fn situation(mut self) -> Result<Situation, SessionFault>
        requires in_use { IsInUse self }
        requires own { IsTrue (needs_own (mode_of self)) }
        ensures sound { IfOk result IsSituation }
        ensures situation { IfOk result
            (λ situation. (fed given : List ℕ) → StandsFor self fed given
            → IsSituationOn (session_scenario self) fed situation) }
        // No 4097th vessel is held, even if the last line has no line feed.
        ensures calm { IfOk result (λ _. (fed given : List ℕ) → StandsFor self fed given
            → is_crowded (session_scenario self) (lines_of fed) ≡ false) }
        ensures refused { IfErr result
            (λ why. UnlessMemory why
            ((fed given : List ℕ) → StandsFor self fed given → (task : Task)
            → task.mode ≡ mode_of self → IsAnswerTo task (session_scenario self) fed (Err why))) }
    {
        match self.end_line() {
            Ok(text) => {
                drop(text);
                let Session {
                    alloc,
                    scenario,
                    work,
                    lines,
                    ..
                } = self;
                drop(work);
                let found = situation_at_end(alloc, scenario, lines.judge());
                drop(lines);
                found
            }
            Err(why) => {
                drop(self);
                Err(why)
            }
        }
    }
}
