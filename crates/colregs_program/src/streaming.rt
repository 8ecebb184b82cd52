//! A log that is read block by block, and what it decides, written as it is decided.
ghost use Rattle.std.specs.Prelude.{◌≡◌, ◌≢◌, ◌+◌, ◌-◌, ◌<◌, ◌≤◌, [], ℕ, length, IfErr, IfOk, IfSome, IsSome, IsTrue, MatchResult, None, Ok, OnOk, List, true, false, vec_len};
ghost use Rattle.std.specs.declared.option.Option.{Option};
ghost use Rattle.std.specs.Io.KnownBytes.{Appends, IsAtEnd};
ghost use Rattle.audit_report.specs.ReportTexts.{HasText};
ghost use Rattle.scenario_values.specs.ValueRanges.{IsInRange};
ghost use Rattle.tasks.specs.Modes.{needs_own};
ghost use Rattle.sessions.specs.Standing.{IsInUse, StandsFor, mode_of, session_scenario, taken_of};
ghost use Rattle.sessions.specs.Tasks.{task_by};
ghost use Rattle.sessions.specs.declared.asked.Asked.{Asked};
ghost use Rattle.refutation_check.specs.declared.checked_text.TheConstants.{GREATEST_TEXT};
ghost use Rattle.colregs_program.specs.LogAnswers.{Reports};
ghost use Rattle.colregs_program.specs.Inner.Streaming.{FromHere, HasWritten, LogCount, OutCount, PieceCause, PutCause, RefusedCause, StreamCause};
ghost use Rattle.colregs_program.specs.declared.streaming.StreamFault.TheVariants.{NotRead};

use audit_report::ReportText;
use out_of_memory::Memory;
use outside::{Sink, Source, Taken, put_all};
use scenario::Scenario;
use sessions::{Asked, Mode, Session, SessionFault};
use std::alloc::{AllocError, Global};

/// How many bytes are read at a time.
const BLOCK: usize = 262_144;

/// Why the report on a log is not written.
#[derive(Clone, Copy, PartialEq, Eq)]
pub(crate) enum StreamFault {
    /// A read failed.
    NotRead,
    /// A write failed.
    NotWritten,
    /// There is no report, or no memory.
    Unreported(SessionFault),
}

impl From<SessionFault> for StreamFault {
    ghost use Rattle.std.specs.Prelude.{◌≡◌};
    ghost use Rattle.colregs_program.specs.declared.streaming.StreamFault.TheVariants.{Unreported};

    ghost from_gives = { λ why made. made ≡ Unreported why };

    fn from(why: SessionFault) -> StreamFault {
        StreamFault::Unreported(why)
    }
}

impl From<Memory> for StreamFault {
    ghost use Rattle.std.specs.Prelude.{◌≡◌};
    ghost use Rattle.colregs_program.specs.Inner.Streaming.{no_memory};

    ghost from_gives = { λ _ made. made ≡ no_memory };

    fn from(_: Memory) -> StreamFault {
        StreamFault::Unreported(SessionFault::Memory)
    }
}

impl From<AllocError> for StreamFault {
    ghost use Rattle.std.specs.Prelude.{◌≡◌};
    ghost use Rattle.colregs_program.specs.Inner.Streaming.{no_memory};

    ghost from_gives = { λ _ made. made ≡ no_memory };

    fn from(_: AllocError) -> StreamFault {
        StreamFault::Unreported(SessionFault::Memory)
    }
}

/// Returns a block of zeros. Its length is an argument, so that no proof lists its bytes.
fn zeros(alloc: Global, count: usize) -> Result<Vec<u8>, AllocError>
    ensures { IfOk result (λ block. vec_len block ≡ count) }
{
    vec![in alloc; 0u8; count]
}

/// Writes the rows of a text.
fn put_text<K: Sink>(text: ReportText, out: &mut K) -> Result<(), StreamFault>
    ensures put { OnOk result
        ((bytes : List ℕ) → HasText text bytes
        → Appends (K.contents out.old) (K.contents out.new) bytes) }
    ensures cause { IfErr result (PutCause text (K.contents out.old) (K.contents out.new)) }
    ensures faults { MatchResult result (λ _. K.faults out.new ≡ K.faults out.old)
        (OutCount (K.faults out.old) (K.faults out.new)) }
{
    let bytes = text.into_bytes()?;
    if put_all(out, bytes.as_slice()) {
        Ok(())
    } else {
        Err(StreamFault::NotWritten)
    }
}

/// Writes the rows that were decided before a refusal, unless memory ran out, which may have spoiled them. Returns the fault to end with.
fn put_refused<K: Sink>(text: ReportText, why: SessionFault, out: &mut K) -> StreamFault
    ensures cause { RefusedCause text why (K.contents out.old) (K.contents out.new) result }
    ensures faults { OutCount (K.faults out.old) (K.faults out.new) result }
{
    if why == SessionFault::Memory {
        return StreamFault::Unreported(why);
    }
    match put_text(text, out) {
        Ok(()) => StreamFault::Unreported(why),
        Err(fault) => fault,
    }
}

/// Feeds the session a piece, and writes what is decided by it. Where the piece is refused, what the bytes before decide is written first.
fn write_piece<K: Sink>(
    alloc: Global,
    session: &mut Session,
    piece: &[u8],
    out: &mut K,
) -> Result<(), StreamFault>
    requires { IsInUse session.old }
    ensures mode { mode_of session.new ≡ mode_of session.old }
    ensures scenario { session_scenario session.new ≡ session_scenario session.old }
    ensures count { OnOk result (taken_of session.new ≡ taken_of session.old + length piece.now) }
    ensures written { OnOk result
        (FromHere session.old piece.now (K.contents out.old)
        (λ first left contents. HasWritten session.new first left contents (K.contents out.new))) }
    ensures cause { IfErr result
        (PieceCause session.old piece.now (K.contents out.old) (K.contents out.new)) }
    ensures faults { MatchResult result (λ _. K.faults out.new ≡ K.faults out.old)
        (OutCount (K.faults out.old) (K.faults out.new)) }
{
    let mut text = ReportText::new(alloc);
    match session.feed_into(piece, &mut text) {
        Ok(()) => put_text(text, out),
        Err(why) => Err(put_refused(text, why, out)),
    }
}

/// Returns how many bytes a read may give: no more than a block has, and none after the byte that exceeds the log's limit.
fn room_for(session: &Session, block: usize) -> usize
    requires in_use { IsInUse session.now }
    requires some { 0 < block }
    ensures some { 0 < result }
    ensures within { result ≤ block }
    ensures limited { (fed given : List ℕ) → StandsFor session.now fed given
        → result ≤ ((session_scenario session.now).log.max_bytes - length fed) + 1 }
{
    let room = session.room().saturating_add(1);
    block.min(room as usize)
}

/// Reads a block of the log, up to the byte that exceeds its limit, and writes what the block decides. Returns whether there may be more.
fn write_block<S: Source, K: Sink>(
    alloc: Global,
    session: &mut Session,
    block: &mut [u8],
    log: &mut S,
    out: &mut K,
) -> Result<bool, StreamFault>
    requires in_use { IsInUse session.old }
    requires some_room { 0 < length block.old }
    ensures mode { mode_of session.new ≡ mode_of session.old }
    ensures scenario { session_scenario session.new ≡ session_scenario session.old }
    ensures grows { result ≡ Ok true → taken_of session.old < taken_of session.new }
    ensures written { OnOk result
        ((first contents : Option (List ℕ))
        → HasWritten session.old first (S.left log.old) contents (K.contents out.old)
        → HasWritten session.new first (S.left log.new) contents (K.contents out.new)) }
    ensures end { result ≡ Ok false → IsAtEnd (S.left log.new) }
    ensures cause { IfErr result
        (λ fault. (asked : Asked) (first contents : Option (List ℕ))
        → HasWritten session.old first (S.left log.old) contents (K.contents out.old)
        → StreamCause (task_by (mode_of session.old) asked) (session_scenario session.old) first
        (S.left log.new) contents (K.contents out.new) fault) }
    ensures log_faults { MatchResult result (λ _. S.faults log.new ≡ S.faults log.old)
        (LogCount (S.faults log.old) (S.faults log.new)) }
    ensures out_faults { MatchResult result (λ _. K.faults out.new ≡ K.faults out.old)
        (OutCount (K.faults out.old) (K.faults out.new)) }
{
    let most = room_for(session, block.len());
    let room = &mut block[..most];
    match log.read(room) {
        Taken::Got(count) => {
            write_piece(alloc, session, &room[..count], out)?;
            Ok(true)
        }
        Taken::End => Ok(false),
        Taken::Failed => Err(StreamFault::NotRead),
    }
}

/// Writes the rest of the report that is asked for at the log's end. Returns whether it is one without a manoeuvre.
fn write_end<K: Sink>(session: Session, asked: &Asked<'_>, out: &mut K) -> Result<bool, StreamFault>
    requires in_use { IsInUse session }
    requires rows { length asked.now.rows.now ≤ GREATEST_TEXT }
    ensures report { IfOk result
        (λ none. (first left contents : Option (List ℕ)) → IsAtEnd left
        → HasWritten session first left contents (K.contents out.old)
        → IfSome first (λ bytes. Reports (task_by (mode_of session) asked.now)
        (session_scenario session) bytes none contents (K.contents out.new))) }
    ensures cause { IfErr result
        (λ fault. (first left contents : Option (List ℕ)) → IsAtEnd left
        → HasWritten session first left contents (K.contents out.old)
        → StreamCause (task_by (mode_of session) asked.now)
        (session_scenario session) first left contents (K.contents out.new) fault) }
    ensures no_read { IfErr result (λ fault. fault ≢ NotRead) }
    ensures faults { MatchResult result (λ _. K.faults out.new ≡ K.faults out.old)
        (OutCount (K.faults out.old) (K.faults out.new)) }
{
    let ending = session.finish(asked)?;
    if !put_all(out, ending.bytes.as_slice()) {
        return Err(StreamFault::NotWritten);
    }
    Ok(ending.none)
}

/// Feeds the session, which was fed nothing yet, the log to its end, and writes what is decided on the way.
fn feed_log<S: Source, K: Sink>(
    alloc: Global,
    session: &mut Session,
    log: &mut S,
    out: &mut K,
) -> Result<(), StreamFault>
    requires begun { StandsFor session.old [] [] }
    ensures mode { mode_of session.new ≡ mode_of session.old }
    ensures scenario { session_scenario session.new ≡ session_scenario session.old }
    ensures written { OnOk result
        (HasWritten session.new (S.left log.old) (S.left log.new) (K.contents out.old)
        (K.contents out.new)) }
    ensures end { OnOk result (IsAtEnd (S.left log.new)) }
    ensures cause { IfErr result
        (λ fault. (asked : Asked)
        → StreamCause (task_by (mode_of session.old) asked) (session_scenario session.old)
        (S.left log.old) (S.left log.new) (K.contents out.old) (K.contents out.new) fault) }
    ensures log_faults { MatchResult result (λ _. S.faults log.new ≡ S.faults log.old)
        (LogCount (S.faults log.old) (S.faults log.new)) }
    ensures out_faults { MatchResult result (λ _. K.faults out.new ≡ K.faults out.old)
        (OutCount (K.faults out.old) (K.faults out.new)) }
{
    let mut block = zeros(alloc, BLOCK)?;
    while write_block(alloc, session, block.as_mut_slice(), log, out)? {}
    Ok(())
}

/// Reads a log to its end and writes the report on it, as it is decided. Returns whether it is one without a manoeuvre.
pub(crate) fn write_report<S: Source, K: Sink>(
    alloc: Global,
    scenario: Scenario,
    mode: Mode,
    asked: &Asked<'_>,
    log: &mut S,
    out: &mut K,
) -> Result<bool, StreamFault>
    requires in_range { IsInRange scenario }
    requires own { IsTrue (needs_own mode) → IsSome scenario.own }
    requires unneeded { needs_own mode ≡ false → scenario.own ≡ None }
    requires rows { length asked.now.rows.now ≤ GREATEST_TEXT }
    ensures report { IfOk result
        (λ none. IfSome (S.left log.old)
        (λ bytes. Reports (task_by mode asked.now) scenario bytes none (K.contents out.old)
        (K.contents out.new))) }
    ensures end { OnOk result (IsAtEnd (S.left log.new)) }
    ensures cause { IfErr result
        (StreamCause (task_by mode asked.now) scenario (S.left log.old) (S.left log.new)
        (K.contents out.old) (K.contents out.new)) }
    ensures log_faults { MatchResult result (λ _. S.faults log.new ≡ S.faults log.old)
        (LogCount (S.faults log.old) (S.faults log.new)) }
    ensures out_faults { MatchResult result (λ _. K.faults out.new ≡ K.faults out.old)
        (OutCount (K.faults out.old) (K.faults out.new)) }
{
    let mut session = Session::new(alloc, scenario, mode)?;
    match feed_log(alloc, &mut session, log, out) {
        Ok(()) => write_end(session, asked, out),
        Err(fault) => {
            drop(session);
            Err(fault)
        }
    }
}
