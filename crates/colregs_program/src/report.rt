//! The report on the log of a request, which is read, or made by a drill.
ghost use Rattle.std.specs.Prelude.{◌≡◌, ◌≤◌, length, false, IfErr, IfOk, IfSome, IsSome, IsTrue, MatchResult, None, OnOk};
ghost use Rattle.std.specs.Io.KnownBytes.{Keeps};
ghost use Rattle.refutation_check.specs.declared.checked_text.TheConstants.{GREATEST_TEXT};
ghost use Rattle.scenario_values.specs.ValueRanges.{IsInRange};
ghost use Rattle.tasks.specs.Modes.{needs_own, reads_log};
ghost use Rattle.tasks.specs.Tasks.{task_mode, task_seed};
ghost use Rattle.colregs_program.specs.Answers.{IsReadBy};
ghost use Rattle.colregs_program.specs.AskedScenarios.{log_of, task_of};
ghost use Rattle.colregs_program.specs.LogAnswers.{Reports};
ghost use Rattle.colregs_program.specs.Inner.Streaming.{LogCount, OutCount, ReportCause, is_of_drill, made_fault};

use crate::set_up::SetUp;
use crate::streaming::{StreamFault, write_report};
use command_line::ReportRequest;
use drill_laws::laws::a_drill_meets_no_limit;
use drill_log::DrillSource;
use outside::{Sink, Source};
use sessions::{Asked, SessionFault};
use std::alloc::Global;

/// Returns the fault of a run that makes its log: if it cannot be read, memory ran out.
fn made_fault(fault: StreamFault) -> StreamFault
    ensures { result ≡ made_fault fault }
{
    match fault {
        StreamFault::NotRead => StreamFault::Unreported(SessionFault::Memory),
        StreamFault::NotWritten => StreamFault::NotWritten,
        StreamFault::Unreported(why) => StreamFault::Unreported(why),
    }
}

/// Writes the report that a request asks for. Returns whether it is one without a manoeuvre.
pub(crate) fn report_on<S: Source, K: Sink>(
    alloc: Global,
    request: &ReportRequest,
    set_up: SetUp,
    log: &mut S,
    out: &mut K,
) -> Result<bool, StreamFault>
    requires in_range { IsInRange set_up.scenario }
    requires own { IsTrue (needs_own (task_mode request.now.task)) → IsSome set_up.scenario.own }
    requires unneeded { needs_own (task_mode request.now.task) ≡ false
        → set_up.scenario.own ≡ None }
    requires rows { length set_up.rows.items ≤ GREATEST_TEXT }
    requires seed { task_seed request.now.task ≤ 999999 }
    ensures report { IfOk result
        (λ none. IfSome (log_of request.now set_up.scenario (S.left log.old))
        (λ bytes. Reports (task_of request.now set_up.rows.items) set_up.scenario bytes none
        (K.contents out.old) (K.contents out.new))) }
    ensures end { OnOk result (IsReadBy (task_mode request.now.task) (S.left log.new)) }
    ensures untouched { reads_log (task_mode request.now.task) ≡ false
        → Keeps (S.left log.old) (S.left log.new) × (S.faults log.new ≡ S.faults log.old) }
    ensures cause { IfErr result (ReportCause request.now set_up.rows.items set_up.scenario
        (S.left log.old) (S.left log.new) (K.contents out.old) (K.contents out.new)) }
    ensures drill { reads_log (task_mode request.now.task) ≡ false
        → MatchResult result (λ none. none ≡ false) (λ fault. IsTrue (is_of_drill fault)) }
    ensures log_faults { MatchResult result (λ _. S.faults log.new ≡ S.faults log.old)
        (LogCount (S.faults log.old) (S.faults log.new)) }
    ensures out_faults { MatchResult result (λ _. K.faults out.new ≡ K.faults out.old)
        (OutCount (K.faults out.old) (K.faults out.new)) }
{
    let SetUp { scenario, rows } = set_up;
    let mode = request.task.mode();
    let asked = Asked {
        why: request.task.says_why(),
        rows: rows.as_slice(),
    };
    let seed = match request.task.seed() {
        Some(seed) => seed,
        None => return write_report(alloc, scenario, mode, &asked, log, out),
    };
    a_drill_meets_no_limit();
    let mut made = DrillSource::new(alloc, &scenario, seed)?;
    match write_report(alloc, scenario, mode, &asked, &mut made, out) {
        Ok(none) => Ok(none),
        Err(fault) => Err(made_fault(fault)),
    }
}
