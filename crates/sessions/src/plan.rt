//! The report of `plan`, at a log's end.
ghost use Rattle.std.specs.Prelude.{◌≡◌, ◌^◌, ◌++◌, ◌<◌, ◌≤◌, [], ℕ, List, All, IfErr, IfOk, IfSome, IsSome, OnOk, Ok, length, true};
ghost use Rattle.std.specs.Option.{option_copied};
ghost use Rattle.audit_report.specs.ReportTexts.{HasText};
ghost use Rattle.log_lines.specs.JudgedLines.{judged_lines, numbers_of};
ghost use Rattle.log_lines.specs.LogLines.{lines_of};
ghost use Rattle.log_lines.specs.Standing.{StandsFor as JudgeStandsFor, keeping_of};
ghost use Rattle.lattice.specs.Grids.{choices_of};
ghost use Rattle.lattice.specs.PlanNumbers.{IsPlan};
ghost use Rattle.scenario_values.specs.ValueRanges.{IsInRange};
ghost use Rattle.scenario_values.specs.declared.values.Scenario.{Scenario};
ghost use Rattle.tracks.specs.AcceptedReports.{JudgingNumbers};
ghost use Rattle.tracks.specs.Standing.{StandsFor as BookStandsFor};
ghost use Rattle.tracks.specs.VesselsHeld.{Sent, is_held};
ghost use Rattle.tracks.specs.declared.keeping.Keeping.TheVariants.{Tracks};
ghost use Rattle.plan_situations.specs.LeastPlans.{AllFail};
ghost use Rattle.plan_situations.specs.Situations.{IsSituation};
ghost use Rattle.plan_situations.specs.declared.near.Near.{Near};
ghost use Rattle.planner.specs.Searches.{searched_situation};
ghost use Rattle.sessions.specs.Endings.{IsAnswerOf};
ghost use Rattle.audit_report.specs.OutcomeRows.{count_rows};
ghost use Rattle.audit_report.specs.PlanRows.{manoeuvre_rows};
ghost use Rattle.audit_report.specs.VesselRows.{near_rows};
ghost use Rattle.sessions.specs.PlanReport.{IsManoeuvre, IsPlanReport};
ghost use Rattle.sessions.specs.Inner.Faults.{EndCause};
ghost use Rattle.sessions.specs.declared.session_fault.SessionFault.TheVariants as fault;
ghost use Rattle.sessions.specs.Inner.PlanWriting.{AreReasonsWhere, IsSought, SoughtCause};
ghost use Rattle.tasks.specs.declared.mode.Mode.TheVariants as mode;

use crate::ending::Ending;
use crate::reasons::add_reasons;
use crate::session_fault::SessionFault;
use audit_report::{PlannedLegs, ReportText, write_counts, write_near};
use lattice::Plan;
use log_lines::Judge;
use out_of_memory::Memory;
use plan_situations::{Near, PrepareFault, Situation, prepare};
use planner::Search;
use scenario_values::Scenario;
use std::alloc::Global;
use tracks::Book;

/// Searches for a plan in a situation. The search keeps the situation.
fn sought(alloc: Global, situation: Situation) -> Result<(Search, Option<Plan>), Memory>
    requires { IsSituation situation }
    ensures situation { IfOk result (λ found. searched_situation found.0 ≡ situation) }
    ensures sound { IfOk result (λ found. IsSituation (searched_situation found.0)) }
    ensures manoeuvre { IfOk result (λ found. IsManoeuvre situation found.1) }
{
    let mut search = Search::new(alloc, situation)?;
    let plan = search.run();
    Ok((search, plan))
}

/// Writes the rows of the vessels near own ship, and of a plan.
fn write_sought(
    text: &mut ReportText,
    book: &Book,
    near: &[Near],
    legs: &PlannedLegs,
    plan: Option<&Plan>,
) -> Result<(), Memory>
    requires keeping { book.now.keeping ≡ Tracks }
    requires begin { legs.now.begin ≤ 20000 }
    requires course { legs.now.ready.course < 3600 }
    requires speed { legs.now.ready.speed ≤ 1022 }
    requires plan { IfSome (option_copied plan)
        (IsPlan (choices_of legs.now.lattice.now) legs.now.lattice.now.legs) }
    ensures { OnOk result
        ((numbers : JudgingNumbers) (messages : List Sent) (front : List ℕ)
        → length messages < 2 ^ 64 → BookStandsFor book.now numbers messages
        → All (λ (vessel : Near). is_held numbers messages vessel.mmsi ≡ true) near.now
        → HasText text.old front
        → HasText text.new
        ((front ++ near_rows numbers messages near.now)
        ++ manoeuvre_rows legs.now.begin legs.now.lattice.now legs.now.ready
        (option_copied plan.entry))) }
{
    write_near(text, book, near)?;
    legs.write(text, plan)
}

/// What a search for own ship found.
#[derive(Drop)]
struct PlanFound {
    /// The search, which keeps her situation.
    search: Search,
    /// Every plan of hers fails.
    none: bool,
}

/// Prepares own ship's situation, seeks a plan in it and writes what was found.
fn write_search(
    alloc: Global,
    scenario: Scenario,
    book: &Book,
    text: &mut ReportText,
) -> Result<PlanFound, PrepareFault>
    requires in_range { IsInRange scenario }
    requires own { IsSome scenario.own }
    requires keeping { book.now.keeping ≡ Tracks }
    requires stands { (messages : List Sent)
        × BookStandsFor book.now (numbers_of scenario) messages }
    ensures situation { IfOk result (λ found. IsSituation (searched_situation found.search)) }
    ensures fail { IfOk result
        (λ found. found.none ≡ true → AllFail (searched_situation found.search)) }
    ensures sought { IfOk result
        (λ found. (messages : List Sent) (front : List ℕ) → length messages < 2 ^ 64
        → BookStandsFor book.now (numbers_of scenario) messages → HasText text.old front
        → IsSought scenario messages text.new front (searched_situation found.search) found.none) }
    ensures cause { IfErr result
        (λ fault. (messages : List Sent) → BookStandsFor book.now (numbers_of scenario) messages
        → SoughtCause scenario messages fault) }
{
    let begin = scenario.window.ticks;
    let prepared = prepare(alloc, scenario, book)?;
    let (search, plan) = sought(alloc, prepared.situation)?;
    let legs = PlannedLegs {
        begin,
        lattice: &search.situation().lattice,
        ready: prepared.ready,
    };
    let written = write_sought(text, book, &prepared.near, &legs, plan.as_ref());
    let none = plan.is_none();
    drop(plan);
    drop(prepared.near);
    match written {
        Ok(()) => Ok(PlanFound { search, none }),
        Err(why) => {
            drop(search);
            Err(why.into())
        }
    }
}

/// Returns the report, from its first rows and what the search found. With `why` it says why every plan fails, if every
/// plan does.
fn plan_report(
    alloc: Global,
    mut text: ReportText,
    judge: &Judge,
    found: &PlanFound,
    why: bool,
) -> Result<Ending, SessionFault>
    requires situation { IsSituation (searched_situation found.now.search) }
    requires fail { found.now.none ≡ true → AllFail (searched_situation found.now.search) }
    ensures report { IfOk result
        (λ ending. (scenario : Scenario) (lines : List (List ℕ)) (front : List ℕ)
        → JudgeStandsFor judge.now scenario lines → HasText text front
        → (reasons : List ℕ)
        × AreReasonsWhere why found.now.none (searched_situation found.now.search) reasons
        × (ending.bytes.items ≡ (front ++ count_rows (judged_lines scenario lines)) ++ reasons)) }
    ensures none { IfOk result (λ ending. ending.none ≡ found.now.none) }
    ensures memory { IfErr result (λ why. why ≡ fault.Memory) }
{
    write_counts(&mut text, judge)?;
    let mut bytes = text.into_bytes()?;
    add_reasons(alloc, found.search.situation(), why, found.none, &mut bytes)?;
    Ok(Ending {
        bytes,
        none: found.none,
    })
}

/// Seeks a plan, and returns the whole report. With `why` it says why every plan fails, if every plan does.
pub(crate) fn end_plan(
    alloc: Global,
    scenario: Scenario,
    judge: &Judge,
    why: bool,
) -> Result<Ending, SessionFault>
    requires in_range { IsInRange scenario }
    requires own { IsSome scenario.own }
    requires keeping { keeping_of judge.now ≡ Tracks }
    requires at_end { (log : List ℕ) × JudgeStandsFor judge.now scenario (lines_of log) }
    ensures report { IfOk result
        (λ ending. (log : List ℕ) → JudgeStandsFor judge.now scenario (lines_of log)
        → IsPlanReport why scenario log ending.bytes.items) }
    ensures answer { IfOk result
        (λ ending. (log : List ℕ) → JudgeStandsFor judge.now scenario (lines_of log)
        → IsAnswerOf mode.Plan [] scenario log (Ok ending.none)) }
    ensures cause { IfErr result
        (λ why. (log : List ℕ) → JudgeStandsFor judge.now scenario (lines_of log)
        → EndCause mode.Plan [] scenario log why) }
{
    let mut text = ReportText::new(alloc);
    match write_search(alloc, scenario, judge.book(), &mut text) {
        Ok(found) => {
            let ending = plan_report(alloc, text, judge, &found, why);
            drop(found);
            ending
        }
        Err(fault) => {
            drop(text);
            Err(fault.into())
        }
    }
}
