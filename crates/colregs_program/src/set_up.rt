//! The scenario of a run and the rows that it needs, from the shelf.
ghost use Rattle.std.specs.Prelude.{◌≡◌, ◌≢◌, ◌⊎◌, ◌≤◌, ℕ, List, length, false, IfOk, IfErr, IsSome, IsTrue, Result, Err, None, if◌then◌else◌};
ghost use Rattle.outside.specs.Causes.{one_more};
ghost use Rattle.scenario_values.specs.ValueRanges.{IsInRange};
ghost use Rattle.scenario_values.specs.declared.values.Scenario.{Scenario};
ghost use Rattle.colregs_program.specs.Answers.{AreRows, HoldsUnder, IsScenario};
ghost use Rattle.colregs_program.specs.AskedScenarios.{with_options};
ghost use Rattle.tasks.specs.Modes.{needs_own, needs_rows};
ghost use Rattle.tasks.specs.Tasks.{task_mode, task_rows};
ghost use Rattle.colregs_program.specs.Inner.SetUps.{AreOptions, AreRowsDue, HaveFetched, IsScenarioDue, IsSetUpDue, SetFor, SetUpCause, came_of, precedes_rows, rows_fault, rows_had};
ghost use Rattle.colregs_program.specs.declared.set_up.SetUpFault.{SetUpFault};

use crate::fetching::{FetchFault, fetch_text};
use crate::status::{Status, Which};
use command_line::{ReportRequest, WindowOptions};
use outside::Shelf;
use refutation_check::GREATEST_TEXT;
use scenario::{Cause, Key, Scenario, ScenarioFault, read};
use std::alloc::Global;
use tasks::needs_own;

/// The greatest length of a scenario, in bytes.
pub(crate) const GREATEST_SCENARIO: u64 = 1 << 20;

/// Why there is no scenario, or why there are no rows.
#[derive(Clone, Copy, PartialEq, Eq)]
pub(crate) enum SetUpFault {
    /// The shelf failed, or has nothing under the name.
    NotHad,
    /// The scenario is longer than the limit.
    LongScenario,
    /// The rows are longer than theirs.
    LongRows,
    /// The first key with a fault.
    Refused(Key, Cause),
    Memory,
}

impl From<ScenarioFault> for SetUpFault {
    ghost use Rattle.std.specs.Prelude.{◌≡◌};
    ghost use Rattle.colregs_program.specs.Inner.SetUps.{set_up_fault};

    ghost from_gives = { λ fault made. made ≡ set_up_fault fault };

    fn from(fault: ScenarioFault) -> SetUpFault {
        match fault {
            ScenarioFault::Fault(key, cause) => SetUpFault::Refused(key, cause),
            ScenarioFault::Memory => SetUpFault::Memory,
        }
    }
}

impl From<FetchFault> for SetUpFault {
    ghost use Rattle.std.specs.Prelude.{◌≡◌};
    ghost use Rattle.colregs_program.specs.Inner.SetUps.{unhad_fault};

    ghost from_gives = { λ fault made. made ≡ unhad_fault fault };

    fn from(fault: FetchFault) -> SetUpFault {
        match fault {
            FetchFault::NotHad => SetUpFault::NotHad,
            FetchFault::TooLong => SetUpFault::LongScenario,
            FetchFault::Memory => SetUpFault::Memory,
        }
    }
}

impl From<SetUpFault> for Status {
    ghost use Rattle.std.specs.Prelude.{◌≡◌};
    ghost use Rattle.colregs_program.specs.Inner.SetUps.{answer_of};

    ghost from_gives = { λ fault status. status ≡ answer_of fault };

    fn from(fault: SetUpFault) -> Status {
        match fault {
            SetUpFault::NotHad => Status::ShelfFault,
            SetUpFault::LongScenario => Status::Limit(Which::Scenario, GREATEST_SCENARIO),
            SetUpFault::LongRows => Status::Limit(Which::Rows, GREATEST_TEXT),
            SetUpFault::Refused(key, cause) => Status::Scenario(key, cause),
            SetUpFault::Memory => Status::Memory,
        }
    }
}

/// Returns the scenario with the values that are given instead of its own.
fn with_options(mut scenario: Scenario, options: &WindowOptions) -> Scenario
    ensures { result ≡ with_options options.now scenario }
{
    if let Some(start) = options.start {
        scenario.window.start = start;
    }
    if let Some(ticks) = options.ticks {
        scenario.window.ticks = ticks;
    }
    scenario
}

/// Returns the fault of rows that were not had.
fn rows_fault(fault: FetchFault) -> SetUpFault
    ensures { result ≡ rows_fault fault }
{
    match fault {
        FetchFault::NotHad => SetUpFault::NotHad,
        FetchFault::TooLong => SetUpFault::LongRows,
        FetchFault::Memory => SetUpFault::Memory,
    }
}

/// Returns the scenario of a request, with own ship if its task needs her.
fn scenario_of<H: Shelf>(
    alloc: Global,
    request: &ReportRequest,
    shelf: &mut H,
) -> Result<Scenario, SetUpFault>
    requires { AreOptions request.now.window }
    ensures scenario { IfOk result
        (λ scenario. HoldsUnder (H.files shelf.old) request.now.name
        (λ text. IsScenario request.now text scenario)) }
    ensures in_range { IfOk result IsInRange }
    ensures own { IfOk result
        (λ scenario. IsTrue (needs_own (task_mode request.now.task)) → IsSome scenario.own) }
    ensures unneeded { IfOk result
        (λ scenario. needs_own (task_mode request.now.task) ≡ false → scenario.own ≡ None) }
    ensures cause { IfErr result
        (SetUpCause request.now (H.files shelf.old) (H.faults shelf.old) (H.faults shelf.new)) }
    ensures due { (due : Result Scenario SetUpFault)
        → IsScenarioDue request.now (H.files shelf.old) due
        → (H.faults shelf.new ≡ one_more (H.faults shelf.old))
        ⊎ ((result ≡ due) ⊎ (result ≡ Err SetUpFault.Memory)) }
    ensures early { IfErr result (λ why. IsTrue (precedes_rows why)) }
    ensures same { H.files shelf.new ≡ H.files shelf.old }
    ensures fetched { H.fetches shelf.new ≡ one_more (H.fetches shelf.old) }
    ensures calm { result ≢ Err SetUpFault.NotHad → H.faults shelf.new ≡ H.faults shelf.old }
{
    let text = fetch_text(alloc, &request.name, GREATEST_SCENARIO, shelf)?;
    match read(alloc, text.as_slice(), needs_own(request.task.mode())) {
        Ok(scenario) => Ok(with_options(scenario, &request.window)),
        Err(fault) => Err(fault.into()),
    }
}

/// Returns the text of the rows that the task of a request checks, or an empty one if it checks none.
fn rows_of<H: Shelf>(
    alloc: Global,
    request: &ReportRequest,
    shelf: &mut H,
) -> Result<Vec<u8>, SetUpFault>
    ensures rows { IfOk result (λ rows. AreRows (H.files shelf.old) request.now rows.items) }
    ensures few { IfOk result (λ rows. length rows.items ≤ GREATEST_TEXT) }
    ensures cause { IfErr result
        (SetUpCause request.now (H.files shelf.old) (H.faults shelf.old) (H.faults shelf.new)) }
    ensures due { (due : Result (List ℕ) SetUpFault)
        → AreRowsDue request.now (H.files shelf.old) due
        → (H.faults shelf.new ≡ one_more (H.faults shelf.old))
        ⊎ ((rows_had result ≡ due) ⊎ (rows_had result ≡ Err SetUpFault.Memory)) }
    ensures steps { (H.faults shelf.new ≡ H.faults shelf.old)
        ⊎ (H.faults shelf.new ≡ one_more (H.faults shelf.old)) }
    ensures fetched { H.fetches shelf.new
        ≡ (if needs_rows (task_mode request.now.task) then one_more (H.fetches shelf.old)
        else H.fetches shelf.old) }
    ensures calm { result ≢ Err SetUpFault.NotHad → H.faults shelf.new ≡ H.faults shelf.old }
{
    let name = match request.task.rows() {
        Some(name) => name,
        None => return Ok(Vec::new(alloc)),
    };
    match fetch_text(alloc, name, GREATEST_TEXT, shelf) {
        Ok(rows) => Ok(rows),
        Err(fault) => Err(rows_fault(fault)),
    }
}

/// What a run is set up with.
#[derive(Drop)]
pub(crate) struct SetUp {
    /// The scenario, with own ship if the task needs her.
    pub(crate) scenario: Scenario,
    /// The text of the rows that the task checks, or an empty one.
    pub(crate) rows: Vec<u8>,
}

/// Returns the scenario of a request, and then the rows that it needs.
pub(crate) fn set_up<H: Shelf>(
    alloc: Global,
    request: &ReportRequest,
    shelf: &mut H,
) -> Result<SetUp, SetUpFault>
    requires { AreOptions request.now.window }
    ensures scenario { IfOk result
        (λ made. HoldsUnder (H.files shelf.old) request.now.name
        (λ text. IsScenario request.now text made.scenario)) }
    ensures rows { IfOk result (λ made. AreRows (H.files shelf.old) request.now made.rows.items) }
    ensures few { IfOk result (λ made. length made.rows.items ≤ GREATEST_TEXT) }
    ensures in_range { IfOk result (λ made. IsInRange made.scenario) }
    ensures own { IfOk result
        (λ made. IsTrue (needs_own (task_mode request.now.task)) → IsSome made.scenario.own) }
    ensures unneeded { IfOk result
        (λ made. needs_own (task_mode request.now.task) ≡ false → made.scenario.own ≡ None) }
    ensures cause { IfErr result
        (SetUpCause request.now (H.files shelf.old) (H.faults shelf.old) (H.faults shelf.new)) }
    ensures due { (due : Result SetFor SetUpFault) → IsSetUpDue request.now (H.files shelf.old) due
        → (H.faults shelf.new ≡ one_more (H.faults shelf.old))
        ⊎ ((came_of result ≡ due) ⊎ (came_of result ≡ Err SetUpFault.Memory)) }
    ensures fetched { HaveFetched request.now (H.fetches shelf.old) (H.fetches shelf.new) result }
    ensures calm { result ≢ Err SetUpFault.NotHad → H.faults shelf.new ≡ H.faults shelf.old }
{
    let scenario = scenario_of(alloc, request, shelf)?;
    match rows_of(alloc, request, shelf) {
        Ok(rows) => Ok(SetUp { scenario, rows }),
        Err(why) => {
            drop(scenario);
            Err(why)
        }
    }
}
