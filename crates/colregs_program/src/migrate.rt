//! The migration of a scenario.
ghost use Rattle.std.specs.Prelude.{◌≡◌, ◌≢◌, ◌≤◌, ◌<◌, ◌⊎◌, ℕ, length, false, Err, IfErr, IfOk, IsTrue};
ghost use Rattle.std.specs.Io.KnownBytes.{Appends, Keeps};
ghost use Rattle.outside.specs.Causes.{one_more, Rose};
ghost use Rattle.outside.specs.Shelves.{IsMissing};
ghost use Rattle.outside.specs.Streams.{AppendsPart};
ghost use Rattle.scenario.specs.Migration.{IsNotMigrated};
ghost use Rattle.scenario_keys.specs.declared.key.Key.{Key};
ghost use Rattle.scenario_keys.specs.declared.cause.Cause.{Cause};
ghost use Rattle.colregs_program.specs.Answers.{greatest_scenario, HoldsUnder, IsOfMigration, TellsLimit};
ghost use Rattle.colregs_program.specs.LogAnswers.{IsFinished};
ghost use Rattle.colregs_program.specs.FaultLines.{fault_line};
ghost use Rattle.colregs_program.specs.Told.{Gains};
ghost use Rattle.colregs_program.specs.Inner.Migrating.{ComesTo, HoldsMigrated, IsMigrationDue, MigrationCause};
ghost use Rattle.colregs_program.specs.declared.set_up.SetUpFault.{SetUpFault};
ghost use Rattle.colregs_program.specs.declared.status.Status.{Status};
ghost use Rattle.colregs_program.specs.declared.status.Which.TheVariants as which;

use crate::fetching::fetch_text;
use crate::set_up::{GREATEST_SCENARIO, SetUpFault};
use crate::status::Status;
use crate::telling::tell;
use outside::{Shelf, Sink, Word, put_all};
use scenario::migrate;
use std::alloc::Global;

/// Returns the scenario of a name, as one of version 2.
fn migrated<H: Shelf>(alloc: Global, name: &Word, shelf: &mut H) -> Result<Vec<u8>, SetUpFault>
    ensures migrated { IfOk result
        (λ text. HoldsMigrated (H.files shelf.old) name.now (λ migrated. migrated ≡ text.items)) }
    ensures cause { IfErr result
        (MigrationCause name.now (H.files shelf.old) (H.faults shelf.old) (H.faults shelf.new)) }
    ensures due { (due : Status) → IsMigrationDue name.now (H.files shelf.old) due
        → (H.faults shelf.new ≡ one_more (H.faults shelf.old)) ⊎ ComesTo result due }
    ensures fetched { H.fetches shelf.new ≡ one_more (H.fetches shelf.old) }
    ensures calm { result ≢ Err SetUpFault.NotHad → H.faults shelf.new ≡ H.faults shelf.old }
{
    let text = fetch_text(alloc, name, GREATEST_SCENARIO, shelf)?;
    match migrate(alloc, text.as_slice()) {
        Ok(text) => Ok(text),
        Err(fault) => Err(fault.into()),
    }
}

/// Writes the scenario of a name as one of version 2. It reads no log.
pub(crate) fn run_migration<H: Shelf, K: Sink, E: Sink>(
    alloc: Global,
    name: &Word,
    shelf: &mut H,
    out: &mut K,
    err: &mut E,
) -> Status
    ensures done { IsTrue (IsFinished result)
        → (result ≡ Status.Done)
        × HoldsMigrated (H.files shelf.old) name.now
        (λ text. Appends (K.contents out.old) (K.contents out.new) text) }
    ensures due { (due : Status) → IsMigrationDue name.now (H.files shelf.old) due
        → ¬ Rose (H.faults shelf.old) (H.faults shelf.new)
        → ¬ Rose (K.faults out.old) (K.faults out.new)
        → (result ≡ due) ⊎ (result ≡ Status.Memory) }
    ensures shelf_fault { result ≡ Status.ShelfFault
        → (H.faults shelf.new ≡ one_more (H.faults shelf.old))
        ⊎ IsMissing (H.files shelf.old) name.now }
    ensures scenario_limit { (most : ℕ) → result ≡ Status.Limit which.Scenario most
        → (most ≡ greatest_scenario)
        × HoldsUnder (H.files shelf.old) name.now (λ text. most < length text) }
    ensures refused { (key : Key) (cause : Cause) → result ≡ Status.Scenario key cause
        → HoldsUnder (H.files shelf.old) name.now
        (λ text. (length text ≤ greatest_scenario) × IsNotMigrated text key cause) }
    ensures write_fault { result ≡ Status.WriteFault
        → (K.faults out.new ≡ one_more (K.faults out.old))
        × HoldsMigrated (H.files shelf.old) name.now
        (λ text. AppendsPart (K.contents out.old) (K.contents out.new) text) }
    ensures answers { IsTrue (IsOfMigration result) }
    ensures no_usage { result ≢ Status.Usage }
    ensures fetched { H.fetches shelf.new ≡ one_more (H.fetches shelf.old) }
    ensures unwritten { IsFinished result ≡ false → result ≢ Status.WriteFault
        → Keeps (K.contents out.old) (K.contents out.new) }
    ensures calm { result ≢ Status.WriteFault → K.faults out.new ≡ K.faults out.old }
    ensures shelf_calm { result ≢ Status.ShelfFault → H.faults shelf.new ≡ H.faults shelf.old }
    ensures limits { TellsLimit result }
    ensures line { Gains (record { bytes = E.contents err.old; faults = E.faults err.old })
        (record { bytes = E.contents err.new; faults = E.faults err.new }) (fault_line result) }
{
    let text = match migrated(alloc, name, shelf) {
        Ok(text) => text,
        Err(fault) => return tell(alloc, fault.into(), err),
    };
    if !put_all(out, text.as_slice()) {
        return tell(alloc, Status::WriteFault, err);
    }
    Status::Done
}
