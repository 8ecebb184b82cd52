//! The rows of the vessels in the book.
ghost use Rattle.std.specs.Prelude.{◌≡◌, ◌≢◌, ◌<◌, ◌^◌, ◌++◌, ℕ, List, All, OnOk, length, true};
ghost use Rattle.std.specs.Option.{option_copied};
ghost use Rattle.report_csv.specs.CsvRows.{row_of};
ghost use Rattle.audit_report.specs.ReportTexts.{HasText};
ghost use Rattle.tracks.specs.AcceptedReports.{JudgingNumbers};
ghost use Rattle.tracks.specs.Standing.{IsHeldVessel, StandsFor as BookStandsFor};
ghost use Rattle.tracks.specs.VesselsHeld.{Sent, is_held};
ghost use Rattle.tracks.specs.declared.keeping.Keeping.{Keeping};
ghost use Rattle.tracks.specs.declared.keeping.Keeping.TheVariants.{Latest, Tracks};
ghost use Rattle.plan_situations.specs.declared.near.Near.{Near};
ghost use Rattle.audit_report.specs.VesselRows.{held_fields, near_rows, ship_type_of, vessel_rows};

use crate::report_row::ReportRow;
use crate::report_text::ReportText;
use ais_messages::{ShipData, Text20};
use out_of_memory::Memory;
use plan_situations::Near;
use tracks::{Book, HeldVessel, Statics};

/// Returns a vessel's type, 0 if she sent none.
fn kind_of(ship: Option<ShipData>) -> u8
    ensures { result ≡ ship_type_of ship }
{
    match ship {
        Some(ship) => ship.kind,
        None => 0,
    }
}

/// Returns the name that a vessel sent.
fn sent_name(statics: &Statics) -> Option<&Text20>
    ensures { option_copied result ≡ statics.now.name }
{
    statics.name.as_ref()
}

/// Writes the row of a vessel in the book, with her stored track.
fn write_vessel(text: &mut ReportText, vessel: &HeldVessel<'_>) -> Result<(), Memory>
    ensures { OnOk result
        ((keeping : Keeping) (numbers : JudgingNumbers) (messages : List Sent) (front : List ℕ)
        → keeping ≢ Latest → length messages < 2 ^ 64
        → IsHeldVessel keeping numbers messages vessel.now → HasText text.old front
        → HasText text.new (front ++ row_of (held_fields numbers messages vessel.now.mmsi))) }
{
    let statics = vessel.statics;
    text.write(&ReportRow::Vessel {
        mmsi: vessel.mmsi,
        name: sent_name(statics),
        kind: kind_of(statics.ship),
        length: statics.length(),
        reports: vessel.counts.reports,
        legs: vessel.counts.legs,
    })
}

/// Writes the row of the vessel with this MMSI, which is in the book.
fn write_vessel_of(text: &mut ReportText, book: &Book, mmsi: u32) -> Result<(), Memory>
    requires { book.now.keeping ≢ Latest }
    ensures { OnOk result
        ((numbers : JudgingNumbers) (messages : List Sent) (front : List ℕ)
        → length messages < 2 ^ 64 → BookStandsFor book.now numbers messages
        → is_held numbers messages mmsi ≡ true → HasText text.old front
        → HasText text.new (front ++ row_of (held_fields numbers messages mmsi))) }
{
    match book.find(mmsi) {
        Some(vessel) => write_vessel(text, &vessel),
        None => Ok(()),
    }
}

/// Writes the rows of all vessels in the book, in the order of their MMSIs.
pub fn write_vessels(text: &mut ReportText, book: &Book) -> Result<(), Memory>
    requires { book.now.keeping ≢ Latest }
    ensures { OnOk result
        ((numbers : JudgingNumbers) (messages : List Sent) (front : List ℕ)
        → length messages < 2 ^ 64 → BookStandsFor book.now numbers messages
        → HasText text.old front → HasText text.new (front ++ vessel_rows numbers messages)) }
{
    for k in 0..book.vessels() {
        write_vessel(text, &book.held(k))?;
    }
    Ok(())
}

/// Writes the rows of the vessels near own ship.
pub fn write_near(text: &mut ReportText, book: &Book, near: &[Near]) -> Result<(), Memory>
    requires { book.now.keeping ≡ Tracks }
    ensures { OnOk result
        ((numbers : JudgingNumbers) (messages : List Sent) (front : List ℕ)
        → length messages < 2 ^ 64 → BookStandsFor book.now numbers messages
        → All (λ (vessel : Near). is_held numbers messages vessel.mmsi ≡ true) near.now
        → HasText text.old front
        → HasText text.new (front ++ near_rows numbers messages near.now)) }
{
    for vessel in near {
        write_vessel_of(text, book, vessel.mmsi)?;
    }
    Ok(())
}
