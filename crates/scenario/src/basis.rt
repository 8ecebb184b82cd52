//! The values that the tests of all keys depend on.
ghost use Rattle.std.specs.Prelude.{◌≡◌, ◌≤◌};
ghost use Rattle.toml.specs.View.{table_view};
ghost use Rattle.scenario.specs.KeyFaults.{basis_of, counts, is_version_two, tick_of};

use scenario_keys::{When, integer_found};
use toml::Table;

/// The values of a document that the tests of other keys depend on.
#[derive(Clone, Copy, PartialEq, Eq)]
pub struct Basis {
    /// The length of a tick, 1 to 60 s.
    pub tick: u32,
    /// Whether the keys are those of version 2 instead of version 1.
    pub is_version_two: bool,
    /// Whether own ship is needed.
    pub need_own: bool,
}

/// Returns the seconds of a tick, or 1 if the document has none.
#[tactic(auto, unfolding(crate::specs::KeyFaults::tick_of))]
pub(crate) fn tick_of(document: &Table) -> u32
    ensures value { result ≡ tick_of (table_view document.now) }
    ensures some { 1 ≤ result }
    ensures most { result ≤ 60 }
{
    match integer_found(document, "window", "tick") {
        Some(number) if 1 <= number && number <= 60 => number as u32,
        _ => 1,
    }
}

/// Returns whether the keys are those of version 2.
#[tactic(auto, unfolding(crate::specs::KeyFaults::is_version_two))]
pub(crate) fn is_version_two(document: &Table) -> bool
    ensures { result ≡ is_version_two (table_view document.now) }
{
    matches!(integer_found(document, "", "version"), Some(2))
}

pub(crate) fn basis_of(document: &Table, need_own: bool) -> Basis
    ensures value { result ≡ basis_of need_own (table_view document.now) }
    ensures tick { 1 ≤ result.tick }
{
    Basis {
        tick: tick_of(document),
        is_version_two: is_version_two(document),
        need_own,
    }
}

/// Returns whether a key is checked.
pub(crate) fn counts(basis: Basis, when: When) -> bool
    ensures { result ≡ counts basis when }
{
    match when {
        When::Always => true,
        When::InVersionOne => !basis.is_version_two,
        When::InVersionTwo => basis.is_version_two,
        When::ForOwnShip => basis.need_own,
    }
}
