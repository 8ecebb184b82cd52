//! The values of a scenario, from a document without a fault.
ghost use Rattle.std.specs.Prelude.{◌≡◌, ◌≤◌, ◌*◌, ◌/◌, codes, length, unsigned_abs, All, IfOk, IfSome, Some, false};
ghost use Rattle.toml.specs.View.{table_view};
ghost use Rattle.ais_messages.specs.ShipIdentities.{IsShip};
ghost use Rattle.scenario.specs.Inner.KnownKeys.{is_own, kind_at};
ghost use Rattle.scenario_keys.specs.KeyValues.{natural_at, naturals_at, whole_at};
ghost use Rattle.scenario_keys.specs.ScenarioKeys.{metres};
ghost use Rattle.scenario.specs.KeyFaults.{basis_of, tick_of};
ghost use Rattle.scenario.specs.Inner.NoFaults.{HaveNoFault};
ghost use Rattle.scenario_values.specs.LightRules.{AreLightRules};
ghost use Rattle.scenario.specs.ScenarioValues.{act_of, detect_of, log_numbers_of, reference_of, scenario_of, scenario_with, units_at, window_of};
ghost use Rattle.scenario_values.specs.ValueRanges.{AreActNumbers, AreDetectNumbers, AreLogNumbers, IsInRange, IsOwnPart, IsWindow};

use crate::basis::tick_of;
use crate::integers::{long_natural, natural, optional, short_natural, small_integer};
use crate::listed::naturals;
use crate::own_part::own_where;
use crate::purpose::{Purpose, are_counted, ranking_of};
use encounters::{Act, Detect};
use fixed_geometry::Reference;
use rule_set::{Ranking, RuleSet};
use scenario_values::{LogNumbers, OwnPart, Scenario, Subjects, Window};
use sectors::Angles;
use std::alloc::{AllocError, Global};
use toml::Table;

#[tactic(auto, unfolding(crate::specs::ScenarioValues::window_of, crate::specs::Inner::KnownKeys::kind_at, scenario_keys::specs::ScenarioKeys::first_rows))]
fn window_in(document: &Table) -> Window
    requires { HaveNoFault false (table_view document.now) }
    ensures values { result ≡ window_of (table_view document.now) }
    ensures in_range { IsWindow result }
    ensures tick { tick_of (table_view document.now) ≡ result.tick }
{
    Window {
        start: long_natural(document, "window", "start"),
        tick: natural(document, "window", "tick"),
        ticks: natural(document, "window", "ticks"),
    }
}

#[tactic(auto, unfolding(crate::specs::Inner::KnownKeys::kind_at, scenario_keys::specs::ScenarioKeys::first_rows))]
fn latitude_in(document: &Table) -> i32
    requires { HaveNoFault false (table_view document.now) }
    ensures value { result ≡ whole_at (codes "reference") (codes "lat") (table_view document.now) }
    ensures in_range { unsigned_abs result ≤ 45000000 }
{
    small_integer(document, "reference", "lat")
}

#[tactic(auto, unfolding(crate::specs::Inner::KnownKeys::kind_at, scenario_keys::specs::ScenarioKeys::first_rows))]
fn longitude_in(document: &Table) -> i32
    requires { HaveNoFault false (table_view document.now) }
    ensures value { result ≡ whole_at (codes "reference") (codes "lon") (table_view document.now) }
    ensures in_range { unsigned_abs result ≤ 108000000 }
{
    small_integer(document, "reference", "lon")
}

#[tactic(auto, unfolding(crate::specs::ScenarioValues::reference_of))]
fn reference_in(document: &Table) -> Reference
    requires { HaveNoFault false (table_view document.now) }
    ensures { result ≡ reference_of (table_view document.now) }
{
    Reference::new(latitude_in(document), longitude_in(document)).unwrap()
}

#[tactic(auto, unfolding(crate::specs::ScenarioValues::log_numbers_of, crate::specs::Inner::KnownKeys::kind_at, scenario_keys::specs::ScenarioKeys::first_rows))]
fn log_numbers_in(document: &Table) -> LogNumbers
    requires { HaveNoFault false (table_view document.now) }
    ensures values { result ≡ log_numbers_of (table_view document.now) }
    ensures in_range { AreLogNumbers (tick_of (table_view document.now)) result }
{
    LogNumbers {
        gap: natural(document, "log", "gap"),
        slack: natural(document, "log", "slack"),
        max_speed: short_natural(document, "log", "max_speed"),
        max_bytes: u64::from(optional(document, "log", "max_bytes", 1 << 30)),
    }
}

/// Returns a distance of the document in tenths of a millimetre; the document has metres.
#[tactic(auto, unfolding(crate::specs::ScenarioValues::units_at))]
fn units(document: &Table, table: &str, name: &str) -> u64
    requires faultless { HaveNoFault (is_own table.now) (table_view document.now) }
    requires known { kind_at
        (basis_of (is_own table.now) (table_view document.now)) table.now name.now ≡ Some metres }
    ensures value { result ≡ units_at table.now name.now (table_view document.now) }
    ensures least { 10000 ≤ result }
    ensures most { result ≤ 1000000000 }
{
    u64::from(natural(document, table, name)) * 10_000
}

/// Returns the number of ticks in some seconds, at least one.
fn ticks_in(seconds: u32, tick: u32) -> u32
    requires some { 1 ≤ tick }
    requires least { tick ≤ seconds }
    ensures value { result ≡ seconds / tick }
    ensures some { 1 ≤ result }
    ensures time { result * tick ≤ seconds }
    ensures most { result ≤ seconds }
{
    seconds / tick
}

#[tactic(auto, unfolding(crate::specs::Inner::KnownKeys::kind_at, scenario_keys::specs::ScenarioKeys::first_rows))]
fn horizon_in(document: &Table) -> u32
    requires { HaveNoFault false (table_view document.now) }
    ensures value { result
        ≡ natural_at (codes "detect") (codes "horizon") (table_view document.now)
        / tick_of (table_view document.now) }
    ensures some { 1 ≤ result }
    ensures time { result * tick_of (table_view document.now) ≤ 7200 }
    ensures most { result ≤ 7200 }
{
    ticks_in(natural(document, "detect", "horizon"), tick_of(document))
}

#[tactic(auto, unfolding(crate::specs::ScenarioValues::detect_of, crate::specs::Inner::KnownKeys::kind_at, scenario_keys::specs::ScenarioKeys::first_rows))]
fn detect_in(document: &Table) -> Detect
    requires { HaveNoFault false (table_view document.now) }
    ensures values { result ≡ detect_of (table_view document.now) }
    ensures in_range { AreDetectNumbers (tick_of (table_view document.now)) result }
{
    Detect {
        watch: units(document, "detect", "watch"),
        risk: units(document, "detect", "risk"),
        clear: units(document, "detect", "clear"),
        horizon: horizon_in(document),
        angles: Angles {
            doubt: short_natural(document, "detect", "doubt"),
            ahead: short_natural(document, "detect", "ahead"),
            reciprocal: short_natural(document, "detect", "reciprocal"),
        },
    }
}

#[tactic(auto, unfolding(crate::specs::ScenarioValues::act_of, crate::specs::Inner::KnownKeys::kind_at, scenario_keys::specs::ScenarioKeys::first_rows))]
fn act_in(document: &Table) -> Act
    requires { HaveNoFault false (table_view document.now) }
    ensures values { result ≡ act_of (table_view document.now) }
    ensures in_range { AreActNumbers result }
{
    Act {
        steady_turn: short_natural(document, "act", "steady_turn"),
        apparent_turn: short_natural(document, "act", "apparent_turn"),
        steady_speed: short_natural(document, "act", "steady_speed"),
        apparent_speed: short_natural(document, "act", "apparent_speed"),
    }
}

#[tactic(auto, unfolding(crate::specs::Inner::KnownKeys::kind_at, scenario_keys::specs::ScenarioKeys::first_rows))]
fn subjects_in(alloc: Global, document: &Table) -> Result<Subjects, AllocError>
    requires { HaveNoFault false (table_view document.now) }
    ensures values { IfOk result
        (λ s. s ≡ naturals_at (codes "") (codes "subjects") (table_view document.now)) }
    ensures in_range { IfOk result (All IsShip) }
    ensures few { IfOk result (λ s. length s ≤ 64) }
{
    let list = naturals(alloc, document, "", "subjects")?;
    Ok(Subjects::new(list))
}

/// Returns the values of a document without a fault, together with the values that take memory.
#[tactic(auto, unfolding(crate::specs::ScenarioValues::scenario_with))]
fn with_lists(
    document: &Table,
    rules: RuleSet,
    ranks: Ranking,
    subjects: Subjects,
    own: Option<OwnPart>,
) -> Scenario
    requires faultless { HaveNoFault false (table_view document.now) }
    requires rules { AreLightRules rules }
    requires subjects { subjects
        ≡ naturals_at (codes "") (codes "subjects") (table_view document.now) }
    requires ships { All IsShip subjects }
    requires few { length subjects ≤ 64 }
    requires own { IfSome own (IsOwnPart (tick_of (table_view document.now))) }
    ensures values { result ≡ scenario_with rules ranks own (table_view document.now) }
    ensures in_range { IsInRange result }
{
    Scenario {
        window: window_in(document),
        reference: reference_in(document),
        log: log_numbers_in(document),
        detect: detect_in(document),
        act: act_in(document),
        rules,
        ranks: are_counted(ranks),
        subjects,
        own,
    }
}

/// Returns the values of a document without a fault for a purpose, with these rules.
pub(crate) fn scenario_in(
    alloc: Global,
    document: &Table,
    rules: RuleSet,
    purpose: Purpose,
) -> Result<Scenario, AllocError>
    requires faultless { HaveNoFault false (table_view document.now) }
    requires own { HaveNoFault purpose.need_own (table_view document.now) }
    requires light { AreLightRules rules }
    ensures values { IfOk result (λ s. s ≡ scenario_of purpose (table_view document.now) rules) }
    ensures in_range { IfOk result IsInRange }
{
    let subjects = subjects_in(alloc, document)?;
    let own = own_where(alloc, document, purpose.need_own)?;
    let ranks = ranking_of(document, purpose);
    Ok(with_lists(document, rules, ranks, subjects, own))
}
