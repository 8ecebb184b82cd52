//! Scenarios of version 1 migrated to version 2.
use crate::compared::is;
use crate::good::{
    FIRST, SECOND, WITH_OWN, WITH_PREDICTIONS, WITH_RANKS, WITH_RANKS_AND_OWN, WITH_SHAPE,
};
use crate::refusals::told;
use crate::values::{has_good_numbers, has_predictions, has_rule_of_ranks, has_shape, is_rule};
use scenario::{Scenario, ScenarioFault, migrate, read};
use std::alloc::{AllocError, Global};
use std::process::Abort;

/// Returns the text of version 2 for a text in parts.
fn second_text(alloc: Global, parts: &[&str]) -> Result<Vec<u8>, ScenarioFault> {
    let text = parts.concat(alloc)?;
    migrate(alloc, text.as_str().as_bytes())
}

/// Returns the scenario after migrating a text in parts.
fn migrated(alloc: Global, parts: &[&str], need_own: bool) -> Result<Scenario, ScenarioFault> {
    let second = second_text(alloc, parts)?;
    read(alloc, &second, need_own)
}

/// Rule 8(d) with the distance of the good scenario for each kind of encounter.
const SAME_FOR_EACH_KIND: &str =
    "(((((engaged & head_on) -> clear(201)) & ((engaged & (overtaking | overtaken)) -> clear(201))) & ((engaged & (crossing_gives | crossing_stands)) -> clear(201))) & ((engaged & (passing | unclassified)) -> clear(201)))";

#[test]
fn a_migrated_scenario_has_the_same_values(rt: HostRuntime) -> Result<(), ScenarioFault> {
    let scenario = migrated(rt.alloc(), &FIRST, false)?;
    has_good_numbers(&rt, &scenario);
    let r8d = is_rule(
        &rt,
        rt.alloc(),
        &scenario.rules,
        1,
        "r8d",
        SAME_FOR_EACH_KIND,
    );
    drop(scenario);
    Ok(r8d?)
}

/// The text of a small scenario of version 1, with a comment, an unknown table, unknown keys, and a formula whose
/// members contain quotes; and the same scenario in version 2, its keys ordered by name.
static NOTED: [&str; 1] = [
    "# a harbour\nversion = 1\nnote = 1979-05-27\nsubjects = [200000001]\n[window]\nstart = 0\ntick = 10\nticks = 40 # ticks\ntock = 1\n[reference]\nlat = 0\nlon = -7\n[log]\ngap = 600\nslack = 60\nmax_speed = 500\nmax_bytes = 1000\n[detect]\nwatch = 5000\nrisk = 501\nclear = 1000\nhorizon = 610\ndoubt = 0\nahead = 100\nreciprocal = 101\n[act]\nsteady_turn = 50\napparent_turn = 200\nsteady_speed = 11\napparent_speed = 51\n[rules]\nsafe = 201\nsafe_other = 'ignored'\novertake = 202\nclose = 300\nt8 = 60\nta = 70\ntl = 20\ntw = 110\nte = 620\n[other]\nsafe = 3\n[[formula]]\nauthor = \"M'\"\nname = \"\\u0075\\x31\"\ntext = '''seen'''\n[[predict]]\nmmsi = 'nobody'\n",
];

static PARTS: [(&str, bool); 17] = [
    // the known keys
    ("subjects = [200000001]\n", true),
    ("version = 2\n", true),
    ("max_bytes = 1000\n", true),
    ("overtake = 202\n", true),
    (
        "safe = 201\nsafe_crossing = 201\nsafe_head_on = 201\nsafe_other = 201\nsafe_overtaking = 201\n",
        true,
    ),
    ("[window]\nstart = 0\ntick = 10\nticks = 40\n", true),
    ("[reference]\nlat = 0\nlon = -7\n", true),
    (
        "[act]\napparent_speed = 51\napparent_turn = 200\nsteady_speed = 11\nsteady_turn = 50\n",
        true,
    ),
    ("[[formula]]\nname = \"u1\"\ntext = \"seen\"\n", true),
    // what migration drops
    ("#", false),
    ("note", false),
    ("tock", false),
    ("other]", false),
    ("author", false),
    ("ignored", false),
    ("predict", false),
    ("nobody", false),
];

/// Compares which of these parts a text contains.
fn hold(rt: &impl Abort, text: &str, parts: &[(&str, bool)]) {
    for (part, kept) in parts {
        is(rt, (*part, text.contains(*part)), (*part, *kept));
    }
}

/// Compares the same for the bytes of a text.
fn bytes_hold(rt: &impl Abort, bytes: &[u8], parts: &[(&str, bool)]) {
    match std::str::from_utf8(bytes) {
        Ok(text) => hold(rt, text, parts),
        Err(_) => is(rt, "no text", "a text"),
    }
}

#[test]
fn known_keys_alone_are_kept(rt: HostRuntime) -> Result<(), ScenarioFault> {
    let second = second_text(rt.alloc(), &NOTED)?;
    bytes_hold(&rt, &second, &PARTS);
    Ok(())
}

#[test]
fn own_ship_and_what_is_predicted_are_kept(rt: HostRuntime) -> Result<(), ScenarioFault> {
    let scenario = migrated(rt.alloc(), &WITH_PREDICTIONS, true)?;
    has_predictions(&rt, &scenario);
    Ok(())
}

#[test]
fn a_shape_is_kept(rt: HostRuntime) -> Result<(), ScenarioFault> {
    let scenario = migrated(rt.alloc(), &WITH_SHAPE, true)?;
    has_shape(&rt, &scenario);
    Ok(())
}

#[test]
fn ranks_are_kept(rt: HostRuntime) -> Result<(), ScenarioFault> {
    let scenario = migrated(rt.alloc(), &WITH_RANKS, false)?;
    is(&rt, scenario.ranks, true);
    let r18 = has_rule_of_ranks(&rt, rt.alloc(), &scenario.rules);
    drop(scenario);
    Ok(r18?)
}

/// A text in a scenario, its replacement, and the fault of the result.
type Case = (&'static str, &'static str, &'static str);

/// The scenario in version 2: unchanged, and with other faults.
static NOT_SECOND: [Case; 3] = [
    ("version = 2", "version = 2", "version: range"),
    ("tick = 10", "tick = 0", "version: range"),
    ("safe_other = 100000\n", "", "version: range"),
];

static NOT_FIRST: [Case; 4] = [
    ("version = 1", "version = 3", "version: range"),
    ("version = 1", "version = ", "document: not toml"),
    ("safe = 201\n", "", "rules.safe: missing"),
    ("te = 620\n", "te = 615\n", "rules.te: multiple"),
];

static NOT_WITH_OWN: [Case; 1] = [("tail = 10\n", "", "own.tail: missing")];

static NOT_WITH_RANKS: [Case; 1] = [(
    "version = 1",
    "version = 1\nformula = [{ name = 'r18', text = 'seen' }]",
    "formula.name[0]: range",
)];

/// Compares the report of migrating a changed scenario.
fn is_not_migrated(
    rt: &impl Abort,
    alloc: Global,
    good: &str,
    case: &Case,
) -> Result<(), AllocError> {
    let (old, new, wanted) = *case;
    let text = good.replace(alloc, old, new)?;
    let told = told(alloc, migrate(alloc, text.as_bytes()).err())?;
    is(rt, (old, new, told.as_str()), (old, new, wanted));
    Ok(())
}

/// Compares the same for each of these cases, in these parts of a scenario.
fn are_not_migrated(
    rt: &impl Abort,
    alloc: Global,
    parts: &[&str],
    cases: &[Case],
) -> Result<(), AllocError> {
    let good = parts.concat(alloc)?;
    for case in cases {
        is_not_migrated(rt, alloc, good.as_str(), case)?;
    }
    Ok(())
}

#[test]
fn scenarios_that_are_not_migrated(rt: HostRuntime) -> Result<(), AllocError> {
    are_not_migrated(&rt, rt.alloc(), &SECOND, &NOT_SECOND)?;
    are_not_migrated(&rt, rt.alloc(), &FIRST, &NOT_FIRST)?;
    are_not_migrated(&rt, rt.alloc(), &WITH_OWN, &NOT_WITH_OWN)?;
    are_not_migrated(&rt, rt.alloc(), &WITH_RANKS_AND_OWN, &NOT_WITH_RANKS)
}
