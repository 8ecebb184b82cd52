//! Scenarios with known values, known first faults and known texts.
use crate::compared::{is, is_text, is_true};
use crate::good::{
    FIRST, SECOND, WITH_FORMULAS, WITH_OWN, WITH_PREDICTIONS, WITH_RANKS_AND_OWN, WITH_SHAPE,
};
use crate::refusals::{told, told_of};
use encounters::{Act, Detect};
use hull_domains::Shape;
use mtl_language::print;
use out_of_memory::Memory;
use rule_set::RuleSet;
use scenario::{
    Cause, Change, Key, LogNumbers, OwnPart, Scenario, ScenarioFault, Subjects, Window, read,
};
use sectors::Angles;
use std::alloc::{AllocError, Global};
use std::process::Abort;

static WINDOW: Window = Window {
    start: 1_700_000_000,
    tick: 10,
    ticks: 40,
};

static LOG: LogNumbers = LogNumbers {
    gap: 600,
    slack: 60,
    max_speed: 500,
    max_bytes: 1 << 30,
};

static DETECT: Detect = Detect {
    watch: 50_000_000,
    risk: 5_010_000,
    clear: 10_000_000,
    horizon: 61,
    angles: Angles {
        doubt: 0,
        ahead: 100,
        reciprocal: 101,
    },
};

static ACT: Act = Act {
    steady_turn: 50,
    apparent_turn: 200,
    steady_speed: 11,
    apparent_speed: 51,
};

/// Checks that the rule at an index has this name and prints as this text at a tick of 10 seconds.
pub(crate) fn is_rule(
    rt: &impl Abort,
    alloc: Global,
    rules: &RuleSet,
    k: usize,
    name: &str,
    text: &str,
) -> Result<(), Memory> {
    is_true(rt, k < rules.len());
    let printed = print(alloc, rules.formula(k), 10)?;
    let wanted = (name.as_bytes(), text.as_bytes());
    is(rt, (rules.name(k), printed.as_slice()), wanted);
    Ok(())
}

static CHANGES: [Change; 2] = [
    Change {
        after: 0,
        course: 900,
        speed: 1022,
    },
    Change {
        after: 7200,
        course: 3599,
        speed: 0,
    },
];

/// Reads the scenario of a text in parts.
fn scenario_of(alloc: Global, parts: &[&str], need_own: bool) -> Result<Scenario, ScenarioFault> {
    let text = parts.concat(alloc)?;
    read(alloc, text.as_str().as_bytes(), need_own)
}

/// Checks that own ship is that of the scenario with her.
fn is_own(rt: &impl Abort, own: &OwnPart) {
    let lattice = &own.lattice;
    let plans = (lattice.choices(), lattice.plans(), lattice.positions());
    is(rt, (own.mmsi, plans), (369_190_000, (6, 216, 100)));
    is(rt, (own.base, own.lengths, own.range), (301, 2, 50_000));
    is(rt, own.shape, None);
}

fn has_plans(rt: &impl Abort, scenario: &Scenario) {
    match &scenario.own {
        Some(own) => is_own(rt, own),
        None => is_true(rt, false),
    }
}

/// Checks that the predictions of two vessels are those of the scenario with predictions.
fn are_predicted(rt: &impl Abort, own: &OwnPart) {
    let [first, second] = own.predict.as_slice() else {
        return is_true(rt, false);
    };
    is(rt, (first.mmsi, second.mmsi), (477_553_000, 477_553_001));
    is_true(rt, first.changes.as_slice() == CHANGES.as_slice());
    is(rt, second.changes.as_slice().len(), 1);
}

/// Checks that own ship and the predictions are those of the scenario with predictions.
pub(crate) fn has_predictions(rt: &impl Abort, scenario: &Scenario) {
    match &scenario.own {
        Some(own) => are_predicted(rt, own),
        None => is_true(rt, false),
    }
    has_plans(rt, scenario);
}

#[test]
fn changes_are_predicted_of_other_vessels(rt: HostRuntime) -> Result<(), ScenarioFault> {
    let scenario = scenario_of(rt.alloc(), &WITH_PREDICTIONS, true)?;
    has_predictions(&rt, &scenario);
    Ok(())
}

#[test]
fn own_ship_has_her_plans(rt: HostRuntime) -> Result<(), ScenarioFault> {
    let scenario = scenario_of(rt.alloc(), &WITH_OWN, true)?;
    has_plans(&rt, &scenario);
    Ok(())
}

/// A domain of six sides.
static SHAPE: [(i32, i32); 6] = [
    (300, 0),
    (150, 100),
    (-150, 100),
    (-300, 0),
    (-150, -100),
    (150, -100),
];

/// Checks that own ship's domain is that of the scenario with one.
pub(crate) fn has_shape(rt: &impl Abort, scenario: &Scenario) {
    let wanted = Shape::new(&SHAPE);
    is_true(rt, wanted.is_some());
    match &scenario.own {
        Some(own) => is(rt, own.shape, wanted),
        None => is_true(rt, false),
    }
}

#[test]
fn a_shape_is_read(rt: HostRuntime) -> Result<(), ScenarioFault> {
    let scenario = scenario_of(rt.alloc(), &WITH_SHAPE, true)?;
    has_shape(&rt, &scenario);
    Ok(())
}

/// Checks the numbers of the good scenario.
pub(crate) fn has_good_numbers(rt: &impl Abort, scenario: &Scenario) {
    is(rt, &scenario.window, &WINDOW);
    is(rt, &scenario.log, &LOG);
    is(rt, &scenario.detect, &DETECT);
    is(rt, &scenario.act, &ACT);
    let counts = (scenario.rules.len(), scenario.subjects.as_slice().len());
    is(rt, (counts, scenario.ranks), ((11, 0), false));
    is_true(rt, scenario.own.is_none());
}

#[test]
fn values_of_a_good_scenario(rt: HostRuntime) -> Result<(), ScenarioFault> {
    let scenario = scenario_of(rt.alloc(), &FIRST, false)?;
    has_good_numbers(&rt, &scenario);
    let safe = "(engaged -> clear(201))";
    let r8d = is_rule(&rt, rt.alloc(), &scenario.rules, 1, "r8d", safe);
    drop(scenario);
    Ok(r8d?)
}

/// Rule 8(d) with the four distances of the second version.
const SAFE_PER_KIND: &str =
    "(((((engaged & head_on) -> clear(1)) & ((engaged & (overtaking | overtaken)) -> clear(2))) & ((engaged & (crossing_gives | crossing_stands)) -> clear(3))) & ((engaged & (passing | unclassified)) -> clear(100000)))";

#[test]
fn version_two_has_a_safe_distance_for_each_kind(rt: HostRuntime) -> Result<(), ScenarioFault> {
    let scenario = scenario_of(rt.alloc(), &SECOND, false)?;
    let r8d = is_rule(&rt, rt.alloc(), &scenario.rules, 1, "r8d", SAFE_PER_KIND);
    drop(scenario);
    Ok(r8d?)
}

/// Checks that the two formulas are rules after the eleven.
fn are_behind_the_rules(rt: &impl Abort, alloc: Global, rules: &RuleSet) -> Result<(), Memory> {
    is(rt, rules.len(), 13);
    is_rule(rt, alloc, rules, 11, "u1", "(F[0,20] risk & !seen)")?;
    is_rule(rt, alloc, rules, 12, "r18", "seen")
}

#[test]
fn formulas_stand_behind_the_rules(rt: HostRuntime) -> Result<(), ScenarioFault> {
    let scenario = scenario_of(rt.alloc(), &WITH_FORMULAS, false)?;
    let formulas = are_behind_the_rules(&rt, rt.alloc(), &scenario.rules);
    drop(scenario);
    Ok(formulas?)
}

/// Whether own ship is needed, and the number of rules then.
static RANKED: [(bool, usize); 2] = [(false, 12), (true, 11)];

#[test]
fn ranks_count_where_own_ship_is_not_needed(rt: HostRuntime) -> Result<(), ScenarioFault> {
    for (need_own, rules) in &RANKED {
        let scenario = scenario_of(rt.alloc(), &WITH_RANKS_AND_OWN, *need_own)?;
        let found = (scenario.ranks, scenario.rules.len());
        is(&rt, found, (!*need_own, *rules));
    }
    Ok(())
}

/// Checks that the rule of ranks is the last one.
pub(crate) fn has_rule_of_ranks(
    rt: &impl Abort,
    alloc: Global,
    rules: &RuleSet,
) -> Result<(), Memory> {
    let text = "((engaged & rank_gives) -> clear(201))";
    is_rule(rt, alloc, rules, 11, "r18", text)
}

#[test]
fn the_rule_of_ranks_is_the_last(rt: HostRuntime) -> Result<(), ScenarioFault> {
    let scenario = scenario_of(rt.alloc(), &WITH_RANKS_AND_OWN, false)?;
    let r18 = has_rule_of_ranks(&rt, rt.alloc(), &scenario.rules);
    drop(scenario);
    Ok(r18?)
}

/// The greatest value of each key of the first tables, and an unknown key.
static GREATEST: [&str; 1] = [
    "version = 1\n[window]\nstart = 9999999999\ntick = 60\nticks = 20000\n[reference]\nlat = 45000000\nlon = -108000000\n[log]\ngap = 3600\nslack = 3600\nmax_speed = 1022\nmax_bytes = 1073741824\nunknown = 1.5\n[detect]\nwatch = 100000\nrisk = 100000\nclear = 100000\nhorizon = 7200\ndoubt = 1124\nahead = 900\nreciprocal = 900\n[act]\nsteady_turn = 1800\napparent_turn = 1800\nsteady_speed = 1022\napparent_speed = 1022\n[rules]\nsafe = 100000\novertake = 100000\nclose = 100000\nt8 = 7200\nta = 7200\ntl = 7200\ntw = 7200\nte = 7200\n",
];

/// Checks the numbers of that scenario.
fn has_greatest_values(rt: &impl Abort, scenario: &Scenario) {
    is(rt, scenario.window.start, 9_999_999_999);
    is(
        rt,
        (scenario.log.gap, scenario.log.max_bytes),
        (3600, 1 << 30),
    );
    let detect = (scenario.detect.watch, scenario.detect.horizon);
    is(rt, detect, (1_000_000_000, 120));
}

#[test]
fn the_greatest_values_are_read(rt: HostRuntime) -> Result<(), ScenarioFault> {
    let scenario = scenario_of(rt.alloc(), &GREATEST, false)?;
    has_greatest_values(&rt, &scenario);
    Ok(())
}

/// Returns the good scenario with a list of this many subjects, and then one of this text.
fn with_subjects(alloc: Global, many: usize, last: &str) -> Result<String, AllocError> {
    let good = FIRST.concat(alloc)?;
    let others = "200000000, ".repeat(alloc, many)?;
    ["subjects = [", others.as_str(), last, "]\n", good.as_str()].concat(alloc)
}

/// Returns the scenario with the longest list of subjects.
fn with_most_subjects(alloc: Global) -> Result<Scenario, ScenarioFault> {
    let text = with_subjects(alloc, 63, "799999999")?;
    read(alloc, text.as_bytes(), false)
}

#[test]
fn a_list_may_have_its_length(rt: HostRuntime) -> Result<(), ScenarioFault> {
    let scenario = with_most_subjects(rt.alloc())?;
    let subjects = scenario.subjects.as_slice();
    let ends = (subjects.first(), subjects.last());
    is(&rt, subjects.len(), 64);
    is(&rt, ends, (Some(&200_000_000), Some(&799_999_999)));
    Ok(())
}

/// The number of subjects before the last one, the last one, and the report.
static LISTS: [(usize, &str, &str); 3] = [
    (64, "1", "subjects[0]: range"),
    (64, "true", "subjects[64]: type"),
    (63, "1", "subjects[63]: range"),
];

#[test]
fn a_list_has_at_most_its_length(rt: HostRuntime) -> Result<(), AllocError> {
    for (many, last, wanted) in &LISTS {
        let text = with_subjects(rt.alloc(), *many, last)?;
        is_text(&rt, told_of(rt.alloc(), text.as_str(), false), wanted)?;
    }
    Ok(())
}

#[test]
fn subjects_give_their_list_back(rt: HostRuntime) -> Result<(), AllocError> {
    let list = vec![in rt.alloc(); 200_000_000, 200_000_001]?;
    let back = Subjects::new(list).into_list();
    is(&rt, back.len(), 2);
    is(&rt, back.last(), Some(&200_000_001));
    Ok(())
}

/// Compares the text of a fault.
fn is_told(
    rt: &impl Abort,
    alloc: Global,
    fault: ScenarioFault,
    wanted: &str,
) -> Result<(), AllocError> {
    is_text(rt, told(alloc, Some(fault)), wanted)
}

#[test]
fn texts_of_faults(rt: HostRuntime) -> Result<(), AllocError> {
    let alloc = rt.alloc();
    let key = Key { row: 9, item: 0 };
    let line = format!(in alloc; "scenario: {key}: {}\n", Cause::Formula(1024));
    is_text(&rt, line, "scenario: log.max_speed: formula at 1024\n")?;
    let item = format!(in alloc; "{}", Key { row: 30, item: 7 });
    is_text(&rt, item, "subjects[7]")?;
    let multiple = ScenarioFault::Fault(key, Cause::Multiple);
    is_told(&rt, alloc, multiple, "log.max_speed: multiple")?;
    let product = ScenarioFault::Fault(key, Cause::Product);
    is_told(&rt, alloc, product, "log.max_speed: product")?;
    is_told(&rt, alloc, ScenarioFault::from(Memory), "out of memory")
}
