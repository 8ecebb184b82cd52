//! Scenarios that are refused: each key with each of its causes.
use crate::compared::{is, is_text};
use crate::good::{
    FIRST, SECOND, WITH_FORMULAS, WITH_OWN, WITH_PREDICTIONS, WITH_RANKS, WITH_RANKS_AND_OWN,
};
use scenario::{ScenarioFault, read};
use std::alloc::{AllocError, Global};
use std::process::Abort;

/// A part of a scenario, its replacement, and the fault of the result.
type Case = (&'static str, &'static str, &'static str);

/// Returns the text of a fault, or an empty one without a fault.
pub(crate) fn told(alloc: Global, fault: Option<ScenarioFault>) -> Result<String, AllocError> {
    match fault {
        None => Ok(String::new(alloc)),
        Some(fault) => format!(in alloc; "{fault}"),
    }
}

/// Returns the report for a scenario.
pub(crate) fn told_of(alloc: Global, text: &str, need_own: bool) -> Result<String, AllocError> {
    told(alloc, read(alloc, text.as_bytes(), need_own).err())
}

/// Compares the report of a scenario in which one text replaces another.
fn is_changed(
    rt: &impl Abort,
    alloc: Global,
    good: &str,
    need_own: bool,
    case: &Case,
) -> Result<(), AllocError> {
    let (old, new, wanted) = *case;
    let text = good.replace(alloc, old, new)?;
    let told = told_of(alloc, text.as_str(), need_own)?;
    is(rt, (old, new, told.as_str()), (old, new, wanted));
    Ok(())
}

/// Compares the report of each of these cases, in these parts of a scenario, with own ship needed or not.
fn are_told(
    rt: &impl Abort,
    alloc: Global,
    parts: &[&str],
    need_own: bool,
    cases: &[Case],
) -> Result<(), AllocError> {
    let good = parts.concat(alloc)?;
    for case in cases {
        is_changed(rt, alloc, good.as_str(), need_own, case)?;
    }
    Ok(())
}

/// Faults of the first keys.
#[rattlefmt::skip]
static FIRST_KEYS: [Case; 48] = [
    ("version = 1", "version = = 1", "document: not toml"),
    ("600", "9223372036854775808", "document: not toml"),
    ("version = 1\n", "", "version: missing"),
    ("version = 1", "version = '1'", "version: type"),
    ("version = 1", "version = 0", "version: range"),
    ("version = 1", "version = 3", "version: range"),
    ("[window]", "[other]", "window.start: missing"),
    ("[window]", "window = 3\n[other]", "window.start: type"),
    ("[window]", "[[window]]", "window.start: type"),
    ("start = 1700000000\n", "", "window.start: missing"),
    ("1700000000", "1.0", "window.start: type"),
    ("1700000000", "-1", "window.start: range"),
    ("1700000000", "10000000000", "window.start: range"),
    ("tick = 10\n", "", "window.tick: missing"),
    ("tick = 10", "tick = true", "window.tick: type"),
    ("tick = 10", "tick = 0", "window.tick: range"),
    ("tick = 10", "tick = 61", "window.tick: range"),
    ("ticks = 40\n", "", "window.ticks: missing"),
    ("ticks = 40", "ticks = 1979-05-27", "window.ticks: type"),
    ("ticks = 40", "ticks = 0", "window.ticks: range"),
    ("ticks = 40", "ticks = 20001", "window.ticks: range"),
    ("[reference]", "[other]", "reference.lat: missing"),
    ("[reference]", "[[reference]]", "reference.lat: type"),
    ("lat = 0\n", "", "reference.lat: missing"),
    ("lat = 0", "lat = [0]", "reference.lat: type"),
    ("lat = 0", "lat = 45000001", "reference.lat: range"),
    ("lat = 0", "lat = -45000001", "reference.lat: range"),
    ("lon = -7\n", "", "reference.lon: missing"),
    ("lon = -7", "lon = -7.0", "reference.lon: type"),
    ("lon = -7", "lon = 108000001", "reference.lon: range"),
    ("lon = -7", "lon = -108000001", "reference.lon: range"),
    ("[log]", "[other]", "log.gap: missing"),
    ("[log]", "[[log]]", "log.gap: type"),
    ("gap = 600\n", "", "log.gap: missing"),
    ("gap = 600", "gap = {}", "log.gap: type"),
    ("gap = 600", "gap = 9", "log.gap: range"),
    ("gap = 600", "gap = 3601", "log.gap: range"),
    ("slack = 60\n", "", "log.slack: missing"),
    ("slack = 60", "slack = inf", "log.slack: type"),
    ("slack = 60", "slack = -1", "log.slack: range"),
    ("slack = 60", "slack = 3601", "log.slack: range"),
    ("max_speed = 500\n", "", "log.max_speed: missing"),
    ("max_speed = 500", "max_speed = 500.0", "log.max_speed: type"),
    ("max_speed = 500", "max_speed = 0", "log.max_speed: range"),
    ("max_speed = 500", "max_speed = 1023", "log.max_speed: range"),
    ("max_speed", "max_bytes = ''\nmax_speed", "log.max_bytes: type"),
    ("max_speed", "max_bytes = 0\nmax_speed", "log.max_bytes: range"),
    ("max_speed", "max_bytes = 1073741825\nmax_speed", "log.max_bytes: range"),
];

/// Faults of the keys of `detect`.
#[rattlefmt::skip]
static DETECT: [Case; 31] = [
    ("[detect]", "[[detect]]", "detect.watch: type"),
    ("\nwatch = 5000\n", "\n", "detect.watch: missing"),
    ("\nwatch = 5000\n", "\nwatch = 5000.0\n", "detect.watch: type"),
    ("\nwatch = 5000\n", "\nwatch = 0\n", "detect.watch: range"),
    ("\nwatch = 5000\n", "\nwatch = 100001\n", "detect.watch: range"),
    ("\nrisk = 501\n", "\n", "detect.risk: missing"),
    ("\nrisk = 501\n", "\nrisk = 501.0\n", "detect.risk: type"),
    ("\nrisk = 501\n", "\nrisk = 0\n", "detect.risk: range"),
    ("\nrisk = 501\n", "\nrisk = 100001\n", "detect.risk: range"),
    ("\nclear = 1000\n", "\n", "detect.clear: missing"),
    ("\nclear = 1000\n", "\nclear = 1000.0\n", "detect.clear: type"),
    ("\nclear = 1000\n", "\nclear = 0\n", "detect.clear: range"),
    ("\nclear = 1000\n", "\nclear = 100001\n", "detect.clear: range"),
    ("\nhorizon = 610\n", "\n", "detect.horizon: missing"),
    ("\nhorizon = 610\n", "\nhorizon = 610.0\n", "detect.horizon: type"),
    ("\nhorizon = 610\n", "\nhorizon = 9\n", "detect.horizon: range"),
    ("\nhorizon = 610\n", "\nhorizon = 7210\n", "detect.horizon: range"),
    ("\nhorizon = 610\n", "\nhorizon = 615\n", "detect.horizon: multiple"),
    ("\ndoubt = 0\n", "\n", "detect.doubt: missing"),
    ("\ndoubt = 0\n", "\ndoubt = 0.0\n", "detect.doubt: type"),
    ("\ndoubt = 0\n", "\ndoubt = -1\n", "detect.doubt: range"),
    ("\ndoubt = 0\n", "\ndoubt = 1125\n", "detect.doubt: range"),
    ("\nahead = 100\n", "\n", "detect.ahead: missing"),
    ("\nahead = 100\n", "\nahead = 100.0\n", "detect.ahead: type"),
    ("\nahead = 100\n", "\nahead = -1\n", "detect.ahead: range"),
    ("\nahead = 100\n", "\nahead = 901\n", "detect.ahead: range"),
    ("\nreciprocal = 101\n", "\n", "detect.reciprocal: missing"),
    ("\nreciprocal = 101\n", "\nreciprocal = 101.0\n", "detect.reciprocal: type"),
    ("\nreciprocal = 101\n", "\nreciprocal = -1\n", "detect.reciprocal: range"),
    ("\nreciprocal = 101\n", "\nreciprocal = 901\n", "detect.reciprocal: range"),
    ("horizon = 610", "horizon = 7205", "detect.horizon: range"),
];

/// Faults of the keys of `act`.
#[rattlefmt::skip]
static ACT: [Case; 17] = [
    ("[act]", "[[act]]", "act.steady_turn: type"),
    ("\nsteady_turn = 50\n", "\n", "act.steady_turn: missing"),
    ("\nsteady_turn = 50\n", "\nsteady_turn = 50.0\n", "act.steady_turn: type"),
    ("\nsteady_turn = 50\n", "\nsteady_turn = -1\n", "act.steady_turn: range"),
    ("\nsteady_turn = 50\n", "\nsteady_turn = 1801\n", "act.steady_turn: range"),
    ("\napparent_turn = 200\n", "\n", "act.apparent_turn: missing"),
    ("\napparent_turn = 200\n", "\napparent_turn = 200.0\n", "act.apparent_turn: type"),
    ("\napparent_turn = 200\n", "\napparent_turn = 0\n", "act.apparent_turn: range"),
    ("\napparent_turn = 200\n", "\napparent_turn = 1801\n", "act.apparent_turn: range"),
    ("\nsteady_speed = 11\n", "\n", "act.steady_speed: missing"),
    ("\nsteady_speed = 11\n", "\nsteady_speed = 11.0\n", "act.steady_speed: type"),
    ("\nsteady_speed = 11\n", "\nsteady_speed = -1\n", "act.steady_speed: range"),
    ("\nsteady_speed = 11\n", "\nsteady_speed = 1023\n", "act.steady_speed: range"),
    ("\napparent_speed = 51\n", "\n", "act.apparent_speed: missing"),
    ("\napparent_speed = 51\n", "\napparent_speed = 51.0\n", "act.apparent_speed: type"),
    ("\napparent_speed = 51\n", "\napparent_speed = 0\n", "act.apparent_speed: range"),
    ("\napparent_speed = 51\n", "\napparent_speed = 1023\n", "act.apparent_speed: range"),
];

/// Faults of the keys of `rules`.
#[rattlefmt::skip]
static RULES: [Case; 40] = [
    ("version = 1", "version = 2", "rules.safe_head_on: missing"),
    ("[rules]", "[[rules]]", "rules.safe: type"),
    ("\nsafe = 201\n", "\n", "rules.safe: missing"),
    ("\nsafe = 201\n", "\nsafe = 201.0\n", "rules.safe: type"),
    ("\nsafe = 201\n", "\nsafe = 0\n", "rules.safe: range"),
    ("\nsafe = 201\n", "\nsafe = 100001\n", "rules.safe: range"),
    ("\novertake = 202\n", "\n", "rules.overtake: missing"),
    ("\novertake = 202\n", "\novertake = 202.0\n", "rules.overtake: type"),
    ("\novertake = 202\n", "\novertake = 0\n", "rules.overtake: range"),
    ("\novertake = 202\n", "\novertake = 100001\n", "rules.overtake: range"),
    ("\nclose = 300\n", "\n", "rules.close: missing"),
    ("\nclose = 300\n", "\nclose = 300.0\n", "rules.close: type"),
    ("\nclose = 300\n", "\nclose = 0\n", "rules.close: range"),
    ("\nclose = 300\n", "\nclose = 100001\n", "rules.close: range"),
    ("\nt8 = 60\n", "\n", "rules.t8: missing"),
    ("\nt8 = 60\n", "\nt8 = 60.0\n", "rules.t8: type"),
    ("\nt8 = 60\n", "\nt8 = -1\n", "rules.t8: range"),
    ("\nt8 = 60\n", "\nt8 = 7210\n", "rules.t8: range"),
    ("\nt8 = 60\n", "\nt8 = 25\n", "rules.t8: multiple"),
    ("\nta = 70\n", "\n", "rules.ta: missing"),
    ("\nta = 70\n", "\nta = 70.0\n", "rules.ta: type"),
    ("\nta = 70\n", "\nta = -1\n", "rules.ta: range"),
    ("\nta = 70\n", "\nta = 7210\n", "rules.ta: range"),
    ("\nta = 70\n", "\nta = 75\n", "rules.ta: multiple"),
    ("\ntl = 20\n", "\n", "rules.tl: missing"),
    ("\ntl = 20\n", "\ntl = 20.0\n", "rules.tl: type"),
    ("\ntl = 20\n", "\ntl = -1\n", "rules.tl: range"),
    ("\ntl = 20\n", "\ntl = 7210\n", "rules.tl: range"),
    ("\ntl = 20\n", "\ntl = 25\n", "rules.tl: multiple"),
    ("\ntw = 110\n", "\n", "rules.tw: missing"),
    ("\ntw = 110\n", "\ntw = 110.0\n", "rules.tw: type"),
    ("\ntw = 110\n", "\ntw = -1\n", "rules.tw: range"),
    ("\ntw = 110\n", "\ntw = 7210\n", "rules.tw: range"),
    ("\ntw = 110\n", "\ntw = 115\n", "rules.tw: multiple"),
    ("\nte = 620\n", "\n", "rules.te: missing"),
    ("\nte = 620\n", "\nte = 620.0\n", "rules.te: type"),
    ("\nte = 620\n", "\nte = -1\n", "rules.te: range"),
    ("\nte = 620\n", "\nte = 7210\n", "rules.te: range"),
    ("\nte = 620\n", "\nte = 625\n", "rules.te: multiple"),
    ("t8 = 60", "t8 = -5", "rules.t8: range"),
];

/// Faults of `subjects`.
#[rattlefmt::skip]
static SUBJECTS: [Case; 6] = [
    ("version = 1\n", "version = 1\nsubjects = 1\n", "subjects[0]: type"),
    ("version = 1\n", "version = 1\nsubjects = [200000000, 1.5]\n", "subjects[1]: type"),
    ("version = 1\n", "version = 1\nsubjects = [199999999, 1.5]\n", "subjects[1]: type"),
    ("version = 1\n", "version = 1\nsubjects = [200000000, 199999999]\n", "subjects[1]: range"),
    ("version = 1\n", "version = 1\nsubjects = [799999999, 800000000, 1]\n", "subjects[1]: range"),
    ("version = 1\n", "version = 1\n[[subjects]]\n[a]\n", "subjects[0]: type"),
];

/// Faults of `formula`, and formulas without a fault.
#[rattlefmt::skip]
static FORMULAS: [Case; 27] = [
    ("version = 1", "version = 1\nformula = 1", "formula: type"),
    ("version = 1", "version = 1\nformula = {}", "formula: type"),
    ("version = 1", "version = 1\nformula = [{}, 1]", "formula: type"),
    ("version = 1", "version = 1\nformula = [{}, {}, {}, {}, {}, {}]", "formula: range"),
    ("version = 1", "version = 1\nformula = []", ""),
    ("version = 1", "version = 1\nformula = [{}]", "formula.name[0]: missing"),
    ("version = 1", "version = 1\nformula = [{ name = 1 }]", "formula.name[0]: type"),
    ("version = 1", "version = 1\nformula = [{ name = '' }]", "formula.name[0]: range"),
    ("version = 1", "version = 1\nformula = [{ name = 'A' }]", "formula.name[0]: range"),
    ("version = 1", "version = 1\nformula = [{ name = 'a-b' }]", "formula.name[0]: range"),
    ("version = 1", "version = 1\nformula = [{ name = '1a' }]", "formula.name[0]: range"),
    ("version = 1", "version = 1\nformula = [{ name = '_a' }]", "formula.name[0]: range"),
    ("version = 1", "version = 1\nformula = [{ name = 'abcdefghijklmnopq' }]", "formula.name[0]: range"),
    ("version = 1", "version = 1\nformula = [{ name = 'abcd_fghij123456', text = 'seen' }]", ""),
    ("version = 1", "version = 1\nformula = [{ name = 'r14a' }]", "formula.name[0]: range"),
    ("version = 1", "version = 1\nformula = [{ name = 'r18', text = 'seen' }]", ""),
    ("version = 1", "version = 1\nformula = [{ name = 'u', text = 'seen' }, { name = 'u' }]", "formula.name[1]: range"),
    ("version = 1", "version = 1\nformula = [{ name = 'u' }]", "formula.text[0]: missing"),
    ("version = 1", "version = 1\nformula = [{ name = 'u', text = ['seen'] }]", "formula.text[0]: type"),
    ("version = 1", "version = 1\nformula = [{ name = 'u', text = 'risk &' }]", "formula.text[0]: formula at 6"),
    ("version = 1", "version = 1\nformula = [{ name = 'u', text = 'F[0,25] risk' }]", "formula.text[0]: formula at 4"),
    ("version = 1", "version = 1\nformula = [{ name = 'u', text = 'F[0,7200] F[0,7200] F[0,7200] F[0,7200] F[0,7200] F[0,7200] F[0,7200] F[0,7200] F[0,7200] F[0,7200] F[0,7200] risk' }]", "formula.text[0]: formula at 114"),
    ("version = 1", "version = 1\nformula = [{ name = 'A', text = '&' }]", "formula.name[0]: range"),
    ("version = 1", "version = 1\nformula = [{ name = 'u', text = '&' }, { name = 'A' }]", "formula.text[0]: formula at 0"),
    ("version = 1", "version = 1\nformula = [{ name = 'u', text = 'seen' }, { name = 'v', text = '&' }]", "formula.text[1]: formula at 0"),
    ("te = 620\n", "te = 621\n[[formula]]\nname = 'A'\n", "rules.te: multiple"),
    ("te = 620\n", "te = 620\n[[formula]]\nname = 'u'\ntext = 'ahead'\n", ""),
];

/// Two formulas instead of the good ones: the name and the text of the second, and the fault of all.
#[rattlefmt::skip]
static SECOND_FORMULA: [Case; 3] = [
    ("'r18'", "'u1'", "formula.name[1]: range"),
    ("'seen'", "'seen)'", "formula.text[1]: formula at 4"),
    ("'r18'", "'u2'", ""),
];

/// The eleven rules of the good scenario weigh 515. With the first three formulas they weigh 65,535, and with the last
/// one, which has one node, 65,536; `!seen` has two nodes.
#[rattlefmt::skip]
static WEIGHTS: [Case; 2] = [
    ("version = 1", "version = 1\nformula = [{ name = 'a', text = 'F[0,7200] F[0,7200] F[0,7200] F[0,7200] F[0,7200] F[0,7200] F[0,7200] F[0,7200] seen' }, { name = 'b', text = 'F[0,7200] F[0,7200] seen' }, { name = 'c', text = 'F[0,5450] seen' }, { name = 'd', text = 'seen' }]", ""),
    ("version = 1", "version = 1\nformula = [{ name = 'a', text = 'F[0,7200] F[0,7200] F[0,7200] F[0,7200] F[0,7200] F[0,7200] F[0,7200] F[0,7200] seen' }, { name = 'b', text = 'F[0,7200] F[0,7200] seen' }, { name = 'c', text = 'F[0,5450] seen' }, { name = 'd', text = '!seen' }]", "formulas: product"),
];

/// Faults if ranks count: `r18` is a rule's name, and there are twelve rules to weigh. They weigh 592, and with the first three formulas
/// 65,534.
#[rattlefmt::skip]
static RANKS: [Case; 11] = [
    ("ranks = 1\n", "ranks = 2\n", "rules.ranks: range"),
    ("ranks = 1\n", "ranks = -1\n", "rules.ranks: range"),
    ("ranks = 1\n", "ranks = true\n", "rules.ranks: type"),
    ("te = 620\nranks = 1\n", "te = 625\nranks = 2\n", "rules.te: multiple"),
    ("ranks = 1\n", "ranks = 2\n[[subjects]]\n", "rules.ranks: range"),
    ("version = 1", "version = 1\nformula = [{ name = 'r18', text = 'seen' }]", "formula.name[0]: range"),
    ("version = 1", "version = 1\nformula = [{ name = 'u', text = 'seen' }, { name = 'r18' }]", "formula.name[1]: range"),
    ("version = 1", "version = 1\nformula = [{ name = 'r19', text = 'seen' }]", ""),
    ("ranks = 1\n", "ranks = 0\n[[formula]]\nname = 'r18'\ntext = 'seen'\n", ""),
    ("version = 1", "version = 1\nformula = [{ name = 'a', text = 'F[0,7200] F[0,7200] F[0,7200] F[0,7200] F[0,7200] F[0,7200] F[0,7200] F[0,7200] seen' }, { name = 'b', text = 'F[0,7200] F[0,7200] seen' }, { name = 'c', text = 'F[0,5190] seen' }, { name = 'd', text = '!seen' }]", ""),
    ("version = 1", "version = 1\nformula = [{ name = 'a', text = 'F[0,7200] F[0,7200] F[0,7200] F[0,7200] F[0,7200] F[0,7200] F[0,7200] F[0,7200] seen' }, { name = 'b', text = 'F[0,7200] F[0,7200] seen' }, { name = 'c', text = 'F[0,5190] seen' }, { name = 'd', text = 'seen & seen' }]", "formulas: product"),
];

/// The same if own ship is needed: ranks do not count, but their key is tested.
#[rattlefmt::skip]
static RANKS_WITH_OWN: [Case; 3] = [
    ("ranks = 1\n", "ranks = 2\n", "rules.ranks: range"),
    ("version = 1", "version = 1\nformula = [{ name = 'r18', text = 'seen' }]", ""),
    ("version = 1", "version = 1\nformula = [{ name = 'a', text = 'F[0,7200] F[0,7200] F[0,7200] F[0,7200] F[0,7200] F[0,7200] F[0,7200] F[0,7200] seen' }, { name = 'b', text = 'F[0,7200] F[0,7200] seen' }, { name = 'c', text = 'F[0,5190] seen' }, { name = 'd', text = 'seen & seen' }]", ""),
];

/// Returns the good scenario with a formula of one atom and this many spaces.
fn with_spaces(alloc: Global, spaces: usize) -> Result<String, AllocError> {
    let good = FIRST.concat(alloc)?;
    let spaces = " ".repeat(alloc, spaces)?;
    [
        good.as_str(),
        "[[formula]]\nname = 'u'\ntext = 'seen",
        spaces.as_str(),
        "'\n",
    ]
    .concat(alloc)
}

/// Numbers of spaces, and the report.
static SPACES: [(usize, &str); 2] = [(1020, ""), (1021, "formula.text[0]: range")];

#[test]
fn a_formula_has_at_most_1024_bytes(rt: HostRuntime) -> Result<(), AllocError> {
    for (spaces, wanted) in &SPACES {
        let text = with_spaces(rt.alloc(), *spaces)?;
        is_text(&rt, told_of(rt.alloc(), text.as_str(), false), wanted)?;
    }
    Ok(())
}

/// Faults of two keys: the report has the first in the order of the keys, wherever they are.
#[rattlefmt::skip]
static ORDER: [Case; 4] = [
    ("tick = 10", "tick = 61", "window.tick: range"),
    ("version = 1\n[window]", "[other]", "version: missing"),
    ("tick = 10\nticks = 40", "ticks = 0", "window.tick: missing"),
    ("gap = 600\nslack = 60\n", "slack = -1\n", "log.gap: missing"),
];

/// Faults of the keys of version 2.
#[rattlefmt::skip]
static VERSION_TWO: [Case; 10] = [
    ("safe_head_on = 1\n", "", "rules.safe_head_on: missing"),
    ("safe_head_on = 1\n", "safe_head_on = 0\n", "rules.safe_head_on: range"),
    ("safe_overtaking = 2", "safe_overtaking = 100001", "rules.safe_overtaking: range"),
    ("safe_overtaking = 2\n", "", "rules.safe_overtaking: missing"),
    ("safe_crossing = 3", "safe_crossing = ''", "rules.safe_crossing: type"),
    ("safe_crossing = 3", "safe_crossing = 0", "rules.safe_crossing: range"),
    ("safe_other = 100000", "safe_other = 100001", "rules.safe_other: range"),
    ("safe_other = 100000\n", "", "rules.safe_other: missing"),
    ("safe_other = 100000\novertake = 202", "overtake = 0", "rules.safe_other: missing"),
    ("safe_other = 100000\novertake = 202", "safe_other = 5\nsafe = 0\novertake = 0", "rules.overtake: range"),
];

/// Faults of the keys of own ship.
#[rattlefmt::skip]
static OWN: [Case; 54] = [
    ("[own]", "[other]", "own.mmsi: missing"),
    ("[own]", "[[own]]", "own.mmsi: type"),
    ("\nmmsi = 369190000\n", "\n", "own.mmsi: missing"),
    ("\nmmsi = 369190000\n", "\nmmsi = '1'\n", "own.mmsi: type"),
    ("\nmmsi = 369190000\n", "\nmmsi = 199999999\n", "own.mmsi: range"),
    ("\nmmsi = 369190000\n", "\nmmsi = 800000000\n", "own.mmsi: range"),
    ("\nlegs = 3\n", "\n", "own.legs: missing"),
    ("\nlegs = 3\n", "\nlegs = '1'\n", "own.legs: type"),
    ("\nlegs = 3\n", "\nlegs = 0\n", "own.legs: range"),
    ("\nlegs = 3\n", "\nlegs = 9\n", "own.legs: range"),
    ("\nleg_ticks = 30\n", "\n", "own.leg_ticks: missing"),
    ("\nleg_ticks = 30\n", "\nleg_ticks = '1'\n", "own.leg_ticks: type"),
    ("\nleg_ticks = 30\n", "\nleg_ticks = 0\n", "own.leg_ticks: range"),
    ("\nleg_ticks = 30\n", "\nleg_ticks = 7201\n", "own.leg_ticks: range"),
    ("\ntail = 10\n", "\n", "own.tail: missing"),
    ("\ntail = 10\n", "\ntail = '1'\n", "own.tail: type"),
    ("\ntail = 10\n", "\ntail = -1\n", "own.tail: range"),
    ("\ntail = 10\n", "\ntail = 7201\n", "own.tail: range"),
    ("\nbase = 301\n", "\n", "own.base: missing"),
    ("\nbase = 301\n", "\nbase = '1'\n", "own.base: type"),
    ("\nbase = 301\n", "\nbase = -1\n", "own.base: range"),
    ("\nbase = 301\n", "\nbase = 100001\n", "own.base: range"),
    ("\nlengths = 2\n", "\n", "own.lengths: missing"),
    ("\nlengths = 2\n", "\nlengths = '1'\n", "own.lengths: type"),
    ("\nlengths = 2\n", "\nlengths = -1\n", "own.lengths: range"),
    ("\nlengths = 2\n", "\nlengths = 101\n", "own.lengths: range"),
    ("\nrange = 50000\n", "\n", "own.range: missing"),
    ("\nrange = 50000\n", "\nrange = '1'\n", "own.range: type"),
    ("\nrange = 50000\n", "\nrange = 0\n", "own.range: range"),
    ("\nrange = 50000\n", "\nrange = 100001\n", "own.range: range"),
    ("courses = [0, 300, -600]\n", "", "own.courses[0]: missing"),
    ("[0, 300, -600]", "7", "own.courses[0]: type"),
    ("[0, 300, -600]", "[0, 9999, '']", "own.courses[2]: type"),
    ("[0, 300, -600]", "[]", "own.courses[0]: range"),
    ("[0, 300, -600]", "[9999, 9999, 9999, 9999, 9999, 9999, 9999, 9999, 9999, 9999, 9999, 9999, 9999, 9999, 9999, 9999, 9999, 9999, 9999, 9999, 9999, 9999, 9999, 9999, 9999, 9999, 9999, 9999, 9999, 9999, 9999, 9999, 9999]", "own.courses[0]: range"),
    ("[0, 300, -600]", "[1800, -1800, 1801]", "own.courses[2]: range"),
    ("[0, 300, -600]", "[-1801]", "own.courses[0]: range"),
    ("speeds = [0, -5]\n", "", "own.speeds[0]: missing"),
    ("[0, -5]", "7", "own.speeds[0]: type"),
    ("[0, -5]", "[0, 9999, '']", "own.speeds[2]: type"),
    ("[0, -5]", "[]", "own.speeds[0]: range"),
    ("[0, -5]", "[9999, 9999, 9999, 9999, 9999, 9999, 9999, 9999, 9999, 9999, 9999, 9999, 9999, 9999, 9999, 9999, 9999]", "own.speeds[0]: range"),
    ("[0, -5]", "[1022, -1022, 1023]", "own.speeds[2]: range"),
    ("[0, -5]", "[-1023]", "own.speeds[0]: range"),
    ("turn_rate = 100", "turn_rate = 0", "own.turn_rate: range"),
    ("turn_rate = 100", "turn_rate = 1801", "own.turn_rate: range"),
    ("turn_rate = 100", "turn_rate = 1.5", "own.turn_rate: type"),
    ("turn_rate = 100", "speed_rate = 0", "own.speed_rate: range"),
    ("turn_rate = 100", "speed_rate = 1023", "own.speed_rate: range"),
    ("turn_rate = 100", "speed_rate = 1.5", "own.speed_rate: type"),
    ("[0, 300, -600]\nspeeds = [0, -5]\nlegs = 3", "[0, 0, 0, 0, 0, 0, 0, 0, 0, 0, 0, 0, 0, 0, 0, 0, 0, 0, 0, 0, 0, 0, 0, 0, 0, 0, 0, 0, 0, 0, 0, 0]\nspeeds = [0, -5]\nlegs = 6", "own: product"),
    ("leg_ticks = 30\ntail = 10", "leg_ticks = 236\ntail = 13", "own: product"),
    ("leg_ticks = 30\ntail = 10", "leg_ticks = 7200\ntail = 7200", "own: product"),
    ("leg_ticks = 30\ntail = 10", "leg_ticks = 7200\ntail = 7201", "own.tail: range"),
];

/// Faults of own ship's shape, in the order of their tests, and a fault before them.
#[rattlefmt::skip]
static SHAPE: [Case; 20] = [
    ("turn_rate = 100", "shape = 1", "own.shape[0]: type"),
    ("turn_rate = 100", "shape = {}", "own.shape[0]: type"),
    ("turn_rate = 100", "shape = [300, 0]", "own.shape[0]: type"),
    ("turn_rate = 100", "shape = [[300, 0], [150, 100], [-150, 100], -300, [-150, -100], [150, -100]]", "own.shape[3]: type"),
    ("turn_rate = 100", "shape = [[300, 0], [150, 100], [-150, 100.0], [-300, 0], [-150, -100], [150, -100]]", "own.shape[2]: type"),
    ("turn_rate = 100", "shape = [[9999], ['1']]", "own.shape[1]: type"),
    ("turn_rate = 100", "shape = []", "own.shape[0]: range"),
    ("turn_rate = 100", "shape = [[300, 0], [150, 100], [-150, 9999], [-300, 0], [-150, -100]]", "own.shape[0]: range"),
    ("turn_rate = 100", "shape = [[300, 0], [150, 100], [-150, 100], [-300, 0], [-150, -100], [150, -100], [1]]", "own.shape[0]: range"),
    ("turn_rate = 100", "shape = [[300, 0], [150, 100], [-150, 100], [-300, 0], [-150, -100], []]", "own.shape[5]: range"),
    ("turn_rate = 100", "shape = [[300, 0], [150, 100, 0], [-150, 100], [-300], [-150, -100], [150, -100]]", "own.shape[1]: range"),
    ("turn_rate = 100", "shape = [[300, 0], [150, 100], [-150, 100], [-2001, 0], [-150, -100], [150, -100]]", "own.shape[3]: range"),
    ("turn_rate = 100", "shape = [[300, 0], [150, 100], [-150, 100], [-300, 0], [-150, -2001], [150, -100]]", "own.shape[4]: range"),
    ("turn_rate = 100", "shape = [[150, -100], [-150, -100], [-300, 0], [-150, 100], [150, 100], [300, 2001]]", "own.shape[5]: range"),
    ("turn_rate = 100", "shape = [[150, -100], [-150, -100], [-300, 0], [-150, 100], [150, 100], [300, 0]]", "own.shape[0]: range"),
    ("turn_rate = 100", "shape = [[300, 0], [0, 0], [-150, 100], [-300, 0], [-150, -100], [150, -100]]", "own.shape[0]: range"),
    ("turn_rate = 100", "shape = [[300, 0], [150, 100], [0, 200], [-300, 0], [-150, -100], [150, -100]]", "own.shape[0]: range"),
    ("turn_rate = 100", "speed_rate = 0\nshape = 1", "own.speed_rate: range"),
    ("turn_rate = 100", "shape = [[2000, 0], [1000, 2000], [-1000, 2000], [-2000, 0], [-1000, -2000], [1000, -2000]]", ""),
    ("turn_rate = 100", "shape = [[300, 0], [150, 100], [-150, 100], [-300, 0], [-150, -100], [150, -100]]", ""),
];

/// Values just within the bounds.
#[rattlefmt::skip]
static WITHIN: [Case; 5] = [
    ("[0, 300, -600]\nspeeds = [0, -5]\nlegs = 3", "[0, 0, 0, 0, 0, 0, 0, 0, 0, 0, 0, 0, 0, 0, 0, 0, 0, 0, 0, 0, 0, 0, 0, 0, 0, 0, 0, 0, 0, 0, 0, 0]\nspeeds = [0, -5]\nlegs = 5", ""),
    ("leg_ticks = 30\ntail = 10", "leg_ticks = 236\ntail = 12", ""),
    ("turn_rate = 100", "turn_rate = 1800\nspeed_rate = 1022", ""),
    ("turn_rate = 100", "turn_rate = 1\nspeed_rate = 1", ""),
    ("watch", "watch", ""),
];

static NO_LEGS: [Case; 1] = [("legs = 3", "legs = 0", "")];

#[test]
fn own_ship_is_not_looked_at_where_she_is_not_needed(rt: HostRuntime) -> Result<(), AllocError> {
    are_told(&rt, rt.alloc(), &WITH_OWN, false, &NO_LEGS)
}

/// Faults of `predict`, and predictions without a fault.
#[rattlefmt::skip]
static PREDICT: [Case; 34] = [
    ("range = 50000\n", "", "own.range: missing"),
    ("turn_rate = 100\n[[predict]]\nmmsi = 477553000\n", "turn_rate = 0\n[[predict]]\n", "predict.mmsi[0]: missing"),
    ("turn_rate = 100\n[[predict]]", "turn_rate = 0\n[[predict]]", "own.turn_rate: range"),
    ("477553000", "'477553000'", "predict.mmsi[0]: type"),
    ("477553000", "199999999", "predict.mmsi[0]: range"),
    ("477553000", "800000000", "predict.mmsi[0]: range"),
    ("477553000", "369190000", "predict.mmsi[0]: range"),
    ("477553001", "369190000", "predict.mmsi[1]: range"),
    ("477553001", "477553000", "predict.mmsi[1]: range"),
    ("477553001", "477553002", ""),
    ("changes = [[10, 0, 5]]\n", "", "predict.changes[1]: missing"),
    ("[[10, 0, 5]]", "1", "predict.changes[1]: type"),
    ("[[10, 0, 5]]", "[[10, 0, 5], 1]", "predict.changes[1]: type"),
    ("[[10, 0, 5]]", "[[10, 0, 5.0]]", "predict.changes[1]: type"),
    ("[[10, 0, 5]]", "[[10, 0], ['1']]", "predict.changes[1]: type"),
    ("[[10, 0, 5]]", "[]", "predict.changes[1]: range"),
    ("[[10, 0, 5]]", "[[]]", "predict.changes[1]: range"),
    ("[[10, 0, 5]]", "[[10, 0]]", "predict.changes[1]: range"),
    ("[[10, 0, 5]]", "[[10, 0, 5, 5]]", "predict.changes[1]: range"),
    ("[[10, 0, 5]]", "[[-10, 0, 5]]", "predict.changes[1]: range"),
    ("[[10, 0, 5]]", "[[7210, 0, 5]]", "predict.changes[1]: range"),
    ("[[10, 0, 5]]", "[[10, -1, 5]]", "predict.changes[1]: range"),
    ("[[10, 0, 5]]", "[[10, 3600, 5]]", "predict.changes[1]: range"),
    ("[[10, 0, 5]]", "[[10, 0, -1]]", "predict.changes[1]: range"),
    ("[[10, 0, 5]]", "[[10, 0, 1023]]", "predict.changes[1]: range"),
    ("[[10, 0, 5]]", "[[10, 0, 5], [10, 0, 5]]", "predict.changes[1]: range"),
    ("[[10, 0, 5]]", "[[20, 0, 5], [10, 0, 5]]", "predict.changes[1]: range"),
    ("[[10, 0, 5]]", "[[15, 0, 5]]", "predict.changes[1]: multiple"),
    ("[[10, 0, 5]]", "[[15, 0, 5], [20, 3600, 5]]", "predict.changes[1]: range"),
    ("[[10, 0, 5]]", "[[0, 0, 0], [10, 0, 0], [20, 0, 0], [30, 0, 0], [40, 0, 0], [50, 0, 0], [60, 0, 0], [70, 0, 0], [80, 0, 0], [90, 0, 0], [100, 0, 0], [110, 0, 0], [120, 0, 0], [130, 0, 0], [140, 0, 0], [150, 0, 0]]", ""),
    ("[[10, 0, 5]]", "[[0, 0, 0], [10, 0, 0], [20, 0, 0], [30, 0, 0], [40, 0, 0], [50, 0, 0], [60, 0, 0], [70, 0, 0], [80, 0, 0], [90, 0, 0], [100, 0, 0], [110, 0, 0], [120, 0, 0], [130, 0, 0], [140, 0, 0], [150, 0, 0], [160, 0, 0]]", "predict.changes[1]: range"),
    ("477553001\nchanges = [[10, 0, 5]]", "1\nchanges = 1", "predict.mmsi[1]: range"),
    ("[7200, 3599, 0]]\n[[predict]]\nmmsi = 477553001", "[7200, 3600, 0]]\n[[predict]]\nmmsi = 1", "predict.changes[0]: range"),
    ("mmsi = 369190000", "mmsi = 477553000", "predict.mmsi[0]: range"),
];

/// Other lists instead of the tables of `predict`.
#[rattlefmt::skip]
static NO_PREDICTIONS: [Case; 4] = [
    ("version = 1", "version = 1\npredict = 1", "predict: type"),
    ("version = 1", "version = 1\npredict = {}", "predict: type"),
    ("version = 1", "version = 1\npredict = [{}, []]", "predict: type"),
    ("version = 1", "version = 1\npredict = []", ""),
];

/// Returns the good scenario with own ship and this many empty tables of `predict`.
fn with_tables(alloc: Global, many: usize) -> Result<String, AllocError> {
    let good = WITH_OWN.concat(alloc)?;
    let tables = "[[predict]]\n".repeat(alloc, many)?;
    [good.as_str(), tables.as_str()].concat(alloc)
}

/// Numbers of tables, and the report.
static TABLES: [(usize, &str); 2] = [(64, "predict.mmsi[0]: missing"), (65, "predict: range")];

#[test]
fn at_most_64_vessels_are_predicted(rt: HostRuntime) -> Result<(), AllocError> {
    for (many, wanted) in &TABLES {
        let text = with_tables(rt.alloc(), *many)?;
        is_text(&rt, told_of(rt.alloc(), text.as_str(), true), wanted)?;
    }
    Ok(())
}

/// Compares the reports for the keys of each scenario.
fn keys_are_told(rt: &impl Abort, alloc: Global) -> Result<(), AllocError> {
    are_told(rt, alloc, &FIRST, false, &FIRST_KEYS)?;
    are_told(rt, alloc, &FIRST, false, &DETECT)?;
    are_told(rt, alloc, &FIRST, false, &ACT)?;
    are_told(rt, alloc, &FIRST, false, &RULES)?;
    are_told(rt, alloc, &FIRST, false, &SUBJECTS)?;
    are_told(rt, alloc, &FIRST, false, &ORDER)?;
    are_told(rt, alloc, &SECOND, false, &VERSION_TWO)
}

/// Compares the same for formulas and ranks.
fn formulas_are_told(rt: &impl Abort, alloc: Global) -> Result<(), AllocError> {
    are_told(rt, alloc, &FIRST, false, &FORMULAS)?;
    are_told(rt, alloc, &WITH_FORMULAS, false, &SECOND_FORMULA)?;
    are_told(rt, alloc, &FIRST, false, &WEIGHTS)?;
    are_told(rt, alloc, &WITH_RANKS, false, &RANKS)?;
    are_told(rt, alloc, &WITH_RANKS_AND_OWN, true, &RANKS_WITH_OWN)
}

/// Compares the same for own ship and predictions.
fn own_is_told(rt: &impl Abort, alloc: Global) -> Result<(), AllocError> {
    are_told(rt, alloc, &WITH_OWN, true, &OWN)?;
    are_told(rt, alloc, &WITH_OWN, true, &SHAPE)?;
    are_told(rt, alloc, &WITH_OWN, true, &WITHIN)?;
    are_told(rt, alloc, &WITH_PREDICTIONS, true, &PREDICT)?;
    are_told(rt, alloc, &WITH_OWN, true, &NO_PREDICTIONS)
}

#[test]
fn each_scenario_is_told_by_its_first_fault(rt: HostRuntime) -> Result<(), AllocError> {
    keys_are_told(&rt, rt.alloc())?;
    formulas_are_told(&rt, rt.alloc())?;
    own_is_told(&rt, rt.alloc())
}
