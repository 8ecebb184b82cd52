//! Scenarios without a fault, in parts: the scenario of all worked rows with a different value for each key that could
//! be confused with another, and additions to it.

/// The tables up to the first line of `rules`.
const TABLES: &str = "[window]
start = 1700000000
tick = 10
ticks = 40
[reference]
lat = 0
lon = -7
[detect]
watch = 5000
risk = 501
clear = 1000
horizon = 610
doubt = 0
ahead = 100
reciprocal = 101
[act]
steady_turn = 50
apparent_turn = 200
steady_speed = 11
apparent_speed = 51
[rules]
";

const ONE_DISTANCE: &str = "safe = 201\n";

const DISTANCE_PER_KIND: &str =
    "safe_head_on = 1\nsafe_overtaking = 2\nsafe_crossing = 3\nsafe_other = 100000\n";

/// The rest of `rules`.
const RULES: &str = "overtake = 202
close = 300
t8 = 60
ta = 70
tl = 20
tw = 110
te = 620
";

const RANKS: &str = "ranks = 1\n";

const LOG: &str = "[log]
gap = 600
slack = 60
max_speed = 500
";

const OWN: &str = "[own]
mmsi = 369190000
courses = [0, 300, -600]
speeds = [0, -5]
legs = 3
leg_ticks = 30
tail = 10
base = 301
lengths = 2
range = 50000
turn_rate = 100
";

const SHAPE: &str =
    "shape = [[300, 0], [150, 100], [-150, 100], [-300, 0], [-150, -100], [150, -100]]\n";

/// The predictions of two vessels.
const PREDICTIONS: &str = "[[predict]]
mmsi = 477553000
changes = [[0, 900, 1022], [7200, 3599, 0]]
[[predict]]
mmsi = 477553001
changes = [[10, 0, 5]]
";

const TWO_FORMULAS: &str = "[[formula]]
name = 'u1'
text = 'F[0,20] risk & !seen'
[[formula]]
name = 'r18'
text = 'seen'
";

/// The good scenario.
pub(crate) static FIRST: [&str; 5] = ["version = 1\n", TABLES, ONE_DISTANCE, RULES, LOG];

/// The good scenario in version 2.
pub(crate) static SECOND: [&str; 5] = ["version = 2\n", TABLES, DISTANCE_PER_KIND, RULES, LOG];

pub(crate) static WITH_FORMULAS: [&str; 6] = [
    "version = 1\n",
    TABLES,
    ONE_DISTANCE,
    RULES,
    LOG,
    TWO_FORMULAS,
];

pub(crate) static WITH_OWN: [&str; 6] = ["version = 1\n", TABLES, ONE_DISTANCE, RULES, LOG, OWN];

pub(crate) static WITH_SHAPE: [&str; 7] = [
    "version = 1\n",
    TABLES,
    ONE_DISTANCE,
    RULES,
    LOG,
    OWN,
    SHAPE,
];

pub(crate) static WITH_PREDICTIONS: [&str; 7] = [
    "version = 1\n",
    TABLES,
    ONE_DISTANCE,
    RULES,
    LOG,
    OWN,
    PREDICTIONS,
];

/// Ranks count if own ship is not needed.
pub(crate) static WITH_RANKS: [&str; 6] = [
    "version = 1\n",
    TABLES,
    ONE_DISTANCE,
    RULES,
    RANKS,
    LOG,
];

pub(crate) static WITH_RANKS_AND_OWN: [&str; 7] = [
    "version = 1\n",
    TABLES,
    ONE_DISTANCE,
    RULES,
    RANKS,
    LOG,
    OWN,
];
