//! The table of keys, in the order of their tests.
ghost use Rattle.std.specs.Prelude.{◌≡◌, ◌==◌, find, map, option_map};
ghost use Rattle.scenario_keys.specs.ScenarioKeys.{first_rows, formula_rows, own_rows, rows};
ghost use Rattle.scenario_keys.specs.ScenarioTexts.{has_items};
ghost use Rattle.scenario_keys.specs.Inner.SeenRows.{seen};

/// The integers that a key may have.
#[derive(Clone, Copy, PartialEq, Eq)]
pub enum Range {
    /// From the first to the second.
    FromTo(i64, i64),
    /// From the number of seconds in a tick to this number.
    FromTheTickTo(i64),
    /// A multiple of the number of seconds in a tick, from one tick to this number.
    TicksFromOneTo(i64),
    /// The same, from 0.
    TicksTo(i64),
    /// From the first to the second. The third is the default.
    Optional(i64, i64, i64),
}

/// The lists of integers that a key may have.
#[derive(Clone, Copy, PartialEq, Eq)]
pub struct ListRange {
    /// Whether the key may be left out.
    pub is_optional: bool,
    /// The least and the greatest length.
    pub fewest: usize,
    pub most: usize,
    /// The least and the greatest integer.
    pub low: i64,
    pub high: i64,
}

/// The value that a key must have.
#[derive(Clone, Copy, PartialEq, Eq)]
pub enum Kind {
    /// The document itself, which is read before the tests of its keys.
    Document,
    /// An integer.
    Number(Range),
    /// A list of integers.
    Numbers(ListRange),
    /// An optional list of at most this many tables.
    Tables(usize),
    /// An optional list of six vertices, each a list of two integers, that form a shape around a vessel.
    Shape,
    /// The name of a formula, in each table of `formula`. It is tested together with the text, table by table.
    FormulaName,
    /// The text of a formula, in each table of `formula`. It is tested together with the name.
    FormulaText,
    /// Rules and formulas that are light enough together.
    Formulas,
    /// Few and short enough plans, by the keys of own ship.
    Plans,
    /// A ship, in each table of `predict`. It is tested together with the changes, table by table.
    PredictedShip,
    /// The changes of the ship's course and speed, in each table of `predict`. They are tested together with the
    /// ship.
    PredictedChanges,
}

/// Returns whether a fault of the key names an item of it.
pub(crate) fn has_items(kind: Kind) -> bool
    ensures { result ≡ has_items kind }
{
    matches!(
        kind,
        Kind::Numbers(_)
            | Kind::Shape
            | Kind::FormulaName
            | Kind::FormulaText
            | Kind::PredictedShip
            | Kind::PredictedChanges
    )
}

/// When a key is checked.
#[derive(Clone, Copy, PartialEq, Eq)]
pub enum When {
    Always,
    InVersionOne,
    InVersionTwo,
    /// If own ship is needed.
    ForOwnShip,
}

/// A row of the table.
#[derive(Clone, Copy, PartialEq, Eq)]
pub struct KeyRow {
    /// The number by which a fault names the key.
    pub number: u8,
    /// The table in which the key stands, empty for the document itself.
    pub table: &'static str,
    pub name: &'static str,
    pub kind: Kind,
    pub when: When,
}

/// A distance in metres.
const METRES: Kind = Kind::Number(Range::FromTo(1, 100_000));

/// The MMSIs of some ships, or of none.
const SHIPS: Kind = Kind::Numbers(ListRange {
    is_optional: true,
    fewest: 0,
    most: 64,
    low: 200_000_000,
    high: 799_999_999,
});

/// The changes of course that a leg may choose from.
const COURSES: Kind = Kind::Numbers(ListRange {
    is_optional: false,
    fewest: 1,
    most: 32,
    low: -1800,
    high: 1800,
});

/// The changes of speed that a leg may choose from.
const SPEEDS: Kind = Kind::Numbers(ListRange {
    is_optional: false,
    fewest: 1,
    most: 16,
    low: -1022,
    high: 1022,
});

/// The keys of the document and its tables, except those of formulas.
#[rattlefmt::skip]
const FIRST_ROWS: [KeyRow; 37] = [
    KeyRow { number: 0, table: "", name: "document", kind: Kind::Document, when: When::Always },
    KeyRow { number: 1, table: "", name: "version", kind: Kind::Number(Range::FromTo(1, 2)), when: When::Always },
    KeyRow { number: 2, table: "window", name: "start", kind: Kind::Number(Range::FromTo(0, 9_999_999_999)), when: When::Always },
    KeyRow { number: 3, table: "window", name: "tick", kind: Kind::Number(Range::FromTo(1, 60)), when: When::Always },
    KeyRow { number: 4, table: "window", name: "ticks", kind: Kind::Number(Range::FromTo(1, 20_000)), when: When::Always },
    KeyRow { number: 5, table: "reference", name: "lat", kind: Kind::Number(Range::FromTo(-45_000_000, 45_000_000)), when: When::Always },
    KeyRow { number: 6, table: "reference", name: "lon", kind: Kind::Number(Range::FromTo(-108_000_000, 108_000_000)), when: When::Always },
    KeyRow { number: 7, table: "log", name: "gap", kind: Kind::Number(Range::FromTheTickTo(3600)), when: When::Always },
    KeyRow { number: 8, table: "log", name: "slack", kind: Kind::Number(Range::FromTo(0, 3600)), when: When::Always },
    KeyRow { number: 9, table: "log", name: "max_speed", kind: Kind::Number(Range::FromTo(1, 1022)), when: When::Always },
    KeyRow { number: 10, table: "log", name: "max_bytes", kind: Kind::Number(Range::Optional(1, 1 << 30, 1 << 30)), when: When::Always },
    KeyRow { number: 11, table: "detect", name: "watch", kind: METRES, when: When::Always },
    KeyRow { number: 12, table: "detect", name: "risk", kind: METRES, when: When::Always },
    KeyRow { number: 13, table: "detect", name: "clear", kind: METRES, when: When::Always },
    KeyRow { number: 14, table: "detect", name: "horizon", kind: Kind::Number(Range::TicksFromOneTo(7200)), when: When::Always },
    KeyRow { number: 15, table: "detect", name: "doubt", kind: Kind::Number(Range::FromTo(0, 1124)), when: When::Always },
    KeyRow { number: 16, table: "detect", name: "ahead", kind: Kind::Number(Range::FromTo(0, 900)), when: When::Always },
    KeyRow { number: 17, table: "detect", name: "reciprocal", kind: Kind::Number(Range::FromTo(0, 900)), when: When::Always },
    KeyRow { number: 18, table: "act", name: "steady_turn", kind: Kind::Number(Range::FromTo(0, 1800)), when: When::Always },
    KeyRow { number: 19, table: "act", name: "apparent_turn", kind: Kind::Number(Range::FromTo(1, 1800)), when: When::Always },
    KeyRow { number: 20, table: "act", name: "steady_speed", kind: Kind::Number(Range::FromTo(0, 1022)), when: When::Always },
    KeyRow { number: 21, table: "act", name: "apparent_speed", kind: Kind::Number(Range::FromTo(1, 1022)), when: When::Always },
    KeyRow { number: 22, table: "rules", name: "safe", kind: METRES, when: When::InVersionOne },
    KeyRow { number: 50, table: "rules", name: "safe_head_on", kind: METRES, when: When::InVersionTwo },
    KeyRow { number: 51, table: "rules", name: "safe_overtaking", kind: METRES, when: When::InVersionTwo },
    KeyRow { number: 52, table: "rules", name: "safe_crossing", kind: METRES, when: When::InVersionTwo },
    KeyRow { number: 53, table: "rules", name: "safe_other", kind: METRES, when: When::InVersionTwo },
    KeyRow { number: 23, table: "rules", name: "overtake", kind: METRES, when: When::Always },
    KeyRow { number: 24, table: "rules", name: "close", kind: METRES, when: When::Always },
    KeyRow { number: 25, table: "rules", name: "t8", kind: Kind::Number(Range::TicksTo(7200)), when: When::Always },
    KeyRow { number: 26, table: "rules", name: "ta", kind: Kind::Number(Range::TicksTo(7200)), when: When::Always },
    KeyRow { number: 27, table: "rules", name: "tl", kind: Kind::Number(Range::TicksTo(7200)), when: When::Always },
    KeyRow { number: 28, table: "rules", name: "tw", kind: Kind::Number(Range::TicksTo(7200)), when: When::Always },
    KeyRow { number: 29, table: "rules", name: "te", kind: Kind::Number(Range::TicksTo(7200)), when: When::Always },
    KeyRow { number: 55, table: "rules", name: "ranks", kind: Kind::Number(Range::Optional(0, 1, 0)), when: When::Always },
    KeyRow { number: 30, table: "", name: "subjects", kind: SHIPS, when: When::Always },
    KeyRow { number: 31, table: "", name: "formula", kind: Kind::Tables(5), when: When::Always },
];

/// The keys of each table of `formula`, and then the weight of all.
#[rattlefmt::skip]
const FORMULA_ROWS: [KeyRow; 3] = [
    KeyRow { number: 32, table: "", name: "formula.name", kind: Kind::FormulaName, when: When::Always },
    KeyRow { number: 33, table: "", name: "formula.text", kind: Kind::FormulaText, when: When::Always },
    KeyRow { number: 34, table: "", name: "formulas", kind: Kind::Formulas, when: When::Always },
];

/// The keys of own ship, and of the predicted changes of other vessels.
#[rattlefmt::skip]
const OWN_ROWS: [KeyRow; 16] = [
    KeyRow { number: 35, table: "own", name: "mmsi", kind: Kind::Number(Range::FromTo(200_000_000, 799_999_999)), when: When::ForOwnShip },
    KeyRow { number: 36, table: "own", name: "courses", kind: COURSES, when: When::ForOwnShip },
    KeyRow { number: 37, table: "own", name: "speeds", kind: SPEEDS, when: When::ForOwnShip },
    KeyRow { number: 38, table: "own", name: "legs", kind: Kind::Number(Range::FromTo(1, 8)), when: When::ForOwnShip },
    KeyRow { number: 39, table: "own", name: "leg_ticks", kind: Kind::Number(Range::FromTo(1, 7200)), when: When::ForOwnShip },
    KeyRow { number: 40, table: "own", name: "tail", kind: Kind::Number(Range::FromTo(0, 7200)), when: When::ForOwnShip },
    KeyRow { number: 41, table: "own", name: "base", kind: Kind::Number(Range::FromTo(0, 100_000)), when: When::ForOwnShip },
    KeyRow { number: 42, table: "own", name: "lengths", kind: Kind::Number(Range::FromTo(0, 100)), when: When::ForOwnShip },
    KeyRow { number: 43, table: "own", name: "range", kind: METRES, when: When::ForOwnShip },
    KeyRow { number: 44, table: "", name: "own", kind: Kind::Plans, when: When::ForOwnShip },
    KeyRow { number: 45, table: "", name: "predict", kind: Kind::Tables(64), when: When::ForOwnShip },
    KeyRow { number: 46, table: "", name: "predict.mmsi", kind: Kind::PredictedShip, when: When::ForOwnShip },
    KeyRow { number: 47, table: "", name: "predict.changes", kind: Kind::PredictedChanges, when: When::ForOwnShip },
    KeyRow { number: 48, table: "own", name: "turn_rate", kind: Kind::Number(Range::Optional(1, 1800, 1800)), when: When::ForOwnShip },
    KeyRow { number: 49, table: "own", name: "speed_rate", kind: Kind::Number(Range::Optional(1, 1022, 1022)), when: When::ForOwnShip },
    KeyRow { number: 54, table: "own", name: "shape", kind: Kind::Shape, when: When::ForOwnShip },
];

/// Returns the rows that are tested before those of formulas.
#[tactic(auto, unfolding(crate::specs::ScenarioKeys::first_rows))]
pub fn first_rows() -> &'static [KeyRow]
    ensures { map seen result.now ≡ first_rows }
{
    &FIRST_ROWS
}

#[tactic(auto, unfolding(crate::specs::ScenarioKeys::formula_rows))]
fn formula_rows() -> &'static [KeyRow]
    ensures { map seen result.now ≡ formula_rows }
{
    &FORMULA_ROWS
}

/// Returns the rows of own ship, which are tested after those of formulas.
#[tactic(auto, unfolding(crate::specs::ScenarioKeys::own_rows))]
pub fn own_rows() -> &'static [KeyRow]
    ensures { map seen result.now ≡ own_rows }
{
    &OWN_ROWS
}

fn find_row(rows: &[KeyRow], number: u8) -> Option<&KeyRow>
    ensures { option_map (λ row. row.now) result ≡ find (λ row. row.number == number) rows.now }
{
    rows.iter().find(|row| row.number == number)
}

/// Returns the row of a number, if the table has it.
pub(crate) fn row_of(number: u8) -> Option<&'static KeyRow>
    ensures { option_map (λ row. seen row.now) result ≡ find (λ row. row.number == number) rows }
{
    let of_formulas = find_row(formula_rows(), number);
    let of_own_ship = find_row(own_rows(), number);
    find_row(first_rows(), number)
        .or(of_formulas)
        .or(of_own_ship)
}
