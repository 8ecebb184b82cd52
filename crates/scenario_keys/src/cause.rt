//! The causes of faults.
ghost use Rattle.std.specs.Prelude.{Some};
ghost use Rattle.scenario_keys.specs.ScenarioTexts.{cause_text};

use std::fmt;

/// Why a key of a scenario is refused. For each key the causes are tested in this order.
#[derive(Clone, Copy, Debug, PartialEq, Eq)]
pub enum Cause {
    /// The scenario is not a TOML document.
    NotToml,
    /// The key, or its table, is missing.
    Missing,
    /// Its value has the wrong type.
    Type_,
    /// The value is out of the key's range.
    Range,
    /// The value is not a multiple of the tick.
    Multiple,
    /// The text is not a formula; the index of its fault.
    Formula(u16),
    /// A product of several keys is too large.
    Product,
}

impl fmt::Display for Cause {
    ghost output = { λ cause. Some (cause_text cause) };

    fn fmt<W: fmt::Write>(&self, f: &mut fmt::Formatter<W>) -> fmt::Result {
        match self {
            Cause::NotToml => f.write_str("not toml"),
            Cause::Missing => f.write_str("missing"),
            Cause::Type_ => f.write_str("type"),
            Cause::Range => f.write_str("range"),
            Cause::Multiple => f.write_str("multiple"),
            Cause::Formula(place) => write!(f, "formula at {place}"),
            Cause::Product => f.write_str("product"),
        }
    }
}
