//! The names of keys.
ghost use Rattle.std.specs.Prelude.{Some};
ghost use Rattle.scenario_keys.specs.ScenarioTexts.{key_text};

use crate::rows::{has_items, row_of};
use std::fmt;

/// A key of a scenario, by its row in the table of keys.
///
/// It prints as its name in the table, such as `log.gap`, with the item if it is a list, such as `subjects[3]`, and as
/// nothing if the table has no such row.
#[derive(Clone, Copy, Debug, PartialEq, Eq)]
pub struct Key {
    pub row: u8,
    /// An item of the key's list, counted from 0; 0 if the key has none, and 65,535 for an item beyond that.
    pub item: u16,
}

impl fmt::Display for Key {
    ghost output = { λ key. Some (key_text key) };

    fn fmt<W: fmt::Write>(&self, f: &mut fmt::Formatter<W>) -> fmt::Result {
        match row_of(self.row) {
            Some(row) => {
                if !row.table.is_empty() {
                    f.write_str(row.table)?;
                    f.write_str(".")?;
                }
                f.write_str(row.name)?;
                if has_items(row.kind) {
                    write!(f, "[{}]", self.item)?;
                }
                Ok(())
            }
            None => Ok(()),
        }
    }
}
