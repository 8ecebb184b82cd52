//! The rows of entries as text.
ghost use Rattle.std.specs.Prelude.{◌≡◌, IfOk};
ghost use Rattle.refutations.specs.EntryRows.{choices_text, entry_text};
ghost use Rattle.refutations.specs.RightLists.{KnowsRule};

use crate::entry::{Reason, WhyEntry};
use csv::{Writer, WriterBuilder};
use itoa::Buffer;
use out_of_memory::Memory;
use plan_situations::Situation;
use report_csv::digits;
use std::alloc::Global;

/// Returns the choices with a point between each two.
fn choices_text(alloc: Global, choices: &[u16]) -> Result<Vec<u8>, Memory>
    ensures { IfOk result (λ text. text.items ≡ choices_text choices.now) }
{
    let mut text = Vec::new(alloc);
    for k in 0..choices.len() {
        if 0 < k {
            text.push(b'.')?;
        }
        let mut buffer = Buffer::new();
        text.extend_from_slice(digits(&mut buffer, u64::from(choices[k])))?;
    }
    Ok(text)
}

/// The text of the rows of entries that were written so far. One writer takes all rows of a list.
#[derive(Drop)]
pub struct EntryRows {
    writer: Writer<Vec<u8>>,
}

impl EntryRows {
    ghost use Rattle.std.specs.Prelude.{◌++◌, List, [], ℕ, OnOk, map};
    ghost use Rattle.report_csv.specs.CsvRows.{row_of};
    ghost use Rattle.refutations.specs.EntryTexts.{HasRows};

    /// Returns the text of no rows. This takes no memory.
    pub fn new(alloc: Global) -> EntryRows
        ensures { HasRows result [] }
    {
        EntryRows {
            writer: WriterBuilder::new().from_writer(Vec::new(alloc)),
        }
    }

    #[tactic(auto, unfolding(report_csv::specs::CsvRows::row_of))]
    fn write_fields(&mut self, fields: &[&[u8]]) -> Result<(), Memory>
        ensures { OnOk result ((text : List ℕ) → HasRows self.old text
            → HasRows self.new (text ++ row_of (map (λ field. field.now) fields.now))) }
    {
        match self.writer.write_fields(fields) {
            Ok(()) => Ok(()),
            Err(_) => Err(Memory),
        }
    }

    /// Writes an entry's row, as CSV with a line feed: `why`, the choices of its prefix, its target, the reason and the step, and the moment of a
    /// domain. If memory runs out, the text may only be dropped.
    pub fn write(
        &mut self,
        alloc: Global,
        situation: &Situation,
        entry: &WhyEntry,
    ) -> Result<(), Memory>
        requires { KnowsRule situation.now entry.now.reason }
        ensures { OnOk result ((text : List ℕ) → HasRows self.old text
            → HasRows self.new (text ++ entry_text situation.now entry.now)) }
    {
        let choices = choices_text(alloc, entry.prefix.choices())?;
        let mut mmsi = Buffer::new();
        let target = digits(&mut mmsi, u64::from(entry.target));
        let mut tick = Buffer::new();
        let mut a = Buffer::new();
        let mut b = Buffer::new();
        match entry.reason {
            Reason::Domain { step, moment } => self.write_fields(&[
                b"why",
                &choices,
                target,
                b"domain",
                digits(&mut tick, u64::from(step)),
                digits(&mut a, moment.a),
                digits(&mut b, moment.b),
            ]),
            Reason::Rule { index, step } => self.write_fields(&[
                b"why",
                &choices,
                target,
                situation.rules.name(index as usize),
                digits(&mut tick, u64::from(step)),
                b"",
                b"",
            ]),
        }
    }

    /// Returns the text of all rows.
    pub fn into_bytes(self) -> Result<Vec<u8>, Memory>
        ensures { IfOk result (λ bytes. (text : List ℕ) → HasRows self text → bytes.items ≡ text) }
    {
        match self.writer.into_inner() {
            Ok(text) => Ok(text),
            Err(_) => Err(Memory),
        }
    }
}
