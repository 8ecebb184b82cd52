//! The entries in the rows of a text.
ghost use Rattle.std.specs.Prelude.{◌≡◌, ◌+◌, ◌≤◌, ◌<◌, ◌^◌, length, IfOk, [], true};
ghost use Rattle.csv.specs.Records.{fields_of};
ghost use Rattle.refutation_check.specs.CheckedRows.{why_rows};
ghost use Rattle.refutation_check.specs.declared.checked_text.TheConstants.{GREATEST_TEXT};
ghost use Rattle.refutation_check.specs.Inner.ReadRows.{AreRead, IsReadSoFar, ReadsPlainly, TakesRow};

use crate::text_rows::{is_why, read_row};
use csv::{ByteRecord, Reader, ReaderBuilder};
use out_of_memory::Memory;
use plan_situations::Situation;
use refutations::{WhyEntry, read_entry};
use std::alloc::Global;

/// The entries of the rows `why` of a text: of all rows, or up to the first row without an entry.
#[derive(Drop)]
pub(crate) struct EntriesRead {
    pub(crate) entries: Vec<WhyEntry>,
    pub(crate) all: bool,
}

/// Adds the entry of a row `why`, and skips a row of another kind. Returns `false` if a row `why` has no entry.
fn take_row(
    alloc: Global,
    situation: &Situation,
    row: &ByteRecord,
    entries: &mut Vec<WhyEntry>,
) -> Result<bool, Memory>
    ensures { IfOk result
        (λ taken. TakesRow situation.now
        (fields_of row.now) entries.old.items entries.new.items taken) }
{
    if !is_why(row) {
        return Ok(true);
    }
    let Some(entry) = read_entry(alloc, situation, row) else {
        return Ok(false);
    };
    entries.push(entry)?;
    Ok(true)
}

/// Takes the rows of a reader, up to the first row `why` without an entry. A text has at most as many rows as bytes,
/// and one more iteration finds its end.
fn take_rows(
    alloc: Global,
    situation: &Situation,
    text: &[u8],
    reader: &mut Reader<&[u8]>,
    row: &mut ByteRecord,
    read: &mut EntriesRead,
) -> Result<(), Memory>
    requires text { length text.now ≤ GREATEST_TEXT }
    requires plain { ReadsPlainly reader.old }
    requires none { read.old.entries.items ≡ [] }
    requires all { read.old.all ≡ true }
    requires so_far { IsReadSoFar situation.now text.now reader.old
        (length text.now + 1) read.old.entries.items }
    ensures read { IfOk result
        (λ _. AreRead situation.now (why_rows text.now) read.new.entries.items read.new.all) }
    ensures few { IfOk result (λ _. length read.new.entries.items < 2 ^ 31) }
{
    for _turn in 0..text.len() + 1 {
        if !read_row(reader, row)? {
            return Ok(());
        }
        if !take_row(alloc, situation, row, &mut read.entries)? {
            read.all = false;
            return Ok(());
        }
    }
    Ok(())
}

/// Reads the entries of a text.
pub(crate) fn read_entries(
    alloc: Global,
    situation: &Situation,
    text: &[u8],
) -> Result<EntriesRead, Memory>
    requires { length text.now ≤ GREATEST_TEXT }
    ensures read { IfOk result
        (λ read. AreRead situation.now (why_rows text.now) read.entries.items read.all) }
    ensures few { IfOk result (λ read. length read.entries.items < 2 ^ 31) }
{
    let mut reader = ReaderBuilder::new()
        .has_headers(false)
        .flexible(true)
        .from_reader(alloc, text);
    let mut row = ByteRecord::new(alloc);
    let mut read = EntriesRead {
        entries: Vec::new(alloc),
        all: true,
    };
    match take_rows(alloc, situation, text, &mut reader, &mut row, &mut read) {
        Ok(()) => Ok(read),
        Err(fault) => {
            drop(read);
            Err(fault)
        }
    }
}
