//! The rows of a text in memory, one after the other.
ghost use Rattle.std.specs.Prelude.{ℕ, ◌≡◌, ◌+◌, List, IfOk};
ghost use Rattle.report_csv.specs.CsvRows.{Fields};
ghost use Rattle.csv.specs.Records.{fields_of};
ghost use Rattle.refutation_check.specs.CheckedRows.{is_why};
ghost use Rattle.refutation_check.specs.Inner.ReadRows.{Gives, ReadsPlainly, Turned};

use csv::{ByteRecord, ErrorKind, Reader};
use out_of_memory::Memory;

/// Reads the next row, and returns whether there is one. A read fails only if memory runs out: no error of text, of lengths or of values can
/// occur, and
/// bytes in memory are always available. `csv` does not promise this last fact, so its error of a failed reader is returned as out of memory.
pub(crate) fn read_row(reader: &mut Reader<&[u8]>, row: &mut ByteRecord) -> Result<bool, Memory>
    requires { ReadsPlainly reader.old }
    ensures plain { IfOk result (λ found. ReadsPlainly reader.new) }
    ensures turned { IfOk result
        (λ found. (turns : ℕ) (rows : List Fields) → Gives reader.old (turns + 1) rows
        → Turned found reader.new turns rows (fields_of row.new)) }
{
    match reader.read_byte_record(row) {
        Ok(found) => Ok(found),
        Err(error) => match error.into_kind() {
            ErrorKind::OutOfMemory | ErrorKind::Io(_) => Err(Memory),
            _ => unreachable!(),
        },
    }
}

/// Returns whether a row's first field is `why`.
pub(crate) fn is_why(row: &ByteRecord) -> bool
    ensures { result ≡ is_why (fields_of row.now) }
{
    match row.get(0) {
        Some(kind) => kind == b"why".as_slice(),
        None => false,
    }
}
