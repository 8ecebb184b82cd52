//! Reading a source to its end.
ghost use Rattle.std.specs.Prelude.{◌≡◌, ◌≤◌, ◌<◌, ◌+◌, length, IfOk, IfErr, MatchResult, OnOk, IsErrOf, true, false, vec_len};
ghost use Rattle.std.specs.Io.KnownBytes.{Consumes, IsAtEnd, Keeps};
ghost use Rattle.outside.specs.Inner.OneRead.{Adds};
ghost use Rattle.outside.specs.WholeReading.{Exceeds, ReadCount, StopsAt};

use crate::source::{Source, Taken};
use std::alloc::{AllocError, Global};
use std::error::Error;
use std::fmt;

/// Why a source was not read to its end.
#[derive(Clone, Copy, Debug, PartialEq, Eq)]
pub enum ReadFault {
    /// A read failed.
    Failed,
    /// There are more bytes than the limit.
    TooLong,
    /// Memory ran out.
    Memory,
}

impl fmt::Display for ReadFault {
    ghost use Rattle.std.specs.Prelude.{Some};
    ghost use Rattle.outside.specs.FaultTexts.{read_fault_text};

    ghost output = { λ fault. Some (read_fault_text fault) };

    fn fmt<W: fmt::Write>(&self, f: &mut fmt::Formatter<W>) -> fmt::Result {
        f.write_str(match self {
            ReadFault::Failed => "a read failed",
            ReadFault::TooLong => "too long",
            ReadFault::Memory => "out of memory",
        })
    }
}

impl Error for ReadFault {}

impl From<AllocError> for ReadFault {
    ghost use Rattle.std.specs.Prelude.{◌≡◌};
    ghost use Rattle.outside.specs.declared.whole.ReadFault.TheVariants.{Memory};

    ghost from_gives = { λ _ e. e ≡ Memory };

    fn from(_: AllocError) -> ReadFault {
        ReadFault::Memory
    }
}

/// The most bytes of a read.
const BLOCK: usize = 65536;

/// Returns a block of zeros. Its length is an argument, so that no proof lists its bytes.
fn zeros(alloc: Global, count: usize) -> Result<Vec<u8>, AllocError>
    ensures { IfOk result (λ v. vec_len v ≡ count) }
{
    vec![in alloc; 0u8; count]
}

/// Reads once, at most the size of the room; returns whether there may be more.
fn read_more<S: Source>(
    source: &mut S,
    room: &mut [u8],
    bytes: &mut Vec<u8>,
    limit: u64,
) -> Result<bool, ReadFault>
    requires some_room { 0 < length room.old }
    requires little_room { length bytes.old.items + length room.old ≤ limit + 1 }
    requires short { length bytes.old.items ≤ limit }
    ensures more { result ≡ Ok true
        → Adds (S.left source.old) (S.left source.new) bytes.old.items bytes.new.items }
    ensures end { result ≡ Ok false
        → Keeps (S.left source.old) (S.left source.new) × IsAtEnd (S.left source.new) }
    ensures same { result ≡ Ok false → bytes.new.items ≡ bytes.old.items }
    ensures short { length bytes.new.items ≤ limit }
    ensures stops { IfErr result
        (StopsAt limit (length bytes.old.items) (S.left source.old) (S.left source.new)) }
    ensures count { MatchResult result (λ _. S.faults source.new ≡ S.faults source.old)
        (ReadCount (S.faults source.old) (S.faults source.new)) }
{
    match source.read(room) {
        Taken::Got(count) => {
            if count as u64 > limit - bytes.len() as u64 {
                return Err(ReadFault::TooLong);
            }
            bytes.extend_from_slice(&room[..count])?;
            Ok(true)
        }
        Taken::End => Ok(false),
        Taken::Failed => Err(ReadFault::Failed),
    }
}

/// Reads once, up to the byte after the limit; returns whether there may be more.
fn read_block<S: Source>(
    source: &mut S,
    block: &mut [u8],
    bytes: &mut Vec<u8>,
    limit: u64,
) -> Result<bool, ReadFault>
    requires some_room { 0 < length block.old }
    requires short { length bytes.old.items ≤ limit }
    ensures more { result ≡ Ok true
        → Adds (S.left source.old) (S.left source.new) bytes.old.items bytes.new.items }
    ensures end { result ≡ Ok false
        → Keeps (S.left source.old) (S.left source.new) × IsAtEnd (S.left source.new) }
    ensures same { result ≡ Ok false → bytes.new.items ≡ bytes.old.items }
    ensures short { length bytes.new.items ≤ limit }
    ensures stops { IfErr result
        (StopsAt limit (length bytes.old.items) (S.left source.old) (S.left source.new)) }
    ensures count { MatchResult result (λ _. S.faults source.new ≡ S.faults source.old)
        (ReadCount (S.faults source.old) (S.faults source.new)) }
{
    let most = (limit - bytes.len() as u64).saturating_add(1);
    let room = block.len().min(most as usize);
    read_more(source, &mut block[..room], bytes, limit)
}

/// Returns the rest of the source if it is within the limit. If it is longer, reads up to the byte after the limit.
pub fn read_whole<S: Source>(
    alloc: Global,
    source: &mut S,
    limit: u64,
) -> Result<Vec<u8>, ReadFault>
    ensures all { IfOk result (λ v. Consumes (S.left source.old) (S.left source.new) v.items) }
    ensures end { OnOk result (IsAtEnd (S.left source.new)) }
    ensures limit { IfOk result (λ v. length v.items ≤ limit) }
    ensures stops { IfErr result (StopsAt limit 0 (S.left source.old) (S.left source.new)) }
    ensures too_long { IsErrOf result ReadFault.TooLong → Exceeds limit (S.left source.old) 0 }
    ensures count { MatchResult result (λ _. S.faults source.new ≡ S.faults source.old)
        (ReadCount (S.faults source.old) (S.faults source.new)) }
{
    let mut block = zeros(alloc, BLOCK)?;
    let mut bytes = Vec::new(alloc);
    while read_block(source, block.as_mut_slice(), &mut bytes, limit)? {}
    Ok(bytes)
}
