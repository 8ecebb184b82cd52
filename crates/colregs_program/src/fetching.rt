//! The text of a file, from the shelf.
ghost use Rattle.std.specs.Prelude.{◌≡◌};
ghost use Rattle.outside.specs.Causes.{one_more};
ghost use Rattle.outside.specs.Shelves.{FetchCause, Fetches};
ghost use Rattle.colregs_program.specs.Inner.Fetching.{fetched_of};

use outside::{Fetched, Shelf, Word};
use std::alloc::Global;

/// Why there is no text of a file.
#[derive(Clone, Copy, PartialEq, Eq)]
pub(crate) enum FetchFault {
    /// The shelf failed, or has nothing under the name.
    NotHad,
    /// It is longer than the limit.
    TooLong,
    Memory,
}

/// Returns the text under the name, if it has at most `limit` bytes.
pub(crate) fn fetch_text<H: Shelf>(
    alloc: Global,
    name: &Word,
    limit: u64,
    shelf: &mut H,
) -> Result<Vec<u8>, FetchFault>
    ensures content { Fetches (H.files shelf.old) name.now limit (fetched_of result) }
    ensures cause { FetchCause (H.files shelf.old) name.now (H.faults shelf.old)
        (H.faults shelf.new) (fetched_of result) }
    ensures same { H.files shelf.new ≡ H.files shelf.old }
    ensures counted { H.fetches shelf.new ≡ one_more (H.fetches shelf.old) }
{
    match shelf.fetch(alloc, name, limit) {
        Fetched::Bytes(text) => Ok(text),
        Fetched::TooLong => Err(FetchFault::TooLong),
        Fetched::Failed => Err(FetchFault::NotHad),
        Fetched::Memory => Err(FetchFault::Memory),
    }
}
