//! The result of a message.
use fixed_geometry::Point;
use out_of_memory::Memory;
use std::error::Error;
use std::fmt;

/// Why a position report is not accepted; the first cause that applies counts.
#[derive(Clone, Copy, Debug, PartialEq, Eq)]
pub enum ReportCause {
    /// It has no place.
    NoPos,
    /// Its place is not in the region.
    Far,
    /// Its time is not after that of the vessel's latest accepted report.
    Back,
    /// It equals the latest accepted one in every field, and is at most 30 seconds later.
    Repeat,
    /// The vessel would have moved faster than the greatest speed since the latest accepted one, at most the gap before.
    Jump,
}

/// The result of a message.
#[derive(Clone, Copy, Debug, PartialEq, Eq)]
pub enum Entry {
    /// Its position report is accepted, at this point of the plane.
    Point(Point),
    /// It is only a static report.
    Static,
    /// Its position report is dropped; its static part, if any, is still stored.
    Dropped(ReportCause),
}

/// Why the book could not take a message.
#[derive(Clone, Copy, Debug, PartialEq, Eq)]
pub enum BookFault {
    /// The book already has [`MOST_VESSELS`](crate::MOST_VESSELS), and the message would add another one.
    TooManyVessels,
    /// Memory ran out.
    Memory,
}

impl fmt::Display for BookFault {
    ghost use Rattle.std.specs.Prelude.{Some};
    ghost use Rattle.tracks.specs.FaultTexts.{book_fault_text};

    ghost output = { λ fault. Some (book_fault_text fault) };

    fn fmt<W: fmt::Write>(&self, f: &mut fmt::Formatter<W>) -> fmt::Result {
        f.write_str(match self {
            BookFault::TooManyVessels => "too many vessels",
            BookFault::Memory => "out of memory",
        })
    }
}

impl Error for BookFault {}

impl From<Memory> for BookFault {
    ghost use Rattle.std.specs.Prelude.{◌≡◌};
    ghost use Rattle.tracks.specs.declared.entry.BookFault.TheVariants as fault;

    ghost from_gives = { λ _ f. f ≡ fault.Memory };

    fn from(_: Memory) -> BookFault {
        BookFault::Memory
    }
}
