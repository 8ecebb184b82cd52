//! The line on standard error that names a fault.
ghost use Rattle.std.specs.Prelude.{◌≡◌, ◌⊎◌, IsTrue};
ghost use Rattle.colregs_program.specs.FaultLines.{fault_line, is_made};
ghost use Rattle.colregs_program.specs.Told.{Gains};

use crate::fault_line::FaultLine;
use crate::status::Status;
use outside::{Sink, put_all};
use std::alloc::Global;

/// Writes a line to standard error, which may fail to show it.
fn put_line<E: Sink>(err: &mut E, line: &[u8])
    ensures { Gains (record { bytes = E.contents err.old; faults = E.faults err.old })
        (record { bytes = E.contents err.new; faults = E.faults err.new }) line.now }
{
    let _ = put_all(err, line);
}

/// Writes the line of a fault to standard error. If there is no memory for the line, that is the fault.
pub(crate) fn tell<E: Sink>(alloc: Global, status: Status, err: &mut E) -> Status
    ensures same { (result ≡ status) ⊎ ((result ≡ Status.Memory) × IsTrue (is_made status)) }
    ensures line { Gains (record { bytes = E.contents err.old; faults = E.faults err.old })
        (record { bytes = E.contents err.new; faults = E.faults err.new }) (fault_line result) }
{
    match FaultLine::of(alloc, &status) {
        Ok(line) => {
            put_line(err, line.as_bytes());
            status
        }
        Err(_) => {
            put_line(err, b"memory\n");
            Status::Memory
        }
    }
}
