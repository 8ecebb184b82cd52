//! The program as a library for callers in C: a scenario and a log in memory in, the report of one mode out.
//!
//! `colregs_report` calls `run` of the crate `colregs_program` over bytes in memory. No file, pipe or device is involved, so each premise of
//! `run`'s clauses holds, and the contract says which bytes are in the caller's room. `include/colregs.h` declares both functions for C.
#![tactic(auto)]

ghost use Rattle.std.specs.Prelude.{◌≡◌, MatchOption};
ghost use Rattle.colregs_c.specs.Arguments.{asked_mode};
ghost use Rattle.colregs_c.specs.Calls.{Leaves, Left, Refuses, call_of};
ghost use Rattle.colregs_c.specs.Rooms.{Fills};

mod arguments;
mod devices;
pub mod laws;
mod numbers;
mod running;

use crate::running::end_of_call;
use colregs_program::Status;
pub use numbers::{OWN_START, OWN_TICKS, OptionNumbers};
use out_of_memory::Memory;
use std::alloc::Global;

/// The line where there is no memory, which takes none.
const MEMORY_LINE: &[u8] = b"memory\n";

/// Returns the number of this interface, which rises when a function changes.
#[unsafe(no_mangle)]
pub extern "C" fn colregs_interface() -> u32
    ensures { result ≡ 1 }
{
    1
}

/// Copies as many of the first bytes of the text as the room holds, and writes the text's length.
fn fill(room: &mut [u8], length: &mut usize, text: &[u8])
    ensures { Fills room.old room.new length.new text.now }
{
    *length = text.len();
    let count = text.len().min(room.len());
    room[..count].copy_from_slice(&text[..count]);
}

/// Writes the report of a mode on a log to `out`, and returns the program's exit status.
///
/// The mode is its number in the order `points`, `audit`, `plan`, `drill`, `migrate`, `recheck`, `watch`, from 0. `rows` are the rows that `recheck` checks. `out` gets
/// the first bytes of the report, as many as fit, and `length` the report's length; `fault` and `fault_length` get the line of standard error in the same way. If memory runs
/// out, the status is 8 and the report is empty.
#[unsafe(no_mangle)]
pub extern "C" fn colregs_report(
    alloc: Global,
    mode: u32,
    scenario: &[u8],
    log: &[u8],
    rows: &[u8],
    options: &OptionNumbers,
    out: &mut [u8],
    length: &mut usize,
    fault: &mut [u8],
    fault_length: &mut usize,
) -> u8
    ensures { let left : Left = record {
      result = result;
      room = out.old;
      room' = out.new;
      length = length.new;
      line_room = fault.old;
      line_room' = fault.new;
      line_length = fault_length.new;
    } in MatchOption (asked_mode mode options.now) (Refuses left)
        (λ asked. Leaves (call_of asked options.now scenario.now log.now rows.now) left) }
{
    match end_of_call(alloc, mode, options, scenario, log, rows) {
        Ok(end) => {
            fill(out, length, end.report.as_slice());
            fill(fault, fault_length, end.line.as_slice());
            end.status.number()
        }
        Err(Memory) => {
            fill(out, length, b"");
            fill(fault, fault_length, MEMORY_LINE);
            Status::Memory.number()
        }
    }
}
