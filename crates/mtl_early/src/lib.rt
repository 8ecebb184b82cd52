//! Early answers of formulas of metric temporal logic (Koymans 1990) by sweeps: the rows of a trace are fed one by one, and each
//! position's value comes at the first row with which it is Yes or No.
//!
//! Each operator that looks ahead keeps its values at the last positions, the last one first. A row writes them again, from the last
//! position back, over no more positions than may still be decided. What looks no position ahead is left to a monitor's program.
//! At a tick of 10 seconds `F[0,20] risk` has the values Open, Open over two rows without risk. A third row with risk makes them
//! Yes, Yes, Yes: it decides the positions 0, 1 and 2. With a fourth row without risk there is one value to write: Open, of position 3.
//! Out of scope: whose formula it is, and what is made of an answer.
#![tactic(auto)]

mod adding;
mod building;
mod sweep_program;
mod sweep_state;
mod sweeper;
mod sweeping;
mod zone;

pub use sweep_program::SweepProgram;
pub use sweep_state::SweepState;
