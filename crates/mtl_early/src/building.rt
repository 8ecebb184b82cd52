//! The nodes of a formula as they are built.
ghost use Rattle.std.specs.Prelude.{◌*◌, ◌≤◌, length};
ghost use Rattle.mtl_monitor.specs.Following.{count_of};
ghost use Rattle.mtl_early.specs.Inner.Nodes.{AllFit, AllFit-prop, AreLaidOut, AreLaidOut-prop};

use crate::sweeper::SweepNode;
use mtl_monitor::Program;

/// The nodes so far, and the program of those formulas among them that look no position ahead.
#[derive(Drop)]
pub(crate) struct Building {
    pub(crate) program: Program,
    pub(crate) nodes: Vec<SweepNode>,
    /// How many cells each node has.
    pub(crate) stride: usize,
    ghost fit: { AllFit (count_of program) nodes.items } by { AllFit-prop (count_of program) nodes.items },
    ghost laid_out: { AreLaidOut nodes.items stride (length nodes.items * stride) } by { AreLaidOut-prop nodes.items stride (length nodes.items * stride) },
    ghost short: { stride ≤ 7201 },
}
