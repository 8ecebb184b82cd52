//! A formula as a separate program, for states that pass rows beyond the last one.
ghost use Rattle.std.specs.Prelude.{◌≡◌, ◌≤◌};
ghost use Rattle.mtl_monitor.specs.Following.{count_of};

use mtl_formulas::{Formula, future_reach};
use mtl_monitor::Program;
use out_of_memory::Memory;
use std::alloc::Global;

/// A formula as a separate program. The state of one trace is a `PassState`.
#[derive(Drop)]
pub(crate) struct PassProgram {
    pub(crate) program: Program,
    pub(crate) reach: u32,
    ghost one: { count_of program ≡ 1 },
    ghost small: { reach ≤ 7200 },
}

impl PassProgram {
    ghost use Rattle.std.specs.Prelude.{IfOk};
    ghost use Rattle.mtl_formulas.specs.FormulaTree.{tree_of};
    ghost use Rattle.mtl_formulas.specs.FormulaMeasures.{IsValid};
    ghost use Rattle.early_monitor.specs.Inner.Passing.{IsPassProgramOf};

    /// Returns the program of a formula.
    pub(crate) fn of(alloc: Global, formula: &Formula) -> Result<PassProgram, Memory>
        requires { IsValid (tree_of formula.now) }
        ensures { IfOk result (λ p. IsPassProgramOf p (tree_of formula.now)) }
    {
        let program = Program::new(alloc).with(formula)?;
        let reach = future_reach(formula);
        Ok(PassProgram { program, reach })
    }
}
