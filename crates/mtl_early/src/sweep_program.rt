//! A formula as nodes that sweeps compute.
ghost use Rattle.std.specs.Prelude.{◌≡◌, ◌+◌, ◌*◌, ◌≤◌, ◌<◌, length};
ghost use Rattle.mtl_monitor.specs.Following.{count_of};
ghost use Rattle.mtl_early.specs.Inner.Nodes.{AllFit, AllFit-prop, AreLaidOut, AreLaidOut-prop};

use crate::adding::add;
use crate::building::Building;
use crate::sweeper::SweepNode;
use mtl_formulas::{Formula, future_reach};
use mtl_monitor::Program;
use out_of_memory::Memory;
use std::alloc::Global;

/// A formula in which no operator looks back at a part that looks ahead. What is known of one trace is a `SweepState` beside it, so
/// one program serves many traces.
#[derive(Drop)]
pub struct SweepProgram {
    /// Its parts that look no position ahead.
    pub(crate) program: Program,
    /// Operands before operators: the formula itself is the last.
    pub(crate) nodes: Vec<SweepNode>,
    pub(crate) reach: u32,
    ghost fit: { AllFit (count_of program) nodes.items } by { AllFit-prop (count_of program) nodes.items },
    ghost laid_out: { AreLaidOut nodes.items (reach + 1) (length nodes.items * (reach + 1)) } by { AreLaidOut-prop nodes.items (reach + 1) (length nodes.items * (reach + 1)) },
    ghost some: { 0 < length nodes.items },
    ghost few: { length nodes.items ≤ 256 },
    ghost reach_small: { reach ≤ 7200 },
}

impl SweepProgram {
    ghost use Rattle.std.specs.Prelude.{IfOk, IfSome, None};
    ghost use Rattle.mtl_formulas.specs.FormulaTree.{tree_of};
    ghost use Rattle.mtl_formulas.specs.FormulaMeasures.{IsValid};
    ghost use Rattle.mtl_early.specs.Standing.{IsSweepProgramOf};
    ghost use Rattle.mtl_early.specs.Sweepable.{IsSweepable};

    /// Returns the program of a formula. `None` where O, H or S in it has an operand that looks ahead.
    pub fn of(alloc: Global, formula: &Formula) -> Result<Option<SweepProgram>, Memory>
        requires { IsValid (tree_of formula.now) }
        ensures program { IfOk result
            (λ program. IfSome program (λ p. IsSweepProgramOf p (tree_of formula.now))) }
        ensures sweepable { IfOk result
            (λ program. IfSome program (λ p. IsSweepable (tree_of formula.now))) }
        ensures none { IfOk result
            (λ program. program ≡ None → ¬ IsSweepable (tree_of formula.now)) }
    {
        let reach = future_reach(formula);
        let building = Building {
            program: Program::new(alloc),
            nodes: Vec::new(alloc),
            stride: reach as usize + 1,
        };
        let Some(built) = add(building, formula)? else {
            return Ok(None);
        };
        let Building { program, nodes, .. } = built;
        Ok(Some(SweepProgram {
            program,
            nodes,
            reach,
        }))
    }

    /// How many cells the values of all nodes take.
    pub(crate) fn cell_count(&self) -> usize
        ensures { result ≡ length self.now.nodes.items * (self.now.reach + 1) }
    {
        self.nodes.len() * (self.reach as usize + 1)
    }
}
