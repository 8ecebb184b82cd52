//! What makes it necessary to pass a node.
ghost use Rattle.std.specs.Prelude.{OnOk};
ghost use Rattle.mtl_monitor.specs.Inner.Standing.{AllOperands};
ghost use Rattle.mtl_monitor.specs.Inner.Marks.{IsMarked};
ghost use Rattle.mtl_monitor.specs.Inner.Triggers.{IsTrigger, AreTriggers};

use crate::marks::marked;
use crate::node::{Operator, ProgramNode};
use crate::starting::pushed;
use out_of_memory::Memory;

/// The marks of a node's operands, and how late the node is: small and in one list, since all are checked if a row passes.
#[derive(Clone, Copy)]
pub(crate) struct Trigger {
    pub operands: u64,
    pub late: u32,
}

fn marks_of(operator: Operator) -> u64
    ensures { AllOperands (IsMarked result) operator }
{
    match operator {
        Operator::Atom(_) => 0,
        Operator::Not(a) | Operator::Late(_, _, a) | Operator::Window(_, _, _, a) => marked(0, a),
        Operator::Pair(_, a, b) | Operator::Since(_, _, _, a, b) => marked(marked(0, a), b),
        Operator::Until(_, _, _, a, behind, b) => marked(marked(marked(0, a), behind), b),
    }
}

fn trigger_of(node: &ProgramNode) -> Trigger
    ensures { IsTrigger node.now result }
{
    Trigger {
        operands: marks_of(node.operator),
        late: node.late,
    }
}

/// Lists what makes it necessary to pass each node.
pub(crate) fn list_triggers(
    nodes: &[ProgramNode],
    triggers: &mut Vec<Trigger>,
) -> Result<(), Memory>
    ensures { OnOk result (AreTriggers nodes.now triggers.new.items) }
{
    triggers.clear();
    for node in nodes {
        pushed(triggers, trigger_of(node))?;
    }
    Ok(())
}
