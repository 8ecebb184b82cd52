//! The nodes of a program that keep something between rows.
ghost use Rattle.std.specs.Prelude.{◌≡◌, OnOk};
ghost use Rattle.mtl_monitor.specs.Inner.Keeping.{is_keeping, keepers_of};

use crate::node::{Operator, ProgramNode};
use crate::starting::pushed;
use out_of_memory::Memory;

fn is_keeping(operator: Operator) -> bool
    ensures { result ≡ is_keeping operator }
{
    match operator {
        Operator::Late(_, _, _)
        | Operator::Window(_, _, _, _)
        | Operator::Since(_, _, _, _, _)
        | Operator::Until(_, _, _, _, _, _) => true,
        Operator::Atom(_) | Operator::Not(_) | Operator::Pair(_, _, _) => false,
    }
}

/// Lists the indices of the nodes that keep something, in order.
pub(crate) fn list_keepers(nodes: &[ProgramNode], keepers: &mut Vec<usize>) -> Result<(), Memory>
    ensures { OnOk result (keepers.new.items ≡ keepers_of nodes.now) }
{
    keepers.clear();
    for index in 0..nodes.len() {
        if is_keeping(nodes[index].operator) {
            pushed(keepers, index)?;
        }
    }
    Ok(())
}
