//! Whether two nodes are equal.
ghost use Rattle.std.specs.Prelude.{◌≡◌};
ghost use Rattle.mtl_monitor.specs.Inner.Compiling.{same_operator, same_node};

use crate::node::{Operator, ProgramNode};

impl ProgramNode {
    pub(crate) fn is_same(&self, other: &ProgramNode) -> bool
        ensures { result ≡ same_node self.now other.now }
    {
        self.late == other.late && is_same_operator(self.operator, other.operator)
    }
}

fn is_same_operator(operator: Operator, other: Operator) -> bool
    ensures { result ≡ same_operator operator other }
{
    match (operator, other) {
        (Operator::Atom(a), Operator::Atom(b)) => a == b,
        (Operator::Not(a), Operator::Not(b)) => a == b,
        (Operator::Pair(kind, a, b), Operator::Pair(other, c, d)) => {
            kind == other && (a == c && b == d)
        }
        (Operator::Late(cells, from, a), Operator::Late(others, start, b)) => {
            cells == others && (from == start && a == b)
        }
        (Operator::Window(kind, width, from, a), Operator::Window(other, breadth, start, b)) => {
            kind == other && (width == breadth && (from == start && a == b))
        }
        (Operator::Since(width, lower, from, a, b), Operator::Since(breadth, least, start, c, d)) =>
            (width == breadth && lower == least) && (from == start && (a == c && b == d)),
        (
            Operator::Until(from, full, lower, a, behind, b),
            Operator::Until(start, whole, least, c, beyond, d),
        ) => {
            (from == start && (full == whole && lower == least))
                && (a == c && (behind == beyond && b == d))
        }
        _ => false,
    }
}
