//! What nodes keep before the first row.
ghost use Rattle.std.specs.Prelude.{◌≡◌, ◌++◌, ◌∷◌, [], IfOk};
ghost use Rattle.mtl_monitor.specs.Inner.Starting.{IsFresh, AreFresh};

use crate::delay_line::DelayLine;
use crate::left::NOTHING;
use crate::node::{Kept, Operator, ProgramNode};
use crate::outlook::Outlook;
use mtl_formulas::Verdict;
use out_of_memory::Memory;
use smallvec::SmallVec;
use std::alloc::Global;

fn fresh(alloc: Global, operator: Operator) -> Result<Kept, Memory>
    ensures { IfOk result (IsFresh operator) }
{
    match operator {
        Operator::Late(cells, _, _) => {
            let line = DelayLine::new(alloc, cells as usize)?;
            Ok(Kept::Ring(line))
        }
        Operator::Window(_, _, _, _) => Ok(Kept::Window(NOTHING)),
        Operator::Since(_, _, _, _, _) => Ok(Kept::Since(NOTHING, NOTHING)),
        Operator::Until(from, full, _, _, _, _) => {
            let outlook = Outlook::new(alloc, full.saturating_sub(from))?;
            Ok(Kept::Until(outlook))
        }
        Operator::Atom(_) | Operator::Not(_) | Operator::Pair(_, _, _) => Ok(Kept::Plain),
    }
}

/// The values of all nodes. Those of the rules' nodes, up to 80, lie in the state itself: a row reads them first, and in a block of their
/// own they would be far from all else that it reads.
pub(crate) type Values = SmallVec<Verdict, 80>;

/// What a state begins with, for each node.
#[derive(Drop)]
pub(crate) struct Begun {
    pub states: Vec<Kept>,
    pub values: Values,
    pub moving: Vec<bool>,
}

/// Returns a list with room for so many, and no more.
fn roomy<T>(alloc: Global, count: usize) -> Result<Vec<T>, Memory>
    ensures { IfOk result (λ list. list.items ≡ []) }
{
    match Vec::with_capacity(alloc, count) {
        Ok(list) => Ok(list),
        Err(_) => Err(Memory),
    }
}

pub(crate) fn pushed<T: Drop>(list: &mut Vec<T>, item: T) -> Result<(), Memory>
    ensures { IfOk result (λ u. list.new.items ≡ list.old.items ++ item ∷ []) }
{
    match list.push(item) {
        Ok(()) => Ok(()),
        Err(_) => Err(Memory),
    }
}

/// What each node keeps, the values of all nodes, and that each may move.
pub(crate) fn start(alloc: Global, nodes: &[ProgramNode]) -> Result<Begun, Memory>
    ensures { IfOk result (λ p. AreFresh nodes.now p.states.items p.values.items p.moving.items) }
{
    let mut states = roomy(alloc, nodes.len())?;
    let mut values = Values::new(alloc);
    values.reserve(nodes.len())?;
    let mut moving = roomy(alloc, nodes.len())?;
    for node in nodes {
        let state = fresh(alloc, node.operator)?;
        pushed(&mut states, state)?;
        values.push(Verdict::Open)?;
        pushed(&mut moving, true)?;
    }
    Ok(Begun {
        states,
        values,
        moving,
    })
}
