//! The atoms of a program, which are read at each row.
ghost use Rattle.std.specs.Prelude.{◌≡◌, ◌<◌, ℕ, length, set, OnOk};
ghost use Rattle.std.specs.Int.{bit_at};
ghost use Rattle.mtl_formulas.specs.FormulaMeasures.{IsValidAtom};
ghost use Rattle.mtl_monitor.specs.Inner.Steps.{value_at, HasValidAtom};
ghost use Rattle.mtl_monitor.specs.Inner.Standing.{AllValid};
ghost use Rattle.mtl_monitor.specs.Inner.Reading.{Lists, AreListed, AreReadable, ArePlaced, HaveRead};
ghost use Rattle.mtl_monitor.specs.Inner.Marks.{IsUnmarked};

use crate::marks::marked;
use crate::node::{AtomNode, Operator, ProgramNode};
use crate::starting::pushed;
use crate::verdicts::is_same;
use mtl_formulas::{Atoms, Glance, Verdict};
use out_of_memory::Memory;

/// Lists a node, if it is that of an atom whose answer the glance leaves open.
fn list_atom(
    operator: Operator,
    index: usize,
    glance: Glance,
    atoms: &mut Vec<AtomNode>,
) -> Result<(), Memory>
    requires { HasValidAtom operator }
    ensures { OnOk result (Lists glance atoms.old.items atoms.new.items operator index) }
{
    match operator {
        Operator::Atom(atom) => {
            if atom.is_untold(glance) {
                pushed(atoms, AtomNode { index, atom })
            } else {
                Ok(())
            }
        }
        _ => Ok(()),
    }
}

/// Lists the nodes of atoms whose answers the glance leaves open.
pub(crate) fn list_atoms(
    nodes: &[ProgramNode],
    glance: Glance,
    atoms: &mut Vec<AtomNode>,
) -> Result<(), Memory>
    requires { AllValid nodes.now }
    ensures listed { OnOk result (AreListed glance nodes.now atoms.new.items) }
    ensures readable { OnOk result
        (AreReadable glance nodes.now (length nodes.now) atoms.new.items) }
{
    atoms.clear();
    for index in 0..nodes.len() {
        list_atom(nodes[index].operator, index, glance, atoms)?;
    }
    Ok(())
}

/// Reads an atom at a row, and marks its node where the answer is not the last one.
#[inline(always)]
fn read_atom<A: Atoms>(at: AtomNode, values: &mut [Verdict], row: &A, marks: u64) -> u64
    requires inside { at.index < length values.old }
    requires valid { IsValidAtom at.atom }
    ensures values { values.new ≡ set values.old at.index (A.answer row.now at.atom) }
    ensures here { IsUnmarked result at.index
        → A.answer row.now at.atom ≡ value_at values.old at.index }
    ensures others { (k : ℕ) → bit_at result k ≡ 0 → bit_at marks k ≡ 0 }
{
    let value = row.value(at.atom);
    if is_same(value, values[at.index]) {
        return marks;
    }
    values[at.index] = value;
    marked(marks, at.index)
}

/// Reads each atom at a row, and marks the nodes of those that are answered otherwise than at the last one.
pub(crate) fn read_atoms<A: Atoms>(atoms: &[AtomNode], values: &mut [Verdict], row: &A) -> u64
    requires { ArePlaced atoms.now (length values.old) }
    ensures { HaveRead atoms.now values.old values.new (A.answer row.now) result
        (length atoms.now) }
{
    let mut marks = 0;
    for at in atoms {
        marks = read_atom(*at, values, row, marks);
    }
    marks
}
