//! Rows with values for the atoms, worked and random ones.
ghost use Rattle.std.specs.Prelude.{◌≡◌, ◌<◌, length, IfOk, if◌then◌else◌};
ghost use Rattle.mtl_formulas.specs.declared.atom.Atom.TheVariants.{Risk};
ghost use Rattle.mtl_monitor.specs.Inner.Compiling.{same_atom};

use mtl_formulas::{Atom, Atoms, Verdict};
use rand_core::utils::NextWord;
use rand_pcg::Pcg32;
use std::alloc::{AllocError, Global};

/// A row with a value for `risk`, and one for all other atoms.
#[derive(Clone, Copy)]
pub(crate) struct Row {
    pub(crate) risk: Verdict,
    pub(crate) other: Verdict,
}

impl Atoms for Row {
    ghost answer = { λ row atom. (if same_atom atom Risk then row.risk else row.other) };

    fn value(&self, atom: Atom) -> Verdict {
        if atom == Atom::Risk {
            self.risk
        } else {
            self.other
        }
    }
}

pub(crate) const NO: Row = Row {
    risk: Verdict::No,
    other: Verdict::No,
};

pub(crate) const YES: Row = Row {
    risk: Verdict::Yes,
    other: Verdict::Yes,
};

const UNKNOWN: Row = Row {
    risk: Verdict::Open,
    other: Verdict::Yes,
};

const APART: Row = Row {
    risk: Verdict::Yes,
    other: Verdict::No,
};

/// Returns a number below `many`, which is at most 256.
pub(crate) fn below(source: &mut Pcg32, many: u32) -> u32
    requires { 0 < many }
    ensures { result < many }
{
    (source.next_word() >> 8) % many
}

/// Returns a random row. Most rows equal the one before, so that nodes come to rest.
fn random_row(source: &mut Pcg32, last: Row) -> Row {
    match below(source, 12) {
        0 => NO,
        1 => YES,
        2 => UNKNOWN,
        3 => APART,
        _ => last,
    }
}

/// Returns `many` random rows.
pub(crate) fn random_rows(
    alloc: Global,
    source: &mut Pcg32,
    many: u8,
) -> Result<Vec<Row>, AllocError>
    ensures { IfOk result (λ rows. length rows.items ≡ many) }
{
    let mut rows = Vec::new(alloc);
    let mut last = NO;
    for _ in 0..many {
        last = random_row(source, last);
        rows.push(last)?;
    }
    Ok(rows)
}
