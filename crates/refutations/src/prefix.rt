//! Prefixes of plans.
ghost use Rattle.std.specs.Prelude.{◌≡◌, ◌≤◌, length};
ghost use Rattle.refutations.specs.Inner.Replays.{HaveInCommon};

use smallvec::SmallVec;
use std::alloc::Global;
use std::marker::Model;

/// The choices of the first legs of a plan, 1 to 8 of them, the first leg's first. Its model is their list. It is
/// stored inline and takes no memory.
#[derive(Drop)]
pub struct Prefix {
    choices: SmallVec<u16, 8>,
}

impl Model for Prefix {
    ghost use Rattle.std.specs.Prelude.{List, ℕ, ◌≤◌, length};

    ghost Value = { List ℕ };

    ghost view = { λ p. p.choices.items };

    ghost invariant = { λ p. (1 ≤ length p.choices.items) × (length p.choices.items ≤ 8) };
}

impl Prefix {
    /// Returns the prefix of these choices.
    pub fn of(alloc: Global, choices: &[u16]) -> Prefix
        requires some { 1 ≤ length choices.now }
        requires few { length choices.now ≤ 8 }
        ensures { result ≡ choices.now }
    {
        Prefix {
            choices: SmallVec::from_slice(alloc, choices).unwrap(),
        }
    }

    /// Returns the choices.
    pub fn choices(&self) -> &[u16]
        ensures choices { result.now ≡ self.now }
        ensures some { 1 ≤ length result.now }
        ensures few { length result.now ≤ 8 }
    {
        self.choices.as_slice()
    }
}

/// How many first legs two plans have in common.
pub(crate) fn legs_in_common(plan: &[u16], other: &[u16]) -> usize
    ensures { HaveInCommon plan.now other.now result }
{
    let legs = plan.len().min(other.len());
    for leg in 0..legs {
        if plan[leg] != other[leg] {
            return leg;
        }
    }
    legs
}
