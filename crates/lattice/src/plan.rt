//! A plan of own ship.
ghost use Rattle.std.specs.Prelude.{◌≡◌, ◌<◌, [], ◌∷◌, ◌++◌, List, ℕ, length};

use smallvec::SmallVec;
use std::alloc::Global;
use std::marker::Model;

/// One choice per leg, the first leg's first: a number below `Lattice::choices`. It is stored inline and takes no
/// memory.
#[derive(Drop)]
pub struct Plan {
    choices: SmallVec<u16, 8>,
}

impl Model for Plan {
    ghost use Rattle.std.specs.Prelude.{List, ℕ, ◌≡◌, ◌≤◌, length};

    ghost Value = { List ℕ };

    ghost view = { λ p. p.choices.items };

    ghost invariant = { λ p. (p.choices.capacity ≡ 8) × (length p.choices.items ≤ 8) };
}

impl Plan {
    /// Returns a plan with no legs yet.
    pub(crate) fn new(alloc: Global) -> Plan
        ensures { result ≡ [] }
    {
        Plan {
            choices: SmallVec::new(alloc),
        }
    }

    /// Adds a leg.
    pub(crate) fn push(&mut self, choice: u16)
        requires { length self.old < 8 }
        ensures { self.new ≡ self.old ++ choice ∷ [] }
    {
        self.choices.push_reserved(choice);
    }

    /// Returns the choices, the first leg's first.
    pub fn choices(&self) -> &[u16]
        ensures { result.now ≡ self.now }
    {
        self.choices.as_slice()
    }
}
