//! Names of rules.
ghost use Rattle.std.specs.Prelude.{◌≡◌, ◌≤◌, length};

use std::marker::Model;

/// The name of a rule, 1 to 16 bytes. Its model is the list of its bytes.
#[derive(Drop)]
pub struct Name {
    bytes: [u8; 16],
    len: usize,
}

impl Model for Name {
    ghost use Rattle.std.specs.Prelude.{List, ℕ, ◌≤◌, take};

    ghost Value = { List ℕ };

    ghost view = { λ n. take n.len n.bytes };

    ghost invariant = { λ n. (1 ≤ n.len) × (n.len ≤ 16) };
}

impl Name {
    /// Returns the name of these bytes, 1 to 16. It takes no memory.
    pub fn of(bytes: &[u8]) -> Name
        requires some { 1 ≤ length bytes.now }
        requires few { length bytes.now ≤ 16 }
        ensures { result ≡ bytes.now }
    {
        let mut held = [0; 16];
        held[..bytes.len()].copy_from_slice(bytes);
        Name {
            bytes: held,
            len: bytes.len(),
        }
    }

    /// Returns the bytes of the name, 1 to 16.
    pub fn bytes(&self) -> &[u8]
        ensures same { result.now ≡ self.now }
        ensures some { 1 ≤ length result.now }
        ensures few { length result.now ≤ 16 }
    {
        &self.bytes[..self.len]
    }

    /// Returns an equal name. It takes no memory.
    pub fn same(&self) -> Name
        ensures { result ≡ self.now }
    {
        Name {
            bytes: self.bytes,
            len: self.len,
        }
    }
}

impl PartialEq for Name {
    ghost use Rattle.std.specs.Prelude.{bytes_eq};
    ghost use Rattle.std.proofs.Common.{rules};
    ghost use Rattle.std.specs.Cmp.Rules.{comparing};

    ghost eq = { bytes_eq };

    ghost laws = { Prim.search (comparing, rules) };

    fn eq(&self, other: &Name) -> bool {
        self.bytes() == other.bytes()
    }
}
