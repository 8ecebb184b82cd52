//! The vessels whose encounters are audited.
use std::marker::Model;

/// The MMSIs of the vessels whose encounters are audited, from the scenario's list. An empty list means all vessels.
#[derive(Drop)]
pub struct Subjects {
    list: Vec<u32>,
}

impl Model for Subjects {
    ghost use Rattle.std.specs.Prelude.{List, ℕ};

    ghost Value = { List ℕ };

    ghost view = { λ s. s.list.items };
}

impl Subjects {
    ghost use Rattle.std.specs.Prelude.{◌≡◌};

    /// Returns the subjects of a list. This takes no memory.
    pub fn new(list: Vec<u32>) -> Subjects
        ensures { result ≡ list.items }
    {
        Subjects { list }
    }

    /// Returns the list. This takes no memory.
    pub fn into_list(self) -> Vec<u32>
        ensures { result.items ≡ self }
    {
        self.list
    }

    pub fn as_slice(&self) -> &[u32]
        ensures { result.now ≡ self.now }
    {
        self.list.as_slice()
    }
}
