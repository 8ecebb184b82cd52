//! The calls of a device in memory that fail.
ghost use Rattle.std.specs.Prelude.{◌≡◌, ◌<◌, ◌^◌, IsTrue};
ghost use Rattle.outside.specs.Calls.{AreCallNumbers, is_next_listed, with_one_more};

use std::marker::Model;

/// Counts the calls, and has the numbers of those that fail, counted from 0.
#[derive(Drop)]
pub struct Schedule {
    fails: Vec<u64>,
    made: u64,
}

impl Model for Schedule {
    ghost use Rattle.outside.specs.Calls.{AreCallNumbers, Calls};

    ghost Value = { Calls };

    ghost view = { λ s. record { fails = s.fails.items; made = s.made } };

    ghost invariant = { λ s. AreCallNumbers s.fails.items };
}

impl Schedule {
    pub fn new(fails: Vec<u64>) -> Schedule
        requires { AreCallNumbers fails.items }
        ensures fails { result.fails ≡ fails.items }
        ensures made { result.made ≡ 0 }
    {
        Schedule { fails, made: 0 }
    }

    /// Counts one call; returns whether it must fail.
    pub fn is_next_failing(&mut self) -> bool
        ensures listed { result ≡ is_next_listed self.old }
        ensures early { IsTrue result → self.old.made < 2 ^ 32 }
        ensures counted { self.new ≡ with_one_more self.old }
    {
        let call = self.made;
        self.made = self.made.saturating_add(1);
        self.fails.contains(&call)
    }
}
