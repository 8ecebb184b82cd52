//! The rows of a pair's trace.
ghost use Rattle.std.specs.Prelude.{ℕ, ◌≡◌, ◌<◌, ◌^◌, ◌++◌, ◌∷◌, [], List, Option, length, map, IfSome, OnErr, OnOk};
ghost use Rattle.encounters.specs.Directions.{HaveDirections};
ghost use Rattle.encounters.specs.Risk.{IsDetect};
ghost use Rattle.encounters.specs.declared.pair_step.PairStep.{PairStep};
ghost use Rattle.meetings.specs.Atoms.{AreAtomRows};
ghost use Rattle.meetings.specs.Answers.{answer_of};
ghost use Rattle.meetings.specs.Standing.{StandsFor};
ghost use Rattle.meetings.specs.Terms.{Terms};
ghost use Rattle.meetings.specs.declared.pair.Pair.{Pair};

use crate::atom_row::AtomRow;
use crate::follower::Follower;
use crate::pair::Pair;
use encounters::{Act, Detect, PairStep};
use out_of_memory::Memory;
use std::alloc::Global;
use std::marker::Model;

/// An ordered pair of vessels with the rows of its steps so far. Its model is the pair, its numbers and the list of
/// these steps.
#[derive(Drop)]
pub struct PairTrace {
    pair: Pair,
    follower: Follower,
    rows: Vec<AtomRow>,
}

impl Model for PairTrace {
    ghost use Rattle.meetings.specs.Standing.{Traced};

    ghost Value = { Traced };

    ghost view = { λ t. record { pair = t.pair; following = t.follower; rows = t.rows.items } };
}

impl PairTrace {
    /// Returns a trace before its first step. A tick lasts `tick` seconds. This takes no memory.
    pub fn new(alloc: Global, pair: Pair, detect: Detect, act: Act, tick: u32) -> PairTrace
        requires { IsDetect detect }
        ensures { StandsFor result pair (record { detect = detect; act = act; tick = tick }) [] }
    {
        PairTrace {
            pair,
            follower: Follower::new(detect, act, tick),
            rows: Vec::new(alloc),
        }
    }

    /// Appends a step, at which both are seen or not, to fewer than 2^31 others. Directions are below 3600. If memory
    /// runs out, the trace is unchanged.
    pub fn push(&mut self, seen: Option<PairStep>) -> Result<(), Memory>
        requires { IfSome seen HaveDirections }
        ensures ok { OnOk result
            ((pair : Pair) (terms : Terms) (steps : List (Option PairStep)) → length steps < 2 ^ 31
            → StandsFor self.old pair terms steps
            → StandsFor self.new pair terms (steps ++ seen ∷ [])) }
        ensures memory { OnErr result (self.new ≡ self.old) }
    {
        self.rows.try_reserve(1)?;
        let row = self.follower.step(seen.as_ref());
        self.rows.push_reserved(row);
        Ok(())
    }

    /// Returns the rows of the steps, one per step: each has the values of all atoms at that step.
    pub fn rows(&self) -> &[AtomRow]
        ensures { (pair : Pair) (terms : Terms) (steps : List (Option PairStep))
            → StandsFor self.now pair terms steps
            → AreAtomRows terms steps (map answer_of result.now) }
    {
        &self.rows
    }

    /// Returns the pair of the trace.
    pub fn pair(&self) -> Pair
        ensures { (pair : Pair) (terms : Terms) (steps : List (Option PairStep)) →
            StandsFor self.now pair terms steps → result ≡ pair }
    {
        self.pair
    }
}
