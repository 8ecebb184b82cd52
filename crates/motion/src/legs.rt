//! The legs of one vessel.
ghost use Rattle.std.specs.Prelude.{◌≡◌, ◌≤◌, ◌<◌, ◌++◌, ◌∷◌, [], ◌↔◌, None, drop, length, IsTrue, IsNone, IfSome, OnOk, OnErr, false};
ghost use Rattle.std.specs.List.{All, last_or};
ghost use Rattle.std.specs.List.Sorted.{IsPartitionPoint};
ghost use Rattle.fixed_geometry.specs.declared.projection.TheConstants.{REGION_SIZE};
ghost use Rattle.motion.specs.Inner.LegOrder.{AreLegs};
ghost use Rattle.motion.specs.TickStates.{state_at, holds, AreJoined, IsLeg, IsTickState, MovesLittle};

use crate::leg::{Leg, TickState};
use out_of_memory::Memory;
use std::alloc::Global;
use std::marker::Model;

/// Returns the number of legs that have begun by the time, by bisection.
fn begun(legs: &[Leg], time: u64) -> usize
    requires { AreLegs legs.now }
    ensures bound { result ≤ length legs.now }
    ensures parts { IsPartitionPoint (λ leg. leg.t1 ≤ time) (λ leg. time < leg.t1) legs.now result }
{
    legs.partition_point(|leg| leg.t1 <= time)
}

/// The legs of one vessel, in the order of their times. Legs that meet in one report touch; between others she is not
/// seen.
#[derive(Drop)]
pub struct Legs {
    legs: Vec<Leg>,
}

impl Model for Legs {
    ghost use Rattle.std.specs.Prelude.{List};
    ghost use Rattle.motion.specs.declared.leg.Leg.{Leg};
    ghost use Rattle.motion.specs.Inner.LegOrder.{AreLegs};

    ghost Value = { List Leg };

    ghost view = { λ s. s.legs.items };

    ghost invariant = { λ s. AreLegs s.legs.items };
}

impl Legs {
    /// Returns no legs. This takes no memory.
    pub fn new(alloc: Global) -> Legs
        ensures { result ≡ [] }
    {
        Legs {
            legs: Vec::new(alloc),
        }
    }

    /// Appends a leg, which lasts at most an hour, is in the region, and is not faster than 102.2 knots, the greatest
    /// speed that ITU-R M.1371-5, Annex 8, section 3.1 can encode. If memory runs out, the legs are unchanged.
    pub fn push(&mut self, leg: Leg) -> Result<(), Memory>
        requires leg { IsLeg leg }
        requires after { IfSome (last_or None self.old) (λ last. last.t2 ≤ leg.t1) }
        ensures ok { OnOk result (self.new ≡ self.old ++ leg ∷ []) }
        ensures memory { OnErr result (self.new ≡ self.old) }
    {
        self.legs.push(leg)?;
        Ok(())
    }

    /// Forgets this many of the first legs.
    pub fn forget(&mut self, count: usize)
        requires { count ≤ length self.old }
        ensures { self.new ≡ drop count self.old }
    {
        let _ = self.legs.drain(..count);
    }

    /// Returns the vessel's state at a time, in seconds since the Unix epoch: on the last leg that contains it, or
    /// `None` if no leg does.
    pub fn at(&self, time: u64) -> Option<TickState>
        ensures value { result ≡ state_at time self.now }
        ensures none { IsNone result ↔ All (λ leg. holds time leg ≡ false) self.now }
        ensures state { IfSome result (IsTickState REGION_SIZE) }
    {
        let begun = begun(&self.legs, time);
        if begun == 0 {
            return None;
        }
        let leg = &self.legs[begun - 1];
        if leg.holds(time) {
            Some(leg.state(time))
        } else {
            None
        }
    }

    /// A law of the legs, which does nothing at run time: if they meet or are more than `gap` seconds apart, the vessel
    /// moves from one time to another, at most `gap` seconds later, by at most the greatest velocity in each component,
    /// and by 2 more.
    pub fn moves_little(&self, gap: u64)
        requires { AreJoined gap self.now }
        ensures { MovesLittle gap self.now }
    {
        let _ = &self.legs;
    }

    /// Returns the number of legs.
    pub fn len(&self) -> usize
        ensures { result ≡ length self.now }
    {
        self.legs.len()
    }

    /// Returns whether there are no legs.
    pub fn is_empty(&self) -> bool
        ensures { IsTrue result ↔ (self.now ≡ []) }
    {
        self.legs.is_empty()
    }
}
