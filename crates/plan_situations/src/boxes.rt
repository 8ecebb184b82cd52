//! Boxes that hold all of a path. If two of them lie apart, so do the vessels at every instant.
ghost use Rattle.std.specs.Prelude.{◌+◌, ◌≤◌, ◌↔◌, IsTrue, length};
ghost use Rattle.encounters.specs.Directions.{HaveDirections};
ghost use Rattle.encounters.specs.declared.pair_step.PairStep.{PairStep};
ghost use Rattle.closest_approach.specs.Separation.{IsSeparated};
ghost use Rattle.fixed_geometry.specs.declared.point.Point.{Point};
ghost use Rattle.lattice.specs.Grids.{positions_of};
ghost use Rattle.plan_situations.specs.Boxes.{ahead_from, HoldsPath, IsBeyond, IsIn, LieApart};
ghost use Rattle.plan_situations.specs.Domains.{Enters};
ghost use Rattle.plan_situations.specs.Situations.{IsTarget};

use crate::situation::{Situation, Target};
use fixed_geometry::Point;
use hull_domains::radius_about;
use motion::TickState;

/// A box with sides along the axes, in tenths of a millimetre.
#[derive(Clone, Copy, PartialEq, Eq)]
pub struct Bounds {
    west: i64,
    east: i64,
    south: i64,
    north: i64,
}

impl Bounds {
    /// The box that holds one point alone.
    pub fn at(point: Point) -> Bounds
        ensures { IsIn result point }
    {
        Bounds {
            west: point.x,
            east: point.x,
            south: point.y,
            north: point.y,
        }
    }

    /// A box that holds a state's point too.
    #[inline(always)]
    fn with(self, state: &TickState) -> Bounds
        ensures point { IsIn result state.now.point }
        ensures others { (other : Point) → IsIn self other → IsIn result other }
    {
        Bounds {
            west: self.west.min(state.point.x),
            east: self.east.max(state.point.x),
            south: self.south.min(state.point.y),
            north: self.north.max(state.point.y),
        }
    }

    /// A box that holds all states of a path.
    pub fn around(path: &[TickState]) -> Bounds
        requires { 1 ≤ length path.now }
        ensures { HoldsPath result path.now }
    {
        let mut bounds = Bounds::at(path[0].point);
        for k in 0..path.len() {
            bounds = bounds.with(&path[k]);
        }
        bounds
    }

    /// Whether all of it lies at least so far to the east of another box.
    fn is_east_of(&self, other: &Bounds, distance: u64) -> bool
        ensures { IsTrue result ↔ IsBeyond self.now.west other.now.east distance }
    {
        other.east <= self.west && distance <= self.west.abs_diff(other.east)
    }

    /// Whether all of it lies at least so far to the north of another box.
    fn is_north_of(&self, other: &Bounds, distance: u64) -> bool
        ensures { IsTrue result ↔ IsBeyond self.now.south other.now.north distance }
    {
        other.north <= self.south && distance <= self.south.abs_diff(other.north)
    }

    /// Whether the boxes lie at least so far apart along one of the axes.
    pub fn lie_apart(&self, other: &Bounds, distance: u64) -> bool
        ensures { IsTrue result ↔ LieApart self.now other.now distance }
    {
        if other.is_east_of(self, distance) {
            return true;
        }
        if self.is_east_of(other, distance) {
            return true;
        }
        if other.is_north_of(self, distance) {
            return true;
        }
        self.is_north_of(other, distance)
    }
}

impl Situation {
    /// A box that holds a target's states at this many ticks from one on, which is counted from now.
    pub fn bounds_ahead(&self, target: &Target, first: u32, ticks: u32) -> Bounds
        requires target { IsTarget self.now target.now }
        requires some { 1 ≤ ticks }
        requires planned { first + ticks ≤ positions_of self.now.lattice + 1 }
        ensures { HoldsPath result (ahead_from target.now first ticks) }
    {
        let first = first as usize;
        Bounds::around(&target.ahead.as_slice()[first..first + ticks as usize])
    }

    /// How far from a target no step of own ship's enters her domain, in tenths of a millimetre.
    pub(crate) fn reach(&self, target: &Target) -> u64
        requires { IsTarget self.now target.now }
        ensures { (pair : PairStep) → HaveDirections pair → IsSeparated pair.step result
            → ¬ Enters self.now target.now pair }
    {
        match &self.shape {
            Some(shape) => radius_about(shape).max(target.domain.radius),
            None => target.domain.radius,
        }
    }
}
