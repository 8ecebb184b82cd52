//! The values of the atoms at one step of an ordered pair.
ghost use Rattle.std.specs.Prelude.{◌≡◌, ◌*◌, ◌≤◌, nat_le};
ghost use Rattle.meetings.specs.Atoms.{metres_in_tenths};
ghost use Rattle.meetings.specs.Inner.Tests.{ahead, is_age, is_close, is_first, is_kind, is_opening, is_separated, on_port, rank_counts, seen_as, told};

use crate::ahead::crosses_ahead;
use crate::by_rank::ByRank;
use closest_approach::separated;
use encounters::{Changes, opening};
use fixed_geometry::{norm2, to_port};
use motion::Step;
use mtl_formulas::{Atom, Atoms, Glance, Verdict};
use sectors::Class;
use std::marker::Model;

/// The engagement at a step.
#[derive(Clone, Copy, PartialEq, Eq)]
pub(crate) struct Meeting {
    /// The class at its beginning.
    pub(crate) kind: Class,
    /// The number of steps since its beginning, 0 at the beginning itself.
    pub(crate) age: u32,
}

/// One step of an ordered pair (A, B), with the values of all atoms. It stores the state of the engagement, and the
/// step for the atoms that are computed on demand.
#[derive(Clone, Copy)]
pub struct AtomRow {
    /// The step, if both vessels are seen.
    pub(crate) step: Option<Step>,
    /// A's direction at its first tick.
    pub(crate) direction: Option<u16>,
    /// B's direction there.
    pub(crate) other_direction: Option<u16>,
    /// Whether there is risk of collision.
    pub(crate) risk: bool,
    /// The engagement, if there is one.
    pub(crate) meeting: Option<Meeting>,
    /// The seconds of a tick.
    pub(crate) tick: u32,
    /// The vessels' alterations since the engagement began.
    pub(crate) changes: Changes,
    /// The duties by rank at the start of the engagement.
    pub(crate) by_rank: ByRank,
}

impl Model for AtomRow {
    ghost use Rattle.std.specs.Prelude.{◌<◌, IfSome};
    ghost use Rattle.meetings.specs.Answers.{HaveNotAltered, Kept};

    ghost Value = { Kept };

    ghost view = { λ row.
        record {
          step = row.step;
          direction = row.direction;
          other_direction = row.other_direction;
          risk = row.risk;
          meeting = row.meeting;
          tick = row.tick;
          changes = row.changes;
          by_rank = row.by_rank;
        } };

    ghost invariant = { λ row. IfSome row.direction (λ d. d < 3600)
        × (IfSome row.other_direction (λ d. d < 3600) × HaveNotAltered row.meeting row.changes) };

    ghost inverse = { λ kept.
        record {
          step = kept.step;
          direction = kept.direction;
          other_direction = kept.other_direction;
          risk = kept.risk;
          meeting = kept.meeting;
          tick = kept.tick;
          changes = kept.changes;
          by_rank = kept.by_rank;
        } };
}

pub(crate) fn told(holds: bool) -> Verdict
    ensures { result ≡ told holds }
{
    if holds { Verdict::Yes } else { Verdict::No }
}

/// Converts a distance from metres to tenths of a millimetre.
fn tenths(m: u32) -> u64
    requires { m ≤ 100000 }
    ensures value { result ≡ metres_in_tenths m }
    ensures small { result ≤ 1000000000 }
{
    10_000 * u64::from(m)
}

/// Returns whether `steps` steps of `tick` seconds each last at least `seconds`.
fn lasts(steps: u32, tick: u32, seconds: u32) -> bool
    ensures { result ≡ nat_le seconds (steps * tick) }
{
    u64::from(seconds) <= u64::from(steps) * u64::from(tick)
}

impl AtomRow {
    /// Returns Open if the step is not seen.
    #[inline(never)]
    fn clear(&self, m: u32) -> Verdict
        requires { m ≤ 100000 }
        ensures { result ≡ seen_as
            (λ step. told (is_separated step (metres_in_tenths m))) self.now.step }
    {
        match &self.step {
            None => Verdict::Open,
            Some(step) => told(separated(step, tenths(m))),
        }
    }

    fn close(&self, m: u32) -> Verdict
        requires { m ≤ 100000 }
        ensures { result ≡ seen_as
            (λ step. told (is_close (metres_in_tenths m) step)) self.now.step }
    {
        let r = u128::from(tenths(m));
        match &self.step {
            None => Verdict::Open,
            Some(step) => told(norm2(step.p()) < r * r),
        }
    }

    fn opening(&self) -> Verdict
        ensures { result ≡ seen_as (λ step. told (is_opening step)) self.now.step }
    {
        match &self.step {
            None => Verdict::Open,
            Some(step) => told(opening(step)),
        }
    }

    #[inline(never)]
    fn other_on_port(&self) -> Verdict
        ensures { result ≡ seen_as (on_port self.now.direction) self.now.step }
    {
        match (&self.step, self.direction) {
            (Some(step), Some(direction)) => match to_port(step.p(), direction) {
                None => Verdict::Open,
                Some(port) => told(port),
            },
            _ => Verdict::Open,
        }
    }

    #[inline(never)]
    fn ahead(&self) -> Verdict
        ensures { result ≡ seen_as (ahead self.now.other_direction) self.now.step }
    {
        match (&self.step, self.other_direction) {
            (Some(step), Some(direction)) => told(crosses_ahead(direction, step)),
            _ => Verdict::Open,
        }
    }

    fn is_of_kind(&self, kind: Class) -> bool
        ensures { result ≡ is_kind kind self.now.meeting }
    {
        match self.meeting {
            None => false,
            Some(meeting) => meeting.kind == kind,
        }
    }

    fn is_as_old_as(&self, seconds: u32) -> bool
        ensures { result ≡ is_age self.now.tick seconds self.now.meeting }
    {
        match self.meeting {
            None => false,
            Some(meeting) => lasts(meeting.age, self.tick, seconds),
        }
    }

    fn begins(&self) -> bool
        ensures { result ≡ is_first self.now.meeting }
    {
        match self.meeting {
            None => false,
            Some(meeting) => meeting.age == 0,
        }
    }

    /// Returns whether the vessels' ranks count: they do not if one vessel overtakes the other.
    fn rank_counts(&self) -> bool
        ensures { result ≡ rank_counts self.now.meeting }
    {
        self.meeting.is_some()
            && !self.is_of_kind(Class::Overtaking)
            && !self.is_of_kind(Class::Overtaken)
    }
}

// Each position asks for all atoms. So the choice among them is inline, and the atoms that compute more are separate
// calls.
impl Atoms for AtomRow {
    ghost use Rattle.meetings.specs.Answers.{answer_of};

    ghost answer = { answer_of };

    #[inline(always)]
    fn value(&self, atom: Atom) -> Verdict {
        match atom {
            Atom::Always => Verdict::Yes,
            Atom::Never => Verdict::No,
            Atom::Seen => told(self.step.is_some()),
            Atom::Risk => told(self.risk),
            Atom::Engaged => told(self.meeting.is_some()),
            Atom::Begin => told(self.begins()),
            Atom::Overtaking => told(self.is_of_kind(Class::Overtaking)),
            Atom::Overtaken => told(self.is_of_kind(Class::Overtaken)),
            Atom::HeadOn => told(self.is_of_kind(Class::HeadOn)),
            Atom::CrossingGives => told(self.is_of_kind(Class::CrossingGives)),
            Atom::CrossingStands => told(self.is_of_kind(Class::CrossingStands)),
            Atom::Passing => told(self.is_of_kind(Class::Passing)),
            Atom::Unclassified => told(self.is_of_kind(Class::Unclassified)),
            Atom::Age(seconds) => told(self.is_as_old_as(seconds)),
            Atom::Opening => self.opening(),
            Atom::Clear(metres) => self.clear(metres),
            Atom::Close(metres) => self.close(metres),
            Atom::OtherOnPort => self.other_on_port(),
            Atom::Ahead => self.ahead(),
            Atom::Alters => self.changes.alters,
            Atom::Apparent => self.changes.apparent,
            Atom::ToStarboard => self.changes.to_starboard,
            Atom::ToPort => self.changes.to_port,
            Atom::OtherApparent => self.changes.other_apparent,
            Atom::RankGives => told(self.rank_counts() && self.by_rank.gives),
            Atom::RankStands => told(self.rank_counts() && self.by_rank.stands),
            Atom::BothPower => told(self.meeting.is_some() && self.by_rank.both_power),
        }
    }

    fn glance(&self) -> Glance {
        if self.risk || self.meeting.is_some() {
            return Glance::Nothing;
        }
        match self.step {
            Some(_) => Glance::Apart,
            None => Glance::Unseen,
        }
    }
}
