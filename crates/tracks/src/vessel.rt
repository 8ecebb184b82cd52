//! The stored data of one vessel.
ghost use Rattle.std.specs.Prelude.{◌≡◌, ◌+◌, ◌≤◌, ◌<◌, ◌∷◌, [], All, None, IfOk, IfSome, OnOk, OnErr, Some, drop, length, nat_le};
ghost use Rattle.std.specs.List.{last_or};
ghost use Rattle.std.specs.Option.{option_copied};
ghost use Rattle.ais_messages.specs.MessageFields.{IsMessage, IsReport, IsShipData};
ghost use Rattle.motion.specs.TickStates.{IsLeg};
ghost use Rattle.tracks.specs.AcceptedReports.{judged};
ghost use Rattle.tracks.specs.JoinedReports.{joined, legs_between};
ghost use Rattle.tracks.specs.Inner.Keeping.{AreInOrder, Follows, IsKept, accepted_by, accepted_in, joined_after, told, untold, vessel_after, vessel_since, vessel_with};
ghost use Rattle.tracks.specs.Standing.{IsAccepted, IsNumbers, kept_points, points_since};
ghost use Rattle.tracks.specs.VesselsHeld.{entry_at, entry_by, reported_in, static_in};
ghost use Rattle.tracks.specs.declared.keeping.Keeping.TheVariants.{Latest, Tracks};

use crate::accepted::Accepted;
use crate::counts::Counts;
use crate::direction::reported_direction;
use crate::entry::Entry;
use crate::given::GivenNumbers;
use crate::judging::judge;
use crate::keeping::Keeping;
use crate::parts::{position_report, static_report};
use crate::statics::Statics;
use ais_messages::{Message, PositionReport, StaticReport, Text20};
use motion::{Leg, Legs};
use out_of_memory::Memory;
use std::alloc::Global;
use std::marker::Model;

/// Returns whether a report is at most the gap after another.
fn are_joined(gap: u32, from: &Accepted, to: &Accepted) -> bool
    ensures { result ≡ nat_le to.now.time (from.now.time + gap) }
{
    to.time <= from.time.saturating_add(u64::from(gap))
}

/// Returns the leg from one report to the next, if they are at most the gap apart.
fn leg_between(gap: u32, from: &Accepted, to: &Accepted) -> Option<Leg>
    requires gap { gap ≤ 3600 }
    requires from { IsAccepted from.now }
    requires to { IsAccepted to.now }
    requires follows { Follows gap from.now to.now }
    ensures value { result ≡ joined gap from.now to.now }
    ensures leg { IfSome result IsLeg }
{
    if !are_joined(gap, from, to) {
        return None;
    }
    Some(Leg {
        t1: from.time,
        p1: from.point,
        t2: to.time,
        p2: to.point,
        direction: reported_direction(&from.report),
        speed: from.report.sog,
    })
}

/// Returns the latest of her accepted reports.
pub(crate) fn latest(points: &[Accepted]) -> Option<&Accepted>
    requires { All IsAccepted points.now }
    ensures value { option_copied result ≡ last_or None points.now }
    ensures accepted { IfSome (option_copied result) IsAccepted }
{
    points.last()
}

/// Returns the leg to a report accepted after these, if it is joined to the latest of them.
fn leg_to(gap: u32, points: &[Accepted], accepted: &Accepted) -> Option<Leg>
    requires gap { gap ≤ 3600 }
    requires points { All IsAccepted points.now }
    requires accepted { IsAccepted accepted.now }
    requires follows { IfSome (last_or None points.now)
        (λ latest. Follows gap latest accepted.now) }
    ensures value { result ≡ joined_after gap (last_or None points.now) accepted.now }
    ensures leg { IfSome result IsLeg }
{
    match latest(points) {
        None => None,
        Some(latest) => leg_between(gap, latest, accepted),
    }
}

/// The numbers of a vessel's first reports and legs to forget.
#[derive(Clone, Copy)]
struct Gone {
    reports: usize,
    legs: usize,
}

/// Returns what is before the last report that is earlier than a time.
fn gone_before(gap: u32, points: &[Accepted], time: u64) -> Gone
    requires { AreInOrder points.now }
    ensures within { result.reports ≤ length points.now }
    ensures points { points_since time points.now ≡ drop result.reports points.now }
    ensures legs_within { result.legs ≤ length (legs_between gap points.now) }
    ensures legs { legs_between gap (points_since time points.now)
        ≡ drop result.legs (legs_between gap points.now) }
{
    let mut gone = Gone {
        reports: 0,
        legs: 0,
    };
    while gone.reports + 1 < points.len() && points[gone.reports + 1].time < time {
        if are_joined(gap, &points[gone.reports], &points[gone.reports + 1]) {
            gone.legs += 1;
        }
        gone.reports += 1;
    }
    gone
}

/// Her accepted reports or only the latest, the legs between the stored reports, the numbers of reports and legs so
/// far, and her static data.
#[derive(Drop)]
pub(crate) struct Vessel {
    points: Vec<Accepted>,
    legs: Legs,
    counts: Counts,
    statics: Statics,
}

impl Model for Vessel {
    ghost use Rattle.tracks.specs.Standing.{VesselValue};

    ghost Value = { VesselValue };

    ghost view = { λ v.
        record { points = v.points.items; legs = v.legs; counts = v.counts; statics = v.statics } };
}

impl Vessel {
    /// Returns a vessel without any data. This takes no memory.
    pub(crate) fn new(alloc: Global) -> Vessel
        ensures { result ≡ untold }
    {
        Vessel {
            points: Vec::new(alloc),
            legs: Legs::new(alloc),
            counts: Counts {
                reports: 0,
                legs: 0,
            },
            statics: Statics {
                name: None,
                ship: None,
            },
        }
    }

    /// Appends an accepted report and the leg that it ends.
    fn add(&mut self, gap: u32, accepted: &Accepted) -> Result<(), Memory>
        requires gap { gap ≤ 3600 }
        requires kept { IsKept Tracks gap self.old }
        requires accepted { IsAccepted accepted.now }
        requires follows { IfSome (last_or None self.old.points)
            (λ latest. Follows gap latest accepted.now) }
        ensures ok { OnOk result (self.new ≡ vessel_with Tracks gap self.old (Some accepted.now)) }
        ensures err { OnErr result (self.new ≡ self.old) }
        ensures kept { IsKept Tracks gap self.new }
    {
        let leg = leg_to(gap, &self.points, accepted);
        self.points.push(*accepted)?;
        let Some(leg) = leg else {
            self.counts = self.counts.more(false);
            return Ok(());
        };
        if self.legs.push(leg).is_err() {
            let _ = self.points.pop();
            return Err(Memory);
        }
        self.counts = self.counts.more(true);
        Ok(())
    }

    /// Replaces the stored report with an accepted one, or allocates memory if there is none. It is a separate
    /// function, so that it does not slow down `add`.
    #[inline(never)]
    fn replace(&mut self, accepted: &Accepted) -> Result<(), Memory>
        requires { self.old.points ≡ kept_points Latest self.old.points }
        ensures ok { OnOk result (self.new ≡ record self.old { points = accepted.now ∷ [] }) }
        ensures err { OnErr result (self.new ≡ self.old) }
    {
        if self.points.is_empty() {
            self.points.reserve_exact(1)?;
            self.points.push(*accepted)?;
        } else {
            self.points[0] = *accepted;
        }
        Ok(())
    }

    /// Forgets the reports before the last one that is earlier than a time, and the legs to these reports and to that
    /// one.
    pub(crate) fn forget(&mut self, gap: u32, time: u64)
        requires in_order { AreInOrder self.old.points }
        requires legs { self.old.legs ≡ legs_between gap self.old.points }
        ensures { self.new ≡ vessel_since gap time self.old }
    {
        let gone = gone_before(gap, &self.points, time);
        let _ = self.points.drain(..gone.reports);
        self.legs.forget(gone.legs);
    }

    /// Stores an accepted report, after the others or instead of them.
    fn accept(&mut self, keeping: Keeping, gap: u32, accepted: &Accepted) -> Result<(), Memory>
        requires gap { gap ≤ 3600 }
        requires kept { IsKept keeping gap self.old }
        requires accepted { IsAccepted accepted.now }
        requires follows { IfSome (last_or None self.old.points)
            (λ latest. Follows gap latest accepted.now) }
        ensures ok { OnOk result (self.new ≡ vessel_with keeping gap self.old (Some accepted.now)) }
        ensures err { OnErr result (self.new ≡ self.old) }
        ensures kept { IsKept keeping gap self.new }
    {
        match keeping {
            Keeping::Latest => self.replace(accepted),
            Keeping::Tracks => self.add(gap, accepted),
            Keeping::Since(time) => {
                self.add(gap, accepted)?;
                if accepted.time < time {
                    self.forget(gap, time);
                }
                Ok(())
            }
        }
    }

    /// Takes a position report of this vessel.
    #[inline(always)]
    pub(crate) fn take_report(
        &mut self,
        keeping: Keeping,
        numbers: &GivenNumbers,
        report: &PositionReport,
        time: u64,
    ) -> Result<Entry, Memory>
        requires numbers { IsNumbers numbers.now }
        requires kept { IsKept keeping numbers.now.gap self.old }
        requires report { IsReport report.now }
        ensures entry { IfOk result
            (λ entry. entry ≡ entry_by
            (judged numbers.now (last_or None self.old.points)
            (record { report = report.now; time = time }))) }
        ensures ok { OnOk result
            (self.new ≡ vessel_with keeping numbers.now.gap self.old
            (accepted_by (judged numbers.now (last_or None self.old.points)
            (record { report = report.now; time = time })))) }
        ensures err { OnErr result (self.new ≡ self.old) }
        ensures kept { IsKept keeping numbers.now.gap self.new }
    {
        match judge(numbers, latest(&self.points), report, time) {
            Err(cause) => Ok(Entry::Dropped(cause)),
            Ok(point) => {
                self.accept(
                    keeping,
                    numbers.gap,
                    &Accepted {
                        time,
                        point,
                        report: *report,
                    },
                )?;
                Ok(Entry::Point(point))
            }
        }
    }

    /// Stores her static data, over the earlier data.
    fn keep(&mut self, report: &StaticReport)
        ensures told { self.new ≡ told self.old (Some report.now) }
        ensures ship { IfSome self.old.statics.ship IsShipData → IfSome report.now.ship IsShipData
            → IfSome self.new.statics.ship IsShipData }
    {
        if let Some(name) = &report.name {
            self.statics.name = Some(name.same());
        }
        if let Some(ship) = report.ship {
            self.statics.ship = Some(ship);
        }
    }

    /// Takes the position report of a message of this vessel, if it has one.
    fn take_position(
        &mut self,
        keeping: Keeping,
        numbers: &GivenNumbers,
        message: &Message,
        time: u64,
    ) -> Result<Entry, Memory>
        requires numbers { IsNumbers numbers.now }
        requires kept { IsKept keeping numbers.now.gap self.old }
        requires message { IsMessage message.now }
        ensures entry { IfOk result
            (λ entry. entry ≡ entry_at numbers.now (last_or None self.old.points)
            (reported_in (record { message = message.now; time = time }))) }
        ensures ok { OnOk result
            (self.new ≡ vessel_with keeping numbers.now.gap self.old
            (accepted_in numbers.now (last_or None self.old.points)
            (reported_in (record { message = message.now; time = time })))) }
        ensures err { OnErr result (self.new ≡ self.old) }
        ensures kept { IsKept keeping numbers.now.gap self.new }
    {
        match position_report(message) {
            None => Ok(Entry::Static),
            Some(report) => self.take_report(keeping, numbers, report, time),
        }
    }

    /// Stores the static report of a message of this vessel, if it has one.
    fn keep_static(&mut self, message: &Message)
        requires { IsMessage message.now }
        ensures told { self.new ≡ told self.old (static_in message.now) }
        ensures ship { IfSome self.old.statics.ship IsShipData
            → IfSome self.new.statics.ship IsShipData }
    {
        if let Some(report) = static_report(message) {
            self.keep(report);
        }
    }

    /// Takes a message of this vessel. If memory runs out, the vessel is unchanged.
    #[tactic(auto, unfolding(crate::specs::Inner::Keeping::vessel_after))]
    pub(crate) fn take(
        &mut self,
        keeping: Keeping,
        numbers: &GivenNumbers,
        message: &Message,
        time: u64,
    ) -> Result<Entry, Memory>
        requires numbers { IsNumbers numbers.now }
        requires kept { IsKept keeping numbers.now.gap self.old }
        requires message { IsMessage message.now }
        ensures entry { IfOk result
            (λ entry. entry ≡ entry_at numbers.now (last_or None self.old.points)
            (reported_in (record { message = message.now; time = time }))) }
        ensures ok { OnOk result
            (self.new ≡ vessel_after keeping numbers.now self.old
            (record { message = message.now; time = time })) }
        ensures err { OnErr result (self.new ≡ self.old) }
        ensures kept { IsKept keeping numbers.now.gap self.new }
    {
        let entry = self.take_position(keeping, numbers, message, time)?;
        self.keep_static(message);
        Ok(entry)
    }

    pub(crate) fn points(&self) -> &[Accepted]
        ensures { result.now ≡ self.now.points }
    {
        &self.points
    }

    pub(crate) fn legs(&self) -> &Legs
        ensures { result.now ≡ self.now.legs }
    {
        &self.legs
    }

    pub(crate) fn counts(&self) -> Counts
        ensures { result ≡ self.now.counts }
    {
        self.counts
    }

    pub(crate) fn statics(&self) -> &Statics
        ensures { result.now ≡ self.now.statics }
    {
        &self.statics
    }
}
