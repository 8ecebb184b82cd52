//! Judges which position reports are accepted.
ghost use Rattle.std.specs.Prelude.{◌≡◌, ◌+◌, ◌-◌, ◌*◌, ◌^◌, ◌<◌, ◌≤◌, ◌&&◌, IfOk, IfSome, nat_le, nat_lt, unsigned_abs};
ghost use Rattle.std.specs.Option.{option_copied};
ghost use Rattle.fixed_geometry.specs.Displacement.{displacement};
ghost use Rattle.fixed_geometry.specs.Plane.{norm2_of};
ghost use Rattle.fixed_geometry.specs.Sizes.{IsWithin};
ghost use Rattle.ais_messages.specs.MessageFields.{IsReport};
ghost use Rattle.tracks.specs.AcceptedReports.{judged, judged_after, placed, same_report, square};
ghost use Rattle.tracks.specs.Inner.Keeping.{with_point, Follows};
ghost use Rattle.tracks.specs.Standing.{IsAccepted, IsNumbers};

use crate::accepted::Accepted;
use crate::entry::ReportCause;
use crate::given::GivenNumbers;
use ais_messages::PositionReport;
use fixed_geometry::{Point, Reference, displacement, norm2, project, square};

/// Returns the point of the plane of a report, or why it has none.
#[inline(always)]
#[tactic(auto, unfolding(crate::specs::AcceptedReports::placed))]
fn point_of(reference: Reference, report: &PositionReport, time: u64) -> Result<Point, ReportCause>
    requires { IsReport report.now }
    ensures value { with_point (record { report = report.now; time = time }) result
        ≡ placed reference (record { report = report.now; time = time }) }
    ensures small { IfOk result (IsWithin 2222400000) }
{
    let Some((latitude, longitude)) = report.place else {
        return Err(ReportCause::NoPos);
    };
    match project(reference, latitude, longitude) {
        None => Err(ReportCause::Far),
        Some(point) => Ok(point),
    }
}

/// Returns whether a report repeats the latest accepted one: it is equal, and at most half a minute later.
fn is_repeat(latest: &Accepted, report: &PositionReport, time: u64) -> bool
    ensures { result ≡ (nat_le time (latest.now.time + 30)
        && same_report report.now latest.now.report) }
{
    time.saturating_sub(latest.time) <= 30 && *report == latest.report
}

/// Returns whether a vessel would have moved this far faster than the greatest speed, in tenths of a knot.
fn outruns(max_speed: u16, seconds: u64, by: Point) -> bool
    requires short { seconds ≤ 3600 }
    requires small { IsWithin 4444800000 by }
    ensures { result ≡ nat_lt (square (4630 * max_speed * seconds))
        (81 * unsigned_abs (norm2_of by)) }
{
    square(4630 * u64::from(max_speed) * seconds) < 81 * norm2(by)
}

/// Returns whether a vessel would have moved too fast from the latest accepted report to this point, if the two are
/// close enough in time to be joined.
fn is_jump(numbers: &GivenNumbers, latest: &Accepted, point: Point, time: u64) -> bool
    requires numbers { IsNumbers numbers.now }
    requires latest { IsAccepted latest.now }
    requires point { IsWithin 2222400000 point }
    ensures { result ≡ (nat_le time (latest.now.time + numbers.now.gap)
        && nat_lt (square (4630 * numbers.now.max_speed * (time - latest.now.time)))
        (81 * unsigned_abs (norm2_of (displacement latest.now.point point)))) }
{
    let seconds = time.saturating_sub(latest.time);
    if seconds > u64::from(numbers.gap) {
        return false;
    }
    outruns(
        numbers.max_speed,
        seconds,
        displacement(latest.point, point),
    )
}

/// Judges a report at its point of the plane, after the vessel's latest accepted one.
#[inline(always)]
fn judge_after(
    numbers: &GivenNumbers,
    latest: Option<&Accepted>,
    point: Point,
    report: &PositionReport,
    time: u64,
) -> Result<Point, ReportCause>
    requires numbers { IsNumbers numbers.now }
    requires latest { IfSome (option_copied latest) IsAccepted }
    requires report { IsReport report.now }
    requires point { IsWithin 2222400000 point }
    ensures value { with_point (record { report = report.now; time = time }) result
        ≡ judged_after numbers.now (option_copied latest.entry)
        (record { time = time; point = point; report = report.now }) }
    ensures follows { IfOk result
        (λ point. IfSome (option_copied latest.entry)
        (λ latest. Follows numbers.now.gap latest
        (record { time = time; point = point; report = report.now }))) }
    ensures small { IfOk result (IsWithin 2222400000) }
{
    let Some(latest) = latest else {
        return Ok(point);
    };
    if time <= latest.time {
        return Err(ReportCause::Back);
    }
    if is_repeat(latest, report, time) {
        return Err(ReportCause::Repeat);
    }
    if is_jump(numbers, latest, point, time) {
        return Err(ReportCause::Jump);
    }
    Ok(point)
}

/// Judges a report of this time, after the vessel's latest accepted one; returns its point of the plane.
#[inline(always)]
#[tactic(auto, unfolding(crate::specs::AcceptedReports::judged))]
pub(crate) fn judge(
    numbers: &GivenNumbers,
    latest: Option<&Accepted>,
    report: &PositionReport,
    time: u64,
) -> Result<Point, ReportCause>
    requires numbers { IsNumbers numbers.now }
    requires latest { IfSome (option_copied latest) IsAccepted }
    requires report { IsReport report.now }
    ensures value { with_point (record { report = report.now; time = time }) result
        ≡ judged numbers.now (option_copied latest.entry)
        (record { report = report.now; time = time }) }
    ensures follows { IfOk result
        (λ point. IfSome (option_copied latest.entry)
        (λ latest. Follows numbers.now.gap latest
        (record { time = time; point = point; report = report.now }))) }
    ensures small { IfOk result (IsWithin 2222400000) }
{
    match point_of(numbers.reference, report, time) {
        Err(cause) => Err(cause),
        Ok(point) => judge_after(numbers, latest, point, report, time),
    }
}
