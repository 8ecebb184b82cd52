//! Whether own ship can be planned for.
ghost use Rattle.std.specs.Prelude.{◌≡◌, ◌<◌, ◌≤◌, true, IfOk, IfSome};
ghost use Rattle.std.specs.Option.{option_copied};
ghost use Rattle.tracks.specs.Standing.{IsAccepted};
ghost use Rattle.plan_situations.specs.Readiness.{is_fresh, readiness_by, with_course};
ghost use Rattle.plan_situations.specs.Inner.Facts.{IsReady};

use std::error::Error;
use std::fmt;
use tracks::Accepted;

/// Why own ship cannot be planned for at now. The times are those of her latest accepted report, in seconds since the Unix epoch.
/// It is printed as `no point`, `no course` or `no speed`.
#[derive(Clone, Copy, Debug, PartialEq, Eq)]
pub enum Unready {
    /// She has no accepted report at most the gap old: this is the time of her latest, if she has any.
    NoPoint(Option<u64>),
    /// Her latest accepted report has no course.
    NoCourse(u64),
    /// It has a course, but no speed.
    NoSpeed(u64),
}

impl fmt::Display for Unready {
    ghost use Rattle.std.specs.Prelude.{Some};
    ghost use Rattle.plan_situations.specs.UnreadyTexts.{unready_text};

    ghost output = { λ why. Some (unready_text why) };

    fn fmt<W: fmt::Write>(&self, f: &mut fmt::Formatter<W>) -> fmt::Result {
        f.write_str(match self {
            Unready::NoPoint(_) => "no point",
            Unready::NoCourse(_) => "no course",
            Unready::NoSpeed(_) => "no speed",
        })
    }
}

impl Error for Unready {}

/// The data of own ship that a plan starts from.
#[derive(Clone, Copy, PartialEq, Eq)]
pub struct Ready {
    /// Her latest accepted report.
    pub latest: Accepted,
    /// Its course, 0 to 3599 tenths of a degree.
    pub course: u16,
    /// Its speed, 0 to 1022 tenths of a knot.
    pub speed: u16,
}

/// Returns whether a report came at most the gap before now, and no later.
pub(crate) fn is_fresh(gap: u32, now: u64, report: &Accepted) -> bool
    requires { now ≤ 100000000000 }
    ensures { result ≡ is_fresh gap now report.now }
{
    report.time <= now && now <= report.time + u64::from(gap)
}

/// What own ship is planned from by a fresh report, or what it lacks.
fn with_course(latest: &Accepted) -> Result<Ready, Unready>
    requires { IsAccepted latest.now }
    ensures value { result ≡ with_course latest.now latest.now.report.cog }
    ensures ready { IfOk result IsReady }
{
    let Some(course) = latest.report.cog else {
        return Err(Unready::NoCourse(latest.time));
    };
    let Some(speed) = latest.report.sog else {
        return Err(Unready::NoSpeed(latest.time));
    };
    Ok(Ready {
        latest: *latest,
        course,
        speed,
    })
}

/// What own ship is planned from by her latest accepted report, if she has one.
pub(crate) fn readiness(gap: u32, now: u64, latest: Option<&Accepted>) -> Result<Ready, Unready>
    requires early { now ≤ 100000000000 }
    requires accepted { IfSome (option_copied latest) IsAccepted }
    ensures value { result ≡ readiness_by gap now (option_copied latest.entry) }
    ensures ready { IfOk result IsReady }
    ensures fresh { IfOk result (λ ready. is_fresh gap now ready.latest ≡ true) }
{
    let Some(latest) = latest else {
        return Err(Unready::NoPoint(None));
    };
    if !is_fresh(gap, now, latest) {
        return Err(Unready::NoPoint(Some(latest.time)));
    }
    with_course(latest)
}
