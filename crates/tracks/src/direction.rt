//! The direction of a vessel by her reports.
ghost use Rattle.std.specs.Prelude.{◌≡◌, ◌<◌, IfSome};
ghost use Rattle.ais_messages.specs.MessageFields.{IsReport};
ghost use Rattle.tracks.specs.JoinedReports.{reported_direction};

use ais_messages::PositionReport;

/// Returns the direction of a vessel by her report, in tenths of a degree, 0 to 3599: her heading, otherwise her
/// course, otherwise none.
pub fn reported_direction(report: &PositionReport) -> Option<u16>
    requires { IsReport report.now }
    ensures value { result ≡ reported_direction report.now }
    ensures small { IfSome result (λ d. d < 3600) }
{
    match report.heading {
        Some(degrees) => Some(degrees * 10),
        None => report.cog,
    }
}
