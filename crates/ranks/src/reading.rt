//! A vessel's rank by a report and by a ship type.
ghost use Rattle.std.specs.Prelude.{◌≡◌, ◌≤◌, ◌<◌, length, IsSome, Some};
ghost use Rattle.std.specs.List.Sorted.{IsNonDecreasingBy, IsPartitionPoint};
ghost use Rattle.ranks.specs.VesselRanks.{rank_by_status, rank_in, ranks_by_kind, report_at};
ghost use Rattle.tracks.specs.declared.accepted.Accepted.{Accepted};

use crate::rank::Rank;
use tracks::Accepted;

/// Returns the rank that a ship type gives.
pub(crate) fn rank_of_kind(kind: u8) -> Rank
    ensures { result ≡ rank_in ranks_by_kind kind }
{
    match kind {
        30 => Rank::Fishing,
        36 => Rank::Sailing,
        _ => Rank::Power,
    }
}

/// Returns the rank that a status gives, or `None` if it leaves this to the ship type.
pub(crate) fn rank_of_status(status: u8) -> Option<Rank>
    ensures { result ≡ rank_by_status status }
{
    match status {
        2 => Some(Rank::NotUnderCommand),
        3 => Some(Rank::Restricted),
        7 => Some(Rank::Fishing),
        8 => Some(Rank::Sailing),
        15 => None,
        _ => Some(Rank::Power),
    }
}

/// Returns the number of reports up to the time, by bisection.
fn points_by(points: &[Accepted], time: u64) -> usize
    requires { IsNonDecreasingBy (λ point. point.time) points.now }
    ensures bound { result ≤ length points.now }
    ensures parts { IsPartitionPoint (λ (point : Accepted). point.time ≤ time)
        (λ (point : Accepted). time < point.time) points.now result }
{
    points.partition_point(|point| point.time <= time)
}

/// Returns the last report up to the time.
pub(crate) fn last_report(points: &[Accepted], time: u64) -> &Accepted
    requires order { IsNonDecreasingBy (λ point. point.time) points.now }
    requires begun { IsSome (report_at points.now time) }
    ensures { Some result.now ≡ report_at points.now time }
{
    &points[points_by(points, time) - 1]
}
