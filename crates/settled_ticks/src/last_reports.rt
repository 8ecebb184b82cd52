//! The last reports of vessels up to a time. The search starts at the previous result.
ghost use Rattle.std.specs.Prelude.{◌≡◌, ◌≤◌, ◌<◌, true, length, slice_get, IsSome};
ghost use Rattle.std.specs.List.Sorted.{IsNonDecreasingBy, IsPartitionPoint};
ghost use Rattle.ranks.specs.VesselRanks.{report_at};
ghost use Rattle.tracks.specs.declared.accepted.Accepted.{Accepted};

use tracks::Accepted;

/// The number of reports to search after the previous result before bisection.
const NEAR: usize = 8;

/// Returns whether the report at an index is the last one up to the time.
fn is_last(points: &[Accepted], at: usize, time: u64) -> bool
    requires order { IsNonDecreasingBy (λ point. point.time) points.now }
    ensures within { result ≡ true → at < length points.now }
    ensures last { result ≡ true → slice_get points.now at ≡ report_at points.now time }
{
    if points.len() <= at || time < points[at].time {
        return false;
    }
    at + 1 == points.len() || time < points[at + 1].time
}

/// Returns the first index from a guess after which there is no report up to the time, if it is near. The result is
/// also only a guess.
fn walk(points: &[Accepted], time: u64, guess: usize) -> usize {
    for at in guess..guess.saturating_add(NEAR) {
        if points.len() <= at + 1 || time < points[at + 1].time {
            return at;
        }
    }
    guess
}

/// Returns the number of reports up to the time, by bisection.
fn count_by(points: &[Accepted], time: u64) -> usize
    requires { IsNonDecreasingBy (λ point. point.time) points.now }
    ensures bound { result ≤ length points.now }
    ensures parts { IsPartitionPoint (λ (point : Accepted). point.time ≤ time)
        (λ (point : Accepted). time < point.time) points.now result }
{
    points.partition_point(|point| point.time <= time)
}

/// Returns the index of the last report up to the time. The search starts at a guess, which may be any number.
pub(crate) fn last_near(points: &[Accepted], time: u64, guess: usize) -> usize
    requires order { IsNonDecreasingBy (λ point. point.time) points.now }
    requires begun { IsSome (report_at points.now time) }
    ensures within { result < length points.now }
    ensures last { slice_get points.now result ≡ report_at points.now time }
{
    let at = walk(points, time, guess);
    if is_last(points, at, time) {
        return at;
    }
    count_by(points, time) - 1
}

/// Returns the report at an index as a list, if it is the last one up to the time.
pub(crate) fn alone(points: &[Accepted], at: usize, time: u64) -> &[Accepted]
    requires within { at < length points.now }
    requires last { slice_get points.now at ≡ report_at points.now time }
    ensures order { IsNonDecreasingBy (λ point. point.time) result.now }
    ensures same { report_at result.now time ≡ report_at points.now time }
{
    &points[at..at + 1]
}
