//! One trace: its next step, and the values of the atoms at it.
ghost use Rattle.std.specs.Prelude.{ℕ, ◌≡◌, ◌<◌, ◌≤◌, ◌^◌, ◌++◌, ◌∷◌, [], List, length, IfSome, true};
ghost use Rattle.std.specs.Option.{option_copied};
ghost use Rattle.encounters.specs.Directions.{HaveDirections};
ghost use Rattle.encounters.specs.Risk.{IsDetect};
ghost use Rattle.encounters.specs.Standing.{IsStateAfter};
ghost use Rattle.meetings.specs.Answers.{answer_of};
ghost use Rattle.meetings.specs.Atoms.{IsRankedRow};
ghost use Rattle.meetings.specs.Traces.{IsPlaced, step_between};
ghost use Rattle.traces.specs.Audited.{AreAscending, ArePlaced, AuditNumbers, MoveLittle, SeenVessels, Sighting, by_rank_in, step_of, terms_of, trace_ranks};
ghost use Rattle.traces.specs.Inner.Distances.{AreFarUntil, IsFarUntil, SeeTheSame};
ghost use Rattle.traces.specs.Inner.TracesKept.{Follows, FollowsApart, IsTakenFrom, ShowsApart};
ghost use Rattle.traces.specs.Known.{Known, opened, watched};

use crate::drift::component_distance;
use crate::pair_ranks::by_rank;
use crate::sightings::{rank_near, state_near};
use encounters::{Act, Detect, EngagementState, PairStep};
use meetings::{AtomRow, BOTH_POWER_DRIVEN, ByRank, Follower, Pair, step_between};
use motion::TickState;
use mtl_formulas::Glance;
use ranks::Rank;

/// One trace: its pair, its first step, and the engagement. Its model is the list of steps so far.
#[derive(Drop)]
pub(crate) struct FollowedTrace {
    pub(crate) pair: Pair,
    /// The indices at which the subject and the other were last found among the vessels seen. Only the speed of the
    /// search depends on them.
    subject_place: usize,
    other_place: usize,
    /// While the sum of the drifts so far is below this, both vessels are seen and farther apart than `watch`.
    far_until: u64,
    start: u32,
    follower: Follower,
}

/// Returns the duties by rank of a pair, if its vessels are seen with ranks. The places are indices at which the two
/// may be. It is a separate function, so that it does not slow down rows at which no engagement begins.
#[inline(never)]
fn by_rank_near(
    seen: &[(u32, TickState)],
    ranks: &[Rank],
    pair: Pair,
    subject_place: usize,
    other_place: usize,
) -> ByRank
    requires { AreAscending seen.now }
    ensures { result ≡ by_rank_in pair (record { vessels = seen.now; ranks = ranks.now }) }
{
    if ranks.is_empty() {
        return BOTH_POWER_DRIVEN;
    }
    by_rank(
        rank_near(seen, ranks, pair.subject, subject_place),
        rank_near(seen, ranks, pair.other, other_place),
    )
}

/// Returns what a glance at a step shows of two vessels that were apart, if their places decide it: at its two ticks the
/// one has the states `a0` and `a1`, and the other `b0` and `b1`. If they are farther apart, it stores the drift up to
/// which they surely stay so.
#[inline(always)]
fn glance_between(
    a0: Option<&TickState>,
    b0: Option<&TickState>,
    a1: Option<&TickState>,
    b1: Option<&TickState>,
    watch: u64,
    drift: u64,
    far_until: &mut u64,
) -> Option<Glance>
    requires a0 { IsPlaced (option_copied a0) }
    requires b0 { IsPlaced (option_copied b0) }
    requires watch { watch ≤ 1000000000 }
    requires drift { drift ≤ 2 ^ 60 }
    requires far { AreFarUntil watch drift far_until.old (option_copied a0) (option_copied b0) }
    ensures far { AreFarUntil watch drift far_until.new
        (option_copied a0.entry) (option_copied b0.entry) }
    ensures shows { IfSome result
        (ShowsApart watch (step_between (option_copied a0.entry) (option_copied b0.entry)
        (option_copied a1.entry) (option_copied b1.entry))) }
{
    match (a0, b0, a1, b1) {
        (Some(a), Some(b), Some(_), Some(_)) => {
            let distance = component_distance(&a.point, &b.point);
            if distance <= watch {
                return None;
            }
            *far_until = drift + (distance - watch);
            Some(Glance::Apart)
        }
        _ => Some(Glance::Unseen),
    }
}

impl FollowedTrace {
    /// Returns the trace of a pair that begins at a step, before its first step.
    pub(crate) fn new(pair: Pair, start: u32, detect: Detect, act: Act, tick: u32) -> FollowedTrace
        requires detect { IsDetect detect }
        ensures follows { (numbers : AuditNumbers) (ticks : List Sighting)
            → numbers.detect ≡ detect → numbers.act ≡ act → numbers.tick ≡ tick
            → Follows numbers ticks result (opened pair start) }
        ensures far { (watch drift : ℕ) (at : SeenVessels) → IsFarUntil watch drift at result }
    {
        FollowedTrace {
            pair,
            subject_place: 0,
            other_place: 0,
            far_until: 0,
            start,
            follower: Follower::new(detect, act, tick),
        }
    }

    /// Returns its next step, from one sighting to the next: `None` if either vessel is not seen at either. Its model
    /// is unchanged; it only remembers the indices of the vessels.
    #[inline(always)]
    pub(crate) fn next_step(
        &mut self,
        before: &[(u32, TickState)],
        seen: &[(u32, TickState)],
    ) -> Option<PairStep>
        requires before_ascending { AreAscending before.now }
        requires before_placed { ArePlaced before.now }
        requires ascending { AreAscending seen.now }
        requires placed { ArePlaced seen.now }
        requires moves { MoveLittle before.now seen.now }
        ensures step { (numbers : AuditNumbers) (ticks : List Sighting) (known : Known)
            → Follows numbers ticks self.old known
            → result ≡ step_of known.pair before.now seen.now }
        ensures directions { IfSome result HaveDirections }
        ensures far { (watch drift : ℕ) (at : SeenVessels) → IsFarUntil watch drift at self.old
            → IsFarUntil watch drift at self.new }
        ensures follows { (numbers : AuditNumbers) (ticks : List Sighting) (known : Known)
            → Follows numbers ticks self.old known → Follows numbers ticks self.new known }
    {
        let Pair { subject, other } = self.pair;
        let a0 = state_near(before, subject, &mut self.subject_place);
        let b0 = state_near(before, other, &mut self.other_place);
        if a0.is_none() || b0.is_none() {
            return None;
        }
        let a1 = state_near(seen, subject, &mut self.subject_place);
        let b1 = state_near(seen, other, &mut self.other_place);
        step_between(a0, b0, a1, b1)
    }

    /// Returns what a glance at its next step shows, if the places of its vessels decide it: they were apart, and are
    /// unseen or farther apart than `watch`. If `same` is true, the same vessels are seen at both ticks; then the glance
    /// looks up no vessel while `drift`, the sum of the drifts so far, is below `far_until`.
    #[inline(always)]
    pub(crate) fn glance(
        &mut self,
        before: &[(u32, TickState)],
        seen: &[(u32, TickState)],
        same: bool,
        watch: u64,
        drift: u64,
    ) -> Option<Glance>
        requires before_ascending { AreAscending before.now }
        requires before_placed { ArePlaced before.now }
        requires ascending { AreAscending seen.now }
        requires same { same ≡ true → SeeTheSame before.now seen.now }
        requires watch { watch ≤ 1000000000 }
        requires drift { drift ≤ 2 ^ 60 }
        requires far { IsFarUntil watch drift before.now self.old }
        ensures far { IsFarUntil watch drift before.now self.new }
        ensures rests { IfSome result
            (λ glance. (numbers : AuditNumbers) (ticks : List Sighting) (known : Known)
            → Follows numbers ticks self.old known → watch ≡ numbers.detect.watch
            → length known.steps < 2 ^ 31
            → FollowsApart numbers ticks self.new known (step_of known.pair before.now seen.now)
            glance) }
        ensures follows { (numbers : AuditNumbers) (ticks : List Sighting) (known : Known)
            → Follows numbers ticks self.old known → Follows numbers ticks self.new known }
    {
        let EngagementState::Apart = self.follower.state() else {
            return None;
        };
        if same && drift < self.far_until {
            return Some(Glance::Apart);
        }
        let Pair { subject, other } = self.pair;
        let a0 = state_near(before, subject, &mut self.subject_place);
        let b0 = state_near(before, other, &mut self.other_place);
        let a1 = state_near(seen, subject, &mut self.subject_place);
        let b1 = state_near(seen, other, &mut self.other_place);
        glance_between(a0, b0, a1, b1, watch, drift, &mut self.far_until)
    }

    /// Takes this step from the tick at which these vessels are seen with their ranks; returns its row. It looks up
    /// their ranks only if an engagement begins.
    #[inline(always)]
    pub(crate) fn take_step(
        &mut self,
        step: Option<&PairStep>,
        seen: &[(u32, TickState)],
        ranks: &[Rank],
    ) -> AtomRow
        requires directions { IfSome (option_copied step) HaveDirections }
        requires ascending { AreAscending seen.now }
        ensures far { (watch drift : ℕ) (at : SeenVessels) → IsFarUntil watch drift at self.old
            → IsFarUntil watch drift at self.new }
        ensures row { (numbers : AuditNumbers) (ticks : List Sighting) (known : Known)
            → Follows numbers ticks self.old known → length known.steps < 2 ^ 31
            → IsTakenFrom ticks known seen.now ranks.now
            → IsRankedRow (terms_of numbers) (trace_ranks ticks known.pair known.start)
            (known.steps ++ option_copied step.entry ∷ []) (length known.steps) (answer_of result) }
        ensures follows { (numbers : AuditNumbers) (ticks : List Sighting) (known : Known)
            → Follows numbers ticks self.old known → length known.steps < 2 ^ 31
            → IsTakenFrom ticks known seen.now ranks.now
            → Follows numbers ticks self.new
            (watched known (option_copied step.entry) (answer_of result)) }
    {
        self.follower.step_ranked(step, || {
            by_rank_near(seen, ranks, self.pair, self.subject_place, self.other_place)
        })
    }

    /// Returns the state of the engagement at its latest step; apart before the first.
    #[inline(always)]
    pub(crate) fn state(&self) -> EngagementState
        ensures { (numbers : AuditNumbers) (ticks : List Sighting) (known : Known)
            → Follows numbers ticks self.now known
            → IsStateAfter numbers.detect known.steps result }
    {
        self.follower.state()
    }
}
