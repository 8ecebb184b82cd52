//! The latest stretch of one track.
ghost use Rattle.std.specs.Prelude.{◌≡◌, ℕ, Some};
ghost use Rattle.audit_rows.specs.declared.mark.Mark.TheVariants.{Nothing};
ghost use Rattle.audit_rows.specs.Inner.Closed.{Closes};
ghost use Rattle.audit_rows.specs.Inner.Lanes.{Stands, with_stretch};
ghost use Rattle.audit_rows.specs.MarkCounts.{AreCounts};
ghost use Rattle.audit_rows.specs.Tracks.{Track, begun, longer, next_step};

use crate::counts::MarkCounts;
use crate::mark::Mark;
use crate::row::Row;
use crate::stretch::Opened;
use crate::topic::Topic;

/// Takes the marks of one track, one after the other. It stores the stretch in which they end, of any kind, and the
/// counts of the marks before it.
#[derive(Clone, Copy)]
pub(crate) struct Lane {
    topic: Topic,
    latest: Option<Opened>,
    counts: MarkCounts,
}

impl Lane {
    /// No marks yet.
    pub(crate) fn new(topic: Topic) -> Lane
        ensures { (first : ℕ) → Stands result (begun topic first) }
    {
        Lane {
            topic,
            latest: None,
            counts: MarkCounts::none(),
        }
    }

    /// Takes the next mark, which is for the step. Returns the row of the stretch that it ends, if rows report it. Most marks
    /// continue the stretch, so that case is inline.
    #[inline(always)]
    pub(crate) fn push(&mut self, step: u32, mark: Mark) -> Option<Row>
        ensures stands { (track : Track) → Stands self.old track → step ≡ next_step track
            → Stands self.new (longer track mark) }
        ensures closes { (track : Track) → Stands self.old track → step ≡ next_step track
            → Closes track mark result }
    {
        let Some(stretch) = &mut self.latest else {
            self.turn(step, mark);
            return None;
        };
        if stretch.mark.is_like(mark) {
            stretch.go_on(mark);
            return None;
        }
        let ended = *stretch;
        self.count(ended, step);
        self.turn(step, mark);
        ended.ended(step).row(self.topic)
    }

    /// Begins a stretch with this mark.
    fn turn(&mut self, step: u32, mark: Mark)
        ensures { self.new
            ≡ record self.old { latest = Some (record { first = step; mark = mark }) } }
    {
        self.latest = Some(Opened { first: step, mark });
    }

    /// Counts the marks of a stretch that ended before the step.
    fn count(&mut self, stretch: Opened, step: u32)
        ensures { self.new
            ≡ record self.old { counts = with_stretch self.old.counts stretch step } }
    {
        self.counts = self.counts.with(stretch.mark, stretch.length(step));
    }

    /// Returns the row of the stretch that the track's end, before the step, ends.
    pub(crate) fn end(&self, step: u32) -> Option<Row>
        ensures { (track : Track) → Stands self.now track → step ≡ next_step track
            → Closes track Nothing result }
    {
        let stretch = self.latest?;
        stretch.ended(step).row(self.topic)
    }

    /// Returns the topic of the track's marks.
    pub(crate) fn topic(&self) -> Topic
        ensures { (track : Track) → Stands self.now track → result ≡ track.topic }
    {
        self.topic
    }

    /// Returns the counts of all marks of the track, whose next one would be for the step.
    pub(crate) fn counts(&self, step: u32) -> MarkCounts
        ensures { (track : Track) → Stands self.now track → step ≡ next_step track
            → AreCounts result track.marks }
    {
        match self.latest {
            None => self.counts,
            Some(stretch) => self.counts.with(stretch.mark, stretch.length(step)),
        }
    }
}
