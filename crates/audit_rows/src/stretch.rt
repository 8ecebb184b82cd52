//! A stretch of marks of one sort.
ghost use Rattle.std.specs.Prelude.{◌≡◌, ◌-◌};
ghost use Rattle.audit_rows.specs.Inner.Lanes.{ended, row_of};
ghost use Rattle.audit_rows.specs.Inner.Sorts.{join};

use crate::mark::Mark;
use crate::row::Row;
use crate::topic::Topic;

/// An open stretch of marks of one kind, which are joined to one. It does not store its end, so a further mark of its
/// kind, unless it marks an engagement, leaves it unchanged.
#[derive(Clone, Copy)]
pub(crate) struct Opened {
    pub(crate) first: u32,
    pub(crate) mark: Mark,
}

impl Opened {
    /// Takes one more mark of its kind.
    #[inline(always)]
    pub(crate) fn go_on(&mut self, mark: Mark)
        ensures { self.new ≡ record self.old { mark = join self.old.mark mark } }
    {
        self.mark = self.mark.join(mark);
    }

    /// Returns the stretch, if the next mark, which is not of it, is for the step.
    pub(crate) fn ended(self, step: u32) -> Stretch
        ensures { result ≡ ended self step }
    {
        Stretch {
            first: self.first,
            last: step.saturating_sub(1),
            mark: self.mark,
        }
    }

    /// Returns the number of its marks, if the next mark is for the step.
    pub(crate) fn length(self, step: u32) -> u32
        ensures { result ≡ step - self.first }
    {
        step.saturating_sub(self.first)
    }
}

/// A stretch of marks of one sort, which are joined to one.
#[derive(Clone, Copy)]
pub(crate) struct Stretch {
    pub(crate) first: u32,
    pub(crate) last: u32,
    pub(crate) mark: Mark,
}

impl Stretch {
    /// Returns its row, if rows of the topic report such a stretch.
    pub(crate) fn row(&self, topic: Topic) -> Option<Row>
        ensures { result ≡ row_of topic self.now }
    {
        let Stretch { first, last, mark } = *self;
        match (topic, mark) {
            (Topic::Meeting(pair), Mark::Engaged { kind, least }) => Some(Row::Meeting {
                pair,
                kind,
                first,
                last,
                least,
            }),
            (Topic::Verdict(pair, rule), Mark::Broken) => Some(Row::Verdict {
                pair,
                rule,
                undecided: false,
                first,
                last,
            }),
            (Topic::Verdict(pair, rule), Mark::Undecided) => Some(Row::Verdict {
                pair,
                rule,
                undecided: true,
                first,
                last,
            }),
            _ => None,
        }
    }
}
