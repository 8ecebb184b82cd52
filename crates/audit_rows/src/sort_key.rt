//! The sort key of rows.
use crate::topic::Topic;

/// The sort key of rows: the last step, then the topic.
#[derive(Clone, Copy, PartialEq, Eq, PartialOrd, Ord)]
pub(crate) struct SortKey {
    pub(crate) last: u32,
    pub(crate) topic: Topic,
}
