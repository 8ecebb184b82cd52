//! The rows of an audit: maximal stretches of marks on many tracks, each reported once, in one order, as soon as they are
//! decided.
//!
//! A track has one mark per step. A meeting is a maximal stretch of engaged steps of an ordered pair of vessels; a
//! verdict is a maximal stretch of steps at which a rule is broken, or of steps at which its outcome is open. Rows are
//! ordered by their last step. If several end together, meetings come before verdicts, and then the order is by the
//! subject, the other and the rule. Tracks may be of different lengths: the marks of a rule that looks ahead come
//! later.
//!
//! If the pair (1, 2) is engaged at the steps 0, 1 and 3, and a rule is broken at the steps 1 to 3 of 0 to 3, the rows are the
//! meetings of the steps 0 to 1 and 3 to 3, and then the verdict of the steps 1 to 3. The first is decided by the mark of step 2.
#![tactic(auto)]

mod counts;
mod lane;
pub mod laws;
mod mark;
mod row;
mod row_queue;
mod sort_key;
mod stretch;
mod topic;

pub use counts::MarkCounts;
pub use mark::Mark;
pub use row::Row;
pub use row_queue::RowQueue;
pub use topic::Topic;
