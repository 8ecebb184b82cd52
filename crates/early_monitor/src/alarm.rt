//! The content of an alarm.
use meetings::Pair;

/// A breach of a rule at the step that decides it. Alarms are in order by the deciding step, then by the pair, the rule and the
/// position.
#[derive(Clone, Copy, Debug, PartialEq, Eq, PartialOrd, Ord)]
pub struct Alarm {
    /// The number of the step that decides it.
    pub decided: u32,
    /// The vessels; the rule binds the first one.
    pub pair: Pair,
    /// The index of the rule.
    pub rule: u32,
    /// The number of the step at which it is broken.
    pub position: u32,
}
