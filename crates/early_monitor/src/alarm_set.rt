//! The alarms of one step, collected trace by trace and kept in order.
ghost use Rattle.std.specs.Prelude.{◌≡◌, ◌<◌, ◌^◌, IfOk, IfSome, OnOk, Some, true};
ghost use Rattle.early_monitor.specs.Alarms.{InOrder};
ghost use Rattle.early_monitor.specs.Inner.Breaches.{Adds, IsNotBroken, Tells, alarm_at};
ghost use Rattle.early_monitor.specs.declared.alarm.Alarm.{Alarm};

use crate::alarm::Alarm;
use meetings::Pair;
use mtl_formulas::Verdict;
use out_of_memory::Memory;
use std::alloc::Global;
use std::collections::BTreeSet;

/// The place of a check: the trace, given by its pair and its first step, the rule, and the latest step.
#[derive(Clone, Copy)]
pub(crate) struct Place {
    pub(crate) pair: Pair,
    pub(crate) start: u32,
    pub(crate) rule: u32,
    pub(crate) step: u32,
}

/// Adds the alarm of a position of the trace that the latest step has decided.
pub(crate) fn add_alarm(
    alarms: &mut BTreeSet<Alarm>,
    place: Place,
    position: u32,
) -> Result<(), Memory>
    requires start { place.start < 2 ^ 31 }
    requires position { position < 2 ^ 31 }
    ensures { OnOk result
        (Adds (λ (a : Alarm). a ≡ alarm_at place position) alarms.old.keys alarms.new.keys) }
{
    alarms.insert(Alarm {
        decided: place.step,
        pair: place.pair,
        rule: place.rule,
        position: place.start + position,
    })?;
    Ok(())
}

/// Adds the alarm of a position if its value is No.
pub(crate) fn take_value(
    alarms: &mut BTreeSet<Alarm>,
    place: Place,
    position: u32,
    value: Verdict,
) -> Result<(), Memory>
    requires start { place.start < 2 ^ 31 }
    requires position { position < 2 ^ 31 }
    ensures { OnOk result
        (Adds (Tells (Some (position, value)) place) alarms.old.keys alarms.new.keys) }
{
    match value {
        Verdict::No => add_alarm(alarms, place, position),
        Verdict::Open | Verdict::Yes => Ok(()),
    }
}

/// Adds the alarm of an answer's position if its value is No.
pub(crate) fn take_answer(
    alarms: &mut BTreeSet<Alarm>,
    place: Place,
    answer: Option<(u32, Verdict)>,
) -> Result<(), Memory>
    requires start { place.start < 2 ^ 31 }
    requires position { IfSome answer (λ a. a.0 < 2 ^ 31) }
    ensures { OnOk result (Adds (Tells answer place) alarms.old.keys alarms.new.keys) }
{
    match answer {
        None => Ok(()),
        Some((position, value)) => take_value(alarms, place, position, value),
    }
}

/// Returns whether there is an answer whose value is not No.
pub(crate) fn is_not_broken(answer: Option<(u32, Verdict)>) -> bool
    ensures { result ≡ true → IsNotBroken answer }
{
    match answer {
        None | Some((_, Verdict::No)) => false,
        Some((_, Verdict::Open | Verdict::Yes)) => true,
    }
}

/// Returns the alarms in order.
pub(crate) fn listed(alloc: Global, alarms: &BTreeSet<Alarm>) -> Result<Vec<Alarm>, Memory>
    ensures items { IfOk result (λ list. list.items ≡ alarms.now.keys) }
    ensures ordered { IfOk result (λ list. InOrder list.items) }
{
    let mut list = Vec::new(alloc);
    for alarm in alarms {
        list.push(*alarm)?;
    }
    Ok(list)
}
