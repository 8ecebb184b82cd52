//! The alarms of a watch over the worked meeting.
ghost use Rattle.std.specs.Prelude.{◌≡◌, ◌+◌, ◌≤◌, [], IfOk, OnOk};
ghost use Rattle.traces.specs.Audited.{MoveLittle};
ghost use Rattle.early_monitor.specs.Watching.{IsSound, given_of, last_tick_of, latest_vessels};
ghost use Rattle.auditor_rows.specs.WorkedMeeting.{head_on_at};

use crate::audits::{ACT, ALL, BACK, DETECT, NUMBERS, PAIR, UNRANKED, head_on};
use crate::compared::is;
use early_monitor::{Alarm, Watch, WatchFault};
use meetings::Pair;
use mtl_language::parse;
use out_of_memory::Memory;
use rule_set::{Name, RuleSet};
use scenario_values::Window;
use std::alloc::Global;
use std::process::Abort;
use std::test::Fail;

/// Returns a watch of 40 ticks of 10 seconds, by these rules.
fn watch(alloc: Global, rules: &RuleSet) -> Result<Watch, Memory>
    ensures sound { IfOk result (λ watch. IsSound watch) }
    ensures none { IfOk result (λ watch. given_of watch ≡ 0) }
    ensures last { IfOk result (λ watch. last_tick_of watch ≡ 40) }
    ensures latest { IfOk result (λ watch. latest_vessels watch ≡ []) }
{
    let window = Window {
        start: 1_700_000_000,
        tick: 10,
        ticks: 40,
    };
    Watch::new(alloc, rules, DETECT, ACT, &ALL, window)
}

/// Collects alarms, each with the tick that returned it.
fn keep(alarms: &mut Vec<(u32, Alarm)>, k: u32, given: &[Alarm]) -> Result<(), Memory> {
    for alarm in given {
        alarms.push((k, *alarm))?;
    }
    Ok(())
}

/// Takes a tick of the meeting, and collects the alarms that it returns.
fn take(watch: &mut Watch, k: u32, alarms: &mut Vec<(u32, Alarm)>) -> Result<(), WatchFault>
    requires sound { IsSound watch.old }
    requires at { given_of watch.old ≡ k }
    requires within { k ≤ last_tick_of watch.old }
    requires small { k ≤ 40 }
    requires moves { MoveLittle (latest_vessels watch.old) (head_on_at k) }
    ensures sound { OnOk result (IsSound watch.new) }
    ensures at { OnOk result (given_of watch.new ≡ k + 1) }
    ensures last { OnOk result (last_tick_of watch.new ≡ last_tick_of watch.old) }
    ensures moves { OnOk result (MoveLittle (latest_vessels watch.new) (head_on_at (k + 1))) }
{
    let seen = head_on(k);
    let given = watch.step(&seen, &UNRANKED)?;
    Ok(keep(alarms, k, &given)?)
}

/// Takes all ticks of the meeting, and collects the alarms that they return.
fn take_all(watch: &mut Watch, alarms: &mut Vec<(u32, Alarm)>) -> Result<(), WatchFault>
    requires sound { IsSound watch.old }
    requires none { given_of watch.old ≡ 0 }
    requires last { last_tick_of watch.old ≡ 40 }
    requires latest { latest_vessels watch.old ≡ [] }
{
    for k in 0..41_u32 {
        take(watch, k, alarms)?;
    }
    Ok(())
}

/// Collects the alarms of the meeting by these rules, each with the tick that returned it.
fn keep_all(
    alloc: Global,
    rules: &RuleSet,
    alarms: &mut Vec<(u32, Alarm)>,
) -> Result<(), WatchFault> {
    let mut watch = watch(alloc, rules)?;
    take_all(&mut watch, alarms)
}

/// The tick that returns alarms, the step that decides them, their pair and rule, and their positions from one to
/// another.
type Told = (u32, u32, Pair, u32, u32, u32);

/// Returns each alarm separately.
fn listed(alloc: Global, told: &[Told]) -> Result<Vec<(u32, Alarm)>, Memory> {
    let mut alarms = Vec::new(alloc);
    for (tick, decided, pair, rule, first, end) in told {
        for position in *first..*end {
            let alarm = Alarm {
                decided: *decided,
                pair: *pair,
                rule: *rule,
                position,
            };
            alarms.push((*tick, alarm))?;
        }
    }
    Ok(alarms)
}

/// Checks that these are the alarms of the meeting by these rules.
fn are_told(
    rt: &impl Abort,
    alloc: Global,
    rules: &RuleSet,
    told: &[Told],
) -> Result<(), WatchFault> {
    let wanted = listed(alloc, told)?;
    let mut alarms = Vec::new(alloc);
    keep_all(alloc, rules, &mut alarms)?;
    is(rt, alarms.as_slice(), wanted.as_slice());
    Ok(())
}

/// The fourth rule is broken at step 0, which step 6 decides. The second is broken at steps 18 to 21, at which the
/// vessels are not clear; each of these steps decides itself.
static BY_ELEVEN_RULES: [Told; 10] = [
    (7, 6, PAIR, 3, 0, 1),
    (7, 6, BACK, 3, 0, 1),
    (19, 18, PAIR, 1, 18, 19),
    (19, 18, BACK, 1, 18, 19),
    (20, 19, PAIR, 1, 19, 20),
    (20, 19, BACK, 1, 19, 20),
    (21, 20, PAIR, 1, 20, 21),
    (21, 20, BACK, 1, 20, 21),
    (22, 21, PAIR, 1, 21, 22),
    (22, 21, BACK, 1, 21, 22),
];

#[test]
fn head_on_where_nobody_alters_is_told_at_the_steps_that_decide_it(
    rt: HostRuntime,
) -> Result<(), WatchFault> {
    let rules = RuleSet::new(rt.alloc(), &NUMBERS, 10)?;
    are_told(&rt, rt.alloc(), &rules, &BY_ELEVEN_RULES)
}

/// Adds the rule that the vessels are clear for 600 seconds.
fn add_long_rule(rt: &impl Abort, alloc: Global, rules: &mut RuleSet) -> Result<(), Fail> {
    assert!(rt; rules.len() < 17 && !rules.holds(b"u1"));
    let always = parse(alloc, b"G[0,600] clear(200)", 10)?;
    is(rt, rules.add(Name::of(b"u1"), always).is_ok(), true);
    Ok(())
}

/// The rule that the vessels are clear for 600 seconds is broken up to step 21; step 18 decides all steps before it.
static WITH_A_LONG_RULE: [Told; 18] = [
    (7, 6, PAIR, 3, 0, 1),
    (7, 6, BACK, 3, 0, 1),
    (19, 18, PAIR, 1, 18, 19),
    (19, 18, PAIR, 11, 0, 19),
    (19, 18, BACK, 1, 18, 19),
    (19, 18, BACK, 11, 0, 19),
    (20, 19, PAIR, 1, 19, 20),
    (20, 19, PAIR, 11, 19, 20),
    (20, 19, BACK, 1, 19, 20),
    (20, 19, BACK, 11, 19, 20),
    (21, 20, PAIR, 1, 20, 21),
    (21, 20, PAIR, 11, 20, 21),
    (21, 20, BACK, 1, 20, 21),
    (21, 20, BACK, 11, 20, 21),
    (22, 21, PAIR, 1, 21, 22),
    (22, 21, PAIR, 11, 21, 22),
    (22, 21, BACK, 1, 21, 22),
    (22, 21, BACK, 11, 21, 22),
];

#[test]
fn a_rule_over_a_long_time_is_told_with_the_step_that_breaks_it(
    rt: HostRuntime,
) -> Result<(), Fail> {
    let mut rules = RuleSet::new(rt.alloc(), &NUMBERS, 10)?;
    add_long_rule(&rt, rt.alloc(), &mut rules)?;
    Ok(are_told(&rt, rt.alloc(), &rules, &WITH_A_LONG_RULE)?)
}
