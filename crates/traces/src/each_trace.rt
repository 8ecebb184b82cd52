//! All traces of a window: the step of each, the beginning of further ones, and the end of each.
ghost use Rattle.std.specs.Prelude.{ℕ, ◌≡◌, ◌≢◌, ◌+◌, ◌-◌, ◌<◌, ◌≤◌, ◌++◌, ◌∷◌, ◌^◌, [], List, length, All, OnOk, false, true};
ghost use Rattle.std.specs.List.{AllPairs, Contains};
ghost use Rattle.traces.specs.Audited.{AreAscending, ArePlaced, AuditNumbers, MoveLittle, Sighting};
ghost use Rattle.traces.specs.Inner.Distances.{SeeTheSame};
ghost use Rattle.traces.specs.Keeping.{GoesOn, IsAtStep};
ghost use Rattle.traces.specs.Known.{AreKnown, AreOpened, IsUpTo, Known, opened, pairs_of};
ghost use Rattle.traces.specs.Standing.{IsSound, StandsFor, given_of, last_tick_of, latest_vessels, traces_of};
ghost use Rattle.traces.specs.Window.{AreStepped, IsReadyFor, TakesStep};
ghost use Rattle.traces.specs.declared.all_traces.TheConstants.{MOST_TRACES};

use crate::all_traces::AllTraces;
use crate::next_row::NextRow;
use crate::trace_keeper::TraceKeeper;
use meetings::Pair;
use motion::TickState;
use out_of_memory::Memory;

/// Takes the next step of the trace with this index without its row, if the vessels stay apart and the keeper needs no
/// more. Otherwise the step is not taken. If `same` is true, the vessels seen are the same as at the latest tick.
#[inline(always)]
fn rests<K: TraceKeeper>(
    traces: &mut AllTraces,
    one: &mut K::Kept,
    keeper: &K,
    seen: &[(u32, TickState)],
    same: bool,
    index: usize,
    step: u32,
) -> bool
    requires sound { IsSound traces.old }
    requires within { index < traces_of traces.old }
    requires ascending { AreAscending seen.now }
    requires same { same ≡ true → SeeTheSame (latest_vessels traces.old) seen.now }
    requires goes_on { (K.keeper keeper.now).Sound }
    requires ready { (K.keeper keeper.now).Ready one.old }
    requires few { (K.keeper keeper.now).steps one.old < 2 ^ 31 }
    ensures sound { IsSound traces.new }
    ensures given { given_of traces.new ≡ given_of traces.old }
    ensures last_tick { last_tick_of traces.new ≡ last_tick_of traces.old }
    ensures latest { latest_vessels traces.new ≡ latest_vessels traces.old }
    ensures as_many { traces_of traces.new ≡ traces_of traces.old }
    ensures stays { result ≡ false → one.new ≡ one.old }
    ensures stands { (numbers : AuditNumbers) (ticks : List Sighting) (front : List Known)
        (known : Known) (back : List Known)
        → StandsFor traces.old numbers ticks (front ++ known ∷ back) → index ≡ length front
        → StandsFor traces.new numbers ticks (front ++ known ∷ back) }
    ensures ready { result ≡ true → (K.keeper keeper.now).Ready one.new }
    ensures one_more { result ≡ true
        → (K.keeper keeper.now).steps one.new ≡ (K.keeper keeper.now).steps one.old + 1 }
    ensures rests { result ≡ true → (numbers : AuditNumbers) (ticks : List Sighting)
        (front : List Known) (known : Known) (back : List Known)
        → StandsFor traces.old numbers ticks (front ++ known ∷ back) → index ≡ length front
        → length known.steps < 2 ^ 31 → IsAtStep step known
        → TakesStep (K.keeper keeper.now) (K.keeper keeper.now) numbers ticks seen.now step
        traces.new index one.old one.new front known back }
{
    match traces.glance(index, seen, same) {
        None => false,
        Some(glance) => keeper.rest(index, one, glance, step),
    }
}

/// Takes the next step of the trace with this index: it has the number `step`, and is to the tick at which these vessels
/// are seen. Passes its row to the keeper, unless it can do without. If `same` is true, the vessels seen are the same as
/// at the latest tick.
#[inline(always)]
fn follow_one<K: TraceKeeper>(
    traces: &mut AllTraces,
    one: &mut K::Kept,
    keeper: &mut K,
    seen: &[(u32, TickState)],
    same: bool,
    index: usize,
    step: u32,
) -> Result<(), Memory>
    requires sound { IsSound traces.old }
    requires within { index < traces_of traces.old }
    requires ascending { AreAscending seen.now }
    requires placed { ArePlaced seen.now }
    requires moves { MoveLittle (latest_vessels traces.old) seen.now }
    requires same { same ≡ true → SeeTheSame (latest_vessels traces.old) seen.now }
    requires goes_on { (K.keeper keeper.old).Sound }
    requires ready { (K.keeper keeper.old).Ready one.old }
    requires few { (K.keeper keeper.old).steps one.old < 2 ^ 31 }
    ensures sound { IsSound traces.new }
    ensures given { given_of traces.new ≡ given_of traces.old }
    ensures last_tick { last_tick_of traces.new ≡ last_tick_of traces.old }
    ensures latest { latest_vessels traces.new ≡ latest_vessels traces.old }
    ensures as_many { traces_of traces.new ≡ traces_of traces.old }
    ensures goes_on { OnOk result (GoesOn (K.keeper keeper.old) (K.keeper keeper.new)) }
    ensures ready { OnOk result ((K.keeper keeper.new).Ready one.new) }
    ensures one_more { OnOk result
        ((K.keeper keeper.new).steps one.new ≡ (K.keeper keeper.old).steps one.old + 1) }
    ensures takes { OnOk result
        ((numbers : AuditNumbers) (ticks : List Sighting) (front : List Known) (known : Known)
        (back : List Known) → StandsFor traces.old numbers ticks (front ++ known ∷ back)
        → index ≡ length front → length known.steps < 2 ^ 31 → IsUpTo ticks known
        → IsAtStep step known
        → TakesStep (K.keeper keeper.old) (K.keeper keeper.new) numbers ticks seen.now step
        traces.new index one.old one.new front known back) }
{
    if rests(traces, one, keeper, seen, same, index, step) {
        return Ok(());
    }
    let was = traces.state(index);
    let next_step = traces.next_step(index, seen);
    let pair_step = next_step.as_ref();
    let row = traces.take_step(index, pair_step);
    let is = traces.state(index);
    let next = NextRow {
        seen: pair_step,
        row: &row,
        was: &was,
        is: &is,
    };
    keeper.step(index, one, next, step)?;
    Ok(())
}

/// Passes each trace its next row: that of the step with this number, to the tick at which these vessels are seen.
pub(crate) fn follow_each<K: TraceKeeper>(
    traces: &mut AllTraces,
    kept: &mut [K::Kept],
    keeper: &mut K,
    seen: &[(u32, TickState)],
    step: u32,
) -> Result<(), Memory>
    requires sound { IsSound traces.old }
    requires ascending { AreAscending seen.now }
    requires placed { ArePlaced seen.now }
    requires moves { MoveLittle (latest_vessels traces.old) seen.now }
    requires many { length kept.old ≡ traces_of traces.old }
    requires few { given_of traces.old ≤ 20000 }
    requires goes_on { (K.keeper keeper.old).Sound }
    requires ready { All (IsReadyFor (K.keeper keeper.old) (given_of traces.old)) kept.old }
    ensures sound { IsSound traces.new }
    ensures given { given_of traces.new ≡ given_of traces.old }
    ensures last_tick { last_tick_of traces.new ≡ last_tick_of traces.old }
    ensures traces { traces_of traces.new ≡ traces_of traces.old }
    ensures many { length kept.new ≡ length kept.old }
    ensures goes_on { OnOk result ((K.keeper keeper.new).Sound) }
    ensures ready { OnOk result
        (All (IsReadyFor (K.keeper keeper.new) (given_of traces.old + 1)) kept.new) }
    ensures stepped { OnOk result
        ((numbers : AuditNumbers) (ticks : List Sighting) (knowns : List Known) (given : K.Given)
        → AreKnown numbers ticks knowns → StandsFor traces.old numbers ticks knowns
        → step ≡ length ticks - 1
        → (K.keeper keeper.old).Stands numbers step kept.old [] knowns given
        → AreStepped (K.keeper keeper.new) numbers ticks seen.now step traces.new kept.new knowns
        given) }
{
    let same = traces.sees_the_same(seen);
    for (index, one) in kept.iter_mut().enumerate() {
        follow_one(traces, one, keeper, seen, same, index, step)?;
    }
    Ok(())
}

/// Begins the trace of a pair at a step.
fn begin_one<K: TraceKeeper>(
    kept: &mut Vec<K::Kept>,
    keeper: &mut K,
    pair: Pair,
    start: u32,
) -> Result<(), Memory>
    requires early { start < 2 ^ 31 }
    requires goes_on { (K.keeper keeper.old).Sound }
    requires ready { All (IsReadyFor (K.keeper keeper.old) (start + 1)) kept.old.items }
    ensures many { OnOk result (length kept.new.items ≡ length kept.old.items + 1) }
    ensures goes_on { OnOk result ((K.keeper keeper.new).Sound) }
    ensures ready { OnOk result
        (All (IsReadyFor (K.keeper keeper.new) (start + 1)) kept.new.items) }
    ensures stands { OnOk result
        ((numbers : AuditNumbers) (step : ℕ) (done rest : List Known) (given : K.Given)
        → (K.keeper keeper.old).Stands numbers step kept.old.items done rest given → step ≤ start
        → (Contains (pairs_of (done ++ rest)) pair → ⊥)
        → (K.keeper keeper.new).Stands numbers step kept.new.items done
        (rest ++ opened pair start ∷ []) given) }
{
    let begun = keeper.begin(pair, start)?;
    kept.push(begun)?;
    Ok(())
}

/// Begins the traces that start at this step, which follow the earlier ones.
pub(crate) fn begin_each<K: TraceKeeper>(
    traces: &AllTraces,
    kept: &mut Vec<K::Kept>,
    keeper: &mut K,
    start: u32,
) -> Result<(), Memory>
    requires early { start < 2 ^ 31 }
    requires few { length kept.old.items ≤ traces_of traces.now }
    requires goes_on { (K.keeper keeper.old).Sound }
    requires ready { All (IsReadyFor (K.keeper keeper.old) (start + 1)) kept.old.items }
    ensures many { OnOk result (length kept.new.items ≡ traces_of traces.now) }
    ensures goes_on { OnOk result ((K.keeper keeper.new).Sound) }
    ensures ready { OnOk result
        (All (IsReadyFor (K.keeper keeper.new) (start + 1)) kept.new.items) }
    ensures stands { OnOk result
        ((numbers : AuditNumbers) (ticks : List Sighting) (done new : List Known) (step : ℕ)
        (given : K.Given) → StandsFor traces.now numbers ticks (done ++ new)
        → AllPairs ◌≢◌ (pairs_of (done ++ new)) → AreOpened start new → step ≤ start
        → length kept.old.items ≡ length done
        → (K.keeper keeper.old).Stands numbers step kept.old.items done [] given
        → (K.keeper keeper.new).Stands numbers step kept.new.items done new given) }
{
    for index in kept.len()..traces.len() {
        begin_one(kept, keeper, traces.pair(index), start)?;
    }
    Ok(())
}

/// Ends each trace.
pub(crate) fn end_each<K: TraceKeeper>(kept: &mut [K::Kept], keeper: &mut K) -> Result<(), Memory>
    requires many { length kept.old ≤ MOST_TRACES }
    requires goes_on { (K.keeper keeper.old).Sound }
    requires ready { All (IsReadyFor (K.keeper keeper.old) 20001) kept.old }
    ensures { OnOk result
        ((numbers : AuditNumbers) (step : ℕ) (knowns : List Known) (given : K.Given)
        → length kept.old ≡ length knowns
        → (K.keeper keeper.old).Ends numbers step kept.old [] knowns given
        → (K.keeper keeper.new).Ends numbers step kept.new knowns [] given) }
{
    for (index, one) in kept.iter_mut().enumerate() {
        keeper.end(index, one)?;
    }
    Ok(())
}
