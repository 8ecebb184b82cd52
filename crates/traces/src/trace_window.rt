//! The window of traces, tick by tick.
use crate::all_traces::AllTraces;
use crate::each_trace::{begin_each, end_each, follow_each};
use crate::fault::TickFault;
use crate::trace_keeper::TraceKeeper;
use motion::TickState;
use out_of_memory::Memory;
use ranks::Rank;
use std::alloc::Global;

/// The window of traces, which takes one tick after the other: it finds the pairs in contact, begins their traces,
/// gives each trace its next row, and ends them. The keeper defines the use of a trace.
#[derive(Drop)]
pub struct TraceWindow<K: TraceKeeper> {
    traces: AllTraces,
    /// The stored state of each trace, in the order of the traces.
    kept: Vec<K::Kept>,
    pub keeper: K,
}

impl<K: TraceKeeper> TraceWindow<K> {
    ghost use Rattle.std.specs.Prelude.{ℕ, ◌≡◌, ◌+◌, ◌≤◌, ◌++◌, ◌∷◌, [], List, Err, IfOk, OnOk};
    ghost use Rattle.traces.specs.Audited.{AreAscending, ArePlaced, AuditNumbers, MoveLittle, Sighting};
    ghost use Rattle.traces.specs.Known.{Known};
    ghost use Rattle.traces.specs.ManyTraces.{HaveMoreThan};
    ghost use Rattle.traces.specs.Standing.{IsSound, StandsFor, given_of, last_tick_of, latest_vessels, traces_of};
    ghost use Rattle.traces.specs.Window.{HasTakenTick, IsSoundWindow, WindowStandsFor, kept_in, traces_in};
    ghost use Rattle.traces.specs.declared.all_traces.TheConstants.{MOST_TRACES};
    ghost use Rattle.traces.specs.declared.fault.TickFault.TheVariants.{TooManyPairs};

    /// Returns the window of these traces, before the first of them begins.
    pub fn new(alloc: Global, traces: AllTraces, keeper: K) -> TraceWindow<K>
        requires sound { IsSound traces }
        requires none { traces_of traces ≡ 0 }
        requires goes_on { (K.keeper keeper).Sound }
        ensures traces { traces_in result ≡ traces }
        ensures keeper { result.keeper ≡ keeper }
        ensures none { kept_in result ≡ [] }
        ensures sound { IsSoundWindow (K.keeper result.keeper) result }
    {
        TraceWindow {
            traces,
            kept: Vec::new(alloc),
            keeper,
        }
    }

    /// Returns the number of ticks so far.
    pub fn given(&self) -> u32
        ensures { result ≡ given_of (traces_in self.now) }
    {
        self.traces.given()
    }

    /// Returns the number of the window's last tick.
    pub fn last_tick(&self) -> u32
        ensures { result ≡ last_tick_of (traces_in self.now) }
    {
        self.traces.last_tick()
    }

    /// Takes the next tick: gives each trace its next row, and begins the traces of the audited pairs that are in
    /// contact for the first time, before the last tick. These vessels are seen at the tick, in the order of their
    /// MMSIs. The ranks are those of the vessels seen, in the same order; no ranks if they do not count. After an `Err`
    /// the caller may only drop the window.
    pub fn tick(&mut self, seen: &[(u32, TickState)], ranks: &[Rank]) -> Result<(), TickFault>
        requires sound { IsSoundWindow (K.keeper self.old.keeper) self.old }
        requires ascending { AreAscending seen.now }
        requires placed { ArePlaced seen.now }
        requires moves { MoveLittle (latest_vessels (traces_in self.old)) seen.now }
        requires more { given_of (traces_in self.old) ≤ last_tick_of (traces_in self.old) }
        ensures sound { OnOk result (IsSoundWindow (K.keeper self.new.keeper) self.new) }
        ensures given { OnOk result
            (given_of (traces_in self.new) ≡ given_of (traces_in self.old) + 1) }
        ensures last_tick { OnOk result
            (last_tick_of (traces_in self.new) ≡ last_tick_of (traces_in self.old)) }
        ensures latest { OnOk result (latest_vessels (traces_in self.new) ≡ seen.now) }
        ensures takes { OnOk result
            ((numbers : AuditNumbers) (ticks : List Sighting) (knowns : List Known)
            (given : K.Given)
            → WindowStandsFor (K.keeper self.old.keeper) self.old numbers ticks knowns given
            → HasTakenTick (K.keeper self.new.keeper) self.new numbers ticks
            (record { vessels = seen.now; ranks = ranks.now }) knowns given) }
        // The limit is exceeded exactly if the tick begins a 4097th trace; memory may run out before.
        ensures many { result ≡ Err TooManyPairs
            → (numbers : AuditNumbers) (ticks : List Sighting) (knowns : List Known)
            (given : K.Given)
            → WindowStandsFor (K.keeper self.old.keeper) self.old numbers ticks knowns given
            → HaveMoreThan MOST_TRACES numbers
            (ticks ++ record { vessels = seen.now; ranks = ranks.now } ∷ []) }
        ensures few { OnOk result
            ((numbers : AuditNumbers) (ticks : List Sighting) (knowns : List Known)
            (given : K.Given)
            → WindowStandsFor (K.keeper self.old.keeper) self.old numbers ticks knowns given
            → HaveMoreThan MOST_TRACES numbers
            (ticks ++ record { vessels = seen.now; ranks = ranks.now } ∷ []) → ⊥) }
    {
        let given = self.traces.given();
        follow_each(
            &mut self.traces,
            &mut self.kept,
            &mut self.keeper,
            seen,
            given.saturating_sub(1),
        )?;
        self.traces.tick(seen, ranks)?;
        begin_each(&self.traces, &mut self.kept, &mut self.keeper, given)?;
        Ok(())
    }

    /// Ends each trace, after the last tick of the window, and returns the keeper.
    pub fn end(self) -> Result<K, Memory>
        requires sound { IsSoundWindow (K.keeper self.keeper) self }
        ensures { IfOk result
            (λ keeper. (numbers : AuditNumbers) (ticks : List Sighting) (knowns : List Known)
            (step : ℕ) (given : K.Given) → StandsFor (traces_in self) numbers ticks knowns
            → (K.keeper self.keeper).Ends numbers step (kept_in self) [] knowns given
            → (kept : List K.Kept) × (K.keeper keeper).Ends numbers step kept knowns [] given) }
    {
        let TraceWindow {
            traces: _,
            mut kept,
            mut keeper,
        } = self;
        end_each(&mut kept, &mut keeper)?;
        Ok(keeper)
    }
}
