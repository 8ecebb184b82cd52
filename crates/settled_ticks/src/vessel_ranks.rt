//! The ranks of the vessels seen.
ghost use Rattle.std.specs.Prelude.{◌≡◌, ℕ, List, OnOk};
ghost use Rattle.log_lines.specs.JudgedLines.{numbers_of};
ghost use Rattle.log_lines.specs.SentLines.{sent};
ghost use Rattle.log_lines.specs.ShipTypes.{noted};
ghost use Rattle.log_lines.specs.Standing.{StandsFor as JudgeStandsFor, keeping_of};
ghost use Rattle.ranks.specs.Standing.{StandsFor as RanksStandFor};
ghost use Rattle.scenario_values.specs.declared.values.Scenario.{Scenario};
ghost use Rattle.settled_ticks.specs.Sightings.{ranks_of, vessel_rank};
ghost use Rattle.settled_ticks.specs.Standing.{AreSeen, HasReported};
ghost use Rattle.tracks.specs.Standing.{Remembers, kept_points};
ghost use Rattle.tracks.specs.VesselsHeld.{accepted_of};

use crate::guesses::Guesses;
use crate::last_reports::{alone, last_near};
use log_lines::Judge;
use motion::TickState;
use out_of_memory::Memory;
use ranks::{Rank, Ranks};
use tracks::{Accepted, Book};

/// Returns the index of the first vessel of a book from `from` whose MMSI is not less. If the book has the vessel, this
/// is her index. It is only a guess.
fn place_from(book: &Book, from: usize, mmsi: u32) -> usize {
    for at in from..book.vessels() {
        if mmsi <= book.vessel(at) {
            return at;
        }
    }
    book.vessels()
}

/// Returns the stored accepted reports of a vessel, without a search if the book has her at this index.
fn points_near(judge: &Judge, place: usize, mmsi: u32) -> &[Accepted]
    ensures { (scenario : Scenario) (lines : List (List ℕ))
        → JudgeStandsFor judge.now scenario lines
        → result.now ≡ kept_points (keeping_of judge.now)
        (accepted_of (numbers_of scenario) (sent scenario lines) mmsi) }
{
    let book = judge.book();
    if place < book.vessels() {
        let vessel = book.held(place);
        if vessel.mmsi == mmsi {
            return vessel.points;
        }
    }
    book.points(mmsi)
}

/// Returns the rank of a vessel at a time by which she has reported. Her index in the book and the index of her last
/// report are guesses.
fn rank_of(
    judge: &Judge,
    types: &Ranks,
    vessel: &(u32, TickState),
    time: u64,
    place: usize,
    guesses: &mut Guesses,
) -> Rank
    requires remembers { Remembers (keeping_of judge.now) time }
    requires reported { HasReported judge.now vessel.now.0 time }
    ensures { (scenario : Scenario) (lines : List (List ℕ))
        → JudgeStandsFor judge.now scenario lines
        → RanksStandFor types.now (noted (sent scenario lines))
        → result ≡ vessel_rank scenario (sent scenario lines) time vessel.now }
{
    let points = points_near(judge, place, vessel.0);
    let last = last_near(points, time, guesses.at(place));
    guesses.note(place, last);
    types.rank(vessel.0, alone(points, last, time), time)
}

/// Replaces the content of `ranks` with the ranks of the vessels seen at a time if ranks count, otherwise empties it.
pub(crate) fn rank_all(
    judge: &Judge,
    seen: &[(u32, TickState)],
    time: u64,
    ranks: &mut Vec<Rank>,
    guesses: &mut Guesses,
) -> Result<(), Memory>
    requires remembers { Remembers (keeping_of judge.now) time }
    requires seen { AreSeen judge.now seen.now time }
    ensures { OnOk result
        ((scenario : Scenario) (lines : List (List ℕ)) → JudgeStandsFor judge.now scenario lines
        → ranks.new.items ≡ ranks_of scenario (sent scenario lines) time seen.now) }
{
    ranks.clear();
    let Some(types) = judge.ranks() else {
        return Ok(());
    };
    let book = judge.book();
    guesses.make_room(book.vessels())?;
    let mut place = 0;
    for vessel in seen {
        place = place_from(book, place, vessel.0);
        ranks.push(rank_of(judge, types, vessel, time, place, guesses))?;
    }
    Ok(())
}
