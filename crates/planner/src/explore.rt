//! The walk over the tree of legs.
ghost use Rattle.std.specs.Prelude.{ℕ, ◌≡◌, ◌<◌, ◌≤◌, ◌+◌, ◌*◌, ◌^◌, length, MatchOption};
ghost use Rattle.lattice.specs.Grids.{choices_of};
ghost use Rattle.lattice.specs.PlanNumbers.{plan_of};
ghost use Rattle.planner.specs.Inner.Levels.{ArePlaces, IsAfter, IsBasis};
ghost use Rattle.planner.specs.Inner.Walk.{AllFailFrom, IsFirst};
ghost use Rattle.plan_situations.specs.Prefixes.{PrefixFails};

use crate::basis::SearchBasis;
use crate::legs::{PlannedLeg, own_at_leg};
use crate::level::{Extended, Level};
use plan_situations::Situation;

/// Returns the number of the first plan that extends a prefix and does not fail. `number` is that of the prefix, which
/// has this many legs, and `below` has places for each leg that is left.
pub(crate) fn explore(
    situation: &Situation,
    basis: &SearchBasis,
    from: &Level,
    below: &mut [Level],
    leg: u8,
    number: u32,
) -> Option<u32>
    requires basis { IsBasis situation.now basis.now }
    requires places { ArePlaces situation.now basis.now leg below.old }
    requires number { number < choices_of situation.now.lattice ^ leg }
    requires from { IsAfter situation.now basis.now leg number from.now }
    requires passes { length below.old ≡ 0
        → ¬ PrefixFails situation.now (plan_of (choices_of situation.now.lattice) leg number) }
    ensures places { ArePlaces situation.now basis.now leg below.new }
    ensures answer { let first = number
        * choices_of situation.now.lattice ^ length below.old in let end = (number + 1)
        * choices_of situation.now.lattice ^ length below.old in MatchOption result
        (AllFailFrom situation.now first end) (IsFirst situation.now first end) }
{
    let Some((to, rest)) = below.split_first_mut() else {
        return Some(number);
    };
    let own = own_at_leg(situation, leg, number);
    let choices = situation.lattice.choices();
    let mut ended = false;
    for choice in 0..choices {
        let extended = number * choices + choice;
        let next = PlannedLeg::new(situation, leg, extended, own);
        match to.extend(situation, basis, from, &next, &mut ended) {
            Extended::Passes => {
                if let Some(found) = explore(situation, basis, to, rest, leg + 1, extended) {
                    return Some(found);
                }
            }
            Extended::Fails => {}
            Extended::FailedBefore => return None,
        }
    }
    None
}
