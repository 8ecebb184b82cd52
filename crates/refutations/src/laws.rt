//! Laws of refutations, which do nothing at run time.
ghost use Rattle.std.specs.Prelude.{ℕ, ◌≡◌, ◌↔◌, All, List, length, take};
ghost use Rattle.plan_situations.specs.LeastPlans.{AllFail};
ghost use Rattle.plan_situations.specs.Prefixes.{reached};
ghost use Rattle.plan_situations.specs.declared.situation.Target.{Target};
ghost use Rattle.refutations.specs.GoodEntries.{Holds, HoldsFor};
ghost use Rattle.refutations.specs.RightLists.{IsEntry, IsRight};
ghost use Rattle.refutations.specs.declared.entry.Reason.{Reason};
ghost use Rattle.refutations.specs.declared.entry.WhyEntry.{WhyEntry};

use plan_situations::Situation;
use plan_situations::laws::{failing_has_a_reason, prefixes_are_blocks};

/// All plans that extend a prefix agree on each reason up to the prefix's horizon, whatever legs follow.
pub fn plans_agree_on_reasons(situation: &Situation)
    ensures { (prefix plan : List ℕ) (target : Target) (reason : Reason)
        → take (length prefix) plan ≡ prefix
        → HoldsFor situation.now prefix target reason
        ↔ Holds situation.now plan (reached situation.now (length prefix)) target reason }
{
    let _legs = situation.lattice.legs();
}

/// If there is a right list, every plan fails.
pub fn a_right_list_refutes(situation: &Situation)
    ensures { (entries : List WhyEntry) → All (IsEntry situation.now) entries
        → IsRight situation.now entries → AllFail situation.now }
{
    prefixes_are_blocks(situation);
    failing_has_a_reason(situation);
    let _choices = situation.lattice.choices();
}
