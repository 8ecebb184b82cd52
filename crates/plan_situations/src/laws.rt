//! Laws of plans, which do nothing at run time.
ghost use Rattle.std.specs.Prelude.{ℕ, ◌≡◌, ◌<◌, ◌≤◌, ◌↔◌, List, length, take};
ghost use Rattle.std.specs.Int.Digits.{AllBelowBase};
ghost use Rattle.lattice.specs.Grids.{choices_of};
ghost use Rattle.plan_situations.specs.FailingPlans.{EntersAt, Fails, FailsBy, Some_};
ghost use Rattle.plan_situations.specs.Prefixes.{reached, AreOneBlock};
ghost use Rattle.plan_situations.specs.Reasons.{HasReason, RuleBreaksAt};
ghost use Rattle.plan_situations.specs.Safety.{IsSafe};
ghost use Rattle.plan_situations.specs.declared.situation.Target.{Target};

use crate::situation::Situation;
use meetings::laws::there_are_rows;

/// A plan fails by a tick exactly if it has a reason up to it: own ship enters some target's domain in some step, or some rule is newly
/// broken at the position of some step. So a prefix of legs fails exactly if it has a reason up to its horizon.
pub fn failing_has_a_reason(situation: &Situation)
    ensures { (plan : List ℕ) (last : ℕ)
        → FailsBy situation.now last plan
        ↔ Some_ (HasReason situation.now plan last) situation.now.targets }
{
    let _targets = situation.targets.as_slice();
    there_are_rows();
}

/// The plans that extend a prefix of legs agree with it, and so with each other, on every reason up to its horizon.
pub fn plans_agree(situation: &Situation)
    ensures entries { (prefix plan : List ℕ) (target : Target) (step : ℕ)
        → take (length prefix) plan ≡ prefix → step < reached situation.now (length prefix)
        → EntersAt situation.now prefix target step ↔ EntersAt situation.now plan target step }
    ensures rules { (prefix plan : List ℕ) (target : Target) (step rule : ℕ)
        → take (length prefix) plan ≡ prefix
        → RuleBreaksAt situation.now prefix (reached situation.now (length prefix)) target step rule
        ↔ RuleBreaksAt situation.now plan (reached situation.now (length prefix)) target step rule }
{
    let _legs = situation.lattice.legs();
}

/// The block law: if a prefix of legs makes a value No that is not No at now, or enters a domain, every plan that extends it fails,
/// and the plans that extend a prefix are exactly one block of consecutive numbers.
pub fn prefixes_are_blocks(situation: &Situation)
    ensures { (prefix : List ℕ) → AllBelowBase (choices_of situation.now.lattice) prefix
        → length prefix ≤ situation.now.lattice.legs → AreOneBlock situation.now prefix }
{
    let _legs = situation.lattice.legs();
    let _choices = situation.lattice.choices();
}

/// Under a plan that does not fail own ship is outside every target's domain at every rational instant of every planned step, and
/// she newly breaks no rule.
pub fn what_passes_is_safe(situation: &Situation)
    ensures { (plan : List ℕ) → (¬ Fails situation.now plan) → IsSafe situation.now plan }
{
    let _targets = situation.targets.as_slice();
}
