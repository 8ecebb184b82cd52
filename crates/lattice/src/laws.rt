//! Laws of lattices, which do nothing at run time.
ghost use Rattle.std.specs.Prelude.{◌≡◌};
ghost use Rattle.lattice.specs.Grids.{choices_of};
ghost use Rattle.lattice.specs.OwnMotion.{TakesOrdersAtOnce};
ghost use Rattle.lattice.specs.PlanNumbers.{AreInverse};

use crate::lattice::Lattice;

/// `Lattice::plan` and `Lattice::number` are inverse.
pub fn numbers_and_plans_are_inverse(lattice: &Lattice)
    ensures { AreInverse (choices_of lattice.now) lattice.now.legs }
{
    let _choices = lattice.choices();
}

/// If both rates have their greatest values, own ship takes the ordered course and speed at once.
pub fn orders_are_taken_at_once(lattice: &Lattice)
    requires turn_rate { lattice.now.turn_rate ≡ 1800 }
    requires speed_rate { lattice.now.speed_rate ≡ 1022 }
    ensures { TakesOrdersAtOnce lattice.now }
{
    let _ = &lattice.legs;
}
