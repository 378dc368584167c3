// The drag pair of a leg, and its drag.
ghost use Rattle.std.specs.Prelude.{◌≡◌, ℕ, ◌≤◌, if◌then◌else◌, Ok, Err};
ghost use Rattle.refusal.specs.declared.refusal.Refusal.TheVariants.{Lift};
ghost use Rattle.leg.specs.Rules.{weight, lifts, drag_of};

use crate::mass::Mass;
use refusal::refusal::Refusal;
use std::marker::Model;

// CD0, a gear's included, and CD2, in 10⁻⁸.
#[derive(Clone, Copy)]
pub(crate) struct Coefficients {
    pub(crate) cd0: u64,
    pub(crate) cd2: u64,
}

impl Model for Coefficients {
    ghost Value = { ℕ × ℕ };

    ghost view = { λ c. (c.cd0, c.cd2) };

    ghost invariant = { λ c. (c.cd0 ≤ 94000000) × (c.cd2 ≤ 47000000) };

    ghost inverse = { λ pair. record { cd0 = pair.0; cd2 = pair.1 } };
}

impl Coefficients {
    // In mN, with a wing's force in mN; refused where the wing does not lift the weight.
    pub(crate) fn drag(self, mass: Mass, force: u64) -> Result<u64, Refusal>
        requires { force ≤ 97260009259 }
        ensures { result ≡ (if lifts (weight mass.milligrams) force then Ok (drag_of self (weight mass.milligrams) force) else Err Lift) }
    {
        let weight = mass.milligrams / 1000 * 980665 / 1000000;
        if 10 * weight > 3 * force {
            return Err(Refusal::Lift);
        }
        let parasitic = self.cd0 * force / 100000000;
        let loading = 10 * (weight * weight) / force;
        let induced = self.cd2 * loading / 10000000;
        Ok(parasitic + induced)
    }
}
