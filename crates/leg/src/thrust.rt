// Thrust, and what a phase uses of it.
ghost use Rattle.std.specs.Prelude.{◌≡◌, ℕ, ◌≤◌};
ghost use Rattle.leg.specs.Rules.{cruise_cap, thrust_used, limited};

use crate::phase::Phase;
use std::marker::Model;

// In mN. The engines have a type of the same range; this one has methods, which only its own crate can give it.
#[derive(Clone, Copy)]
pub(crate) struct Thrust {
    pub(crate) millinewtons: u64,
}

impl Model for Thrust {
    ghost Value = { ℕ };

    ghost view = { λ t. t.millinewtons };

    ghost invariant = { λ t. t.millinewtons ≤ 10000000000 };

    ghost inverse = { λ n. record { millinewtons = n } };
}

impl Thrust {
    // The most of it that cruise uses, in mN.
    fn cap(self) -> u64
        ensures { result ≡ cruise_cap self }
    {
        95 * self.millinewtons / 100
    }

    // What a phase uses of it against a drag, where `share` is the descent factor.
    pub(crate) fn used(self, phase: Phase, drag: u64, share: u64) -> Thrust
        requires { share ≤ 100000000 }
        ensures { result ≡ thrust_used phase drag self share }
    {
        let millinewtons = match phase {
            Phase::Climb => self.millinewtons,
            Phase::Cruise => drag.min(self.cap()),
            Phase::Descent => share * self.millinewtons / 100000000,
        };
        Thrust { millinewtons }
    }

    // Whether cruise lacks thrust to meet the drag.
    pub(crate) fn is_short(self, phase: Phase, drag: u64) -> bool
        ensures { result ≡ limited phase drag self }
    {
        phase == Phase::Cruise && drag > self.cap()
    }
}
