// Numbers within bounds.
ghost use Rattle.std.specs.Prelude.{◌≡◌, ◌&&◌, if◌then◌else◌, nat_le, Some, None};

use std::marker::Model;

// A number from LOW to HIGH.
#[derive(Clone, Copy, PartialEq, Eq, Debug)]
pub struct Within<const LOW: u64, const HIGH: u64> {
    pub number: u64,
}

impl<const LOW: u64, const HIGH: u64> Model for Within<LOW, HIGH> {
    ghost use Rattle.std.specs.Prelude.{ℕ, ◌≤◌};

    ghost Value = { ℕ };

    ghost view = { λ w. w.number };

    ghost inverse = { λ n. record { number = n } };

    ghost invariant = { λ w. (LOW ≤ w.number) × (w.number ≤ HIGH) };
}

impl<const LOW: u64, const HIGH: u64> Within<LOW, HIGH> {
    pub fn new(number: u64) -> Option<Within<LOW, HIGH>>
        ensures { result ≡ (if nat_le LOW number && nat_le number HIGH then Some number else None) }
    {
        if LOW <= number && number <= HIGH {
            Some(Within { number })
        } else {
            None
        }
    }
}

// An altitude in ft at which a day or an engine kind can be asked.
pub type Altitude = Within<0, 60000>;
