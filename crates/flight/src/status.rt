// What a flight keeps: its state, masses and seconds flown.
use std::marker::Model;

#[derive(Clone, Copy, PartialEq, Eq, Debug)]
pub(crate) enum State {
    Stand,
    Airborne,
}

// Masses in mg.
#[derive(Clone, Copy, Debug)]
pub(crate) struct Status {
    pub(crate) state: State,
    pub(crate) zero_fuel: u64,
    pub(crate) fuel: u64,
    pub(crate) reserve: u64,
    pub(crate) seconds: u64,
}

// Contracts see its numbers, as an account. The zero-fuel mass is at least 0.2 t and the mass at most 900 t, as every aircraft's are.
impl Model for Status {
    ghost use Rattle.std.specs.Prelude.{◌+◌, ◌≤◌};
    ghost use Rattle.flight.specs.Account.{Account};

    ghost Value = { Account };

    ghost view = { λ s. record { state = s.state; zero_fuel = s.zero_fuel; fuel = s.fuel; reserve = s.reserve; seconds = s.seconds } };

    ghost inverse = { λ l. record { state = l.state; zero_fuel = l.zero_fuel; fuel = l.fuel; reserve = l.reserve; seconds = l.seconds } };

    ghost invariant = { λ s. record { light : 200000000 ≤ s.zero_fuel; heavy : s.zero_fuel + s.fuel ≤ 900000000000; flown : s.seconds ≤ 1000000 } };
}
