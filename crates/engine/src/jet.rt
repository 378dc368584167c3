// A jet, by the coefficients of its aircraft.
ghost use Rattle.std.specs.Prelude.{◌≡◌, ◌≤◌};
ghost use Rattle.engine.specs.Jets.{jet_rise, jet_formulas};
ghost use Rattle.engine.specs.JetLaws.{jet_close};

use crate::asked::Speed;
use crate::formulas::thrust_factor;
use crate::installed::{Coefficients, Installed};
use aircraft::record::{Fuel, JetCoefficients};
use refusal::within::Altitude;

pub type Jet = Installed<JetCoefficients>;

// What CTc3 adds to the thrust factor, in 10⁻⁹.
fn rise(c: &JetCoefficients, altitude: Altitude) -> u64
    ensures value { result ≡ jet_rise c.now altitude }
    ensures bound { result ≤ 3599964000 }
{
    c.ctc3 * (altitude.number * altitude.number) / 10000000
}

impl Coefficients for JetCoefficients {
    ghost formulas = { jet_formulas };

    ghost close = { jet_close };

    fn fuel(&self) -> &Fuel {
        &self.fuel
    }

    fn thrust(&self, altitude: Altitude, _speed: Speed) -> u64 {
        let factor = thrust_factor(self.ctc2, rise(self, altitude), altitude);
        self.ctc1 * factor / 1000000000
    }

    fn consumption(&self, speed: Speed) -> u64 {
        self.fuel.cf1 * (self.fuel.cf2 + 10 * speed.number) / self.fuel.cf2
    }
}
