// A turboprop, by the coefficients of its aircraft.
ghost use Rattle.std.specs.Prelude.{◌≡◌, ◌+◌, ◌*◌, ◌≤◌};
ghost use Rattle.engine.specs.Turboprops.{propeller_thrust, propeller_consumption, turboprop_formulas};
ghost use Rattle.engine.specs.TurbopropLaws.{turboprop_close};

use crate::asked::Speed;
use crate::formulas::thrust_factor;
use crate::installed::{Coefficients, Installed};
use aircraft::record::{Fuel, TurbopropCoefficients};
use refusal::within::Altitude;

pub type Turboprop = Installed<TurbopropCoefficients>;

// Thrust at sea level before CTc3, in mN.
fn propeller_thrust(c: &TurbopropCoefficients, speed: Speed) -> u64
    ensures value { result ≡ propeller_thrust c.now speed }
    ensures bound { result ≤ 3333300000 }
{
    10 * c.ctc1 / speed.number
}

// Specific consumption per 1,000 kt.
fn propeller_consumption(fuel: &Fuel, speed: Speed) -> u64
    ensures value { result ≡ propeller_consumption fuel.now speed }
    ensures bound { result ≤ 1000000000 }
{
    fuel.cf1 * fuel.cf2.saturating_sub(10 * speed.number) / fuel.cf2
}

impl Coefficients for TurbopropCoefficients {
    ghost formulas = { turboprop_formulas };

    ghost close = { turboprop_close };

    fn fuel(&self) -> &Fuel {
        &self.fuel
    }

    fn thrust(&self, altitude: Altitude, speed: Speed) -> u64 {
        let factor = thrust_factor(self.ctc2, 0, altitude);
        let sum = (propeller_thrust(self, speed) * factor / 1000000000) as i64 + self.ctc3;
        sum.max(0) as u64
    }

    fn consumption(&self, speed: Speed) -> u64 {
        propeller_consumption(&self.fuel, speed) * speed.number / 10000
    }
}
