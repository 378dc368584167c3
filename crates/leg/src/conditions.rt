// The air that a leg is flown in.
ghost use Rattle.std.specs.Prelude.{◌≡◌, ℕ, ◌≤◌, ℤ, pos, negsuc, ◌≤ℤ◌, Ok};
ghost use Rattle.leg.specs.Rules.{dynamic_pressure, wing_force, warming, temperature_factor, available_thrust};

use crate::request::Request;
use crate::thrust::Thrust;
use air::day::Day;
use aircraft::record::{Aircraft, Temperature};
use refusal::refusal::Refusal;
use std::marker::Model;

// Density in 10⁻⁵ kg/m³ and deviation from standard temperature in 0.01 K.
#[derive(Clone, Copy)]
pub(crate) struct Conditions {
    density: u64,
    deviation: i64,
}

impl Model for Conditions {
    ghost Value = { ℕ × ℤ };

    ghost view = { λ c. (c.density, c.deviation) };

    ghost invariant = { λ c. (c.density ≤ 150000) × (negsuc 4999 ≤ℤ c.deviation) × (c.deviation ≤ℤ pos 5000) };

    ghost inverse = { λ pair. record { density = pair.0; deviation = pair.1 } };
}

impl Conditions {
    // A day's at the altitude of a request.
    pub(crate) fn at<D: Day>(day: &D, request: &Request) -> Result<Conditions, Refusal>
        ensures { result ≡ Ok ((D.Day.air day.now).pair request.now.altitude) }
    {
        let (density, deviation) = day.at(request.altitude)?;
        Ok(Conditions { density, deviation })
    }

    // Dynamic pressure on the wing area, in mN.
    pub(crate) fn force(&self, request: &Request, aircraft: &Aircraft) -> u64
        ensures value { result ≡ wing_force (dynamic_pressure self.now.0 request.now.speed) aircraft.now.wing }
        ensures bound { result ≤ 97260009259 }
    {
        let pressure = self.density * (request.speed * request.speed) * 214369 / 16200000;
        pressure * aircraft.wing / 1000000
    }

    // CTc5 × (deviation − CTc4), in 10⁻¹².
    fn warmth(&self, t: &Temperature) -> i64
        ensures { result ≡ warming t.now self.now.1 }
    {
        t.ctc5 as i64 * (100 * self.deviation - t.ctc4)
    }

    // What the air leaves of a thrust; warm air takes up to two fifths, counted in 10⁻⁹.
    pub(crate) fn left(&self, t: &Temperature, standard: Thrust) -> Thrust
        ensures { result ≡ available_thrust standard (temperature_factor t.now self.now.1) }
    {
        let loss = u64::try_from(self.warmth(t).div_euclid(1000))
            .unwrap_or(0)
            .min(400000000);
        Thrust {
            millinewtons: standard.millinewtons * (1000000000 - loss) / 1000000000,
        }
    }
}
