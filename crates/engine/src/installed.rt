// The kinds that are given by the coefficients of an aircraft.
ghost use Rattle.std.specs.Prelude.{◌≡◌};
ghost use Rattle.engine.specs.Formulas.{KindFormulas, burning};
ghost use Rattle.engine.specs.Laws.{FormulasClose, burning_laws};

use crate::asked::{Speed, Thrust};
use crate::formulas::{idle_flow, nominal_flow};
use crate::kind::Kind;
use aircraft::record::Fuel;
use refusal::refusal::Refusal;
use refusal::within::Altitude;

// What sets one such kind apart from another: its thrust and its specific consumption, and the fuel coefficients.
// It proves `close`, that the answered values are near the exact ones.
pub(crate) trait Coefficients {
    ghost formulas: { Self → KindFormulas };

    fn fuel(&self) -> &Fuel
        ensures { result.now ≡ (formulas self.now).fuel };

    // Standard-day thrust in mN.
    fn thrust(&self, altitude: Altitude, speed: Speed) -> u64
        ensures { result ≡ (formulas self.now).thrust altitude speed };

    // Specific consumption in 10⁻⁸ kg per minute and kN.
    fn consumption(&self, speed: Speed) -> u64
        ensures { result ≡ (formulas self.now).consumption speed };

    ghost close: { (s : Self) → FormulasClose (formulas s) };
}

// The engine with these coefficients.
#[derive(Clone, Copy)]
pub struct Installed<C> {
    pub coefficients: C,
}

impl<C: Coefficients> Kind for Installed<C> {
    ghost engine = { λ s. burning (C.formulas s.coefficients) };

    ghost lawful = { λ s. burning_laws (C.formulas s.coefficients) (C.close s.coefficients) };

    fn thrust(&self, altitude: u64, speed: u64) -> Result<u64, Refusal> {
        let altitude = Altitude::new(altitude).ok_or(Refusal::TooHigh)?;
        let speed = Speed::new(speed).ok_or(Refusal::Speed)?;
        Ok(self.coefficients.thrust(altitude, speed))
    }

    fn nominal(&self, speed: u64, thrust: u64) -> Result<u64, Refusal> {
        let speed = Speed::new(speed).ok_or(Refusal::Speed)?;
        let thrust = Thrust::new(thrust).ok_or(Refusal::Flow)?;
        nominal_flow(self.coefficients.consumption(speed), thrust)
    }

    fn idle(&self, altitude: u64) -> Result<u64, Refusal> {
        let altitude = Altitude::new(altitude).ok_or(Refusal::TooHigh)?;
        Ok(idle_flow(self.coefficients.fuel(), altitude))
    }
}
