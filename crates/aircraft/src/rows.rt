// The row of a configuration, and the fuel coefficients, in an aircraft record.
ghost use Rattle.std.specs.Prelude.{◌≡◌};
ghost use Rattle.aircraft.specs.Values.{row_of, fuel_of};

use crate::record::{Engine, Fuel, Row, Rows};
use crate::words::Configuration;

impl Rows {
    pub fn of(&self, c: Configuration) -> Row
        ensures { result ≡ row_of self.now c }
    {
        match c {
            Configuration::Cruise => self.cruise,
            Configuration::InitialClimb => self.initial,
            Configuration::TakeOff => self.takeoff,
            Configuration::Approach => self.approach,
            Configuration::Landing => self.landing,
        }
    }
}

impl Engine {
    pub fn fuel(&self) -> Fuel
        ensures { result ≡ fuel_of self.now }
    {
        match self {
            Engine::Jet(c) => c.fuel,
            Engine::Turboprop(c) => c.fuel,
        }
    }
}
