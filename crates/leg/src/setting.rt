// What legs are flown in, and flying one.
ghost use Rattle.std.specs.Prelude.{◌≡◌};
ghost use Rattle.leg.specs.Requests.{figures_of};
ghost use Rattle.leg.specs.Legs.{leg_answer};

use crate::conditions::Conditions;
use crate::configurations::{coefficients, configuration};
use crate::flown::Flown;
use crate::leg::Leg;
use crate::mass::Mass;
use crate::phase::Phase;
use crate::request::Request;
use air::day::Day;
use aircraft::record::Aircraft;
use engine::kind::Kind;
use refusal::refusal::Refusal;

// An aircraft, its engine's kind and a day.
#[derive(Drop)]
pub struct Setting<'a, K: Kind, D: Day> {
    pub aircraft: &'a Aircraft,
    pub kind: &'a K,
    pub day: &'a D,
}

impl<'a, K: Kind, D: Day> Setting<'a, K, D> {
    // Refused where the wing does not lift the mass, and then where the leg needs nominal flow and the kind refuses it.
    pub fn fly(&self, phase: Phase, request: &Request, mass: Mass) -> Result<Flown, Refusal>
        ensures { result ≡ leg_answer self.now.aircraft.now (K.Kind.engine self.now.kind.now) (D.Day.air self.now.day.now) phase (figures_of request.now) mass.milligrams }
    {
        let conditions = Conditions::at(self.day, request)?;
        let leg = Leg {
            aircraft: self.aircraft,
            kind: self.kind,
            phase,
            configuration: configuration(self.aircraft, phase, request),
            request,
        };
        let force = conditions.force(request, leg.aircraft);
        let drag = coefficients(leg.aircraft, leg.configuration).drag(mass, force)?;
        leg.powered(drag, leg.available(&conditions)?)
    }
}
