// What a leg's air and engine give it, and what it answers.
ghost use Rattle.std.specs.Prelude.{◌≡◌, Ok};
ghost use Rattle.leg.specs.Requests.{figures_of};
ghost use Rattle.leg.specs.Rules.{temperature_factor, available_thrust};
ghost use Rattle.leg.specs.Legs.{powered_answer};

use crate::conditions::Conditions;
use crate::configurations::share;
use crate::flown::Flown;
use crate::phase::Phase;
use crate::request::Request;
use crate::thrust::Thrust;
use aircraft::record::Aircraft;
use aircraft::words::Configuration;
use engine::kind::Kind;
use refusal::refusal::Refusal;

// One leg in its configuration.
#[derive(Drop)]
pub(crate) struct Leg<'a, K: Kind> {
    pub(crate) aircraft: &'a Aircraft,
    pub(crate) kind: &'a K,
    pub(crate) phase: Phase,
    pub(crate) configuration: Configuration,
    pub(crate) request: &'a Request,
}

impl<'a, K: Kind> Leg<'a, K> {
    // The thrust that the air leaves.
    pub(crate) fn available(&self, conditions: &Conditions) -> Result<Thrust, Refusal>
        ensures { result ≡ Ok (available_thrust ((K.Kind.engine self.now.kind.now).thrust self.now.request.now.altitude self.now.request.now.speed) (temperature_factor self.now.aircraft.now.temperature conditions.now.1)) }
    {
        let millinewtons = self.kind.thrust(self.request.altitude, self.request.speed)?;
        Ok(conditions.left(&self.aircraft.temperature, Thrust { millinewtons }))
    }

    // What the leg answers where its wing lifts it, with this drag and available thrust.
    pub(crate) fn powered(&self, drag: u64, available: Thrust) -> Result<Flown, Refusal>
        ensures { result ≡ powered_answer self.now.aircraft.now (K.Kind.engine self.now.kind.now) self.now.phase self.now.configuration (figures_of self.now.request.now) drag available }
    {
        let share = share(
            &self.aircraft.descent,
            self.configuration,
            self.request.altitude,
        );
        let thrust = available.used(self.phase, drag, share);
        let flow = self.flow(thrust)?;
        Ok(Flown {
            configuration: self.configuration,
            thrust: thrust.millinewtons,
            drag,
            flow,
            burn: flow * self.request.seconds / 60,
            limited: available.is_short(self.phase, drag),
        })
    }
}
