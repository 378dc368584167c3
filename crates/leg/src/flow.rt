// The flow that a leg uses.
ghost use Rattle.std.specs.Prelude.{◌≡◌, ◌≤◌, IfOk, if◌then◌else◌, Ok, Err};
ghost use Rattle.refusal.specs.declared.refusal.Refusal.TheVariants.{Flow};
ghost use Rattle.leg.specs.Requests.{figures_of};
ghost use Rattle.leg.specs.Legs.{flow_answer};

use crate::leg::Leg;
use crate::phase::Phase;
use crate::thrust::Thrust;
use aircraft::words::Configuration;
use engine::kind::Kind;
use refusal::refusal::Refusal;

impl<'a, K: Kind> Leg<'a, K> {
    // Nominal flow in mg/min at the leg's speed.
    fn nominal(&self, thrust: Thrust) -> Result<u64, Refusal>
        ensures value { result ≡ (if (K.Kind.engine self.now.kind.now).refuses self.now.request.now.speed then Err Flow else Ok ((K.Kind.engine self.now.kind.now).nominal self.now.request.now.speed thrust)) }
        ensures bound { IfOk result (λ n. n ≤ 100000000000) }
    {
        self.kind.nominal(self.request.speed, thrust.millinewtons)
    }

    // Idle flow in mg/min at the leg's altitude.
    fn idle(&self) -> Result<u64, Refusal>
        ensures value { result ≡ Ok ((K.Kind.engine self.now.kind.now).idle self.now.request.now.altitude) }
        ensures bound { IfOk result (λ n. n ≤ 100000000000) }
    {
        self.kind.idle(self.request.altitude)
    }

    // In mg/min, refused where the leg needs nominal flow and the kind refuses it. A clean descent is flown at idle.
    pub(crate) fn flow(&self, thrust: Thrust) -> Result<u64, Refusal>
        ensures value { result ≡ flow_answer self.now.aircraft.now (K.Kind.engine self.now.kind.now) self.now.phase self.now.configuration (figures_of self.now.request.now) thrust }
        ensures bound { IfOk result (λ n. n ≤ 200000000000) }
    {
        match (self.phase, self.configuration) {
            (Phase::Climb, _) => self.nominal(thrust),
            (Phase::Cruise, _) => Ok(self.nominal(thrust)? * self.aircraft.cruise / 100000),
            (Phase::Descent, Configuration::Approach | Configuration::Landing) => Ok(
                self.nominal(thrust)?.max(self.idle()?),
            ),
            (Phase::Descent, _) => self.idle(),
        }
    }
}
