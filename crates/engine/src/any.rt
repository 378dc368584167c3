// Every engine kind in one type, and the engine of an aircraft.
// Each question is handed on by a match: a `dyn` in its place would have to be handed out.
ghost use Rattle.std.specs.Prelude.{◌≡◌};
ghost use Rattle.engine.specs.Engines.{any_engine, engine_of};
ghost use Rattle.engine.specs.JetLaws.{jet_laws};
ghost use Rattle.engine.specs.TurbopropLaws.{turboprop_laws};
ghost use Rattle.engine.specs.declared.any.AnyKind.TheVariants as any;

use crate::jet::Jet;
use crate::kind::Kind;
use crate::turboprop::Turboprop;
use aircraft::record::{Aircraft, Engine};
use refusal::refusal::Refusal;

#[derive(Clone, Copy)]
pub enum AnyKind {
    Jet(Jet),
    Turboprop(Turboprop),
}

// The engine of an aircraft.
impl From<&Aircraft> for AnyKind {
    ghost from_gives = { λ a k. any_engine k ≡ engine_of a.now };

    fn from(aircraft: &Aircraft) -> AnyKind {
        match aircraft.engine {
            Engine::Jet(coefficients) => AnyKind::Jet(Jet { coefficients }),
            Engine::Turboprop(coefficients) => AnyKind::Turboprop(Turboprop { coefficients }),
        }
    }
}

impl Kind for AnyKind {
    ghost engine = { any_engine };

    ghost lawful = { elim [
      | any.Jet j ↦ jet_laws j.coefficients
      | any.Turboprop t ↦ turboprop_laws t.coefficients
    ] };

    fn thrust(&self, altitude: u64, speed: u64) -> Result<u64, Refusal> {
        match self {
            AnyKind::Jet(jet) => jet.thrust(altitude, speed),
            AnyKind::Turboprop(turboprop) => turboprop.thrust(altitude, speed),
        }
    }

    fn nominal(&self, speed: u64, thrust: u64) -> Result<u64, Refusal> {
        match self {
            AnyKind::Jet(jet) => jet.nominal(speed, thrust),
            AnyKind::Turboprop(turboprop) => turboprop.nominal(speed, thrust),
        }
    }

    fn idle(&self, altitude: u64) -> Result<u64, Refusal> {
        match self {
            AnyKind::Jet(jet) => jet.idle(altitude),
            AnyKind::Turboprop(turboprop) => turboprop.idle(altitude),
        }
    }
}
