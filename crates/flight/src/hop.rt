// A caller that knows only the contracts of the calls: they give it the claims for its own chain.
ghost use Rattle.std.specs.Prelude.{IfOk};
ghost use Rattle.flight.specs.Runs.{setting};
ghost use Rattle.flight.specs.Hops.{HopClaims};

use crate::flight::Flight;
use crate::reading::Reading;
use crate::start::Start;
use air::day::Day;
use aircraft::record::Aircraft;
use engine::kind::Kind;
use leg::figures::Figures;
use leg::flown::Flown;
use refusal::refusal::Refusal;

// How each call of a hop was answered, and what is read after it.
#[derive(Clone, Copy, PartialEq, Eq, Debug)]
pub struct Hop {
    pub uplifted: Result<(), Refusal>,
    pub flown: Result<Flown, Refusal>,
    pub landed: Result<(), Refusal>,
    pub reading: Reading,
}

// An uplift, a climb and a touchdown. Masses in grams. Aircraft, kind and day come one by one, as `start` takes them.
pub fn fly_hop<K: Kind + Copy, D: Day + Copy>(
    aircraft: Aircraft,
    kind: K,
    day: D,
    zero_fuel: u64,
    uplift: u64,
    figures: Figures,
) -> Result<Hop, Refusal>
    ensures { IfOk result (HopClaims (setting K.Kind.engine D.Day.air aircraft kind day) zero_fuel uplift figures) }
{
    let mut flight = Flight::start(
        aircraft,
        kind,
        day,
        Start {
            zero_fuel,
            fuel: 0,
            reserve: None,
        },
    )?;
    let uplifted = flight.uplift(uplift);
    let flown = flight.leg(1, figures);
    let landed = flight.touchdown();
    Ok(Hop {
        uplifted,
        flown,
        landed,
        reading: flight.reading(),
    })
}
