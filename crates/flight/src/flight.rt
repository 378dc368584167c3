// A flight: one aircraft, engine kind and day throughout, and the status that its calls change.
ghost use Rattle.flight.specs.Chain.{Chained};

use crate::status::Status;
use air::day::Day;
use aircraft::record::Aircraft;
use engine::kind::Kind;

// Some start and calls led to it.
#[derive(Drop)]
pub struct Flight<K: Kind + Drop, D: Day + Drop> {
    pub(crate) aircraft: Aircraft,
    pub(crate) kind: K,
    pub(crate) day: D,
    pub(crate) status: Status,
    ghost chained: { ∥ Chained (record { aircraft = aircraft; engine = K.engine kind; air = D.air day }) status ∥₁ },
}
