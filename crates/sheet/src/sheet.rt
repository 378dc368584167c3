// The fuel sheet of one aircraft.
use air::days::AnyDay;
use aircraft::record::Aircraft;
use engine::any::AnyKind;
use flight::flight::Flight;

// Its kind is the aircraft's engine; a day comes before a flight.
#[derive(Drop)]
pub struct Sheet {
    pub(crate) aircraft: Aircraft,
    pub(crate) kind: AnyKind,
    pub(crate) day: Option<AnyDay>,
    pub(crate) flight: Option<Flight<AnyKind, AnyDay>>,
}
