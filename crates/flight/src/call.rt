// A later call of a flight, with what it names.
use leg::figures::Figures;

// A leg names a phase by its number, since an unknown one is refused; uplift and jettison name grams.
#[derive(Clone, Copy, PartialEq, Eq, Debug)]
pub enum Call {
    Leg { phase: u64, figures: Figures },
    Uplift(u64),
    Jettison(u64),
    Touchdown,
}
