// The figures of a leg that were judged: the same four as a caller names, each within its range, which is a fact of the type.
ghost use Rattle.std.specs.Prelude.{◌≤◌};

// Altitude in ft, true airspeed in 0.1 kt, calibrated airspeed in kt, and seconds.
#[derive(Clone, Copy, Debug)]
pub struct Request {
    pub altitude: u64,
    pub speed: u64,
    pub calibrated: u64,
    pub seconds: u64,
    ghost low: { altitude ≤ 60000 },
    ghost slowest: { 300 ≤ speed },
    ghost fastest: { speed ≤ 7000 },
    ghost held: { calibrated ≤ 500 },
    ghost shortest: { 1 ≤ seconds },
    ghost longest: { seconds ≤ 60 },
}
