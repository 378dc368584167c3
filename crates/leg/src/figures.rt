// The figures of a leg, as a caller names them.

// Altitude in ft, true airspeed in 0.1 kt, calibrated airspeed in kt, and seconds.
#[derive(Clone, Copy, PartialEq, Eq, Debug)]
pub struct Figures {
    pub altitude: u64,
    pub speed: u64,
    pub calibrated: u64,
    pub seconds: u64,
}
