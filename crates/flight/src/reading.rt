// What is read of a flight.

// Mass and fuel in mg, and the minimum-fuel mark.
#[derive(Clone, Copy, PartialEq, Eq, Debug)]
pub struct Reading {
    pub mass: u64,
    pub fuel: u64,
    pub minimum: bool,
}
