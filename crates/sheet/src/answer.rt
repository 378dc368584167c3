// What is answered to a script line.
use flight::reading::Reading;
use leg::flown::Flown;

// A day line as it came, or what is read of the flight after a start or a call.
#[derive(Clone, Copy)]
pub enum Answer<'a> {
    Day(&'a str),
    Start(Reading),
    Leg(Flown, Reading),
    Uplift(Reading),
    Jettison(Reading),
    Touchdown(Reading),
}
