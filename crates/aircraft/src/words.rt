// The engine types and the flap configurations.

// The engine of an aircraft, as its file names it.
#[derive(Clone, Copy, PartialEq, Eq, Default, Debug)]
pub enum EngineType {
    #[default]
    Jet,
    Turboprop,
}

// A flap configuration.
#[derive(Clone, Copy, PartialEq, Eq, Debug)]
pub enum Configuration {
    Cruise,
    InitialClimb,
    TakeOff,
    Approach,
    Landing,
}

// A word that names no engine type, or no configuration.
#[derive(Clone, Copy, PartialEq, Eq, Debug)]
pub struct UnknownWord;
