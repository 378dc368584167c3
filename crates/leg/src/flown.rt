// What a leg answers.
use aircraft::words::Configuration;

// Thrust used and drag in mN, flow in mg/min, burn in mg; limited where the thrust could not meet the drag.
#[derive(Clone, Copy, PartialEq, Eq, Debug)]
pub struct Flown {
    pub configuration: Configuration,
    pub thrust: u64,
    pub drag: u64,
    pub flow: u64,
    pub burn: u64,
    pub limited: bool,
}
