// The unit and range of each value that is read.
ghost use Rattle.std.specs.Prelude.{◌≡◌};
ghost use Rattle.opf.specs.Quantities as quantity;

use crate::number::Quantity;
use aircraft::words::{Configuration, EngineType};

pub(crate) const MASS: Quantity<u64> = Quantity {
    decimals: 6,
    low: 200000,
    high: 900000000,
};

pub(crate) const CEILING: Quantity<u64> = Quantity {
    decimals: 0,
    low: 1000,
    high: 60000,
};

pub(crate) const WING_AREA: Quantity<u64> = Quantity {
    decimals: 3,
    low: 5000,
    high: 1000000,
};

pub(crate) const STALL_SPEED: Quantity<u64> = Quantity {
    decimals: 3,
    low: 20000,
    high: 250000,
};

pub(crate) const DRAG: Quantity<u64> = Quantity {
    decimals: 8,
    low: 0,
    high: 47000000,
};

pub(crate) const CLEAN_DRAG: Quantity<u64> = Quantity {
    decimals: 8,
    low: 100000,
    high: 47000000,
};

pub(crate) const JET_CTC1: Quantity<u64> = Quantity {
    decimals: 3,
    low: 100000,
    high: 2000000000,
};

pub(crate) const TURBOPROP_CTC1: Quantity<u64> = Quantity {
    decimals: 3,
    low: 0,
    high: 99999000000,
};

pub(crate) const CTC2: Quantity<u64> = Quantity {
    decimals: 0,
    low: 10000,
    high: 999990,
};

pub(crate) const JET_CTC3: Quantity<i64> = Quantity {
    decimals: 16,
    low: 0,
    high: 9999900,
};

pub(crate) const TURBOPROP_CTC3: Quantity<i64> = Quantity {
    decimals: 3,
    low: -1000000000,
    high: 1000000000,
};

pub(crate) const CTC4: Quantity<i64> = Quantity {
    decimals: 4,
    low: -990000,
    high: 990000,
};

pub(crate) const CTC5: Quantity<u64> = Quantity {
    decimals: 8,
    low: 0,
    high: 10000000,
};

pub(crate) const DESCENT_FACTOR: Quantity<u64> = Quantity {
    decimals: 8,
    low: 0,
    high: 100000000,
};

pub(crate) const DESCENT_LEVEL: Quantity<u64> = Quantity {
    decimals: 0,
    low: 0,
    high: 60000,
};

pub(crate) const CF1: Quantity<u64> = Quantity {
    decimals: 8,
    low: 1000000,
    high: 1000000000,
};

pub(crate) const CF2: Quantity<u64> = Quantity {
    decimals: 2,
    low: 10000,
    high: 999990000,
};

pub(crate) const CF3: Quantity<u64> = Quantity {
    decimals: 6,
    low: 10000,
    high: 1000000000,
};

pub(crate) const CF4: Quantity<u64> = Quantity {
    decimals: 0,
    low: 10000,
    high: 99999000,
};

pub(crate) const CRUISE_FACTOR: Quantity<u64> = Quantity {
    decimals: 5,
    low: 50000,
    high: 200000,
};

// The first thrust coefficient, by engine.
pub(crate) fn ctc1(e: EngineType) -> Quantity<u64>
    ensures { result ≡ quantity.ctc1 e }
{
    match e {
        EngineType::Jet => JET_CTC1,
        EngineType::Turboprop => TURBOPROP_CTC1,
    }
}

// The third thrust coefficient, by engine.
pub(crate) fn ctc3(e: EngineType) -> Quantity<i64>
    ensures { result ≡ quantity.ctc3 e }
{
    match e {
        EngineType::Jet => JET_CTC3,
        EngineType::Turboprop => TURBOPROP_CTC3,
    }
}

// CD0, by configuration.
pub(crate) fn parasitic_drag(c: Configuration) -> Quantity<u64>
    ensures { result ≡ quantity.parasitic_drag c }
{
    match c {
        Configuration::Cruise => CLEAN_DRAG,
        _ => DRAG,
    }
}
