// The plain record that is filled while a file is read: the same values in the same units, not yet judged together.
use crate::words::EngineType;

#[derive(Clone, Copy, Default, Debug)]
pub struct DraftMasses {
    pub reference: u64,
    pub minimum: u64,
    pub maximum: u64,
}

// One configuration.
#[derive(Clone, Copy, Debug)]
pub struct DraftRow {
    pub stall: u64,
    pub cd0: u64,
    pub cd2: u64,
}

#[derive(Clone, Copy, Default, Debug)]
pub struct DraftThrust {
    pub ctc1: u64,
    pub ctc2: u64,
    pub ctc3: i64,
    pub ctc4: i64,
    pub ctc5: u64,
}

#[derive(Clone, Copy, Default, Debug)]
pub struct DraftDescent {
    pub low: u64,
    pub high: u64,
    pub level: u64,
    pub approach: u64,
    pub landing: u64,
}

#[derive(Clone, Copy, Default, Debug)]
pub struct DraftConsumption {
    pub cf1: u64,
    pub cf2: u64,
}

#[derive(Clone, Copy, Default, Debug)]
pub struct DraftIdle {
    pub cf3: u64,
    pub cf4: u64,
}

#[derive(Clone, Copy, Default, Debug)]
pub struct Draft {
    pub engine: EngineType,
    pub masses: DraftMasses,
    pub ceiling: u64,
    pub wing: u64,
    // A configuration's row, once its line has come.
    pub rows: [Option<DraftRow>; 5],
    pub gear: u64,
    pub thrust: DraftThrust,
    pub descent: DraftDescent,
    pub consumption: DraftConsumption,
    pub idle: DraftIdle,
    pub cruise: u64,
}
