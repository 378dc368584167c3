// The figures of a start, as a caller names them.

// In grams; an absent reserve counts as none.
#[derive(Clone, Copy, PartialEq, Eq, Debug)]
pub struct Start {
    pub zero_fuel: u64,
    pub fuel: u64,
    pub reserve: Option<u64>,
}
