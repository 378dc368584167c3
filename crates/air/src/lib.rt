// The air of a day: what a day is, the bench day, the standard day, and one type for all days.
#![tactic(auto)]

pub mod bench;
pub mod day;
pub mod days;
mod levels;
pub mod standard;
pub mod table;
#[cfg(test)]
mod tests;
