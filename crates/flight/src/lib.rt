// A flight and its calls, and how near its fuel stays to an exact book.
#![tactic(auto)]

pub mod call;
pub mod calls;
pub mod flight;
pub mod hop;
pub mod reading;
pub mod start;
mod states;
mod status;
mod steps;
#[cfg(test)]
mod tests;
