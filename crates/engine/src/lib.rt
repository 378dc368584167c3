// Engine kinds: what a kind is, jets and turboprops, and the engine of an aircraft.
#![tactic(auto)]

pub mod any;
mod asked;
pub mod examples;
mod formulas;
mod installed;
pub mod jet;
pub mod kind;
#[cfg(test)]
mod tests;
pub mod turboprop;
