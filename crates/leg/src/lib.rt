#![tactic(auto)]

mod conditions;
mod configurations;
mod drag;
pub mod figures;
mod flow;
pub mod flown;
mod leg;
pub mod mass;
pub mod nearness;
pub mod phase;
pub mod request;
pub mod requests;
pub mod setting;
#[cfg(test)]
mod tests;
mod thrust;
