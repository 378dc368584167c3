// The refusals of the engine: the fault of an aircraft file, what a call may be refused by, and numbers within bounds.
#![tactic(auto)]

pub mod fault;
pub mod refusal;
pub mod show;
pub mod within;
