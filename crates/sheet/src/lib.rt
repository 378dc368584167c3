// The fuel sheet: what each line of a script does to it, and what it answers.
#![tactic(auto)]

pub mod answer;
mod calls;
pub mod fault;
pub mod form;
pub mod forms;
pub mod line;
mod numbers;
pub mod sheet;
pub mod show;
