// Reads an aircraft file in the layout of BADA 3.10 into the aircraft record, or names its first fault.
#![tactic(auto)]

mod data;
mod data_line;
mod fields;
mod file;
mod finish;
mod line;
mod lines;
mod number;
mod numbers;
mod progress;
mod quantities;
pub mod read;
mod reading;
mod take;
mod token;
