// A script is read line by line from any reader, and its answers go to standard output.
#![tactic(auto)]

pub mod run;
