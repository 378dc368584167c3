// An aircraft file is read from any reader, and no more of it than tells that it is too long.
#![tactic(auto)]

pub mod input;
#[cfg(test)]
mod tests;
