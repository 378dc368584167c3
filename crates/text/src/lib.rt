// The bytes of lines: which of them may be printed, where a line is cut, and the number that digits write.
#![tactic(auto)]

pub mod bytes;
pub mod digits;
#[cfg(test)]
mod tests;
