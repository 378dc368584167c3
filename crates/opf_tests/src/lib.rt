// Aircraft files as the reader answers them, good and broken, one test for each rule.
#![tactic(auto)]

#[cfg(test)]
mod sample;
#[cfg(test)]
mod tests;
