// The aircraft record with its ranges, the plain record that is filled while a file is read, and the words for engines and configurations.
#![tactic(auto)]

pub mod draft;
pub mod fill;
pub mod named;
pub mod record;
pub mod rows;
pub mod words;
