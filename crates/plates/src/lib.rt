// Plates: opened, read a row at a time, and their blocks in words.
#![tactic(auto)]

pub mod plate;
pub mod plate_reading;
