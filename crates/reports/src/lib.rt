// The figures of a plate, counted row of blocks by row of blocks, and in words.
#![tactic(auto)]

pub mod report;
pub mod tally;
