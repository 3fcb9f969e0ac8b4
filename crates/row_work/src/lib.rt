// Work on the rows of blocks of a picture, the memory that a row takes, and the progress that is said.
#![tactic(auto)]

pub mod buffers;
pub mod progress;
