// The size of a picture, a band of its rows of blocks, and where a block stands.
#![tactic(auto)]

pub mod place;
pub mod rows;
pub mod size;
