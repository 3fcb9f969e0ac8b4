// The 128 bits of a block in modes 1 and 3: fields written by bit place.
#![tactic(auto)]

pub use bptc::Rgb;
pub use bptc_block::{FieldWords, Fields};

pub mod indexes;
mod stream;
pub mod writing;
