// A plate measured against its photograph, a row of blocks at a time.
#![tactic(auto)]

pub mod measure;
pub mod pair;
mod table;
