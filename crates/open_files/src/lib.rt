// Files that are open for reading, and outputs that are whole or not there.
#![tactic(auto)]

pub mod inputs;
pub mod output;
