// The words of `bc7`'s command line: the command that they are, or what is wrong with them.
#![tactic(auto)]

pub mod command;
pub mod help;
pub mod mistakes;
pub mod names;
pub mod numbers;
mod options;
mod quantities;

// The version of `bc7`.
pub const VERSION: &str = "1.0.0";
