// What can be wrong with a file that a command reads or writes, in words.
#![tactic(auto)]

pub mod failure;
pub mod input;
pub mod output;
pub mod photo;
pub mod plate;
pub mod proposals;
mod reason;
pub mod unreadable;
