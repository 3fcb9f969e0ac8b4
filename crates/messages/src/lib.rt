// What bc7 says: lines on standard output, and how a run ended.
#![tactic(auto)]

pub mod ending;
pub mod lines;

use mistakes::failure::NotSaid;
use std::fmt::Display;
use std::io::Print;

// Writes bytes, which need be no text: a path can have any.
pub fn say(rt: &impl Print, bytes: &[u8]) -> Result<(), NotSaid> {
    rt.write_all(bytes).map_err(NotSaid)
}

// Says a line.
pub fn say_line<D: Display + Drop>(rt: &impl Print, line: D) -> Result<(), NotSaid> {
    println!(rt; "{line}").map_err(NotSaid)
}
