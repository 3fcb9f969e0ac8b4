// How a run ended: the last line, by which a script knows it.
use crate::say;
use mistakes::failure::NotSaid;
use std::fmt::Display;
use std::io::Print;

// Says that a command ended well: what was done to which file.
pub fn say_done(rt: &impl Print, path: &[u8], done: &str) -> Result<(), NotSaid> {
    say(rt, b"done: ")?;
    say(rt, path)?;
    println!(rt; " is {done}").map_err(NotSaid)
}

// Says that a command failed: what the mistake is about, and what is wrong with that.
pub fn say_failed<M: Display + Drop>(
    rt: &impl Print,
    what: &[u8],
    mistake: M,
) -> Result<(), NotSaid> {
    say(rt, b"failed: ")?;
    say(rt, what)?;
    println!(rt; ": {mistake}").map_err(NotSaid)
}
