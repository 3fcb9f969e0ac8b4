// Bakes photographs into BC7 plates and measures them: `bc7 COMMAND ..`, with the commands of the crate `commands`.
#![tactic(auto)]

use std::env::{Env, FillError};
use text::line::Line;

// The bytes of the longest command line.
const LINE: usize = 32768;

// How many arguments are read, with the name of the program: more than any command takes.
const ARGUMENTS: usize = 9;

// Puts the arguments one behind the other, with a 0 byte behind each, in fixed memory. One that is too long is empty, as
// a line of bytes can say no more of it. The line is lent: one that is answered would stand twice under every command.
fn put_arguments(env: &impl Env, line: &mut Line<LINE>) {
    let mut word = [0u8; 4096];
    // by their places: std's iterator of the arguments takes heap
    for k in 1..ARGUMENTS {
        match env.arg(k, &mut word) {
            Ok(n) => line.put(&word[..n]),
            Err(FillError::TooLong) => {}
            Err(FillError::NotPresent) => break,
        }
        line.put(b"\0");
    }
}

// Runs the command that the arguments name.
fn main(rt: HostRuntime) {
    let mut line = Line::new();
    put_arguments(&rt, &mut line);
    commands::run(&rt, line.as_bytes());
}
