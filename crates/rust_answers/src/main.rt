// Replays recorded answers of the Rust: reads groups of them from standard input, makes the same calls, and prints how many answers
// there were of each call and how many differ. The gate holds it to the file `stdout`.
#![tactic(auto)]

mod calls;
mod groups;
mod recording;
mod tally;

use std::io;
use tally::Tally;

// Replays standard input to its end.
fn main(rt: HostRuntime) -> io::Result<()> {
    let mut tally = Tally::default();
    let rest = groups::replay(&mut rt.reader(), &mut tally)?;
    println!(rt; "{tally}")?;
    if rest != 0 {
        println!(rt; "input ends inside a group")?;
    }
    Ok(())
}
