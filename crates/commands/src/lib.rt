// The commands of `bc7`. They read and write files and standard output, of which no contract can speak; what they compute stands in
// the crates below.
#![tactic(auto)]

use arguments::VERSION;
use arguments::command::Command;
use arguments::help::help;
use arguments::names::Name;
use arrayvec::ArrayVec;
use messages::ending::say_failed;
use messages::{say, say_line};
use mistakes::failure::{Failure, Mistake, NotSaid};
use std::fmt::Display;
use std::io::Print;
use text::words::Words;

// How many words are handed on: more than any command takes, and as many as `bc7` hands over. They stand in fixed memory, as the program
// takes no heap.
const WORDS: usize = 8;

// Room for these, and for an empty word that stands for those behind them.
const ROOM: usize = 9;

// Says the help of a command, or of all.
fn say_help(rt: &impl Print, name: Option<Name>) -> Result<(), NotSaid> {
    say(rt, help(name))?;
    match name {
        Some(name) => println!(rt; "done: this is the help of {name}").map_err(NotSaid),
        None => say_line(rt, "done: this is the help"),
    }
}

// Says the version.
fn say_version(rt: &impl Print) -> Result<(), NotSaid> {
    println!(rt; "bc7 {VERSION}").map_err(NotSaid)?;
    say_line(rt, "done: this is the version")
}

// Runs a command.
fn run_command<'a>(rt: &HostRuntime, command: Command<'a>) -> Result<(), Failure<'a>> {
    match command {
        Command::Bake {
            rows,
            photo,
            plate,
            proposals,
        } => baking::baking::bake(rt, photo, plate, proposals, rows),
        Command::Measure {
            photo,
            plate,
            shown,
        } => measuring::measure::measure(rt, photo, plate, shown),
        Command::Read {
            plate,
            width,
            block,
        } => plates::plate_reading::read(rt, plate, width, block),
        Command::Show { plate, size, out } => showing::show(rt, plate, size, out),
        Command::Map {
            photo,
            plate,
            out,
            scale,
            white,
        } => mapping::map(rt, [photo, plate, out], scale, white),
        Command::Help(name) => Ok(say_help(rt, name)?),
        Command::Version => Ok(say_version(rt)?),
    }
}

// Says a mistake on standard output. Where that takes no more, says this on standard error; nothing is left to say where that takes no more
// either.
fn say_mistake<M: Display + Drop>(rt: &HostRuntime, what: &[u8], mistake: M) {
    if let Err(not_said) = say_failed(rt, what, mistake) {
        let failure = Failure::from(not_said);
        let _ = say_failed(&rt.stderr(), failure.what, failure.mistake);
    }
}

// Says a mistake on standard error.
fn say_beside<M: Display + Drop>(rt: &HostRuntime, what: &[u8], mistake: M) {
    let _ = say_failed(&rt.stderr(), what, mistake);
}

// Whether nothing but a table may stand on standard output.
fn is_bare(words: &[&[u8]]) -> bool {
    words.iter().any(|word| matches!(*word, b"--csv"))
}

// Runs the command of a line's words, and says its mistake: on standard error where standard output takes no more or has a bare table.
fn run_words(rt: &HostRuntime, words: &[&[u8]]) {
    let bare = is_bare(words);
    match Command::parse(words) {
        Err(misuse) if bare => say_beside(rt, misuse.word, misuse.mistake),
        Err(misuse) => say_mistake(rt, misuse.word, misuse.mistake),
        Ok(command) => match run_command(rt, command) {
            Err(failure) if bare => say_beside(rt, failure.what, failure.mistake),
            Err(
                Failure {
                    what,
                    mistake: Mistake::StandardOutput(error),
                },
            ) => say_beside(rt, what, Mistake::StandardOutput(error)),
            Err(failure) => say_mistake(rt, failure.what, failure.mistake),
            Ok(()) => {}
        },
    }
}

// Runs the command of a line, in which a 0 byte ends each word. The last line on standard output says how it ended.
pub fn run(rt: &HostRuntime, line: &[u8]) {
    let mut words = ArrayVec::<&[u8], ROOM>::new();
    let _ = words.extend(Words::new(line).take(WORDS));
    // of the words behind those an empty one alone is looked for, which is refused unless help or the version is asked for
    if Words::new(line).skip(WORDS).any(|word| word.is_empty()) {
        let _ = words.try_push(b"");
    }
    run_words(rt, words.as_slice());
}
