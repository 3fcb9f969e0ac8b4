// Lines that are written to standard output together, since each write is a call of the system. They wait in fixed memory, where std's
// `BufWriter` takes heap.
use crate::say;
use mistakes::failure::NotSaid;
use std::fmt::{Display, Write};
use std::io::Print;
use text::line::Line;

// The bytes of lines that are written at once.
const TEXT: usize = 65536;

// Where there is no room for one more line.
const FULL: usize = 65024;

// The lines that wait to be written.
#[derive(Drop)]
pub struct Lines<'r, P> {
    rt: &'r P,
    text: Line<TEXT>,
}

impl<'r, P: Print> Lines<'r, P> {
    // No lines yet.
    pub fn new(rt: &'r P) -> Lines<'r, P> {
        Lines {
            rt,
            text: Line::new(),
        }
    }

    // Puts a line, and writes the lines where there is no room for one more.
    pub fn put<D: Display + Drop>(&mut self, line: D) -> Result<(), NotSaid> {
        let _ = writeln!(self.text, "{line}");
        if self.text.as_bytes().len() >= FULL {
            self.flush()?;
        }
        Ok(())
    }

    // Writes the lines.
    pub fn flush(&mut self) -> Result<(), NotSaid> {
        say(self.rt, self.text.as_bytes())?;
        self.text.clear();
        Ok(())
    }
}
