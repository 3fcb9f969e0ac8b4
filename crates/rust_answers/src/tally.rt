// Counting answers, and the cells that the candidates lie in: mode 1 or 3, partition, p-bits fixed or free.
ghost use Rattle.std.specs.Prelude.{◌≡◌, ◌≤◌};
ghost use Rattle.rust_answers.specs.Counting.{counted_answer};

use std::fmt;

// The cells: two modes, 64 partitions, fixed or free.
const CELLS: usize = 256;

// How many answers there were, and how many of them differ.
#[derive(Clone, Copy, Default)]
pub(crate) struct Count {
    answers: u64,
    differ: u64,
}

impl Count {
    // One answer more, which is the Rust's or differs. No run counts to 2 ^ 64.
    pub(crate) fn add(&mut self, same: bool)
        ensures { self.new ≡ counted_answer self.old same }
    {
        self.answers = self.answers.wrapping_add(1);
        if !same {
            self.differ = self.differ.wrapping_add(1);
        }
    }
}

impl fmt::Display for Count {
    fn fmt<W: fmt::Write>(&self, f: &mut fmt::Formatter<W>) -> fmt::Result {
        write!(f, "{} answers, {} differ", self.answers, self.differ)
    }
}

// Which cells were seen, in one list, as they are only counted.
#[derive(Clone, Copy, Default)]
pub(crate) struct Cells([bool; CELLS]);

impl Cells {
    // Marks the cell of a candidate's record. Its bytes are matched as numbers: no call has checked them, and a candidate of another mode
    // or partition lies in none.
    pub(crate) fn mark(&mut self, record: &[u8; 16]) {
        let [mode, partition, .., free] = *record;
        let first = match mode {
            1 => 0,
            3 => CELLS / 2,
            _ => return,
        };
        if partition < 64 && free < 2 {
            self.0[first + usize::from(partition) * 2 + usize::from(free)] = true;
        }
    }

    // How many cells were seen.
    fn seen(&self) -> usize
        ensures { result ≤ 256 }
    {
        self.0.iter().filter(|seen| **seen).count()
    }
}

impl fmt::Display for Cells {
    fn fmt<W: fmt::Write>(&self, f: &mut fmt::Formatter<W>) -> fmt::Result {
        let seen = self.seen();
        write!(f, "{seen} of {CELLS}")
    }
}

// The counts of each call, and the cells.
#[derive(Clone, Copy, Default)]
pub(crate) struct Tally {
    pub(crate) finish: Count,
    pub(crate) measure: Count,
    pub(crate) pack: Count,
    pub(crate) choose: Count,
    pub(crate) cells: Cells,
}

impl fmt::Display for Tally {
    fn fmt<W: fmt::Write>(&self, f: &mut fmt::Formatter<W>) -> fmt::Result {
        writeln!(f, "finish: {}", self.finish)?;
        writeln!(f, "measure: {}", self.measure)?;
        writeln!(f, "pack: {}", self.pack)?;
        writeln!(f, "choose: {}", self.choose)?;
        write!(f, "cells: {}", self.cells)
    }
}
