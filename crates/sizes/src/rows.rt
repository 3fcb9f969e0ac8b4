// A band of a picture's rows of blocks.
ghost use Rattle.std.specs.Prelude.{◌≡◌, ◌+◌, ◌<◌, ◌≤◌};
ghost use Rattle.groups.specs.Cutting.{groups_across};

use crate::size::Size;
use std::fmt;

// The first of some rows of blocks that follow one another, and how many they are.
#[derive(Clone, Copy, Debug, PartialEq, Eq)]
pub struct Rows {
    pub from: usize,
    pub count: usize,
    ghost first: { from < 4096 },
    ghost some: { (0 < count) × (count ≤ 4096) },
}

impl Rows {
    // All rows of blocks of a picture.
    pub fn all(size: Size) -> Rows
        ensures { (result.from ≡ 0) × (result.count ≡ groups_across size.height) }
    {
        Rows {
            from: 0,
            count: size.rows(),
        }
    }

    // The row behind the last.
    pub fn end(self) -> usize
        ensures { result ≡ self.from + self.count }
    {
        self.from + self.count
    }
}

// The first row and the last.
impl fmt::Display for Rows {
    fn fmt<W: fmt::Write>(&self, f: &mut fmt::Formatter<W>) -> fmt::Result {
        write!(f, "{} to {}", self.from, self.end() - 1)
    }
}
