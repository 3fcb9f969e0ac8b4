// The size of a picture.
ghost use Rattle.std.specs.Prelude.{◌≡◌, ◌*◌, ◌<◌, ◌≤◌};
ghost use Rattle.std.specs.Int.NonZero.{non_zero_usize_get};
ghost use Rattle.groups.specs.Cutting.{groups_across, rows_in};
ghost use Rattle.sizes.specs.Sizes.{Sized};

use groups::{Band, across, rows_in};
use std::fmt;
use std::num::NonZeroUsize;

// The bytes of four rows of pixels of the greatest width, and of their groups.
pub const BAND: usize = 196608;

// The bytes of a row of blocks of the greatest width.
pub const ROW: usize = 65536;

// A width and a height of 1 to 16,384 pixels.
#[derive(Clone, Copy, Debug, PartialEq, Eq)]
pub struct Size {
    pub width: usize,
    pub height: usize,
    ghost sized: { Sized width height },
}

impl Size {
    // How many blocks a row of blocks has.
    pub fn columns(self) -> NonZeroUsize
        ensures { (non_zero_usize_get result ≡ groups_across self.width) × (non_zero_usize_get result ≤ 4096) }
    {
        // a width is no 0, so there is a block
        NonZeroUsize::new(across(self.width)).unwrap()
    }

    // How many rows of blocks there are.
    pub fn rows(self) -> usize
        ensures { (result ≡ groups_across self.height) × (0 < result) × (result ≤ 4096) }
    {
        across(self.height)
    }

    // The band of a row of blocks. Requires that the row is inside, as a loop over the rows counts it.
    pub fn band(self, row: usize) -> Band
        requires { row * 4 < self.height }
        ensures { (result.width ≡ self.width) × (result.rows ≡ rows_in self.height row) }
    {
        Band {
            width: self.width,
            rows: rows_in(self.height, row),
        }
    }
}

impl fmt::Display for Size {
    fn fmt<W: fmt::Write>(&self, f: &mut fmt::Formatter<W>) -> fmt::Result {
        write!(f, "{} by {} pixels", self.width, self.height)
    }
}
