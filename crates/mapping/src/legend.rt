// What the shades of a map stand for, in words.
use shades::{Scale, grey};
use std::fmt;

// A scale, the error that is white, and whether it was given, so that a block may have a greater one.
#[derive(Clone, Copy, Debug, PartialEq, Eq)]
pub(crate) struct Legend {
    pub(crate) scale: Scale,
    pub(crate) white: u32,
    pub(crate) given: bool,
}

impl fmt::Display for Legend {
    fn fmt<W: fmt::Write>(&self, f: &mut fmt::Formatter<W>) -> fmt::Result {
        let white = self.white;
        let name = match self.scale {
            Scale::SquareRoot => "square root",
            Scale::Linear => "linear",
        };
        if white == 0 {
            return write!(f, "scale {name}: all blocks are black, with an error of 0");
        }
        let grey = grey(self.scale, white);
        write!(f, "scale {name}: black is an error of 0")?;
        // of a small white error no shade from 1 to 128 may be that of any error
        if grey > 0 {
            write!(f, ", grey (128) {grey}")?;
        }
        write!(f, ", white {white}")?;
        f.write_str(if self.given {
            " and more"
        } else {
            ", the worst block's"
        })
    }
}
