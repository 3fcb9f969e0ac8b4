// What is wrong with a plate.
use crate::unreadable::{BlockMode, Unreadable};
use sizes::place::Place;
use sizes::size::Size;
use std::fmt;

// A block of a mode that is not read, with the counts of these in its plate.
#[derive(Clone, Copy)]
pub struct UnreadBlock {
    pub place: Place,
    pub mode: BlockMode,
    pub counts: Unreadable,
}

impl fmt::Display for UnreadBlock {
    fn fmt<W: fmt::Write>(&self, f: &mut fmt::Formatter<W>) -> fmt::Result {
        let place = self.place;
        if self.mode.is_reserved() {
            write!(f, "{place} is reserved, its first byte is 0")?;
        } else {
            write!(f, "{place} has {}", self.mode)?;
        }
        write!(f, "; expected mode 1 or 3; {}", self.counts)
    }
}

// What is wrong with a plate.
#[derive(Clone, Copy)]
pub enum PlateMistake {
    NoWholeBlocks {
        has: u64,
    },
    OtherSize {
        has: u64,
        expected: u64,
        size: Size,
    },
    OtherWidth {
        has: u64,
        columns: usize,
        width: usize,
    },
    EndsEarly,
    NoBlock {
        number: u64,
        has: u64,
    },
    OtherMode(UnreadBlock),
}

impl fmt::Display for PlateMistake {
    fn fmt<W: fmt::Write>(&self, f: &mut fmt::Formatter<W>) -> fmt::Result {
        match *self {
            PlateMistake::NoWholeBlocks { has } => {
                write!(f, "has {has} bytes; expected whole blocks of 16")
            }
            PlateMistake::OtherSize {
                has,
                expected,
                size,
            } => write!(f, "has {has} blocks; expected {expected} for {size}"),
            PlateMistake::OtherWidth {
                has,
                columns,
                width,
            } => write!(
                f,
                "has {has} blocks; expected whole rows of {columns} for a width of {width} pixels"
            ),
            PlateMistake::EndsEarly => {
                f.write_str("ends early; expected the blocks that it had when it was opened")
            }
            PlateMistake::NoBlock { number, has } => write!(
                f,
                "has no block {number}; its blocks are 0 to {}",
                has.saturating_sub(1)
            ),
            PlateMistake::OtherMode(block) => write!(f, "{block}"),
        }
    }
}
