// How many blocks of a plate are of a mode that is not read.
ghost use Rattle.std.specs.Prelude.{◌≡◌, ◌≤◌, eqb};
ghost use Rattle.std.specs.Int.{trailing_zeros, w8};
ghost use Rattle.mistakes.specs.Unreadable.{is_read, no_blocks, counted};

use std::fmt;

// The modes, and the number of the reserved one behind them.
const MODES: usize = 9;

// The number of a reserved block, whose first byte is 0.
const RESERVED: u8 = 8;

// The mode that the first byte of a block says, or that it is reserved.
#[derive(Clone, Copy, Debug, PartialEq, Eq)]
pub struct BlockMode {
    number: u8,
    ghost known: { number ≤ 8 },
}

impl BlockMode {
    // The mode of a block's first byte: its trailing zeros; cast, as they are at most 8.
    pub fn of(first: u8) -> BlockMode
        ensures { result.number ≡ trailing_zeros w8 first }
    {
        BlockMode {
            number: first.trailing_zeros() as u8,
        }
    }

    // Whether blocks of this mode are read.
    pub fn is_read(self) -> bool
        ensures { result ≡ is_read self.number }
    {
        matches!(self.number, 1 | 3)
    }

    // Whether it is the mode of reserved blocks.
    pub fn is_reserved(self) -> bool
        ensures { result ≡ eqb self.number 8 }
    {
        self.number == RESERVED
    }
}

// The name of a mode's number, or of the reserved one.
#[derive(Clone, Copy)]
struct ModeName(u8);

impl fmt::Display for ModeName {
    // A text for each, as `read` says it of each block: std writes a number in several steps.
    fn fmt<W: fmt::Write>(&self, f: &mut fmt::Formatter<W>) -> fmt::Result {
        f.write_str(match self.0 {
            0 => "mode 0",
            1 => "mode 1",
            2 => "mode 2",
            3 => "mode 3",
            4 => "mode 4",
            5 => "mode 5",
            6 => "mode 6",
            7 => "mode 7",
            _ => "reserved",
        })
    }
}

impl fmt::Display for BlockMode {
    fn fmt<W: fmt::Write>(&self, f: &mut fmt::Formatter<W>) -> fmt::Result {
        ModeName(self.number).fmt(f)
    }
}

// How many blocks there are, and how many of each mode that is not read. No plate counts to 2 ^ 64.
#[derive(Clone, Copy, Debug, PartialEq, Eq)]
pub struct Unreadable {
    blocks: u64,
    unreadable: u64,
    by_mode: [u64; MODES],
}

impl Unreadable {
    // The counts of no blocks.
    pub fn none() -> Unreadable
        ensures { result ≡ no_blocks }
    {
        Unreadable {
            blocks: 0,
            unreadable: 0,
            by_mode: [0; MODES],
        }
    }

    // Counts one block more, of this mode.
    pub fn count(&mut self, mode: BlockMode)
        ensures { self.new ≡ counted self.old mode.number }
    {
        self.blocks = self.blocks.wrapping_add(1);
        if !mode.is_read() {
            self.unreadable = self.unreadable.wrapping_add(1);
            let number = usize::from(mode.number);
            self.by_mode[number] = self.by_mode[number].wrapping_add(1);
        }
    }
}

impl fmt::Display for Unreadable {
    fn fmt<W: fmt::Write>(&self, f: &mut fmt::Formatter<W>) -> fmt::Result {
        write!(
            f,
            "unreadable are {} of {} blocks",
            self.unreadable, self.blocks
        )?;
        let mut before = ":";
        for (number, count) in (0u8..9).zip(self.by_mode) {
            if count > 0 {
                write!(f, "{before} {}: {count}", ModeName(number))?;
                before = ",";
            }
        }
        Ok(())
    }
}
