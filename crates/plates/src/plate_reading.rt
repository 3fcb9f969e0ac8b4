// `bc7 read`: the fields of each block of a plate in words.
ghost use Rattle.std.specs.Prelude.{◌<◌};

use crate::plate::{BLOCKS, Plate};
use arguments::numbers::Width;
use block::{Reading, Rgb};
use groups::across;
use messages::ending::say_done;
use messages::lines::Lines;
use messages::say_line;
use mistakes::failure::{Failure, NotSaid};
use mistakes::plate::PlateMistake;
use mistakes::unreadable::BlockMode;
use sizes::size::ROW;
use std::fmt::{self, Display};
use std::io::Print;
use std::num::NonZeroU64;

// What is said of a block is written piece by piece: around a `write!` inside another std's formatter keeps and restores its options, which
// would take half of a line's time.

// An endpoint: red, green, blue. The colour itself is another crate's, where nothing prints it.
#[derive(Clone, Copy)]
struct End(Rgb);

impl fmt::Display for End {
    fn fmt<W: fmt::Write>(&self, f: &mut fmt::Formatter<W>) -> fmt::Result {
        Display::fmt(&self.0.r, f)?;
        f.write_str(" ")?;
        Display::fmt(&self.0.g, f)?;
        f.write_str(" ")?;
        Display::fmt(&self.0.b, f)
    }
}

// The p-bits of a block of mode 1 or 3 with a space before each, the lowest first: one for each subset in mode 1, one for each endpoint in
// mode 3. The mode is told by its number, the form in which `block::read` answers it.
#[derive(Clone, Copy)]
struct BitList {
    mode: u8,
    p: u8,
}

impl fmt::Display for BitList {
    fn fmt<W: fmt::Write>(&self, f: &mut fmt::Formatter<W>) -> fmt::Result {
        let count = if self.mode == 1 { 2 } else { 4 };
        let mut rest = self.p;
        for _ in 0..count {
            f.write_str(if rest % 2 == 0 { " 0" } else { " 1" })?;
            rest /= 2;
        }
        Ok(())
    }
}

// The sixteen indices in pixel order, with a space before each.
#[derive(Clone, Copy)]
struct Indices([u8; 16]);

impl fmt::Display for Indices {
    fn fmt<W: fmt::Write>(&self, f: &mut fmt::Formatter<W>) -> fmt::Result {
        let mut text = [b' '; 32];
        for i in 0..16 {
            // one digit, as an index has three bits at most
            text[2 * i + 1] = b'0' + self.0[i] % 8;
        }
        match str::from_utf8(&text) {
            Ok(text) => f.write_str(text),
            Err(_) => Err(fmt::Error),
        }
    }
}

// The fields of a block in words.
#[derive(Clone, Copy)]
struct InWords(Reading);

impl fmt::Display for InWords {
    fn fmt<W: fmt::Write>(&self, f: &mut fmt::Formatter<W>) -> fmt::Result {
        let mode = self.0.mode;
        let fields = self.0.fields;
        let [first, second, third, fourth] = fields.ends;
        f.write_str("mode ")?;
        Display::fmt(&mode, f)?;
        f.write_str(", partition ")?;
        Display::fmt(&fields.partition, f)?;
        f.write_str(", subset 0 from ")?;
        End(first).fmt(f)?;
        f.write_str(" to ")?;
        End(second).fmt(f)?;
        f.write_str(", subset 1 from ")?;
        End(third).fmt(f)?;
        f.write_str(" to ")?;
        End(fourth).fmt(f)?;
        f.write_str(", p-bits")?;
        BitList { mode, p: fields.p }.fmt(f)?;
        f.write_str(", indices")?;
        Indices(fields.indices).fmt(f)
    }
}

// A block's number, and its column and row where it is known how many blocks a row has.
#[derive(Clone, Copy)]
struct Numbered {
    number: u64,
    columns: Option<NonZeroU64>,
}

impl fmt::Display for Numbered {
    fn fmt<W: fmt::Write>(&self, f: &mut fmt::Formatter<W>) -> fmt::Result {
        let number = self.number;
        f.write_str("block ")?;
        Display::fmt(&number, f)?;
        if let Some(columns) = self.columns {
            write!(
                f,
                " (column {}, row {})",
                number % columns,
                number / columns
            )?;
        }
        Ok(())
    }
}

// The line of a block. It is read where it is written, or what was read would be copied on the way.
#[derive(Clone, Copy)]
struct BlockLine<'b> {
    at: Numbered,
    block: &'b [u8],
    mode: BlockMode,
}

impl fmt::Display for BlockLine<'_> {
    fn fmt<W: fmt::Write>(&self, f: &mut fmt::Formatter<W>) -> fmt::Result {
        self.at.fmt(f)?;
        if self.mode.is_reserved() {
            return f.write_str(": reserved, its first byte is 0");
        }
        f.write_str(": ")?;
        if !self.mode.is_read() {
            Display::fmt(&self.mode, f)?;
            return f.write_str(", which is not read");
        }
        let mut pixels = [0u8; 48];
        match block::read(self.block, &mut pixels) {
            Ok(reading) => InWords(reading).fmt(f),
            // sixteen bytes of a mode that is read are never declined
            Err(refusal) => Display::fmt(&refusal, f),
        }
    }
}

// How many blocks there are.
#[derive(Clone, Copy)]
struct Count(u64);

impl fmt::Display for Count {
    fn fmt<W: fmt::Write>(&self, f: &mut fmt::Formatter<W>) -> fmt::Result {
        write!(f, "blocks {}", self.0)
    }
}

// The lines of blocks from a number on.
fn put_blocks(
    rt: &impl Print,
    blocks: &[u8],
    first: u64,
    columns: Option<NonZeroU64>,
) -> Result<(), NotSaid>
    requires { first < 1152921504606846976 }
{
    let mut lines = Lines::new(rt);
    for (number, block) in (first..u64::MAX).zip(blocks.chunks_exact(16)) {
        lines.put(BlockLine {
            at: Numbered { number, columns },
            block,
            mode: BlockMode::of(block[0]),
        })?;
    }
    lines.flush()
}

// Reads the blocks of a plate, so many at a time. Out of line, so that its buffer takes stack of this command alone: in line the compiler
// puts it into the function that runs every command.
#[inline(never)]
fn read_all<'a>(
    rt: &impl Print,
    plate: &Plate<'a>,
    columns: Option<NonZeroU64>,
) -> Result<(), Failure<'a>> {
    // Room for the blocks of one part: the program takes no heap.
    let mut all = [0u8; ROW];
    // by the parts' numbers: a `step_by` would want a step of another type than the blocks' numbers
    for part in 0..plate.blocks.div_ceil(BLOCKS) {
        let first = part * BLOCKS;
        let n = BLOCKS.min(plate.blocks - first);
        // Rust has no From between u64 and usize
        let blocks = &mut all[..n as usize * 16];
        plate.read_blocks(blocks)?;
        put_blocks(rt, blocks, first, columns)?;
    }
    Ok(())
}

// Reads one block of a plate.
fn read_one<'a>(
    rt: &impl Print,
    plate: &Plate<'a>,
    number: u64,
    columns: Option<NonZeroU64>,
) -> Result<(), Failure<'a>> {
    let has = plate.blocks;
    if number >= has {
        return Err(plate.input.failure(PlateMistake::NoBlock { number, has }));
    }
    plate.go_to(number)?;
    let mut block = [0u8; 16];
    plate.read_blocks(&mut block)?;
    put_blocks(rt, &block, number, columns)?;
    Ok(())
}

// How many blocks a row has where a width is given, of which the plate must have whole rows.
fn columns_of<'a>(
    plate: &Plate<'a>,
    width: Option<Width>,
) -> Result<Option<NonZeroU64>, Failure<'a>> {
    let Some(width) = width else {
        return Ok(None);
    };
    let width = width.pixels;
    let columns = across(width);
    let has = plate.blocks;
    // Rust has no From between usize and u64
    match NonZeroU64::new(columns as u64) {
        Some(row) if has % row == 0 => Ok(Some(row)),
        _ => Err(
            plate.input.failure(PlateMistake::OtherWidth {
                has,
                columns,
                width,
            }),
        ),
    }
}

// Says the fields of each block, or of one.
pub fn read<'a>(
    rt: &HostRuntime,
    path: &'a [u8],
    width: Option<Width>,
    block: Option<u64>,
) -> Result<(), Failure<'a>> {
    let plate = Plate::open(rt, path)?;
    let columns = columns_of(&plate, width)?;
    match block {
        Some(number) => read_one(rt, &plate, number, columns)?,
        None => read_all(rt, &plate, columns)?,
    }
    say_line(rt, Count(plate.blocks))?;
    say_done(rt, path, "read")?;
    Ok(())
}
