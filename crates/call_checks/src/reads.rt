// Blocks read and measured, the refusals of both, and drawn blocks that are read, packed again and measured.
use crate::answers::Answer;
use crate::generator::{Generator, Kind};
use crate::hex::Hex;
use crate::inputs::{KEPT, changed, fields};
use crate::modes::Mode;
use block::{Fields, Reading, Rgb};
use refusals::number;
use std::{array, fmt, io};

// The blocks drawn in each mode.
const BLOCKS: u32 = 256;

// Prints the channels of endpoints.
#[derive(Clone, Copy)]
struct Channels([Rgb; 4]);

impl fmt::Display for Channels {
    fn fmt<W: fmt::Write>(&self, f: &mut fmt::Formatter<W>) -> fmt::Result {
        for Rgb { r, g, b } in self.0 {
            write!(f, "{}", Hex(&[r, g, b]))?;
        }
        Ok(())
    }
}

// Prints fields: partition, the channels of the endpoints, p-bits and indices.
#[derive(Clone, Copy)]
struct Shown(Fields);

impl fmt::Display for Shown {
    fn fmt<W: fmt::Write>(&self, f: &mut fmt::Formatter<W>) -> fmt::Result {
        let Fields {
            partition,
            ends,
            p,
            indices,
        } = self.0;
        let ends = Channels(ends);
        write!(f, "{partition} {ends} {p} {}", Hex(indices.as_slice()))
    }
}

// A block read into a lent part, and measured against what that then holds. Of a block that is not read all fields are 0.
fn print_read(rt: &impl Print, block: &[u8], pixels: &mut [u8]) -> io::Result<()> {
    pixels.fill(KEPT);
    let read = block::read(block, pixels);
    let refusal = number(read.map(|_| ()));
    let changed = changed(pixels);
    let Reading { mode, fields } = read.unwrap_or(Reading {
        mode: 0,
        fields: fields(0, 0, 0, 0),
    });
    let measured = Answer(block::measure(block, pixels));
    println!(rt;
        "read {refusal} {changed} fields {mode} {} measured {measured}",
        Shown(fields)
    )
}

// P12: blocks whose byte 0 alone is not zero, and the block of zeros.
pub(crate) fn print_first_bytes(rt: &impl Print) -> io::Result<()> {
    for first in [0, 1, 4, 128, 2, 8] {
        let mut block = [0u8; 16];
        block[0] = first;
        print_read(rt, &block, &mut [0; 48])?;
    }
    Ok(())
}

// The refusals of read and measure by the lengths of their parts. These are cut to each length, as arrays of one length would not be
// refused.
pub(crate) fn print_lengths(rt: &impl Print) -> io::Result<()> {
    let block = [2u8; 17];
    let mut pixels = [0u8; 49];
    for (of_block, of_pixels) in [(16, 47), (16, 49), (0, 48), (15, 48), (17, 48), (15, 47)] {
        print_read(rt, &block[..of_block], &mut pixels[..of_pixels])?;
    }
    Ok(())
}

// A sum of numbers below 65536 that depends on their order.
#[derive(Clone, Copy, Default)]
struct Sum(u16);

impl Sum {
    // Takes in one more number.
    fn add(&mut self, n: u16) {
        self.0 = self.0.wrapping_mul(31).wrapping_add(n);
    }

    // Takes in bytes.
    fn add_bytes(&mut self, bytes: &[u8]) {
        for byte in bytes {
            self.add(u16::from(*byte));
        }
    }

    // Takes in all that was read of a block.
    fn add_reading(&mut self, reading: Reading, pixels: &[u8]) {
        let Fields {
            partition,
            ends,
            p,
            indices,
        } = reading.fields;
        self.add_bytes(&[reading.mode, partition, p]);
        for Rgb { r, g, b } in ends {
            self.add_bytes(&[r, g, b]);
        }
        self.add_bytes(&indices);
        self.add_bytes(pixels);
    }

    // Takes in an error, the lower half first; cast, as each is below 65536.
    fn add_error(&mut self, error: u32) {
        self.add((error % 65536) as u16);
        self.add((error / 65536) as u16);
    }
}

// A picture to measure against; cast, as 235 is the greatest.
fn ramp() -> [u8; 48] {
    array::from_fn(|i| (i * 5) as u8)
}

// Packs what was read of a block, and measures it against its own pixels: both give back what there was.
fn comes_back(block: &[u8; 16], reading: Reading, pixels: &[u8]) -> bool {
    let mut again = [0u8; 16];
    block::pack(reading.mode, reading.fields, &mut again).is_ok()
        && again == *block
        && block::measure(block, pixels) == Ok(0)
}

// Reads a block, measures it against the ramp, and takes both into a sum: whether the block comes back.
fn try_block(block: &[u8; 16], sum: &mut Sum) -> bool {
    let mut pixels = [0u8; 48];
    let (Ok(reading), Ok(far)) = (
        block::read(block, &mut pixels),
        block::measure(block, &ramp()),
    ) else {
        return false;
    };
    sum.add_reading(reading, &pixels);
    sum.add_error(far);
    comes_back(block, reading, &pixels)
}

// Drawn blocks of a mode: how many did not come back, and the sum.
pub(crate) fn print_drawn(rt: &impl Print, mode: Mode) -> io::Result<()> {
    let mode_number = u8::from(mode);
    let mut generator = Generator::new(u32::from(mode_number));
    let mut sum = Sum::default();
    let mut differ: u32 = 0;
    for _ in 0..BLOCKS {
        let mut block: [u8; 16] = generator.draw(Kind::Any);
        block[0] = mode.first_byte(block[0]);
        if !try_block(&block, &mut sum) {
            differ = differ.saturating_add(1);
        }
    }
    println!(rt; "drawn {mode_number} {BLOCKS} {differ} {}", sum.0)
}
