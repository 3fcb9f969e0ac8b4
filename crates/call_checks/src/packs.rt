// Blocks packed, and the refusals of pack.
use crate::hex::Hex;
use crate::inputs::{KEPT, changed, fields};
use block::{Fields, Rgb};
use refusals::number;
use std::io;

// Packs fields, and writes the block.
fn print_packed(rt: &impl Print, mode: u8, fields: Fields) -> io::Result<()> {
    let mut block = [0u8; 16];
    let packed = block::pack(mode, fields, &mut block);
    println!(rt; "packed {mode} {} {}", number(packed), Hex(&block))
}

// Fields with four endpoints that differ.
fn unlike(partition: u8, p: u8, index: u8) -> Fields {
    Fields {
        ends: [
            Rgb { r: 1, g: 2, b: 3 },
            Rgb {
                r: 60,
                g: 50,
                b: 40,
            },
            Rgb { r: 9, g: 18, b: 27 },
            Rgb { r: 63, g: 0, b: 33 },
        ],
        ..fields(partition, 0, p, index)
    }
}

// P8, partition 63 and all else zero; and every index the mode's largest, so that both subsets are exchanged.
pub(crate) fn print_blocks(rt: &impl Print) -> io::Result<()> {
    print_packed(rt, 1, fields(63, 0, 0, 0))?;
    print_packed(rt, 3, fields(63, 0, 0, 0))?;
    print_packed(rt, 1, unlike(17, 2, 7))?;
    print_packed(rt, 3, unlike(17, 9, 3))
}

// A call of pack into a lent part: its answer, and how many bytes it changed.
fn print_pack(rt: &impl Print, mode: u8, fields: Fields, part: &mut [u8]) -> io::Result<()> {
    part.fill(KEPT);
    let packed = block::pack(mode, fields, part);
    println!(rt; "pack {} {}", number(packed), changed(part))
}

// The refusals of pack by the length of the block part, which is cut to each length, as an array of one length would not be refused. Pack,
// finish and read have a function each, since each is another call.
pub(crate) fn print_lengths(rt: &impl Print) -> io::Result<()> {
    let mut bytes = [0u8; 17];
    for (mode, length) in [(1, 0), (1, 15), (2, 17)] {
        print_pack(rt, mode, fields(0, 0, 0, 0), &mut bytes[..length])?;
    }
    Ok(())
}

// The refusals of pack by the numbers handed in, and the calls beside them that are not declined.
pub(crate) fn print_numbers(rt: &impl Print) -> io::Result<()> {
    let mut part = [0u8; 16];
    for (mode, partition, channel, p, index) in [
        (2, 64, 0, 0, 0),
        (1, 64, 64, 0, 0),
        (1, 63, 64, 4, 0),
        (3, 63, 64, 0, 0),
        (3, 63, 128, 16, 0),
        (1, 63, 63, 4, 8),
        (3, 63, 127, 16, 4),
        (1, 63, 63, 3, 8),
        (3, 63, 127, 15, 4),
        (1, 63, 63, 3, 7),
        (3, 63, 127, 15, 3),
    ] {
        print_pack(rt, mode, fields(partition, channel, p, index), &mut part)?;
    }
    Ok(())
}
