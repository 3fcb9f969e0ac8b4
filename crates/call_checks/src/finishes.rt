// Pixels finished with a candidate, and the refusals of finish.
use crate::answers::Answer;
use crate::drawn::near;
use crate::generator::{Generator, KINDS, Kind};
use crate::hex::Hex;
use crate::inputs::{KEPT, candidate, changed, ends_with, freed, level, zero};
use crate::modes::Mode;
use block::{Candidate, PBits, Rgb};
use std::{array, io};

// The partitions of a mode.
const PARTITIONS: u8 = 64;

// Finishes pixels, and writes the answer, what measure gives for the block, and the block.
fn print_finished(rt: &impl Print, label: &str, pixels: &[u8], c: Candidate) -> io::Result<()> {
    let mut block = [0u8; 16];
    let finished = Answer(block::finish(pixels, c, &mut block));
    let measured = Answer(block::measure(&block, pixels));
    let Candidate {
        mode,
        partition,
        ..
    } = c;
    println!(rt;
        "{label} {mode} {partition} {finished} measured {measured} {}",
        Hex(&block)
    )
}

// Sixteen pixels of red 2, green 4 and blue 8.
fn coloured() -> [u8; 48] {
    array::from_fn(|i| [2, 4, 8][i % 3])
}

// P1 to P7, and pixels with three different channels.
pub(crate) fn print_worked(rt: &impl Print) -> io::Result<()> {
    let black = [0u8; 48];
    let top1 = Candidate {
        ends: ends_with(63, 0),
        ..zero(1)
    };
    let top3 = Candidate {
        ends: ends_with(127, 0),
        p: PBits::Fixed(1),
        ..zero(3)
    };
    let own = Candidate {
        ends: [Rgb { r: 1, g: 2, b: 4 }; 4],
        ..zero(3)
    };
    print_finished(rt, "P1", &black, zero(1))?;
    print_finished(rt, "P2", &black, zero(3))?;
    print_finished(rt, "P3", &[255; 48], zero(1))?;
    print_finished(rt, "P4", &black, top1)?;
    print_finished(rt, "P5", &black, top3)?;
    print_finished(rt, "P6", &[2; 48], freed(zero(1)))?;
    print_finished(rt, "P7", &[1; 48], freed(zero(1)))?;
    print_finished(rt, "RGB", &coloured(), own)
}

// Pixels of one grey, with every channel 0 and with every channel the greatest, p-bits fixed and free.
fn print_grey(rt: &impl Print, label: &str, grey: u8, mode: Mode) -> io::Result<()> {
    let pixels = [grey; 48];
    let lowest = zero(u8::from(mode));
    let highest = Candidate {
        ends: level(mode.max_channel()),
        p: PBits::Fixed(mode.max_p()),
        ..lowest
    };
    for c in [lowest, freed(lowest), highest, freed(highest)] {
        print_finished(rt, label, &pixels, c)?;
    }
    Ok(())
}

// Black and white pixels in both modes.
pub(crate) fn print_greys(rt: &impl Print) -> io::Result<()> {
    for mode in [Mode::One, Mode::Three] {
        print_grey(rt, "black", 0, mode)?;
        print_grey(rt, "white", 255, mode)?;
    }
    Ok(())
}

// Pixels of one grey in mode 3, with every channel 0: the indices that are read of the block, the answer and the block.
// Where their p-bits differ, endpoints stored alike show two colours; of indices of one colour the lowest is taken, before the exchange.
// Of a block that is not read the indices printed are 0.
pub(crate) fn print_indices(rt: &impl Print, grey: u8, p: u8) -> io::Result<()> {
    let mut block = [0u8; 16];
    let finished = Answer(block::finish(&[grey; 48], candidate(3, 0, 0, p), &mut block));
    let indices = match block::read(&block, &mut [0; 48]) {
        Ok(reading) => reading.fields.indices,
        Err(_) => [0; 16],
    };
    println!(rt; "indices {} {finished} {}", Hex(&indices), Hex(&block))
}

// Black pixels but pixel 1, in mode 3 with every channel 0 and free p-bits: two choices of subset 0 have no error, and the earlier is kept.
pub(crate) fn print_tie(rt: &impl Print) -> io::Result<()> {
    let mut pixels = [0u8; 48];
    pixels[3..6].fill(1);
    print_finished(rt, "tie", &pixels, freed(zero(3)))
}

// A call of finish with lent parts: its answer, and how many bytes it changed.
fn print_finish(rt: &impl Print, pixels: &[u8], c: Candidate, part: &mut [u8]) -> io::Result<()> {
    part.fill(KEPT);
    let finished = Answer(block::finish(pixels, c, part));
    println!(rt; "finish {finished} {}", changed(part))
}

// The refusals of finish by the lengths of its parts. These are cut to each length, as arrays of one length would not be refused.
pub(crate) fn print_lengths(rt: &impl Print) -> io::Result<()> {
    let pixels = [0u8; 49];
    let mut part = [0u8; 17];
    for (mode, of_pixels, of_block) in [
        (1, 47, 16),
        (2, 49, 16),
        (1, 48, 15),
        (2, 48, 17),
        (1, 47, 15),
    ] {
        print_finish(rt, &pixels[..of_pixels], zero(mode), &mut part[..of_block])?;
    }
    Ok(())
}

// The refusals of finish by the candidate, and the calls beside them that are not declined.
pub(crate) fn print_numbers(rt: &impl Print) -> io::Result<()> {
    let mut part = [0u8; 16];
    for (mode, partition, last, p) in [
        (2, 64, 0, 0),
        (0, 0, 0, 0),
        (255, 0, 0, 0),
        (1, 64, 0, 0),
        (1, 64, 64, 0),
        (1, 63, 64, 4),
        (3, 63, 64, 0),
        (3, 63, 128, 16),
        (1, 63, 63, 4),
        (3, 63, 127, 16),
        (1, 63, 63, 3),
        (3, 63, 127, 15),
    ] {
        print_finish(rt, &[0; 48], candidate(mode, partition, last, p), &mut part)?;
    }
    Ok(())
}

// Draws pixels and endpoints of one kind, and finishes them with fixed and with free p-bits.
fn print_drawn(
    rt: &impl Print,
    mode: Mode,
    partition: u8,
    generator: &mut Generator,
) -> io::Result<()> {
    let kind = KINDS[usize::from(partition % 4)];
    let pixels: [u8; 48] = generator.draw(kind);
    let channels = generator.draw(kind);
    let [p]: [u8; 1] = generator.draw(Kind::Any);
    let fixed = near(mode, partition, channels, p);
    print_finished(rt, "fixed", &pixels, fixed)?;
    print_finished(rt, "free", &pixels, freed(fixed))
}

// Draws for every partition of a mode.
pub(crate) fn print_partitions(rt: &impl Print, mode: Mode) -> io::Result<()> {
    let mut generator = Generator::new(u32::from(u8::from(mode)));
    for partition in 0..PARTITIONS {
        print_drawn(rt, mode, partition, &mut generator)?;
    }
    Ok(())
}
