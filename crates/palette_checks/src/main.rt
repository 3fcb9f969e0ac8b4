// Prints what the crates palette and finishing give for worked examples; the gate holds it to the file `stdout`.
#![tactic(auto)]

ghost use Rattle.std.specs.Prelude.{◌≡◌, ◌<◌};

use bptc_block::PBits;
use finishing::{FreeBits, Query, nearest};
use palette::palettes::{Ends, rows};
use palette::{Colour, Mode, Mode1, Mode3, Rgb};
use partitions::Partition;
use std::{array, fmt, io};

// The reds of colours, each with a space after it.
#[derive(Drop)]
struct Reds<'a>(&'a [Colour]);

impl fmt::Display for Reds<'_> {
    fn fmt<W: fmt::Write>(&self, f: &mut fmt::Formatter<W>) -> fmt::Result {
        for c in self.0 {
            write!(f, "{} ", c.0 % 256)?;
        }
        Ok(())
    }
}

// A number for each pixel, with nothing between them, where `{:?}` of an array puts brackets and commas.
#[derive(Clone, Copy)]
struct Digits([u8; 16]);

impl fmt::Display for Digits {
    fn fmt<W: fmt::Write>(&self, f: &mut fmt::Formatter<W>) -> fmt::Result {
        for n in &self.0 {
            write!(f, "{n}")?;
        }
        Ok(())
    }
}

// A colour with three equal channels. The other program of checks has its own, as the two share no crate of theirs.
fn grey(v: u8) -> Rgb
    ensures { result ≡ record { r = v; g = v; b = v } }
{
    Rgb { r: v, g: v, b: v }
}

// The byte that a channel of mode 1 shows.
fn print_shown(rt: &impl Print, e: u8, p: u8) -> io::Result<()>
    requires channel { e < 64 }
    requires bit { p < 2 }
{
    println!(rt; "shown {}", Mode1::width().p_promote(grey(e), p).r)
}

// P10: both palettes between black and white.
fn print_palettes(rt: &impl Print) -> io::Result<()> {
    let a = grey(0);
    let b = grey(255);
    let four = rows(&Mode3::WEIGHTS, Mode3::colours(), [a, b, a, b])[0];
    let eight = rows(&Mode1::WEIGHTS, Mode1::colours(), [a, b, a, b])[1];
    println!(rt; "palette {}", Reds(&four[..Mode3::colours()]))?;
    println!(rt; "palette {}", Reds(&eight[..Mode1::colours()]))
}

// A partition: the subset of each pixel, then the size of subset 1, its first pixel, 16 where there is none, and its anchor.
fn print_partition(rt: &impl Print, partition: Partition) -> io::Result<()> {
    let subsets: [u8; 16] = array::from_fn(|i| partition.subset(i));
    let first = subsets.iter().position(|&s| s == 1).unwrap_or(16);
    println!(rt;
        "partition {} {} {} {} {}",
        partition.number,
        Digits(subsets),
        partition.size(),
        first,
        partition.anchor()
    )
}

// Sixteen pixels of many colours; cast, as each byte is below 256.
fn pixels() -> [u8; 48] {
    array::from_fn(|i| ((i * 53 + i / 3 * 29) % 256) as u8)
}

// Endpoints of mode 1.
fn ends1() -> Ends<Mode1> {
    let a = Rgb { r: 3, g: 60, b: 17 };
    let b = Rgb { r: 55, g: 8, b: 40 };
    let c = Rgb {
        r: 20,
        g: 21,
        b: 22,
    };
    let d = Rgb { r: 63, g: 0, b: 33 };
    Ends::new([a, b, c, d])
}

// Endpoints of mode 3: other numbers, in another type.
fn ends3() -> Ends<Mode3> {
    let a = Rgb {
        r: 3,
        g: 120,
        b: 17,
    };
    let b = Rgb {
        r: 110,
        g: 8,
        b: 40,
    };
    let c = Rgb {
        r: 20,
        g: 21,
        b: 22,
    };
    let d = Rgb {
        r: 127,
        g: 0,
        b: 99,
    };
    Ends::new([a, b, c, d])
}

// The indices of a query, digits of one number that a loop takes off it one by one, the p-bits and the error of both subsets; cast, as a
// mode has few colours.
fn print_found<M: FreeBits>(rt: &impl Print, query: Query<M>, p: PBits) -> io::Result<()> {
    let found = nearest(&query, p);
    let numbers = M::colours() as u64;
    let mut left = found.indexes;
    let mut indices = [0u8; 16];
    for index in indices.iter_mut() {
        *index = (left % numbers % 256) as u8;
        left /= numbers;
    }
    println!(rt;
        "mode {} {} {} {}",
        M::NUMBER,
        Digits(indices),
        found.p,
        found.error
    )
}

// The search in both modes over a partition, at p-bits that are fixed or free. The queries are of two types.
fn print_searches(rt: &impl Print, partition: Partition, p1: PBits, p3: PBits) -> io::Result<()> {
    let bytes = pixels();
    let query1 = Query {
        ends: ends1(),
        pixels: &bytes,
        partition,
    };
    let query3 = Query {
        ends: ends3(),
        pixels: &bytes,
        partition,
    };
    print_found(rt, query1, p1)?;
    print_found(rt, query3, p3)
}

// The examples, one after the other.
fn main(rt: HostRuntime) -> io::Result<()> {
    print_shown(&rt, 63, 1)?;
    print_shown(&rt, 63, 0)?;
    print_shown(&rt, 0, 1)?;
    print_palettes(&rt)?;
    for number in 0..64 {
        let partition = Partition { number };
        print_partition(&rt, partition)?;
        let p1 = PBits::Fixed(number % 4);
        let p3 = PBits::Fixed(number % 16);
        print_searches(&rt, partition, p1, p3)?;
        print_searches(&rt, partition, PBits::Free, PBits::Free)?;
    }
    Ok(())
}
