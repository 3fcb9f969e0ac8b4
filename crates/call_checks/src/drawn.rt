// Drawn pixels, and the candidates that are drawn for them.
use crate::chooses::over;
use crate::generator::{Generator, Kind};
use crate::inputs::freed;
use crate::modes::Mode;
use block::{Candidate, PBits, Rgb};
use chooser::Chooser;
use std::array;

// A candidate with fixed p-bits from a drawn byte, and endpoints that show nearly twelve drawn bytes, by a line for each field of `Rgb`.
pub(crate) fn near(mode: Mode, partition: u8, channels: [u8; 12], p: u8) -> Candidate {
    Candidate {
        mode: u8::from(mode),
        partition,
        ends: array::from_fn(|k| Rgb {
            r: mode.channel(channels[k * 3]),
            g: mode.channel(channels[k * 3 + 1]),
            b: mode.channel(channels[k * 3 + 2]),
        }),
        p: PBits::Fixed(mode.p_bits(p)),
    }
}

// Pixels of a kind, and the generator as it stood behind them.
#[derive(Clone, Copy)]
pub(crate) struct Drawn {
    pub(crate) pixels: [u8; 48],
    kind: Kind,
    generator: Generator,
}

impl Drawn {
    // Draws pixels of a kind.
    pub(crate) fn new(generator: &mut Generator, kind: Kind) -> Self {
        let pixels = generator.draw(kind);
        Drawn {
            pixels,
            kind,
            generator: *generator,
        }
    }

    // A new chooser over the pixels.
    pub(crate) fn chooser(&self) -> Chooser {
        over(&self.pixels)
    }

    // The candidate of a number: any mode and partition, p-bits fixed or free.
    pub(crate) fn candidate(&self, number: u8) -> Candidate {
        let mut generator = self.generator.branch(number);
        let channels = generator.draw(self.kind);
        let [p, mode, partition, free]: [u8; 4] = generator.draw(Kind::Any);
        let mode = if mode % 2 == 0 {
            Mode::One
        } else {
            Mode::Three
        };
        let fixed = near(mode, partition % 64, channels, p);
        if free % 2 == 0 { fixed } else { freed(fixed) }
    }
}
