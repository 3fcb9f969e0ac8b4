// Drawn bytes.
use std::array;

// How drawn bytes lie.
#[derive(Clone, Copy)]
pub(crate) enum Kind {
    Any,
    // near 100
    Alike,
    // 0 or 255
    Extreme,
    // below 8
    Dark,
    // 0 or 1
    Bit,
    Zero,
}

// Every kind.
pub(crate) const KINDS: [Kind; 6] = [
    Kind::Any,
    Kind::Alike,
    Kind::Extreme,
    Kind::Dark,
    Kind::Bit,
    Kind::Zero,
];

impl Kind {
    // A drawn byte as one of the kind.
    fn byte(self, drawn: u8) -> u8 {
        match self {
            Kind::Any => drawn,
            Kind::Alike => 96 + drawn % 8,
            Kind::Extreme => drawn / 128 * 255,
            Kind::Dark => drawn % 8,
            Kind::Bit => drawn % 2,
            Kind::Zero => 0,
        }
    }
}

// A linear congruential generator of numbers below 2^31.
#[derive(Clone, Copy)]
pub(crate) struct Generator {
    seed: u32,
}

impl Generator {
    // The generator that begins at this number.
    pub(crate) fn new(seed: u32) -> Self {
        Generator { seed }
    }

    // One of many generators that begin where this one stands.
    pub(crate) fn branch(self, number: u8) -> Self {
        Generator {
            seed: self.seed.wrapping_add(u32::from(number) * 65537),
        }
    }

    // Draws a byte; cast, as it is below 256.
    fn next(&mut self) -> u8 {
        self.seed = self.seed.wrapping_mul(1103515245).wrapping_add(12345) % 2147483648;
        (self.seed / 65536 % 256) as u8
    }

    // Draws bytes of a kind.
    pub(crate) fn draw<const N: usize>(&mut self, kind: Kind) -> [u8; N] {
        array::from_fn(|_| kind.byte(self.next()))
    }
}
