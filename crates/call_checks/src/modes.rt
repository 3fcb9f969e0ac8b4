// The two modes, as far as what is handed in differs by them.

// A mode, by its number.
#[derive(Clone, Copy)]
pub(crate) enum Mode {
    One = 1,
    Three = 3,
}

// The number of the mode: an enum's own, which only a cast gives.
impl From<Mode> for u8 {
    fn from(mode: Mode) -> u8 {
        mode as u8
    }
}

impl Mode {
    // The greatest stored channel.
    pub(crate) fn max_channel(self) -> u8 {
        match self {
            Mode::One => 63,
            Mode::Three => 127,
        }
    }

    // The greatest fixed p-bits.
    pub(crate) fn max_p(self) -> u8 {
        match self {
            Mode::One => 3,
            Mode::Three => 15,
        }
    }

    // The stored channel that shows nearly this byte.
    pub(crate) fn channel(self, byte: u8) -> u8 {
        match self {
            Mode::One => byte / 4,
            Mode::Three => byte / 2,
        }
    }

    // A drawn byte as fixed p-bits.
    pub(crate) fn p_bits(self, drawn: u8) -> u8 {
        drawn & self.max_p()
    }

    // A drawn byte as byte 0 of a block, whose lowest bits say the mode.
    pub(crate) fn first_byte(self, drawn: u8) -> u8 {
        match self {
            Mode::One => drawn / 4 * 4 + 2,
            Mode::Three => drawn / 16 * 16 + 8,
        }
    }
}
