// The numbers of a command line.
ghost use Rattle.std.specs.Prelude.{◌≡◌, ◌≤◌, IfOk, Some};
ghost use Rattle.text.specs.Decimal.{number_in};

use crate::mistakes::{ArgumentMistake, Misuse};
use crate::numbers::Worst;
use text::decimal::number;

// What a number is, the least such number and the greatest.
#[derive(Clone, Copy)]
pub struct Quantity {
    pub(crate) what: &'static str,
    pub(crate) least: u64,
    pub(crate) most: u64,
}

impl Quantity {
    // How many of the worst blocks are shown.
    pub(crate) const BLOCKS: Quantity = Quantity {
        what: "number of blocks",
        least: 1,
        most: Worst::MOST as u64,
    };

    // The first of some rows of blocks.
    pub(crate) const FIRST_ROW: Quantity = Quantity {
        what: "first row",
        least: 0,
        most: 4095,
    };

    // How many rows of blocks.
    pub(crate) const ROWS: Quantity = Quantity {
        what: "number of rows",
        least: 1,
        most: 4096,
    };

    // The number of a block of a plate: any that can be read.
    pub(crate) const BLOCK: Quantity = Quantity {
        what: "block number",
        least: 0,
        most: 999999999999999999,
    };

    // The width of a picture in pixels.
    pub(crate) const WIDTH: Quantity = Quantity {
        what: "width",
        least: 1,
        most: 16384,
    };

    // The height of a picture in pixels.
    pub(crate) const HEIGHT: Quantity = Quantity {
        what: "height",
        least: 1,
        most: 16384,
    };

    // The error whose shade is white.
    pub(crate) const WHITE: Quantity = Quantity {
        what: "white",
        least: 1,
        most: 4294967295,
    };

    // The number that a word says.
    pub(crate) fn parse<'a>(self, word: &'a [u8]) -> Result<u64, Misuse<'a>>
        ensures range { IfOk result (λ n. (self.least ≤ n) × (n ≤ self.most)) }
        ensures said { IfOk result (λ n. number_in word.now ≡ Some n) }
    {
        match number(word) {
            Some(n) if self.least <= n && n <= self.most => Ok(n),
            _ => Err(Misuse::new(word, ArgumentMistake::OtherNumber(self))),
        }
    }
}
