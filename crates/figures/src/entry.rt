// A block among the worst of a plate.
ghost use Rattle.std.specs.Prelude.{◌≡◌, ◌+◌, ◌*◌, ◌/◌, ◌%◌, ◌<◌};

use std::cmp::Reverse;

// A block's error, its number, its mode and its partition. They are compared in this order, so that of two blocks the greater is the one
// with the greater error, and at equal errors the earlier one. The mode is a number, as in every call on blocks and in a table's lines.
#[derive(Clone, Copy, PartialEq, Eq, PartialOrd, Ord)]
pub struct Entry {
    pub error: u32,
    pub number: Reverse<u32>,
    pub mode: u8,
    pub partition: u8,
    ghost counted: { number.0 < 16777216 },
    ghost known: { mode ≡ 1 + 2 * (mode / 2 % 2) },
    ghost numbered: { partition < 64 },
}
