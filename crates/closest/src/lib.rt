// The nearest colours of a block's pixels at given p-bits, each in the palette of its own subset.
#![tactic(auto)]

ghost use Rattle.std.specs.Prelude.{◌≡◌, ℕ, ◌^◌, ◌<◌, get_or};
ghost use Rattle.bptc.specs.Internal.Colour.{colours_of};
ghost use Rattle.closest.specs.Found.{least_keys, found_at};

use crate::indexes::{summed, word};
use key_numbers::rows::numbers_of;
use palette::palettes::Ends;
use search::least::least;
use search::{Search, block_columns};

pub mod indexes;
pub mod pick;
pub mod query;

// What a search finds: the indices as one number with the first lowest, and the raised distances of all pixels and of those of subset 1.
// A struct and no tuple, since contracts and definitions name its parts.
#[derive(Clone, Copy)]
pub struct Found {
    pub indexes: u64,
    pub all: u32,
    pub second: u32,
}

// The least key of each pixel at given p-bits, by a mask of the pixels' subsets, which is any: hence no `Query`.
pub fn least_keys<M: Search>(ends: Ends<M>, p: u8, px: &[u8; 48], mask: u32) -> [u32; 16]
    ensures same { result ≡ least_keys M.mode ends.stored p mask (colours_of px.now) }
    ensures small { (i : ℕ) → get_or result i 0 < 2 ^ 23 }
{
    let numbers = numbers_of(ends.palettes(p));
    least(&block_columns::<M>(px, mask, &numbers))
}

// The nearest colours of the pixels at given p-bits, by a mask of their subsets.
pub fn closest_rgb<M: Search>(ends: Ends<M>, p: u8, px: &[u8; 48], mask: u32) -> Found
    ensures { result ≡ found_at M.mode ends.stored p mask (colours_of px.now) }
{
    let best = least_keys::<M>(ends, p, px, mask);
    let (all, second) = summed(&best, mask);
    Found {
        indexes: word(M::INDEX_BITS, &best),
        all,
        second,
    }
}
