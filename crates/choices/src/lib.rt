// The search in mode 3 at free p-bits: the four choices of a subset's two p-bits, which both subsets share, are four columns of one search.
#![tactic(auto)]

ghost use Rattle.std.specs.Prelude.{◌≡◌, ◌+◌, ◌*◌, ◌/◌, ◌%◌, ◌<◌, map};
ghost use Rattle.lists.specs.Rows.{up_from, over_pixels};
ghost use Rattle.bptc.specs.Mode.{mode3};
ghost use Rattle.bptc.specs.Internal.Colour.{colours_of};
ghost use Rattle.bptc_block.specs.declared.PBits.TheVariants.{Free};
ghost use Rattle.closest.specs.Found.{biased_in, indexes_in, over_second};
ghost use Rattle.closest.specs.Pick.{picked_for};
ghost use Rattle.choices.specs.Choices.{column_bits};

use crate::best::best4;
use crate::choice::choice_numbers;
use choice_columns::least::Choices;
use choice_columns::sums::{ColumnSums, column_sums};
use closest::pick::{Picked, mix};
use closest::query::Query;
use palette::Mode3;
use palette::palettes::Ends;
use search::block_columns;

mod best;
mod choice;

// The two p-bits of a column, the lower endpoint's first. Requires one of the four.
fn bits_of(column: u32) -> u32
    requires { column < 4 }
    ensures { (result ≡ column % 2 * 2 + column / 2) × (result < 4) }
{
    column % 2 * 2 + column / 2
}

// What the least keys of the four columns tell, by a mask of the pixels' subsets, as `block_columns` and `column_sums` take it.
fn choices(ends: Ends<Mode3>, px: &[u8; 48], mask: u32) -> ColumnSums
    ensures all { result.all ≡ map (λ c. over_pixels (biased_in mode3 ends.stored (column_bits c) mask (colours_of px.now))) (up_from 0 4) }
    ensures second { result.second ≡ map (λ c. over_second mask (biased_in mode3 ends.stored (column_bits c) mask (colours_of px.now))) (up_from 0 4) }
    ensures words { result.words ≡ map (λ c. indexes_in mode3 ends.stored (column_bits c) mask (colours_of px.now)) (up_from 0 4) }
{
    let numbers = choice_numbers(ends);
    column_sums(&block_columns::<Choices>(px, mask, &numbers), mask)
}

// Each subset by itself keeps the first choice of least error.
pub fn free3(query: &Query<Mode3>) -> Picked
    ensures { result ≡ picked_for mode3 query.now.partition.number query.now.ends.stored Free query.now.pixels.now }
{
    let partition = query.partition;
    let s = choices(query.ends, query.pixels, u32::from(partition.mask()));
    let all = s.all;
    let one = s.second;
    let words = s.words;
    // the four columns by name, as a closure over their places says no more
    let f = best4([
        all[0] - one[0],
        all[1] - one[1],
        all[2] - one[2],
        all[3] - one[3],
    ]);
    let g = best4(one);
    // Rust has no `From` between the two
    let i = f.at as usize;
    let j = g.at as usize;
    let first = u64::from(words[i]);
    let second = u64::from(words[j]);
    // the p-bits narrow a value that the check proves to fit
    Picked {
        indexes: mix(first, second, partition.entry2() % 4294967296),
        sum: f.sum + g.sum,
        p: (bits_of(f.at) + bits_of(g.at) * 4) as u8,
    }
}
