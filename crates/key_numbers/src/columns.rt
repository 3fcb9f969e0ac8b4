// The numbers of four pairs of palettes with four colours each, a pair in each column.
ghost use Rattle.std.specs.Prelude.{◌≡◌, ◌/◌, ◌%◌, map, get_or};
ghost use Rattle.lists.specs.Rows.{up_from};
ghost use Rattle.bptc.specs.Internal.Pixels.{pixel_of};
ghost use Rattle.key_numbers.specs.Numbers.{column_words, joined_rows, flat_columns, numbers_of};

use crate::numbers;
use bptc::Colour;

// The first four colours of four rows, at index * 4 + row. The loop has an index, since it reads four arrays.
#[tactic(auto, using(lists::proofs::Rows::written_all), unfolding(lists::specs::Rows::written))]
fn interleaved(a: [Colour; 8], b: [Colour; 8], c: [Colour; 8], d: [Colour; 8]) -> [u32; 16]
    ensures { result ≡ map (column_words a b c d) (up_from 0 16) }
{
    let mut out = [0u32; 16];
    for j in 0..4 {
        out[j * 4] = a[j].0;
        out[j * 4 + 1] = b[j].0;
        out[j * 4 + 2] = c[j].0;
        out[j * 4 + 3] = d[j].0;
    }
    out
}

// Sixteen numbers, and sixteen after them. The loop has an index, since it writes two parts of one array.
#[tactic(auto, using(lists::proofs::Rows::written_all), unfolding(lists::specs::Rows::written, crate::specs::Numbers::joined_rows))]
fn joined(first: &[u32; 16], second: &[u32; 16]) -> [u32; 32]
    ensures { result ≡ map (joined_rows first.now second.now) (up_from 0 32) }
{
    let mut out = [0u32; 32];
    for k in 0..16 {
        out[k] = first[k];
        out[k + 16] = second[k];
    }
    out
}

// The numbers of four pairs of rows, each with four colours, a pair in each column.
pub fn numbers_of4(
    a: [[Colour; 8]; 2],
    b: [[Colour; 8]; 2],
    c: [[Colour; 8]; 2],
    d: [[Colour; 8]; 2],
) -> [u32; 128]
    ensures { result ≡ numbers_of 8 32 (λ k. pixel_of (get_or (flat_columns a b c d) k 0)) (λ k. k / 4 % 4) }
{
    let first = interleaved(a[0], b[0], c[0], d[0]);
    let second = interleaved(a[1], b[1], c[1], d[1]);
    numbers(&joined(&first, &second), 4, 4)
}
