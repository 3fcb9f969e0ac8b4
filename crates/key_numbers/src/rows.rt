// The numbers of both palettes of a block, a row of eight colours for each subset.
ghost use Rattle.std.specs.Prelude.{◌≡◌, ◌%◌, get_or};
ghost use Rattle.bptc.specs.Internal.Pixels.{pixel_of};
ghost use Rattle.key_numbers.specs.Numbers.{flat_rows, numbers_of};

use crate::numbers;
use bptc::Colour;

// Both rows, one after the other. `joined` of columns copies numbers and this reads them out of colours: one function for both would
// take what is read as an argument. The loop has an index, since it writes two parts of one array.
#[tactic(auto, using(lists::proofs::Rows::written_all), unfolding(lists::specs::Rows::written, crate::specs::Numbers::flat_rows))]
fn flat(p: [[Colour; 8]; 2]) -> [u32; 16]
    ensures { result ≡ flat_rows p }
{
    let p0 = p[0];
    let p1 = p[1];
    let mut out = [0u32; 16];
    for k in 0..8 {
        out[k] = p0[k].0;
        out[k + 8] = p1[k].0;
    }
    out
}

// The numbers of both palettes. `numbers_of4` of columns is a function of its own: it takes four pairs of rows, of which it puts a pair in
// each column, and one function over both would hand in how the rows are laid out.
pub fn numbers_of(p: [[Colour; 8]; 2]) -> [u32; 64]
    ensures { result ≡ numbers_of 8 16 (λ k. pixel_of (get_or (flat_rows p) k 0)) (λ k. k % 8) }
{
    numbers(&flat(p), 1, 8)
}
