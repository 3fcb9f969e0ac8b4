// The search: the keys of each of sixteen pixels with the colours of its own subset's row, in four columns.
#![tactic(auto)]

ghost use Rattle.std.specs.Prelude.{◌≡◌, ℕ, ◌+◌, ◌*◌, ◌≤◌, List, map, get_or, refl};
ghost use Rattle.std.proofs.Common.{rules};
ghost use Rattle.lists.specs.Rows.{up_from};
ghost use Rattle.keys.specs.Keys.{key_at, pixel_key, least_of4, Steps};
ghost use Rattle.bptc.specs.Mode.{largest};
ghost use Rattle.keys.proofs.FirstKey.{Least};
ghost use Rattle.search.specs.Columns.{columns_of1, columns_of2};
ghost use Rattle.search.specs.Least.{least_columns1, least_columns2};

use bptc::Rgb;
use keys::key::keys;
use palette::pixels::pixel_at;
use palette::{Mode, Mode1, Mode3};

pub mod least;

// How the keys of a pixel with the colours of its row stand in four columns.
pub trait Layout {
    // How many colours a row has places for.
    const WIDTH: usize;

    ghost WIDTH: { ℕ };

    // The columns, by the key at each index.
    ghost columns: { (ℕ → ℕ) → List ℕ };

    // The columns of a pixel with the colours from a place on, no further than a row. Requires numbers in range.
    fn columns(p: Rgb, at: usize, numbers: &[u32]) -> [u32; 4]
        requires inside { at ≤ WIDTH }
        requires steps { Steps (WIDTH * 2) numbers.now }
        ensures { result ≡ columns (λ j. key_at (WIDTH * 2) numbers.now p (at + j)) };

    ghost narrow: { WIDTH ≤ 16 };
}

// A mode whose search finds the least key of a pixel in the columns of a row of eight.
pub trait Search: Mode + Layout {
    ghost eight: { Self.WIDTH ≡ 8 };

    // The least of the columns is the least key up to the mode's largest index.
    ghost least: { (key : ℕ → ℕ) → Least key (largest Self.mode) (least_of4 (λ c. get_or (Self.columns key) c 0)) };
}

// Eight colours: the lesser of two keys in each column, the columns by name, as a closure over their places says no more.
impl Layout for Mode1 {
    const WIDTH: usize = 8;

    ghost WIDTH = { 8 };

    ghost columns = { columns_of2 };

    #[tactic(auto, unfolding(crate::specs::Columns::columns_of2))]
    fn columns(p: Rgb, at: usize, numbers: &[u32]) -> [u32; 4] {
        let k: [u32; 8] = keys(p, at, 16, numbers);
        [
            k[0].min(k[4]),
            k[1].min(k[5]),
            k[2].min(k[6]),
            k[3].min(k[7]),
        ]
    }

    ghost narrow = { Prim.search rules };
}

impl Search for Mode1 {
    ghost eight = { refl };

    ghost least = { least_columns2 };
}

// Four colours: a key in each column.
impl Layout for Mode3 {
    const WIDTH: usize = 8;

    ghost WIDTH = { 8 };

    ghost columns = { columns_of1 };

    #[tactic(auto, unfolding(crate::specs::Columns::columns_of1))]
    fn columns(p: Rgb, at: usize, numbers: &[u32]) -> [u32; 4] {
        keys(p, at, 16, numbers)
    }

    ghost narrow = { Prim.search rules };
}

impl Search for Mode3 {
    ghost eight = { refl };

    ghost least = { least_columns1 };
}

// The columns of each pixel, by a mask of the pixels' subsets, which is any, not a partition's alone. Requires numbers in range. The loop
// has an index, the pixel's number, by which its bit of the mask and its bytes are found.
#[tactic(auto, using(lists::proofs::Rows::written_all), unfolding(lists::specs::Rows::written))]
pub fn block_columns<M: Layout>(px: &[u8; 48], mask: u32, numbers: &[u32]) -> [[u32; 4]; 16]
    requires steps { Steps (M.WIDTH * 2) numbers.now }
    ensures { result ≡ map (λ i. M.columns (pixel_key (M.WIDTH * 2) M.WIDTH numbers.now px.now mask i)) (up_from 0 16) }
{
    let mut out = [[0u32; 4]; 16];
    for i in 0..16 {
        // Rust has no `From` between the two
        let at = ((mask >> i) % 2) as usize * M::WIDTH;
        out[i] = M::columns(pixel_at(px, i), at, numbers);
    }
    out
}
