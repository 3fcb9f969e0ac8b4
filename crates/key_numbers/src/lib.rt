// The search's numbers, made from a block's palettes. They stand in one array: for each channel what a step of the pixel's adds to the
// key of each colour, and then the rest of each key.
#![tactic(auto)]

ghost use Rattle.std.specs.Prelude.{◌≡◌, ◌*◌, ◌/◌, ◌%◌, ◌<◌, ◌≤◌, get_or};
ghost use Rattle.bptc.specs.Internal.Pixels.{pixel_of};
ghost use Rattle.keys.specs.Keys.{step_of, own_of};
ghost use Rattle.key_numbers.specs.Numbers.{numbers_of};

pub mod columns;
pub mod rows;

// What a channel of a colour adds to a key for each step of the pixel's. Requires a byte.
#[tactic(auto, unfolding(keys::specs::Keys::step_of))]
fn step(x: u32) -> u32
    requires { x < 256 }
    ensures { result ≡ step_of 8 x }
{
    (255 - x) * 16
}

// What a colour, given as one number, adds to a key by itself. Requires an index below eight.
#[tactic(auto, using(keys::proofs::KeySums::squares), unfolding(keys::specs::Keys::own_of, bptc::specs::Internal::Colour::norm, bptc::specs::Internal::Colour::dot, bptc::specs::Internal::Pixels::pixel_of))]
fn alone(c: u32, index: u32) -> u32
    requires { index < 8 }
    ensures { result ≡ own_of 8 (pixel_of c) index }
{
    let r = c % 256;
    let g = c / 256 % 256;
    let b = c / 65536 % 256;
    (r * r + g * g + b * b) * 8 + index
}

// The numbers of N colours, which stand in so many columns and in rows of `width`: the index of each is its place in its column.
// Requires that `ALL` is four times N, and at least one column and rows of one to eight: no value could hold the first, which is of the
// type's parameters, and each caller writes the others out. The loop has an index, since it writes four parts of one array.
#[inline(always)]
fn numbers<const N: usize, const ALL: usize>(
    words: &[u32; N],
    columns: usize,
    width: usize,
) -> [u32; ALL]
    requires whole { ALL ≡ N * 4 }
    requires columns { 0 < columns }
    requires width { (0 < width) × (width ≤ 8) }
    ensures { result ≡ numbers_of 8 N (λ k. pixel_of (get_or words.now k 0)) (λ k. k / columns % width) }
{
    let mut numbers = [0u32; ALL];
    for k in 0..N {
        let c = words[k];
        numbers[k] = step(c % 256);
        numbers[k + N] = step(c / 256 % 256);
        numbers[k + N * 2] = step(c / 65536 % 256);
        // Rust has no `From` between the two
        numbers[k + N * 3] = alone(c, (k / columns % width) as u32);
    }
    numbers
}
