// The shades of an error map, by two scales.
#![tactic(auto)]

ghost use Rattle.std.specs.Prelude.{◌≡◌, ℕ, ◌*◌, ◌<◌, ◌≤◌, length};
ghost use Rattle.shades.specs.Shade.{step, shade_of, shades_of, grey_of};

// How the shade of a block grows with its error: with the root of it, or with the error itself.
#[derive(Clone, Copy, Debug, PartialEq, Eq)]
pub enum Scale {
    SquareRoot,
    Linear,
}

// The least number whose square is at least n, at most 255. Halving takes eight steps to it, and `isqrt` thirty-two.
fn root_up(n: u64) -> u64
    ensures reached { result < 255 → n ≤ result * result }
    ensures least { (t : ℕ) → t < result → t * t < n }
    ensures most { result ≤ 255 }
{
    let mut low = 0;
    let mut high = 255;
    while low < high {
        let middle = (low + high) / 2;
        if middle * middle < n {
            low = middle + 1;
        } else {
            high = middle;
        }
    }
    low
}

// The least number that reaches an error as its shade, where 255 reaches the white one; any from 255 on where none below does.
fn reaching(scale: Scale, error: u32, white: u32) -> u64
    requires { 0 < white }
    ensures reached { result < 255 → step scale 255 * error ≤ step scale result * white }
    ensures least { (t : ℕ) → t < result → step scale t * white < step scale 255 * error }
{
    match scale {
        Scale::SquareRoot => root_up((u64::from(error) * 65025).div_ceil(u64::from(white))),
        Scale::Linear => (u64::from(error) * 255).div_ceil(u64::from(white)),
    }
}

// The shade of a block's error, where errors from `white` on are white. Cast, as it is at most 255.
#[tactic(auto, using(crate::proofs::Reached::shade_capped), unfolding(crate::specs::Shade::shade_of))]
pub fn shade(scale: Scale, error: u32, white: u32) -> u8
    ensures { result ≡ shade_of scale error white }
{
    if white == 0 {
        return 0;
    }
    reaching(scale, error, white).min(255) as u8
}

// A row of an error map: three bytes for each block, which are its shade. They are written by index: a proof knows nothing of what is written
// through `chunks_exact_mut`.
#[tactic(auto, using(lists::proofs::Rows::written_all), unfolding(crate::specs::Shade::shades_of, lists::specs::Rows::written))]
pub fn shades(scale: Scale, errors: &[u32], white: u32, out: &mut [u8])
    requires { (length out.old ≡ 3 * length errors.now) × (length errors.now ≤ 4096) }
    ensures { out.new ≡ shades_of scale errors.now white }
{
    for (k, error) in errors.iter().enumerate() {
        let byte = shade(scale, *error, white);
        let at = 3 * k;
        out[at] = byte;
        out[at + 1] = byte;
        out[at + 2] = byte;
    }
}

// The greatest error whose shade is at most 128, for a legend; 0 where no error is white. Cast, as it is at most `white`.
#[tactic(auto, unfolding(crate::specs::Shade::grey_of))]
pub fn grey(scale: Scale, white: u32) -> u32
    ensures { result ≡ grey_of scale white }
{
    match scale {
        Scale::SquareRoot => (u64::from(white) * 16384 / 65025) as u32,
        Scale::Linear => (u64::from(white) * 128 / 255) as u32,
    }
}
