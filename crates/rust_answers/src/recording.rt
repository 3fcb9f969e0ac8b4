// The parts of a recording, and the indices in it.
ghost use Rattle.std.specs.Prelude.{◌≡◌, ◌+◌, ◌<◌, ◌≤◌, length};
ghost use Rattle.rust_answers.specs.Recording.{recorded_index, indices_in};

use std::array;

// N bytes from one place on. By their places, as `first_chunk` would give a case that cannot come.
pub(crate) fn part<const N: usize>(bytes: &[u8], at: usize) -> [u8; N]
    requires { at + N ≤ length bytes.now }
{
    array::from_fn(|i| bytes[at + i])
}

// The index of a pixel in eight bytes: of a byte's two the lower half is the earlier.
fn index(bytes: &[u8; 8], pixel: usize) -> u8
    requires { pixel < 16 }
    ensures { result ≡ recorded_index bytes.now pixel }
{
    let both = bytes[pixel / 2];
    if pixel % 2 == 0 { both % 16 } else { both / 16 }
}

// The sixteen indices of eight bytes.
pub(crate) fn indices(bytes: &[u8; 8]) -> [u8; 16]
    ensures { result ≡ indices_in bytes.now }
{
    array::from_fn(|pixel| index(bytes, pixel))
}
