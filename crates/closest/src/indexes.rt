// What the least keys tell: the indices as one number, and the summed distances.
ghost use Rattle.std.specs.Prelude.{◌≡◌, ℕ, ◌/◌, ◌%◌, ◌^◌, ◌≤◌, ◌<◌, map, eqb, get_or, replicate};
ghost use Rattle.lists.specs.Tests.{pick};
ghost use Rattle.lists.specs.Rows.{up_from, over_pixels};
ghost use Rattle.lists.specs.Digits.{bit};
ghost use Rattle.lists.specs.Bits.{join};

// The bits of a mask by their places: a vector of them, where shifts by different places would be one after the other.
const BITS: [u32; 16] = [
    1, 2, 4, 8, 16, 32, 64, 128, 256, 512, 1024, 2048, 4096, 8192, 16384, 32768,
];

// Sixteen indices of so many bits as one number, the first lowest. Requires indices of at most four bits. The loop has an index, since it
// goes down both halves at once.
pub fn word(bits: u32, best: &[u32; 16]) -> u64
    requires { bits ≤ 4 }
    ensures { result ≡ join (replicate 16 bits) (map (λ i. get_or best.now i 0 % 2 ^ bits) (up_from 0 16)) }
{
    let size = 1u32 << bits;
    let mut lo: u32 = 0;
    let mut hi: u32 = 0;
    for i in 0..8 {
        lo = lo * size + best[7 - i] % size;
        hi = hi * size + best[15 - i] % size;
    }
    u64::from(lo) + (u64::from(hi) << (8 * bits))
}

// A figure where a number is not 0, and 0 elsewhere.
fn marked(member: u32, n: u32) -> u32
    ensures { (result ≡ pick (eqb member 0) 0 n) × (result ≤ n) }
{
    if member == 0 { 0 } else { n }
}

// The sum of all pixels' raised distances, by their least keys. Requires keys below 2 ^ 23, as those of the search are: a type for sixteen
// such keys would be made once and read twice. With `sum` of an iterator the proof that it fits did not close.
pub fn sum(best: &[u32; 16]) -> u32
    requires { (i : ℕ) → get_or best.now i 0 < 2 ^ 23 }
    ensures { result ≡ over_pixels (λ i. get_or best.now i 0 / 8) }
{
    let mut all: u32 = 0;
    for key in best {
        all += key / 8;
    }
    all
}

// The sum of all pixels' raised distances and that of subset 1, which fixed p-bits do not need. Requires keys below 2 ^ 23. A `zip` over
// the bits is no plainer: the invariant has to say what both iterators have left.
pub(crate) fn summed(best: &[u32; 16], mask: u32) -> (u32, u32)
    requires { (i : ℕ) → get_or best.now i 0 < 2 ^ 23 }
    ensures all { result.0 ≡ over_pixels (λ i. get_or best.now i 0 / 8) }
    ensures second { result.1 ≡ over_pixels (λ i. pick (eqb (bit mask i) 1) (get_or best.now i 0 / 8) 0) }
{
    let mut all: u32 = 0;
    let mut second: u32 = 0;
    for (i, key) in best.iter().enumerate() {
        let d = key / 8;
        all += d;
        second += marked(mask & BITS[i], d);
    }
    (all, second)
}
