// A key of a pixel and a colour: the pixel's raised distance and the colour's index in one number, so that the least key has the lowest
// index of least distance.
ghost use Rattle.std.specs.Prelude.{◌≡◌, ◌+◌, ◌*◌, ◌^◌, ◌≤◌, ◌<◌, map};
ghost use Rattle.lists.specs.Rows.{up_from};
ghost use Rattle.keys.specs.Keys.{key_at, Steps};

use bptc::Rgb;

// The numbers of a colour: what it adds to a key for each step of the pixel's red, green and blue, and what it adds by itself.
#[derive(Clone, Copy)]
struct Numbers {
    r: u32,
    g: u32,
    b: u32,
    own: u32,
    ghost steps: { ((r ≤ 4080) × (g ≤ 4080)) × (b ≤ 4080) },
    ghost alone: { own < 2 ^ 21 },
}

impl Numbers {
    // The key of a pixel. The range of the numbers is shown beside each product, so that the products are those of 16 bits.
    fn key(self, p: Rgb) -> u32
        ensures { (result ≡ self.own + p.r * self.r + p.g * self.g + p.b * self.b) × (result < 2 ^ 23) }
    {
        self.own
            + u32::from(p.r) * (self.r % 4096)
            + u32::from(p.g) * (self.g % 4096)
            + u32::from(p.b) * (self.b % 4096)
    }
}

// The key of a pixel and the colour at a place, by the numbers of so many colours. Requires numbers in range, of at most 32 colours: that
// is asked of a slice, since a struct of four arrays, which could hold it, is slower (mode 3 at free p-bits 2687 to 2847 instructions,
// with an older kit).
#[tactic(auto, unfolding(crate::specs::Keys::key_at))]
pub fn key_at(p: Rgb, at: usize, colours: usize, numbers: &[u32]) -> u32
    requires inside { at < colours }
    requires few { colours ≤ 32 }
    requires steps { Steps colours numbers.now }
    ensures { (result ≡ key_at colours numbers.now p at) × (result < 2 ^ 23) }
{
    let n = Numbers {
        r: numbers[at],
        g: numbers[at + colours],
        b: numbers[at + colours * 2],
        own: numbers[at + colours * 3],
    };
    n.key(p)
}

// The keys of a pixel with the N colours from a place on. Requires numbers in range, of at most 32 colours. The loop has an index, by which
// each key's colour is found: tried as `array::from_fn`, whose proof did not close at a length that is a parameter.
#[inline(always)]
#[tactic(auto, using(lists::proofs::Rows::written_all), unfolding(lists::specs::Rows::written))]
pub fn keys<const N: usize>(p: Rgb, at: usize, colours: usize, numbers: &[u32]) -> [u32; N]
    requires inside { at + N ≤ colours }
    requires few { colours ≤ 32 }
    requires steps { Steps colours numbers.now }
    ensures { result ≡ map (λ j. key_at colours numbers.now p (at + j)) (up_from 0 N) }
{
    let mut keys = [0u32; N];
    for j in 0..N {
        keys[j] = key_at(p, at + j, colours, numbers);
    }
    keys
}
