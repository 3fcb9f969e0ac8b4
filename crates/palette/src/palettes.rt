// The palettes of a block, from its stored endpoints and p-bits.
ghost use Rattle.std.specs.Prelude.{◌≡◌, ℕ, ◌^◌, ◌<◌, ◌≤◌, map, get_or};
ghost use Rattle.lists.specs.Rows.{up_from};
ghost use Rattle.bptc.specs.Internal.Colour.{black, Below};
ghost use Rattle.bptc.specs.Internal.Shown.{Stored, end_shown_by};
ghost use Rattle.bptc.specs.Internal.Palette.{blended_rows, coloured, palettes};

use crate::Mode;
use crate::colour::{Width, interpolate_rgb};
use bptc::{Colour, Rgb};
use std::alloc::AllocError;
use std::marker::PhantomData;

// The colour that endpoint k shows, by the widths of a mode. Requires one of the four endpoints, no more p-bits than these, and channels
// within the width: `Ends` has that of a mode's, and these are of any width.
#[inline(always)]
#[tactic(auto, unfolding(bptc::specs::Internal::Shown::end_shown_by))]
fn end_shown(width: Width, p_bits: u32, ends: [Rgb; 4], p: u8, k: usize) -> Rgb
    requires most { p_bits ≤ 4 }
    requires four { k < 4 }
    requires channels { Below (2 ^ width.bits) (get_or ends k black) }
    ensures { result ≡ end_shown_by width.bits p_bits ends p k }
{
    // Rust has no `From` between the two
    let i = (k as u32) * p_bits / 4;
    width.p_promote(ends[k], (p >> i) % 2)
}

// The palette between e[0] and e[1] and that between e[2] and e[3]: as many colours as the mode has, then black.
// Requires no more colours than a row has, which has eight places in either mode, and weights in parts of 256. The loop has an index, since
// it writes both rows.
#[inline(always)]
#[tactic(auto, unfolding(lists::specs::Rows::written))]
pub fn rows(weights: &[u16; 8], colours: usize, e: [Rgb; 4]) -> [[Colour; 8]; 2]
    requires few { colours ≤ 8 }
    requires light { (k : ℕ) → k < colours → get_or weights.now k 0 ≤ 256 }
    ensures { result ≡ coloured (blended_rows weights.now colours e) }
{
    let e0 = e[0];
    let e1 = e[1];
    let e2 = e[2];
    let e3 = e[3];
    let mut first = [Colour(0); 8];
    let mut second = [Colour(0); 8];
    for k in 0..colours {
        first[k] = interpolate_rgb(weights[k], e0, e1);
        second[k] = interpolate_rgb(weights[k], e2, e3);
    }
    [first, second]
}

// The colours that the four endpoints show, by the widths of a mode. Requires no more p-bits than endpoints, and channels within the width.
// Each by its place, since `array::from_fn` is slower (finishing at fixed p-bits in mode 1 1520 to 1560 instructions, in mode 3 at free
// ones 2829 to 3168).
#[inline(always)]
pub fn ends_shown(width: Width, p_bits: u32, ends: [Rgb; 4], p: u8) -> [Rgb; 4]
    requires most { p_bits ≤ 4 }
    requires channels { (k : ℕ) → k < 4 → Below (2 ^ width.bits) (get_or ends k black) }
    ensures { result ≡ map (end_shown_by width.bits p_bits ends p) (up_from 0 4) }
{
    [
        end_shown(width, p_bits, ends, p, 0),
        end_shown(width, p_bits, ends, p, 1),
        end_shown(width, p_bits, ends, p, 2),
        end_shown(width, p_bits, ends, p, 3),
    ]
}

// Stored endpoints of a mode, each channel within its width. They are copied, which stands by hand since a derive over a generic ghost
// field is refused: by reference the least keys of mode 1 take 1142 instructions in place of 1124.
pub struct Ends<M: Mode> {
    pub stored: [Rgb; 4],
    mode: PhantomData<M>,
    ghost within: { Stored M.mode stored },
}

impl<M: Mode> Copy for Ends<M> {}

impl<M: Mode> Clone for Ends<M> {
    fn clone(&self) -> Result<Self, AllocError> {
        Ok(*self)
    }
}

impl<M: Mode> Ends<M> {
    // Endpoints of the mode. Requires channels within its width.
    pub fn new(stored: [Rgb; 4]) -> Ends<M>
        requires { Stored M.mode stored }
        ensures { result.stored ≡ stored }
    {
        Ends {
            stored,
            mode: PhantomData,
        }
    }

    // Both palettes at p-bits, a row of eight colours for each subset, black past the largest index.
    #[inline(always)]
    pub fn palettes(self, p: u8) -> [[Colour; 8]; 2]
        ensures { result ≡ coloured (palettes M.mode self.stored p) }
    {
        // in a local, as the compiler does not see through a reference that the constant's entries are the same in every turn
        let weights = M::WEIGHTS;
        let shown = ends_shown(M::width(), M::P_BITS, self.stored, p);
        rows(&weights, M::colours(), shown)
    }
}
