// A colour's way from its stored channels to the shown ones, between two, and the distance of two.
ghost use Rattle.std.specs.Prelude.{◌≡◌, ◌^◌, ◌<◌, ◌≤◌};
ghost use Rattle.bptc.specs.Internal.Colour.{Below, each, both, dist_sq};
ghost use Rattle.bptc.specs.Colour.{sq_diff};
ghost use Rattle.bptc.specs.Internal.Shown.{p_shown};
ghost use Rattle.bptc.specs.Internal.Palette.{blend, colour};

use bptc::{Colour, Rgb};

// The bits of a stored channel, as many as a mode can have.
#[derive(Clone, Copy)]
pub struct Width {
    pub bits: u32,
    ghost wide: { 3 ≤ bits },
    ghost narrow: { bits ≤ 7 },
}

impl Width {
    // The byte that a channel of the width shows, with the p-bit below it. Requires a channel within the width, and a p-bit.
    #[inline(always)]
    fn promote(self, e: u8, p: u8) -> u8
        requires channel { e < 2 ^ self.bits }
        requires bit { p < 2 }
        ensures { result ≡ p_shown self.bits p e }
    {
        let v = u16::from(e) * 2 + u16::from(p);
        // narrows a value that the check proves to fit
        ((v << (7 - self.bits)) + (v >> (2 * self.bits - 6))) as u8
    }

    // The colour that a stored one shows with its p-bit. Requires channels within the width, and a p-bit.
    #[inline(always)]
    pub fn p_promote(self, c: Rgb, p: u8) -> Rgb
        requires channels { Below (2 ^ self.bits) c }
        requires bit { p < 2 }
        ensures { result ≡ each (p_shown self.bits p) c }
    {
        Rgb {
            r: self.promote(c.r, p),
            g: self.promote(c.g, p),
            b: self.promote(c.b, p),
        }
    }
}

// A channel between two, at a weight in parts of 256. Requires a weight up to 256, as a mode's law says of its weights.
#[tactic(auto, unfolding(bptc::specs::Internal::Palette::blend))]
fn interpolate(weight: u16, a: u8, b: u8) -> u8
    requires { weight ≤ 256 }
    ensures { result ≡ blend weight a b }
{
    // narrows a value that the check proves to fit
    (((256 - weight) * u16::from(a) + weight * u16::from(b) + 128) / 256) as u8
}

// The colour between two. Requires a weight in parts of 256.
pub fn interpolate_rgb(weight: u16, e0: Rgb, e1: Rgb) -> Colour
    requires { weight ≤ 256 }
    ensures { result ≡ colour (both (blend weight) e0 e1) }
{
    Colour(u32::from(Rgb {
        r: interpolate(weight, e0.r, e1.r),
        g: interpolate(weight, e0.g, e1.g),
        b: interpolate(weight, e0.b, e1.b),
    }))
}

// The square of the difference of two channels.
#[tactic(auto, unfolding(bptc::specs::Colour::sq_diff))]
fn sq_diff(a: u8, b: u8) -> u32
    ensures { (result ≡ sq_diff a b) × (result ≤ 65025) }
{
    let apart = u32::from(a.abs_diff(b));
    apart * apart
}

// The summed squares over red, green and blue.
#[tactic(auto, unfolding(bptc::specs::Internal::Colour::dist_sq))]
pub fn dist_sq(a: Rgb, b: Rgb) -> u32
    ensures { (result ≡ dist_sq a b) × (result ≤ 195075) }
{
    sq_diff(a.r, b.r) + sq_diff(a.g, b.g) + sq_diff(a.b, b.b)
}
