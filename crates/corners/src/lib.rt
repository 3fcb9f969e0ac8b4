// The boxes around the colours of both subsets.
#![tactic(auto)]

ghost use Rattle.std.specs.Prelude.{◌≡◌, map, ◌*◌, ◌%◌, ◌<◌, eqb};
ghost use Rattle.lists.specs.Tests.{pick};
ghost use Rattle.lists.specs.Rows.{up_from};
ghost use Rattle.lists.specs.Digits.{bit};
ghost use Rattle.corners.specs.Corners.{widened, planes_of, colour_in, boxes_of};

use bptc::Rgb;
use palette::pixels::pixel_at;

// The corners of a box of colours: the least and the greatest of each channel.
#[derive(Clone, Copy)]
pub struct Bounds {
    pub low: Rgb,
    pub high: Rgb,
}

// The box around no colour.
const NOWHERE: Bounds = Bounds {
    low: Rgb {
        r: 255,
        g: 255,
        b: 255,
    },
    high: Rgb { r: 0, g: 0, b: 0 },
};

impl Bounds {
    // The box, widened to hold a colour where 0 says that it is inside, and as it was where 255 says that it is not. A channel is a line, as
    // it is a field of `Rgb`: a closure over the three would be no shorter.
    fn widened(self, c: Rgb, outside: u8) -> Bounds
        requires { outside % 255 ≡ 0 }
        ensures { result ≡ pick (eqb outside 0) (widened self c) self }
    {
        let inside = 255 - outside;
        let Bounds { low, high } = self;
        Bounds {
            low: Rgb {
                r: low.r.min(c.r | outside),
                g: low.g.min(c.g | outside),
                b: low.b.min(c.b | outside),
            },
            high: Rgb {
                r: high.r.max(c.r & inside),
                g: high.g.max(c.g & inside),
                b: high.b.max(c.b & inside),
            },
        }
    }
}

// For each pixel 255 where its bit of a mask is set, and else 0. `array::from_fn` would want a function of its own for the element. A bit is
// cast, since Rust has no `From` between `u16` and `u8`.
#[tactic(auto, using(lists::proofs::Rows::written_all), unfolding(lists::specs::Rows::written))]
fn marks(mask: u16) -> [u8; 16]
    ensures { result ≡ map (λ i. bit mask i * 255) (up_from 0 16) }
{
    let mut marks = [0u8; 16];
    for (i, mark) in marks.iter_mut().enumerate() {
        *mark = ((mask >> i) % 2) as u8 * 255;
    }
    marks
}

// The boxes around both subsets' colours.
#[derive(Clone, Copy)]
pub struct Boxes {
    pub first: Bounds,
    pub second: Bounds,
}

// The channels of sixteen pixels, each channel by itself.
#[derive(Clone, Copy)]
pub struct Planes {
    pub r: [u8; 16],
    pub g: [u8; 16],
    pub b: [u8; 16],
}

impl Planes {
    // The planes of 48 bytes. A pixel's place is the same in all three, which one loop fills.
    #[tactic(auto, using(lists::proofs::Rows::written_all), unfolding(lists::specs::Rows::written, crate::specs::Corners::planes_of))]
    pub fn of(pixels: &[u8; 48]) -> Planes
        ensures { result ≡ planes_of pixels.now }
    {
        let mut r = [0u8; 16];
        let mut g = [0u8; 16];
        let mut b = [0u8; 16];
        for i in 0..16 {
            let c = pixel_at(pixels, i);
            r[i] = c.r;
            g[i] = c.g;
            b[i] = c.b;
        }
        Planes { r, g, b }
    }

    // The colour of pixel i.
    fn colour(&self, i: usize) -> Rgb
        requires { i < 16 }
        ensures { result ≡ colour_in self.now i }
    {
        Rgb {
            r: self.r[i],
            g: self.g[i],
            b: self.b[i],
        }
    }

    // The boxes around both subsets' colours, by a partition's mask. Both are widened in one loop, with marks in place of tests, so that
    // the sixteen pixels are the lanes of one vector. A colour lies in three planes, and is taken by its place.
    #[tactic(auto, using(crate::proofs::Boxing::box_none))]
    pub fn boxes(&self, mask: u16) -> Boxes
        ensures { result ≡ boxes_of self.now mask }
    {
        let mut first = NOWHERE;
        let mut second = NOWHERE;
        let marked = marks(mask);
        for (i, mark) in marked.iter().enumerate() {
            let c = self.colour(i);
            first = first.widened(c, *mark);
            second = second.widened(c, 255 - *mark);
        }
        Boxes { first, second }
    }
}
