// The sixteen pixels of 48 bytes.
ghost use Rattle.std.specs.Prelude.{◌≡◌, ◌<◌, get_or};
ghost use Rattle.bptc.specs.Internal.Colour.{black, colours_of};

use bptc::Rgb;

// Pixel i of the bytes. Requires one of the sixteen: a loop counts them, and a type of such numbers would be made in each turn.
pub fn pixel_at(px: &[u8; 48], i: usize) -> Rgb
    requires { i < 16 }
    ensures { result ≡ get_or (colours_of px.now) i black }
{
    Rgb {
        r: px[i * 3],
        g: px[i * 3 + 1],
        b: px[i * 3 + 2],
    }
}
