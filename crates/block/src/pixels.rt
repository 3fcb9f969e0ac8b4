// The sixteen pixels of a block: sixteen colours written into them, and their distance from sixteen colours.
ghost use Rattle.std.specs.Prelude.{◌≡◌, get_or};
ghost use Rattle.lists.specs.Rows.{over_pixels};
ghost use Rattle.bptc.specs.Internal.Colour.{black, colours_of, bytes_of, dist_sq};

use bptc::Rgb;
use palette::colour::dist_sq;
use palette::pixels::pixel_at;

// The bytes of sixteen colours into the pixels.
pub(crate) fn write_pixels(colours: &[Rgb; 16], pixels: &mut [u8; 48])
    ensures { pixels.new ≡ bytes_of colours.now }
{
    for (i, colour) in colours.iter().enumerate() {
        // by an index, as after `chunks_exact_mut` under `zip` a proof knows nothing of what was written
        pixels[i * 3] = colour.r;
        pixels[i * 3 + 1] = colour.g;
        pixels[i * 3 + 2] = colour.b;
    }
}

// The summed squared distance between pixels and sixteen colours.
pub(crate) fn distance(colours: &[Rgb; 16], pixels: &[u8; 48]) -> u32
    ensures { result ≡ over_pixels (λ i. dist_sq (get_or (colours_of pixels.now) i black) (get_or colours.now i black)) }
{
    let mut sum: u32 = 0;
    for (i, colour) in colours.iter().enumerate() {
        sum += dist_sq(pixel_at(pixels, i), *colour);
    }
    sum
}
