// What a block's pixels are raised by, and the error without it.
ghost use Rattle.std.specs.Prelude.{◌≡◌, ◌+◌, ◌≤◌};
ghost use Rattle.bptc.specs.Internal.Colour.{colours_of};
ghost use Rattle.closest.specs.Pick.{bias_all};

// The greatest distance of sixteen pixels.
pub(crate) const GREATEST: u32 = 16 * 3 * 255 * 255;

// The squares of what the bytes lack to 255, in sum: the greatest distance less what the pixels are raised by.
pub(crate) fn lacking(px: &[u8; 48]) -> u32
    ensures { (result + bias_all (colours_of px.now) ≡ 3121200) × (result ≤ 3121200) }
{
    let mut sum = 0;
    for x in px {
        let y = u32::from(255 - *x);
        sum += y * y;
    }
    sum
}
