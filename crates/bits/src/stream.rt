// A block's 128 bits, written by place: what the Rust's BitStream does.
ghost use Rattle.std.specs.Prelude.{◌≡◌, [], ◌∷◌, ℕ, ◌+◌, ◌-◌, ◌*◌, ◌^◌, ◌<◌, ◌≤◌, map, get_or, length, replicate};
ghost use Rattle.lists.specs.Bits.{join};
ghost use Rattle.lists.specs.Bytes.{bytes};
ghost use Rattle.bptc.specs.Internal.Colour.{black, Below};
ghost use Rattle.bptc.specs.Internal.Pixels.{pixel_of};
ghost use Rattle.bptc.specs.Internal.Shown.{Stored};
ghost use Rattle.bptc.specs.Mode.{p_bits};
ghost use Rattle.bptc_block.specs.Internal.Front.{front_widths, rgb_values, front_values};

use crate::writing::endpoints;
use bptc::Rgb;
use bptc_block::FieldWords;
use palette::Mode;
use palette::colour::Width;

// A number of 128 bits, and how many of its bits are written.
#[derive(Clone, Copy)]
pub(crate) struct BitStream {
    pub data: u128,
    pub bits: u32,
    ghost above: { «data» < 2 ^ bits },
}

// Four channels as one number, the first lowest. Requires that they are within the width: `Ends` says it of whole endpoints.
fn four(width: Width, channels: [u8; 4]) -> u64
    requires { (k : ℕ) → k < 4 → get_or channels k 0 < 2 ^ width.bits }
    ensures same { result ≡ join (replicate 4 width.bits) channels }
    ensures small { result < 2 ^ (4 * width.bits) }
{
    let bits = width.bits;
    let [a, b, c, d] = channels;
    let two = (u64::from(d) << bits) + u64::from(c);
    let three = (two << bits) + u64::from(b);
    (three << bits) + u64::from(a)
}

impl BitStream {
    // Nothing written.
    pub(crate) fn new() -> BitStream
        ensures none { result.data ≡ 0 }
        ensures start { result.bits ≡ 0 }
    {
        BitStream { data: 0, bits: 0 }
    }

    // Writes a value of so many bits above all that is written. Requires room for it, of which each function here asks for its own.
    pub(crate) fn write_u64(self, value: u64, bits: u32) -> BitStream
        requires fits { value < 2 ^ bits }
        requires some { 0 < bits }
        requires room { self.bits + bits ≤ 128 }
        ensures same { result.data ≡ self.data + value * 2 ^ self.bits }
        ensures place { result.bits ≡ self.bits + bits }
    {
        BitStream {
            data: self.data + (u128::from(value) << self.bits),
            bits: self.bits + bits,
        }
    }

    // Writes one channel of the four endpoints.
    fn write_channels(self, width: Width, channels: [u8; 4]) -> BitStream
        requires small { (k : ℕ) → k < 4 → get_or channels k 0 < 2 ^ width.bits }
        requires room { self.bits + 4 * width.bits ≤ 128 }
        ensures same { result.data ≡ self.data + join (replicate 4 width.bits) channels * 2 ^ self.bits }
        ensures place { result.bits ≡ self.bits + 4 * width.bits }
    {
        self.write_u64(four(width, channels), 4 * width.bits)
    }

    // Writes all reds, all greens, all blues of the four endpoints.
    fn write_endpoints_rgb(self, width: Width, ends: [Rgb; 4]) -> BitStream
        requires channels { (k : ℕ) → k < 4 → Below (2 ^ width.bits) (get_or ends k black) }
        requires room { self.bits + 12 * width.bits ≤ 128 }
        ensures same { result.data ≡ self.data + join (replicate 12 width.bits) (rgb_values ends []) * 2 ^ self.bits }
        ensures place { result.bits ≡ self.bits + 12 * width.bits }
    {
        let [e0, e1, e2, e3] = ends;
        let reds = self.write_channels(width, [e0.r, e1.r, e2.r, e3.r]);
        let greens = reds.write_channels(width, [e0.g, e1.g, e2.g, e3.g]);
        greens.write_channels(width, [e0.b, e1.b, e2.b, e3.b])
    }
}

// The bits of a block of a mode, with indexes that lack the top bits of the anchors': mode, partition, endpoints, p-bits and indexes.
pub(crate) fn write_fields<M: Mode>(w: FieldWords) -> u128
    requires inside { w.partition < 64 }
    requires stored { Stored M.mode (map pixel_of w.ends) }
    requires own { w.p < 2 ^ p_bits M.mode }
    requires rest { w.indexes < 2 ^ (16 * M.mode.index_bits - 2) }
    ensures { result ≡ join (front_widths M.mode.number M.mode.channel_bits (p_bits M.mode ∷ (16 * M.mode.index_bits - 2) ∷ [])) (front_values M.mode.number w.partition (map pixel_of w.ends) (w.p ∷ w.indexes ∷ [])) }
{
    let number = u32::from(M::NUMBER);
    let ends = endpoints(w.ends);
    let mode = BitStream::new().write_u64(1 << number, number + 1);
    let front = mode.write_u64(u64::from(w.partition), 6);
    let stored = front.write_endpoints_rgb(M::width(), ends);
    let own = stored.write_u64(u64::from(w.p), M::P_BITS);
    own.write_u64(w.indexes, 16 * M::INDEX_BITS - 2).data
}

// The eight bytes of a number into half a block, the lowest first; a slice of eight, as a half of an array is one. Out of line the compiler
// makes one word of them, and packing takes 191 instructions; in line it takes each byte out of its field, 232, and by `to_le_bytes` and
// `copy_from_slice` it copies them too, 283.
#[inline(never)]
fn write_half(n: u64, half: &mut [u8])
    requires { length half.old ≡ 8 }
    ensures { half.new ≡ bytes 8 n }
{
    // by an index, as bytes are written and their places read; each narrows a value that the check proves to fit
    for i in 0..8 {
        half[i] = ((n >> (8 * i)) % 256) as u8;
    }
}

// The sixteen bytes of a number into a block, the lowest first.
pub(crate) fn write_bytes(bits: u128, block: &mut [u8; 16])
    ensures { block.new ≡ bytes 16 bits }
{
    // both narrow values that the check proves to fit
    write_half((bits % (1 << 64)) as u64, &mut block[..8]);
    write_half((bits >> 64) as u64, &mut block[8..]);
}
