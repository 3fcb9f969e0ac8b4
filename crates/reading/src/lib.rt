// The fields of a block, read by bit place.
#![tactic(auto)]

ghost use Rattle.std.specs.Prelude.{◌≡◌, ◌+◌, ◌*◌, ◌≤◌, ◌<◌, map, get_or, drop};
ghost use Rattle.lists.specs.Rows.{up_from};
ghost use Rattle.lists.specs.Internal.Fields.{field_at};
ghost use Rattle.lists.specs.Bits.{split};
ghost use Rattle.lists.specs.Bytes.{number};
ghost use Rattle.bptc.specs.Partition.{anchor_of};
ghost use Rattle.bptc.specs.Mode.{p_bits};
ghost use Rattle.bptc_block.specs.Fields.{widths, rgb_fields};
ghost use Rattle.bptc_block.specs.Internal.Front.{index_width_by, rgb_from};
ghost use Rattle.bptc_block.specs.Packed.{fields_of};

use bptc::Rgb;
use bptc_block::Fields;
use palette::Mode;
use partitions::Partition;
use std::array;

// Byte k of a block, and 0 past its end.
fn byte(block: &[u8], k: usize) -> u8
    ensures { result ≡ get_or block.now k 0 }
{
    block.get(k).copied().unwrap_or(0)
}

// The field of `width` bits that begins at bit `at` of a block.
fn field(block: &[u8], at: u32, width: u32) -> u8
    requires inside { at ≤ 128 }
    requires few { width ≤ 8 }
    ensures { result ≡ field_at (number block.now) at width }
{
    // Rust has no `From` between u32 and usize
    let k = (at / 8) as usize;
    let two = u16::from_le_bytes([byte(block, k), byte(block, k + 1)]);
    // narrows a value that the check proves to fit, where `try_from` would have a case that cannot come
    ((two >> (at % 8)) % (1 << width)) as u8
}

// The bit at which the endpoints of a mode begin, after its number and the partition.
fn ends_at<M: Mode>() -> u32
    ensures { result ≡ M.mode.number + 7 }
{
    u32::from(M::NUMBER) + 7
}

// The bit at which the p-bits begin, after twelve channels.
fn p_at<M: Mode>() -> u32
    ensures { result ≡ M.mode.number + 7 + 12 * M.mode.channel_bits }
{
    ends_at::<M>() + 12 * M::CHANNEL_BITS
}

// The bit at which the indices begin.
fn indices_at<M: Mode>() -> u32
    ensures { result ≡ M.mode.number + 7 + 12 * M.mode.channel_bits + p_bits M.mode }
{
    p_at::<M>() + M::P_BITS
}

// The stored endpoint k, from four reds, four greens and four blues.
fn end_at<M: Mode>(block: &[u8], k: u32) -> Rgb
    requires { k < 4 }
    ensures { result ≡ rgb_from (number block.now) (M.mode.number + 7) M.mode.channel_bits k }
{
    let at = ends_at::<M>();
    let bits = M::CHANNEL_BITS;
    Rgb {
        r: field(block, at + k * bits, bits),
        g: field(block, at + (4 + k) * bits, bits),
        b: field(block, at + (8 + k) * bits, bits),
    }
}

// The four stored endpoints.
fn ends<M: Mode>(block: &[u8]) -> [Rgb; 4]
    ensures { result ≡ map (rgb_from (number block.now) (M.mode.number + 7) M.mode.channel_bits) (up_from 0 4) }
{
    // Rust has no `From` between usize and u32
    array::from_fn(|k| end_at::<M>(block, k as u32))
}

// The width of the index of pixel i.
fn index_width<M: Mode>(partition: Partition, i: usize) -> u32
    ensures { (result ≡ index_width_by M.mode.index_bits (anchor_of 2 partition.number 1) i) × (result ≤ 3) }
{
    let anchor = partition.anchor();
    if i == 0 || i == anchor {
        M::INDEX_BITS - 1
    } else {
        M::INDEX_BITS
    }
}

// The sixteen indices.
fn indices<M: Mode>(block: &[u8], partition: Partition) -> [u8; 16]
    ensures { result ≡ drop 15 (split (widths M.mode partition.number) (number block.now)) }
{
    let mut out = [0; 16];
    let mut next = indices_at::<M>();
    for (i, index) in out.iter_mut().enumerate() {
        let width = index_width::<M>(partition, i);
        *index = field(block, next, width);
        next += width;
    }
    out
}

// The fields of a block of a mode.
pub fn fields<M: Mode>(block: &[u8]) -> Fields
    ensures { result ≡ rgb_fields (fields_of M.mode block.now) }
{
    let partition = Partition {
        number: field(block, ends_at::<M>() - 6, 6),
    };
    Fields {
        partition: partition.number,
        ends: ends::<M>(block),
        p: field(block, p_at::<M>(), M::P_BITS),
        indices: indices::<M>(block, partition),
    }
}
