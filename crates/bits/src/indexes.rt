// Sixteen indexes as one number: what the Rust's IndexList does.
ghost use Rattle.std.specs.Prelude.{◌≡◌, ℕ, ◌+◌, ◌-◌, ◌*◌, ◌/◌, ◌^◌, ◌<◌, ◌≤◌, get_or, replicate};
ghost use Rattle.std.specs.Int.Bits.{bit_and, bit_or};
ghost use Rattle.lists.specs.Bits.{split};
ghost use Rattle.bptc.specs.Internal.Masks.{entry_of};
ghost use Rattle.bptc_rust.specs.IndexList.{index_list};
ghost use Rattle.bptc_rust.specs.CompressedIndexList.{ensure_msb_zero, compress_single_index, compress_p2};
ghost use Rattle.bptc_rust.specs.Subset2Map.{PARTITION-SET-2};

use palette::Mode;
use partitions::Partition;

// The indexes as one number, that of pixel 0 lowest.
pub(crate) fn index_list<M: Mode>(indices: &[u8; 16]) -> u64
    requires { (i : ℕ) → get_or indices.now i 0 < 2 ^ M.mode.index_bits }
    ensures { result ≡ index_list M.mode.index_bits indices.now }
{
    let mut indexes = 0;
    // Rust has no `From` between usize and u32
    for (i, index) in indices.iter().enumerate() {
        indexes |= u64::from(*index) << (i as u32 * M::INDEX_BITS);
    }
    indexes
}

// Fields in pairs, the upper one of each moved down.
fn closed_up(n: u64, low: u64, high: u64, by: u32) -> u64
    requires { by < 64 }
    ensures { result ≡ bit_or (bit_and n low) (bit_and n high / 2 ^ by) }
{
    (n & low) | ((n & high) >> by)
}

// The indexes as one number, from sixteen of four bits each: two neighbours at a time, in four steps for all of them, which is
// quicker than digit by digit. Requires that each has no more than `bits` bits.
#[inline(always)]
#[tactic(auto, using(bptc_rust::proofs::Pairs::narrow_list), unfolding(bptc_rust::proofs::Pairs::low_mask, bptc_rust::proofs::Pairs::high_mask))]
pub fn narrowed(bits: u32, indices: u64) -> u64
    requires few { bits ≤ 3 }
    requires small { (i : ℕ) → get_or (split (replicate 16 4) indices) i 0 < 2 ^ bits }
    ensures { result ≡ index_list bits (split (replicate 16 4) indices) }
{
    let by = 4 - bits;
    let two = closed_up(indices, 0x0F0F_0F0F_0F0F_0F0F, 0xF0F0_F0F0_F0F0_F0F0, by);
    let four = closed_up(two, 0x00FF_00FF_00FF_00FF, 0xFF00_FF00_FF00_FF00, 2 * by);
    let eight = closed_up(four, 0x0000_FFFF_0000_FFFF, 0xFFFF_0000_FFFF_0000, 4 * by);
    closed_up(eight, 0x0000_0000_FFFF_FFFF, 0xFFFF_FFFF_0000_0000, 8 * by)
}

// The bits of subset 1's indexes and its anchor above them.
fn entry<M: Mode>(partition: Partition) -> u64
    ensures { result ≡ entry_of M.mode.index_bits partition.number }
{
    // a test of the width and no method of each mode, as the table's rule goes over the widths
    if M::INDEX_BITS == 2 {
        partition.entry2()
    } else {
        partition.entry3()
    }
}

// The place of the top bit of an index. That an index is below 16 is a clause here and in the two functions below, and no type: it
// would be made of 0 and of the anchor, and taken apart in the next line.
fn msb<M: Mode>(index: u32) -> u32
    requires { index < 16 }
    ensures { (result ≡ M.mode.index_bits - 1 + index * M.mode.index_bits) × (result < 48) }
{
    M::INDEX_BITS - 1 + index * M::INDEX_BITS
}

// Flips the indexes of a subset where the top bit of an index is set. Gives the indexes, and whether they were flipped.
#[tactic(auto, unfolding(bptc_rust::specs::CompressedIndexList::ensure_msb_zero))]
fn ensure_msb_zero<M: Mode>(indexes: u64, index: u32, subset_mask: u64) -> (u64, bool)
    requires { index < 16 }
    ensures { result ≡ ensure_msb_zero M.mode.index_bits indexes index subset_mask }
{
    let msb_mask = 1 << msb::<M>(index);
    if indexes & msb_mask == 0 {
        (indexes, false)
    } else {
        (indexes ^ subset_mask, true)
    }
}

// Takes out the top bit of an index.
#[tactic(auto, unfolding(bptc_rust::specs::CompressedIndexList::compress_single_index))]
fn compress_single_index<M: Mode>(indexes: u64, index: u32) -> u64
    requires { index < 16 }
    ensures { result ≡ compress_single_index M.mode.index_bits indexes index }
{
    let msb_mask = 1u64 << msb::<M>(index);
    let before_mask = msb_mask - 1;
    let after_mask = !before_mask << 1;
    (indexes & before_mask) | ((indexes & after_mask) >> 1)
}

// Flips the subsets whose anchors ask for it, pixel 0 first, and takes the anchors' top bits out.
// Gives the indexes, and whether each subset is swapped.
pub(crate) fn compress_p2<M: Mode>(indexes: u64, partition: Partition) -> (u64, bool, bool)
    ensures same { result.0 ≡ (compress_p2 M.mode.index_bits indexes (PARTITION-SET-2 partition.number)).0.compressed_indexes }
    ensures first { result.1 ≡ (compress_p2 M.mode.index_bits indexes (PARTITION-SET-2 partition.number)).1 }
    ensures second { result.2 ≡ (compress_p2 M.mode.index_bits indexes (PARTITION-SET-2 partition.number)).2 }
{
    let entry = entry::<M>(partition);
    let size = 1u64 << (M::INDEX_BITS * 16);
    let mask_s1 = entry % size;
    // narrows a value that the check proves to fit, where `try_from` would have a case that cannot come
    let anchor = (entry / size) as u32;
    let (first, swap0) = ensure_msb_zero::<M>(indexes, 0, mask_s1 ^ (size - 1));
    let (second, swap1) = ensure_msb_zero::<M>(first, anchor, mask_s1);
    let shorter = compress_single_index::<M>(second, anchor);
    (compress_single_index::<M>(shorter, 0), swap0, swap1)
}
