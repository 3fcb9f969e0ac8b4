// Fields as the bits of a block: what the Rust's Compressed::mode1 and mode3 do.
ghost use Rattle.std.specs.Prelude.{◌≡◌, ◌+◌, ◌*◌, ◌/◌, ◌%◌, ◌^◌, ◌<◌, map};
ghost use Rattle.bptc.specs.Internal.Pixels.{pixel_word, pixel_of};
ghost use Rattle.bptc.specs.Mode.{p_bits};
ghost use Rattle.bptc_block.specs.Fields.{block_fields, Plain};
ghost use Rattle.bptc_block.specs.Packed.{packed};
ghost use Rattle.bptc_block.specs.Exchange.{compressed};
ghost use Rattle.bptc_block.specs.Internal.Words.{word_fields};
ghost use Rattle.bptc_block.specs.Internal.Swaps.{swapped_ends, swapped_bits, exchanged_both};

use crate::indexes::{compress_p2, index_list, narrowed};
use crate::stream::{write_bytes, write_fields};
use bptc::Rgb;
use bptc_block::{FieldWords, Fields};
use palette::Mode;
use partitions::Partition;

// The endpoints, those of a subset exchanged where it is swapped. A test for each subset, taken apart at once.
fn swapped(mut ends: [u32; 4], swap0: bool, swap1: bool) -> [u32; 4]
    ensures { map pixel_of result ≡ swapped_ends (map pixel_of ends) swap0 swap1 }
{
    if swap0 {
        ends.swap(0, 1);
    }
    if swap1 {
        ends.swap(2, 3);
    }
    ends
}

// Two p-bits, exchanged where their endpoints are swapped.
fn turned_bits(swap: bool, p: u8) -> u8
    requires { p < 4 }
    ensures { (result ≡ swapped_bits swap p) × (result < 4) }
{
    if swap { (p % 2) * 2 + p / 2 } else { p }
}

// The p-bits of a block: where each endpoint has its own, they are exchanged with their endpoints.
fn exchanged_bits<M: Mode>(p: u8, swap0: bool, swap1: bool) -> u8
    requires { p < 2 ^ p_bits M.mode }
    ensures { result ≡ exchanged_both M.mode swap0 swap1 p }
{
    // a test of the width and no method of each mode, as the chapter's rule goes over the widths
    if M::P_BITS == 4 {
        turned_bits(swap0, p % 4) + turned_bits(swap1, p / 4 % 4) * 4
    } else {
        p
    }
}

// The block of words of a mode into a lent part: the writer of every call that makes a block.
// Requires fields in range, as a clause and by no type: the checks, finishing and reading each show it in another way, and a type would be
// made and taken apart in the next line.
#[inline(always)]
pub fn write_words<M: Mode>(w: FieldWords, block: &mut [u8; 16])
    requires plain { Plain M.mode (block_fields (word_fields M.mode.index_bits w)) }
    requires list { w.indexes < 2 ^ (16 * M.mode.index_bits) }
    ensures { block.new ≡ packed M.mode (compressed M.mode (block_fields (word_fields M.mode.index_bits w))) }
{
    let partition = Partition {
        number: w.partition,
    };
    let (indexes, swap0, swap1) = compress_p2::<M>(w.indexes, partition);
    let bits = write_fields::<M>(FieldWords {
        partition: w.partition,
        ends: swapped(w.ends, swap0, swap1),
        p: exchanged_bits::<M>(w.p, swap0, swap1),
        indexes,
    });
    write_bytes(bits, block);
}

// The block of words whose indices have four bits each. Requires fields in range.
pub fn write_narrowed<M: Mode>(w: FieldWords, block: &mut [u8; 16])
    requires { Plain M.mode (block_fields (word_fields 4 w)) }
    ensures { block.new ≡ packed M.mode (compressed M.mode (block_fields (word_fields 4 w))) }
{
    let indexes = narrowed(M::INDEX_BITS, w.indexes);
    write_words::<M>(FieldWords { indexes, ..w }, block);
}

// Four endpoints that stand as one number each.
pub fn endpoints(e: [u32; 4]) -> [Rgb; 4]
    ensures { result ≡ map pixel_of e }
{
    e.map(Rgb::from)
}

// Four endpoints, each as one number.
pub fn words(e: [Rgb; 4]) -> [u32; 4]
    ensures { result ≡ map pixel_word e }
{
    e.map(u32::from)
}

// The block of fields of a mode into a lent part. Requires fields in range.
#[tactic(auto, using(bptc_rust::proofs::WordFields::list_small))]
pub fn write<M: Mode>(f: Fields, block: &mut [u8; 16])
    requires { Plain M.mode (block_fields f) }
    ensures { block.new ≡ packed M.mode (compressed M.mode (block_fields f)) }
{
    let w = FieldWords {
        partition: f.partition,
        ends: words(f.ends),
        p: f.p,
        indexes: index_list::<M>(&f.indices),
    };
    write_words::<M>(w, block);
}
