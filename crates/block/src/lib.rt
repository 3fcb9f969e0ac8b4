// Packing, finishing, reading and measuring BC7 blocks of modes 1 and 3.
#![tactic(auto)]

ghost use Rattle.std.specs.Prelude.{◌≡◌};
ghost use Rattle.bptc.specs.Colour.{pixels_of, pixel_bytes, squared_distance};
ghost use Rattle.bptc_block.specs.Fields.{rgb_fields};
ghost use Rattle.bptc_block.specs.Packed.{fields_of};
ghost use Rattle.bptc_block.specs.Chapter.{colours, apart};
ghost use Rattle.refusals.specs.Numbers.{declined};
ghost use Rattle.bptc_block.specs.Answers.{finished, measured, block_read};
ghost use Rattle.bptc_block.specs.PackCall.{pack_of, pack_into};
ghost use Rattle.bptc_block.specs.FinishCall.{finish_of, finish_into};
ghost use Rattle.bptc_block.specs.ReadCall.{read_of, read_into};
ghost use Rattle.bptc_block.specs.MeasureCall.{measure_of};

use crate::checks::{accepted, check_indices, check_stored, mode_of};
use crate::colours::colours;
use crate::pixels::{distance, write_pixels};
use bits::writing::write;
pub use bptc::Rgb;
pub use bptc_block::{Candidate, Fields, PBits, Reading};
use finishing::words::finish_words;
use palette::{Mode, Mode1, Mode3};
use reading::fields;
pub use refusals::Refusal;

pub mod checks;
mod colours;
mod pixels;

// Packs fields of a mode, in range or not.
fn pack_as<M: Mode>(fields: Fields, block: &mut [u8; 16]) -> Result<(), Refusal>
    ensures answer { declined result ≡ pack_of M.mode.number fields block.old }
    ensures part { block.new ≡ pack_into M.mode.number fields block.old }
{
    check_stored::<M>(fields.partition, &fields.ends, PBits::Fixed(fields.p))?;
    check_indices::<M>(&fields.indices)?;
    write::<M>(fields, block);
    Ok(())
}

// Packs fields into a lent block, a subset exchanged where its anchor's index has its top bit set.
#[tactic(auto, using(bptc_block::proofs::Answers::pack_part, bptc_block::proofs::Answers::pack_mode))]
pub fn pack(mode: u8, fields: Fields, block: &mut [u8]) -> Result<(), Refusal>
    ensures answer { declined result ≡ pack_of mode fields block.old }
    ensures part { block.new ≡ pack_into mode fields block.old }
{
    let Some(block) = block.as_mut_array() else {
        return Err(Refusal::BlockPart);
    };
    // by number, as any is handed in: the form that the specification names
    match mode {
        1 => pack_as::<Mode1>(fields, block),
        3 => pack_as::<Mode3>(fields, block),
        _ => Err(Refusal::Mode),
    }
}

// Finishes pixels with a candidate: the nearest index of every pixel, the first p-bits of least error where they are free, and the block
// into the lent part. Gives the block's distance from the pixels.
#[tactic(auto, using(bptc_block::proofs::Answers::finish_err, bptc_block::proofs::Answers::finish_rest, bptc_block::proofs::Answers::finish_ok, bptc_block::proofs::Answers::finish_written))]
pub fn finish(pixels: &[u8], candidate: Candidate, block: &mut [u8]) -> Result<u32, Refusal>
    ensures answer { finished result ≡ finish_of pixels.now candidate block.old }
    ensures part { block.new ≡ finish_into pixels.now candidate block.old }
{
    let Some(pixels) = pixels.as_array() else {
        return Err(Refusal::PixelPart);
    };
    let Some(block) = block.as_mut_array() else {
        return Err(Refusal::BlockPart);
    };
    let candidate = accepted(candidate)?;
    Ok(finish_words(pixels, candidate, block))
}

// The fields of a block of the mode, and its colours into the lent pixels.
fn read_as<M: Mode>(block: &[u8; 16], pixels: &mut [u8; 48]) -> Fields
    ensures fields { result ≡ rgb_fields (fields_of M.mode block.now) }
    ensures part { pixels.new ≡ pixel_bytes 3 (colours M.mode (fields_of M.mode block.now)) }
{
    let fields = fields::<M>(block);
    write_pixels(&colours::<M>(fields), pixels);
    fields
}

// Reads a block: its mode and fields, and its sixteen colours into the lent pixels.
#[tactic(auto, using(bptc_block::proofs::Answers::read_err, bptc_block::proofs::Answers::read_rest, bptc_block::proofs::Answers::read_ok, bptc_block::proofs::Answers::read_written, bptc::proofs::Modes::is_first, bptc::proofs::Modes::not_first))]
pub fn read(block: &[u8], pixels: &mut [u8]) -> Result<Reading, Refusal>
    ensures answer { block_read result ≡ read_of block.now pixels.old }
    ensures part { pixels.new ≡ read_into block.now pixels.old }
{
    let Some(pixels) = pixels.as_mut_array() else {
        return Err(Refusal::PixelPart);
    };
    let Some(block) = block.as_array() else {
        return Err(Refusal::BlockPart);
    };
    let mode = mode_of(block)?;
    // by number, which `mode_of` has found to be 1 or 3
    let fields = match mode {
        1 => read_as::<Mode1>(block, pixels),
        _ => read_as::<Mode3>(block, pixels),
    };
    Ok(Reading { mode, fields })
}

// The distance between pixels and a block of the mode.
fn measure_as<M: Mode>(block: &[u8; 16], pixels: &[u8; 48]) -> u32
    ensures { result ≡ apart squared_distance M.mode (pixels_of 3 pixels.now) (fields_of M.mode block.now) }
{
    distance(&colours::<M>(fields::<M>(block)), pixels)
}

// Measures a block: the summed squared distance between pixels and the block as the chapter reads it. The checks are those of `read`, over
// pixels that are not written.
#[tactic(auto, using(bptc_block::proofs::Answers::measure_err, bptc_block::proofs::Answers::read_rest, bptc_block::proofs::Answers::measure_ok, bptc::proofs::Modes::is_first, bptc::proofs::Modes::not_first))]
pub fn measure(block: &[u8], pixels: &[u8]) -> Result<u32, Refusal>
    ensures { measured result ≡ measure_of block.now pixels.now }
{
    let Some(pixels) = pixels.as_array() else {
        return Err(Refusal::PixelPart);
    };
    let Some(block) = block.as_array() else {
        return Err(Refusal::BlockPart);
    };
    // by number, which is 1 or 3
    Ok(match mode_of(block)? {
        1 => measure_as::<Mode1>(block, pixels),
        _ => measure_as::<Mode3>(block, pixels),
    })
}
