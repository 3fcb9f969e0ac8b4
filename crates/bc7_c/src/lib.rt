// The seven calls for C, on numbers and byte parts; include/bc7.h has their prototypes. C passes each endpoint by itself, so that each
// call makes its `Numbers`, and takes a refusal as its number.
#![tactic(auto)]

ghost use Rattle.std.specs.Prelude.{◌≡◌};
ghost use Rattle.bptc_block.specs.PackCall.{pack_of, pack_into};
ghost use Rattle.refusals.specs.Numbers.{declined};
ghost use Rattle.bptc_block.specs.Answers.{finished};
ghost use Rattle.bptc_block.specs.FinishCall.{finish_of, finish_into};
ghost use Rattle.bc7_c.specs.Numbers.{candidate_at, candidate_of, packed_at, packed_of};
ghost use Rattle.bc7_c.specs.Calls.{finish_answer, measure_answer, start_answer, start_part, offer_answer, offer_part, take_answer, take_block, read_answer, read_pixels, read_fields};

use crate::checks::Numbers;
use crate::numbers::{answer, numbered};
use crate::parts::{chooser_in, write_chooser, write_fields};
use bits::writing::write_narrowed;
use block::{measure, read};
use bptc_block::FieldWords;
use chooser::Chooser;
use finishing::words::finish_words;
use palette::{Mode1, Mode3};
use refusals::{Refusal, number};

mod checks;
mod numbers;
mod parts;

// What answers a chooser part or a field part of another length: no refusal has this number.
const OTHER_LENGTH: u32 = 255;

// Packs numbers with sixteen indices of four bits each: as `block` does, but by checks by masks, and the indices stay packed.
#[inline(always)]
fn pack(numbers: Numbers, indices: u64, block: &mut [u8]) -> Result<(), Refusal>
    ensures answer { declined result ≡ pack_of numbers.mode (packed_at numbers.partition numbers.ends numbers.p indices) block.old }
    ensures part { block.new ≡ pack_into numbers.mode (packed_at numbers.partition numbers.ends numbers.p indices) block.old }
{
    let Some(block) = block.as_mut_array() else {
        return Err(Refusal::BlockPart);
    };
    numbers.check_pack(indices)?;
    let ends = numbers.ends;
    // narrows numbers that the checks accept, where `try_from` would have a case that cannot come
    let w = FieldWords {
        partition: numbers.partition as u8,
        ends,
        p: numbers.p as u8,
        indexes: indices,
    };
    // by number, which the check has found to be 1 or 3
    match numbers.mode {
        1 => write_narrowed::<Mode1>(w, block),
        _ => write_narrowed::<Mode3>(w, block),
    }
    Ok(())
}

// The call `pack`. Gives the refusal's number, or 0.
#[unsafe(no_mangle)]
pub extern "C" fn bc7_pack(
    mode: u32,
    partition: u32,
    e0: u32,
    e1: u32,
    e2: u32,
    e3: u32,
    p: u32,
    indices: u64,
    block: &mut [u8],
) -> u32
    ensures answer { result ≡ pack_of mode (packed_of partition e0 e1 e2 e3 p indices) block.old }
    ensures part { block.new ≡ pack_into mode (packed_of partition e0 e1 e2 e3 p indices) block.old }
{
    let numbers = Numbers {
        mode,
        partition,
        ends: [e0, e1, e2, e3],
        p,
    };
    u32::from(number(pack(numbers, indices, block)))
}

// Finishes pixels with the numbers of a candidate: as `block` does, but by this crate's checks, which come after those of the parts.
#[inline(always)]
#[tactic(auto, using(bptc_block::proofs::Answers::finish_err, bptc_block::proofs::Answers::finish_rest, bptc_block::proofs::Answers::finish_ok, bptc_block::proofs::Answers::finish_written))]
fn finish(pixels: &[u8], numbers: Numbers, free: u32, block: &mut [u8]) -> Result<u32, Refusal>
    ensures answer { finished result ≡ finish_of pixels.now (candidate_at numbers.mode numbers.partition numbers.ends numbers.p free) block.old }
    ensures part { block.new ≡ finish_into pixels.now (candidate_at numbers.mode numbers.partition numbers.ends numbers.p free) block.old }
{
    let Some(pixels) = pixels.as_array() else {
        return Err(Refusal::PixelPart);
    };
    let Some(block) = block.as_mut_array() else {
        return Err(Refusal::BlockPart);
    };
    let candidate = numbers.accepted(free)?;
    Ok(finish_words(pixels, candidate, block))
}

// The call `finish`: p-bits are free where the last number is not 0. Gives the refusal above the error.
#[unsafe(no_mangle)]
#[tactic(auto, using(crate::proofs::AnswerParts::numbered_finished), unfolding(crate::specs::Calls::finish_answer))]
pub extern "C" fn bc7_finish(
    pixels: &[u8],
    mode: u32,
    partition: u32,
    e0: u32,
    e1: u32,
    e2: u32,
    e3: u32,
    p: u32,
    free: u32,
    block: &mut [u8],
) -> u64
    ensures answer { result ≡ finish_answer pixels.now (candidate_of mode partition e0 e1 e2 e3 p free) block.old }
    ensures part { block.new ≡ finish_into pixels.now (candidate_of mode partition e0 e1 e2 e3 p free) block.old }
{
    let numbers = Numbers {
        mode,
        partition,
        ends: [e0, e1, e2, e3],
        p,
    };
    numbered(finish(pixels, numbers, free, block))
}

// The call `start`, with the chooser into a part of 68 bytes. Gives the refusal's number, or 0.
#[unsafe(no_mangle)]
#[tactic(auto, unfolding(crate::specs::Calls::start_answer, crate::specs::Calls::start_part))]
pub extern "C" fn bc7_start(pixels: &[u8], chooser: &mut [u8]) -> u32
    ensures answer { result ≡ start_answer pixels.now chooser.old }
    ensures part { chooser.new ≡ start_part pixels.now chooser.old }
{
    let Some(part) = chooser.as_mut_array() else {
        return OTHER_LENGTH;
    };
    let (answer, started) = Chooser::start(pixels);
    write_chooser(started, part);
    u32::from(number(answer))
}

// The call `offer`, to the chooser in such a part. Gives the refusal's number, or 0.
#[unsafe(no_mangle)]
#[tactic(auto, using(refusals::proofs::Numbers::some_number, chooser::proofs::Calls::offer_accepted, chooser::proofs::Calls::offer_declined), unfolding(crate::specs::Calls::offer_answer, crate::specs::Calls::offer_part))]
pub extern "C" fn bc7_offer(
    chooser: &mut [u8],
    mode: u32,
    partition: u32,
    e0: u32,
    e1: u32,
    e2: u32,
    e3: u32,
    p: u32,
    free: u32,
) -> u32
    ensures answer { result ≡ offer_answer chooser.old (candidate_of mode partition e0 e1 e2 e3 p free) }
    ensures part { chooser.new ≡ offer_part chooser.old (candidate_of mode partition e0 e1 e2 e3 p free) }
{
    let Some(part) = chooser.as_mut_array() else {
        return OTHER_LENGTH;
    };
    let numbers = Numbers {
        mode,
        partition,
        ends: [e0, e1, e2, e3],
        p,
    };
    match numbers.accepted(free) {
        Ok(candidate) => {
            let kept = chooser_in(part).accept(candidate);
            write_chooser(kept, part);
            0
        }
        Err(refusal) => u32::from(refusal.number()),
    }
}

// The call `take`, from the chooser in such a part. Gives the refusal above the error.
#[unsafe(no_mangle)]
#[tactic(auto, using(crate::proofs::AnswerParts::numbered_taken), unfolding(crate::specs::Calls::take_answer, crate::specs::Calls::take_block))]
pub extern "C" fn bc7_take(chooser: &[u8], block: &mut [u8]) -> u64
    ensures answer { result ≡ take_answer chooser.now block.old }
    ensures part { block.new ≡ take_block chooser.now block.old }
{
    let Some(part) = chooser.as_array() else {
        return answer(OTHER_LENGTH, 0);
    };
    let (took, _) = chooser_in(part).take(block);
    numbered(took)
}

// The call `read`, with the fields into a part of 31 bytes. Gives the refusal's number, or 0.
#[unsafe(no_mangle)]
#[tactic(auto, using(refusals::proofs::Numbers::some_number), unfolding(crate::specs::Calls::read_answer, crate::specs::Calls::read_pixels, crate::specs::Calls::read_fields))]
pub extern "C" fn bc7_read(block: &[u8], pixels: &mut [u8], fields: &mut [u8]) -> u32
    ensures answer { result ≡ read_answer block.now pixels.old fields.old }
    ensures pixels { pixels.new ≡ read_pixels block.now pixels.old fields.old }
    ensures fields { fields.new ≡ read_fields block.now pixels.old fields.old }
{
    let Some(part) = fields.as_mut_array() else {
        return OTHER_LENGTH;
    };
    match read(block, pixels) {
        Ok(reading) => {
            write_fields(reading, part);
            0
        }
        Err(refusal) => u32::from(refusal.number()),
    }
}

// The call `measure`. Gives the refusal above the error.
#[unsafe(no_mangle)]
#[tactic(auto, using(crate::proofs::AnswerParts::numbered_measured), unfolding(crate::specs::Calls::measure_answer))]
pub extern "C" fn bc7_measure(block: &[u8], pixels: &[u8]) -> u64
    ensures { result ≡ measure_answer block.now pixels.now }
{
    numbered(measure(block, pixels))
}
