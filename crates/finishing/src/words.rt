// Finishing on words: the nearest indices, packed into a lent block.
ghost use Rattle.std.specs.Prelude.{◌≡◌};
ghost use Rattle.bptc.specs.Mode.{mode_numbered};
ghost use Rattle.bptc_block.specs.Internal.Words.{word_candidate};
ghost use Rattle.bptc_block.specs.Refusal.{check_candidate};
ghost use Rattle.bptc_block.specs.Finish.{finish};

use crate::{FreeBits, Query, nearest};
use bits::writing::{endpoints, write_words};
use bptc_block::{CandidateWords, FieldWords};
use palette::palettes::Ends;
use palette::{Mode1, Mode3};
use partitions::Partition;

// A candidate that the checks accept.
#[derive(Clone, Copy)]
pub struct Accepted {
    pub words: CandidateWords,
    ghost accepted: { check_candidate (word_candidate words) 0 ≡ 0 },
}

// The block of a candidate of a mode into a lent part. Gives the error.
fn finish<M: FreeBits>(pixels: &[u8; 48], candidate: Accepted, block: &mut [u8; 16]) -> u32
    requires own { mode_numbered candidate.words.mode ≡ M.mode }
    ensures error { result ≡ (finish pixels.now (word_candidate candidate.words)).error }
    ensures part { block.new ≡ (finish pixels.now (word_candidate candidate.words)).block }
{
    let CandidateWords {
        partition,
        ends,
        p,
        ..
    } = candidate.words;
    let query = Query {
        ends: Ends::<M>::new(endpoints(ends)),
        pixels,
        partition: Partition { number: partition },
    };
    let found = nearest(&query, p);
    let words = FieldWords {
        partition,
        ends,
        p: found.p,
        indexes: found.indexes,
    };
    write_words::<M>(words, block);
    found.error
}

// The block of a candidate into a lent part. Gives the error.
#[tactic(auto, using(bptc::proofs::Modes::is_first, bptc::proofs::Modes::not_first))]
pub fn finish_words(pixels: &[u8; 48], candidate: Accepted, block: &mut [u8; 16]) -> u32
    ensures error { result ≡ (finish pixels.now (word_candidate candidate.words)).error }
    ensures part { block.new ≡ (finish pixels.now (word_candidate candidate.words)).block }
{
    // by number, the form that the specification names
    match candidate.words.mode {
        1 => finish::<Mode1>(pixels, candidate, block),
        _ => finish::<Mode3>(pixels, candidate, block),
    }
}
