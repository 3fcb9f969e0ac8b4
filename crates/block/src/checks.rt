// The checks of the calls, in the order of the refusals.
ghost use Rattle.std.specs.Prelude.{◌≡◌, ◌-◌, ◌^◌, leb, MatchResult};
ghost use Rattle.std.specs.List.{list_all};
ghost use Rattle.bptc.specs.Mode.{p_bits, largest};
ghost use Rattle.refusals.specs.Numbers.{number_of, declined};
ghost use Rattle.bptc_block.specs.Internal.Words.{word_candidate};
ghost use Rattle.bptc_block.specs.Packed.{mode_of};
ghost use Rattle.bptc_block.specs.Refusal.{unless, check_candidate, check_readable};
ghost use Rattle.bptc_block.specs.Internal.RgbChecks.{within, in_range, p_in_range, check_stored};

use bits::writing::words;
use bptc::Rgb;
use bptc_block::{Candidate, CandidateWords, PBits};
use finishing::words::Accepted;
use palette::{Mode, Mode1, Mode3};
use refusals::Refusal;

// Every channel of a colour is at most the top.
fn within(c: &Rgb, top: u8) -> bool
    ensures { result ≡ within top c.now }
{
    c.r <= top && c.g <= top && c.b <= top
}

// Every channel of four colours is at most the top.
fn in_range(ends: &[Rgb; 4], top: u8) -> bool
    ensures { result ≡ list_all (within top) ends.now }
{
    ends.iter().all(|c| within(c, top))
}

// Free p-bits, or fixed ones that are at most the top.
fn p_in_range(p: PBits, top: u8) -> bool
    ensures { result ≡ p_in_range top p }
{
    match p {
        PBits::Free => true,
        PBits::Fixed(n) => n <= top,
    }
}

// The partition, the endpoint channels and the p-bits, by the greatest that the mode has.
#[tactic(auto, using(bptc_block::proofs::Answers::each_all))]
pub(crate) fn check_stored<M: Mode>(partition: u8, ends: &[Rgb; 4], p: PBits) -> Result<(), Refusal>
    ensures { declined result ≡ check_stored (2 ^ M.mode.channel_bits - 1) (2 ^ p_bits M.mode - 1) partition ends.now p 0 }
{
    if partition > 63 {
        return Err(Refusal::Partition);
    }
    if !in_range(ends, M::max_channel()) {
        return Err(Refusal::Channel);
    }
    if !p_in_range(p, M::max_p()) {
        return Err(Refusal::PBits);
    }
    Ok(())
}

// The mode, and then what `check_stored` checks.
pub fn check_candidate(c: Candidate) -> Result<(), Refusal>
    ensures { declined result ≡ check_candidate c 0 }
{
    // by number, as any is handed in: the form that the specification names
    match c.mode {
        1 => check_stored::<Mode1>(c.partition, &c.ends, c.p),
        3 => check_stored::<Mode3>(c.partition, &c.ends, c.p),
        _ => Err(Refusal::Mode),
    }
}

// The words of a candidate that `check_candidate` accepts, made here alone.
#[tactic(auto, using(bptc_block::proofs::WordEnds::accepted_again))]
pub fn accepted(c: Candidate) -> Result<Accepted, Refusal>
    ensures { MatchResult result (λ a. word_candidate a.words ≡ c) (λ r. number_of r ≡ check_candidate c 0) }
{
    check_candidate(c)?;
    Ok(Accepted {
        words: CandidateWords {
            mode: c.mode,
            partition: c.partition,
            ends: words(c.ends),
            p: c.p,
        },
    })
}

// Every index is at most the top.
fn all_small(indices: &[u8; 16], top: u8) -> bool
    ensures { result ≡ list_all (λ i. leb i top) indices.now }
{
    indices.iter().all(|i| *i <= top)
}

// Every index is at most the mode's largest.
pub(crate) fn check_indices<M: Mode>(indices: &[u8; 16]) -> Result<(), Refusal>
    ensures { declined result ≡ unless (list_all (λ i. leb i (largest M.mode)) indices.now) 7 0 }
{
    if all_small(indices, M::max_index()) {
        Ok(())
    } else {
        Err(Refusal::Index)
    }
}

// The mode that a block says, if it is 1 or 3.
pub(crate) fn mode_of(block: &[u8; 16]) -> Result<u8, Refusal>
    ensures { MatchResult result (λ mode. (mode ≡ mode_of block.now) × (check_readable block.now 0 ≡ 0)) (λ r. number_of r ≡ check_readable block.now 0) }
{
    // by number and range: the form that the specification names
    match u8::trailing_zeros(block[0]) {
        1 => Ok(1),
        3 => Ok(3),
        0 | 2 | 4..=7 => Err(Refusal::OtherMode),
        _ => Err(Refusal::Reserved),
    }
}
