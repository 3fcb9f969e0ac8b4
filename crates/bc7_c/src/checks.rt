// The checks of `pack`, `finish` and `offer` on the numbers of C, by masks.
ghost use Rattle.std.specs.Prelude.{◌≡◌, ◌-◌, ◌*◌, ◌^◌, eqb, replicate, MatchResult};
ghost use Rattle.lists.specs.Tests.{pick};
ghost use Rattle.refusals.specs.Numbers.{number_of, declined};
ghost use Rattle.bptc.specs.Mode.{p_bits as p_bits_in};
ghost use Rattle.bptc_block.specs.Internal.Words.{word_candidate};
ghost use Rattle.bptc_block.specs.Refusal.{check_candidate, check_indices};
ghost use Rattle.bptc_block.specs.PackCall.{fixed_at};
ghost use Rattle.bc7_c.specs.Numbers.{indices_of, packed_at, candidate_at};
ghost use Rattle.bc7_c.specs.Masks.{above, end_widths, over, check_masked};

use crate::numbers::p_bits;
use bptc_block::CandidateWords;
use finishing::words::Accepted;
use palette::{Mode, Mode1, Mode3};
use refusals::Refusal;

// The bits of an endpoint that no channel of the mode has.
#[tactic(auto, using(crate::proofs::Masked::channel_mask))]
fn end_mask<M: Mode>() -> u32
    ensures { result ≡ above end_widths M.mode.channel_bits }
{
    !(u32::from(M::max_channel()) * 0x0001_0101)
}

// The bits of sixteen indices that no index of the mode has.
fn index_mask<M: Mode>() -> u64
    ensures { result ≡ above (replicate 16 4) M.mode.index_bits }
{
    !(u64::from(M::max_index()) * 0x1111_1111_1111_1111)
}

// P-bits that are fixed, and 0 where they are free. Two numbers and no `PBits`, as C's may be above a byte until the checks refuse them.
fn fixed_bits(p: u32, free: u32) -> u32
    ensures { result ≡ pick (eqb free 0) p 0 }
{
    if free == 0 { p } else { 0 }
}

// What C hands over of a candidate, or of the fields of a block but for the indices; an endpoint is one number, red lowest.
#[derive(Clone, Copy)]
pub(crate) struct Numbers {
    pub(crate) mode: u32,
    pub(crate) partition: u32,
    pub(crate) ends: [u32; 4],
    pub(crate) p: u32,
}

impl Numbers {
    // The bits of a mask that some endpoint has.
    fn over(self, mask: u32) -> u32
        ensures { result ≡ over mask self.ends }
    {
        let [e0, e1, e2, e3] = self.ends;
        (e0 & mask) | ((e1 & mask) | ((e2 & mask) | (e3 & mask)))
    }

    // The partition, the endpoints, the p-bits and the indices, by the masks and the greatest p-bits of the mode: not by the checks of
    // `block`, as endpoints and indices stand packed here, and a mask tests all of their fields at once.
    fn check_masked<M: Mode>(self, indices: u64) -> Result<(), Refusal>
        ensures { declined result ≡ check_masked (above end_widths M.mode.channel_bits) (2 ^ p_bits_in M.mode - 1) (above (replicate 16 4) M.mode.index_bits) self.partition self.ends self.p indices }
    {
        if self.partition > 63 {
            return Err(Refusal::Partition);
        }
        if self.over(end_mask::<M>()) != 0 {
            return Err(Refusal::Channel);
        }
        if self.p > u32::from(M::max_p()) {
            return Err(Refusal::PBits);
        }
        if indices & index_mask::<M>() != 0 {
            return Err(Refusal::Index);
        }
        Ok(())
    }

    // The mode, and then what `check_masked` checks.
    pub(crate) fn check_pack(self, indices: u64) -> Result<(), Refusal>
        ensures { declined result ≡ check_candidate (fixed_at self.mode (packed_at self.partition self.ends self.p indices)) (check_indices self.mode (indices_of indices) 0) }
    {
        // by number, as C hands over any
        match self.mode {
            1 => self.check_masked::<Mode1>(indices),
            3 => self.check_masked::<Mode3>(indices),
            _ => Err(Refusal::Mode),
        }
    }

    // The checks of a candidate: free p-bits pass as 0 does, and so do sixteen indices 0.
    #[tactic(auto, using(crate::proofs::Masked::unindexed))]
    fn check_candidate(mut self, free: u32) -> Result<(), Refusal>
        ensures { declined result ≡ check_candidate (candidate_at self.mode self.partition self.ends self.p free) 0 }
    {
        self.p = fixed_bits(self.p, free);
        self.check_pack(0)
    }

    // The words of a candidate that `check_candidate` accepts. The numbers are narrowed once they are checked.
    pub(crate) fn accepted(self, free: u32) -> Result<Accepted, Refusal>
        ensures { MatchResult result (λ a. word_candidate a.words ≡ candidate_at self.mode self.partition self.ends self.p free) (λ r. number_of r ≡ check_candidate (candidate_at self.mode self.partition self.ends self.p free) 0) }
    {
        self.check_candidate(free)?;
        let ends = self.ends;
        let p = p_bits(self.p, free);
        // narrows numbers that the checks accept, where `try_from` would have a case that cannot come
        Ok(Accepted {
            words: CandidateWords {
                mode: self.mode as u8,
                partition: self.partition as u8,
                ends,
                p,
            },
        })
    }
}
