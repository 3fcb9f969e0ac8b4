// Choosing among candidates: the best block so far over pixels, kept from offer to offer.
#![tactic(auto)]

ghost use Rattle.std.specs.Prelude.{◌≡◌};
ghost use Rattle.bptc_block.specs.Internal.Words.{word_candidate};
ghost use Rattle.chooser.specs.Rule.{better};
ghost use Rattle.chooser.specs.Answers.{started, offered, took};
ghost use Rattle.chooser.specs.StartCall.{empty_over, start_of};
ghost use Rattle.chooser.specs.OfferCall.{best, with_best, accepting, offer_of};
ghost use Rattle.chooser.specs.TakeCall.{take_of, take_into};

use block::checks::accepted;
pub use block::{Candidate, PBits, Refusal, Rgb};
pub use finishing::words::Accepted;
use finishing::words::finish_words;

// The pixels that candidates are finished over, and the best block so far with its error. A value that each call hands back beside its
// answer: the specification names this form.
#[derive(Clone, Copy)]
pub struct Chooser {
    pub pixels: [u8; 48],
    pub block: [u8; 16],
    pub error: u32,
}

// A chooser that has accepted nothing: Compressed::invalid, and no None, since a take answers with this block and this error.
fn empty(pixels: [u8; 48]) -> Chooser
    ensures { result ≡ empty_over pixels }
{
    Chooser {
        pixels,
        block: [0; 16],
        error: 4294967295,
    }
}

impl Chooser {
    // A chooser over the pixels as they stand now, or over black ones where they are not 48 bytes.
    #[tactic(auto, using(crate::proofs::Calls::start_answer, crate::proofs::Calls::started_own, crate::proofs::Calls::started_black))]
    pub fn start(pixels: &[u8]) -> (Result<(), Refusal>, Chooser)
        ensures { started result.0 result.1 ≡ start_of pixels.now }
    {
        match pixels.as_array() {
            Some(own) => (Ok(()), empty(*own)),
            None => (Err(Refusal::PixelPart), empty([0; 48])),
        }
    }

    // Compressed::better: the chooser with a block and its error where this error is smaller than the one held.
    fn better(mut self, block: [u8; 16], error: u32) -> Chooser
        ensures { result ≡ with_best self (better (best self) (record { block = block; error = error })) }
    {
        if error < self.error {
            self.block = block;
            self.error = error;
        }
        self
    }

    // Finishes the chooser's pixels with words that the checks accept, and keeps the better block.
    #[tactic(auto, using(crate::proofs::Calls::gives_finished))]
    pub fn accept(self, candidate: Accepted) -> Chooser
        ensures { result ≡ accepting self (word_candidate candidate.words) }
    {
        let mut block = [0u8; 16];
        let error = finish_words(&self.pixels, candidate, &mut block);
        self.better(block, error)
    }

    // Finishes the chooser's pixels with a candidate, and keeps the better block.
    #[tactic(auto, using(crate::proofs::Calls::offer_accepted, crate::proofs::Calls::offer_declined, refusals::proofs::Numbers::some_number))]
    pub fn offer(self, candidate: Candidate) -> (Result<(), Refusal>, Chooser)
        ensures { offered result.0 result.1 ≡ offer_of self candidate }
    {
        match accepted(candidate) {
            Ok(words) => (Ok(()), self.accept(words)),
            Err(refusal) => (Err(refusal), self),
        }
    }

    // The best block so far into the lent part, and its error. Gives the chooser back as it was.
    #[tactic(auto, using(crate::proofs::Calls::take_answer, crate::proofs::Calls::take_block, crate::proofs::Calls::take_declined, crate::proofs::Calls::take_leaves))]
    pub fn take(self, block: &mut [u8]) -> (Result<u32, Refusal>, Chooser)
        ensures answer { took result.0 result.1 ≡ take_of self block.old }
        ensures part { block.new ≡ take_into self block.old }
    {
        let Some(block) = block.as_mut_array::<16>() else {
            return (Err(Refusal::BlockPart), self);
        };
        block.copy_from_slice(&self.block);
        (Ok(self.error), self)
    }
}
