// The calls, each beside the answer that the Rust gave.
ghost use Rattle.std.specs.Prelude.{◌↔◌, IsTrue};
ghost use Rattle.rust_answers.specs.Answers.{Finishes, Measures, PacksRecorded, Takes};

use crate::recording::part;
use block::{Candidate, Fields};
use chooser::Chooser;

// A block and its error, as they are recorded.
#[derive(Clone, Copy)]
pub(crate) struct Answer {
    pub(crate) block: [u8; 16],
    pub(crate) error: u32,
}

// The block, and then the four bytes of the error, the lowest first.
impl From<&[u8; 20]> for Answer {
    fn from(bytes: &[u8; 20]) -> Self {
        let block = part(bytes, 0);
        Answer {
            block,
            error: u32::from_le_bytes(part(bytes, 16)),
        }
    }
}

// Finishing declines nothing, and gives this block and this error.
pub(crate) fn finishes(pixels: &[u8], c: Candidate, answer: &Answer) -> bool
    ensures { IsTrue result ↔ Finishes pixels.now c answer.now.block answer.now.error }
{
    let mut block = [0u8; 16];
    block::finish(pixels, c, &mut block) == Ok(answer.error) && block == answer.block
}

// Measuring this block declines nothing, and gives this error.
pub(crate) fn measures(pixels: &[u8], answer: &Answer) -> bool
    ensures { IsTrue result ↔ Measures pixels.now answer.now.block answer.now.error }
{
    block::measure(&answer.block, pixels) == Ok(answer.error)
}

// Packing a candidate's fields with p-bits and indices declines nothing, and gives this block.
pub(crate) fn packs(c: Candidate, p: u8, indices: [u8; 16], packed: &[u8; 16]) -> bool
    ensures { IsTrue result ↔ PacksRecorded c p indices packed.now }
{
    let ends = c.ends;
    let fields = Fields {
        partition: c.partition,
        ends,
        p,
        indices,
    };
    let mut block = [0u8; 16];
    block::pack(c.mode, fields, &mut block).is_ok() && block == *packed
}

// Taking declines nothing, and gives this block and this error.
pub(crate) fn takes(chooser: Chooser, answer: &Answer) -> bool
    ensures { IsTrue result ↔ Takes chooser answer.now.block answer.now.error }
{
    let mut block = [0u8; 16];
    let (taken, _) = chooser.take(&mut block);
    taken == Ok(answer.error) && block == answer.block
}
