// The nearest indices of a block's pixels, their error and the p-bits, in either mode and at p-bits that are fixed or free.
#![tactic(auto)]

ghost use Rattle.std.specs.Prelude.{◌≡◌};
ghost use Rattle.finishing.specs.Indices.{nearest_for};

use crate::error::{GREATEST, lacking};
use crate::pick::picked;
use bptc_block::PBits;
pub use closest::query::Query;
pub use pick::FreeBits;

mod error;
mod pick;
pub mod words;

// The nearest index of every pixel, as one number with the first lowest, the error of both subsets, and the p-bits. Not `Picked`, whose
// sum is of raised distances.
#[derive(Clone, Copy)]
pub struct Indices {
    pub indexes: u64,
    pub error: u32,
    pub p: u8,
}

// The indices, the error and the p-bits of a query, at p-bits that are fixed or free.
pub fn nearest<M: FreeBits>(query: &Query<M>, p: PBits) -> Indices
    ensures { result ≡ nearest_for M.mode query.now.partition.number query.now.ends.stored p query.now.pixels.now }
{
    let got = picked(query, p);
    Indices {
        indexes: got.indexes,
        error: got.sum + lacking(query.pixels) - GREATEST,
        p: got.p,
    }
}
