// The search of a mode at fixed p-bits, or at the first p-bits of least error.
ghost use Rattle.std.specs.Prelude.{◌≡◌};
ghost use Rattle.bptc_block.specs.declared.PBits.TheVariants.{Free, Fixed};
ghost use Rattle.closest.specs.Pick.{picked_for};

use bptc_block::PBits;
use choices::free3;
use closest::indexes::{sum, word};
use closest::pick::{Picked, either, mix};
use closest::query::Query;
use closest::{closest_rgb, least_keys};
use palette::{Mode1, Mode3};
use search::Search;

// A mode, with its search at free p-bits: mode 1 has two choices for a subset, and mode 3 four, in one search of four columns.
pub trait FreeBits: Search {
    // Each subset by itself keeps the first choice of least error.
    fn free(query: &Query<Self>) -> Picked
        ensures { result ≡ picked_for Self.mode query.now.partition.number query.now.ends.stored Free query.now.pixels.now };
}

impl FreeBits for Mode1 {
    fn free(query: &Query<Mode1>) -> Picked {
        let partition = query.partition;
        let m = u32::from(partition.mask());
        let a = closest_rgb(query.ends, 0, query.pixels, m);
        let b = closest_rgb(query.ends, 3, query.pixels, m);
        let a0 = a.all - a.second;
        let b0 = b.all - b.second;
        let t0 = b0 < a0;
        let t1 = b.second < a.second;
        let first = either(t0, a.indexes, b.indexes);
        let second = either(t1, a.indexes, b.indexes);
        Picked {
            indexes: mix(first, second, partition.entry3() % 281474976710656),
            sum: either(t0, a0, b0) + either(t1, a.second, b.second),
            p: either(t0, 0, 1) + either(t1, 0, 2),
        }
    }
}

impl FreeBits for Mode3 {
    fn free(query: &Query<Mode3>) -> Picked {
        free3(query)
    }
}

// At fixed p-bits. `closest_rgb`, which the compiler does not put in line here, would sum the distances of subset 1 too.
fn fixed<M: Search>(query: &Query<M>, p: u8) -> Picked
    ensures { result ≡ picked_for M.mode query.now.partition.number query.now.ends.stored (Fixed p) query.now.pixels.now }
{
    let mask = u32::from(query.partition.mask());
    let best = least_keys(query.ends, p, query.pixels, mask);
    Picked {
        indexes: word(M::INDEX_BITS, &best),
        sum: sum(&best),
        p,
    }
}

// At p-bits that are fixed or free.
pub(crate) fn picked<M: FreeBits>(query: &Query<M>, p: PBits) -> Picked
    ensures { result ≡ picked_for M.mode query.now.partition.number query.now.ends.stored p query.now.pixels.now }
{
    match p {
        PBits::Fixed(n) => fixed(query, n),
        PBits::Free => M::free(query),
    }
}
