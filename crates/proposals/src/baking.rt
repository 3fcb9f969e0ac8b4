// Baking: the best built-in proposal for each group of sixteen pixels.
ghost use Rattle.std.specs.Prelude.{◌≡◌, ◌*◌, length};
ghost use Rattle.proposals.specs.Baking.{baked, baked_blocks, baked_errors};

use crate::built_in::built_in;
use chooser::Chooser;

// Bakes a group: its block into the lent part. Gives the block's error; a part of sixteen bytes is never declined.
fn bake(pixels: &[u8], block: &mut [u8]) -> u32
    requires { length block.old ≡ 16 }
    ensures answer { result ≡ (baked pixels.now).error }
    ensures part { block.new ≡ (baked pixels.now).block }
{
    let (_, started) = Chooser::start(pixels);
    let (error, _) = built_in(started).take(block);
    error.unwrap_or(0)
}

// Bakes groups one after the other. Requires 48 bytes of pixels and 16 bytes for the block of each error. Groups and blocks are taken by
// their places: a proof knows nothing of what is written through `chunks_exact_mut`, nor through `iter_mut` under a `zip`.
#[tactic(auto, using(lists::proofs::Rows::written_all), unfolding(crate::specs::Baking::baked_blocks, crate::specs::Baking::baked_errors, lists::specs::Rows::written, lists::specs::Parts::joined))]
pub fn bake_row(groups: &[u8], blocks: &mut [u8], errors: &mut [u32])
    requires pixels { length groups.now ≡ 48 * length errors.old }
    requires parts { length blocks.old ≡ 16 * length errors.old }
    ensures blocks { blocks.new ≡ baked_blocks groups.now (length errors.old) }
    ensures errors { errors.new ≡ baked_errors groups.now (length errors.old) }
{
    for (k, error) in errors.iter_mut().enumerate() {
        let from = k * 48;
        let at = k * 16;
        *error = bake(&groups[from..from + 48], &mut blocks[at..at + 16]);
    }
}
