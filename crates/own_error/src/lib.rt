// The error of a plate over its picture's own pixels alone, a row of blocks at a time. Where a side of the picture is no multiple of four,
// a block at its edge has pixels that are repeated from the last column or row, and these count in the block's error.
#![tactic(auto)]

ghost use Rattle.std.specs.Prelude.{◌≡◌, ◌+◌, ◌*◌, ◌<◌, ◌≤◌, length};
ghost use Rattle.lists.specs.Tests.{pick};
ghost use Rattle.bptc_block.specs.ReadCall.{read_into};
ghost use Rattle.bptc_block.specs.RoundTrip.{pixels_apart};
ghost use Rattle.groups.specs.Cutting.{groups_across};
ghost use Rattle.own_error.specs.Own.{own_pixel, own_apart, own_at, own_row_of};

use block::read;
use groups::Band;
use palette::colour::dist_sq;
use palette::pixels::pixel_at;

// The distance of pixel i of block k from what is shown there, where it is one of the picture's own; else 0.
#[tactic(auto, using(crate::proofs::Apart::colours_apart))]
fn pixel_error(band: Band, group: &[u8; 48], shown: &[u8; 48], k: usize, i: usize) -> u32
    requires { (k < 4096) × (i < 16) }
    ensures own { result ≡ pick (own_pixel band.width band.rows k i) (pixels_apart group.now shown.now i) 0 }
    ensures bound { result ≤ 195075 }
{
    if i / 4 < band.rows && k * 4 + i % 4 < band.width {
        return dist_sq(pixel_at(group, i), pixel_at(shown, i));
    }
    0
}

// The distance of a group from what block k is read as, over the picture's own pixels.
#[tactic(auto, unfolding(crate::specs::Own::own_apart, lists::specs::Rows::over_pixels))]
fn edge_error(band: Band, group: &[u8; 48], block: &[u8], k: usize) -> u32
    requires { k < 4096 }
    ensures own { result ≡ own_apart band.width band.rows k group.now (read_into block.now group.now) }
    ensures bound { result ≤ 3121200 }
{
    let mut shown = *group;
    // a block that is declined leaves the group as it is, at distance 0
    let _ = read(block, &mut shown);
    let mut sum: u32 = 0;
    for i in 0..16 {
        sum += pixel_error(band, group, &shown, k, i);
    }
    sum
}

// What block k adds to the error over the picture's own pixels. A block whose sixteen pixels are all of them has its error already.
#[tactic(auto, unfolding(crate::specs::Own::own_at))]
fn block_error(band: Band, groups: &[u8], blocks: &[u8], errors: &[u32], k: usize) -> u32
    requires groups { 48 * k + 48 ≤ length groups.now }
    requires blocks { 16 * k + 16 ≤ length blocks.now }
    requires errors { (k < length errors.now) × (k < 4096) }
    ensures { result ≡ own_at band.width band.rows groups.now blocks.now errors.now k }
{
    if band.rows == 4 && k * 4 + 4 <= band.width {
        return errors[k];
    }
    let mut group = [0u8; 48];
    group.copy_from_slice(&groups[k * 48..k * 48 + 48]);
    edge_error(band, &group, &blocks[k * 16..k * 16 + 16], k)
}

// What a row of blocks adds to the error over the picture's own pixels, where each block has the error handed in.
#[tactic(auto, unfolding(crate::specs::Own::own_row_of))]
pub fn own_error(band: Band, groups: &[u8], blocks: &[u8], errors: &[u32]) -> u64
    requires groups { length groups.now ≡ 48 * groups_across band.width }
    requires blocks { length blocks.now ≡ 16 * groups_across band.width }
    requires errors { length errors.now ≡ groups_across band.width }
    ensures sum { result ≡ own_row_of band.width band.rows groups.now blocks.now errors.now }
    ensures bound { result ≤ 17592186044416 }
{
    let mut total: u64 = 0;
    for k in 0..errors.len() {
        total += u64::from(block_error(band, groups, blocks, errors, k));
    }
    total
}
