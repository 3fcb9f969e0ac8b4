// What a search is over.
ghost use Rattle.std.specs.Prelude.{◌≡◌, length};
ghost use Rattle.lists.specs.Bytes.{Bytes};

use palette::Mode;
use palette::palettes::Ends;
use partitions::Partition;

// The pixels whose nearest colours are asked, the endpoints that show the colours, and the partition that tells each pixel's subset.
// `bytes` and `long` are what the type of the pixels says, where a proof has them only behind a reference to the whole.
#[derive(Drop)]
pub struct Query<'a, M: Mode> {
    pub ends: Ends<M>,
    pub pixels: &'a [u8; 48],
    pub partition: Partition,
    ghost bytes: { Bytes pixels.now },
    ghost long: { length pixels.now ≡ 48 },
}
