// The colours that fields show.
ghost use Rattle.std.specs.Prelude.{◌≡◌, map};
ghost use Rattle.bptc.specs.Colour.{with_alpha};
ghost use Rattle.bptc_block.specs.Fields.{block_fields, Plain};
ghost use Rattle.bptc_block.specs.Chapter.{colours};

use bptc::Rgb;
use bptc_block::Fields;
use palette::Mode;
use palette::palettes::Ends;
use partitions::Partition;

// The sixteen colours of fields. Requires that they are in range.
pub(crate) fn colours<M: Mode>(f: Fields) -> [Rgb; 16]
    requires { Plain M.mode (block_fields f) }
    ensures { map (with_alpha 255) result ≡ colours M.mode (block_fields f) }
{
    let rows = Ends::<M>::new(f.ends).palettes(f.p);
    let partition = Partition {
        number: f.partition,
    };
    // the mask once, as `subset` would look it up for each pixel
    let subsets = partition.mask();
    let none = Rgb { r: 0, g: 0, b: 0 };
    let mut out = [none; 16];
    // by an index: through `iter_mut` what is written of a struct does not compute in the proof, which did not close
    for i in 0..16 {
        let row = rows[usize::from((subsets >> i) % 2)];
        let word = row[usize::from(f.indices[i])];
        out[i] = Rgb::from(word.0);
    }
    out
}
