// The keys of sixteen colours that are four choices of four, a choice in each column.
ghost use Rattle.std.specs.Prelude.{◌≡◌, ◌+◌, ◌*◌, ◌<◌, slice_index};
ghost use Rattle.std.proofs.Common.{rules};
ghost use Rattle.keys.specs.Keys.{least_of4};
ghost use Rattle.choice_columns.specs.Columns.{columns_of4};

use bptc::Rgb;
use keys::key::keys;
use search::Layout;

// Four choices of four colours.
pub struct Choices;

// The least key of a column. Requires one of the four.
fn least4(keys: &[u32; 16], c: usize) -> u32
    requires { c < 4 }
    ensures { result ≡ least_of4 (λ row. slice_index keys.now (c + row * 4)) }
{
    keys[c].min(keys[c + 4]).min(keys[c + 8].min(keys[c + 12]))
}

// The least of the four keys of a choice in each column, the columns by name, as a closure over their places says no more.
impl Layout for Choices {
    const WIDTH: usize = 16;

    ghost WIDTH = { 16 };

    ghost columns = { columns_of4 };

    #[tactic(auto, unfolding(crate::specs::Columns::columns_of4))]
    fn columns(p: Rgb, at: usize, numbers: &[u32]) -> [u32; 4] {
        let k: [u32; 16] = keys(p, at, 32, numbers);
        [least4(&k, 0), least4(&k, 1), least4(&k, 2), least4(&k, 3)]
    }

    ghost narrow = { Prim.search rules };
}
