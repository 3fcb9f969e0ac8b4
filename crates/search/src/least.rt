// The least of a pixel's columns, where all of them are keys of one palette.
ghost use Rattle.std.specs.Prelude.{◌≡◌, [], map, get_or};
ghost use Rattle.lists.specs.Rows.{up_from};
ghost use Rattle.keys.specs.Keys.{least_of4};

// The least number of the four columns of each pixel. A loop, since `map` over the columns is slower (finishing at fixed p-bits in mode 1
// 1520 to 1938 instructions, in mode 3 1246 to 1624).
#[tactic(auto, using(lists::proofs::Rows::written_all), unfolding(lists::specs::Rows::written))]
pub fn least(columns: &[[u32; 4]; 16]) -> [u32; 16]
    ensures { result ≡ map (λ i. least_of4 (λ c. get_or (get_or columns.now i []) c 0)) (up_from 0 16) }
{
    let mut best = [0u32; 16];
    for (i, k) in columns.iter().enumerate() {
        best[i] = k[0].min(k[1]).min(k[2].min(k[3]));
    }
    best
}
