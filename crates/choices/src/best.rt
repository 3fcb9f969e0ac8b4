// The best of the four columns.
ghost use Rattle.std.specs.Prelude.{◌≡◌, ◌<◌, [], ◌∷◌, get_or};
ghost use Rattle.lists.specs.Least.{first_least};

use closest::pick::either;

// A column and its sum. A struct and no tuple, since contracts name its parts.
#[derive(Clone, Copy)]
pub struct Best {
    pub at: u32,
    pub sum: u32,
}

// The first of four columns that has the least sum, by `either`, so that no branch hangs on the sums.
pub(crate) fn best4(s: [u32; 4]) -> Best
    ensures at { result.at ≡ first_least (λ k. get_or s k 0) 0 (1 ∷ (2 ∷ (3 ∷ []))) }
    ensures sum { result.sum ≡ get_or s result.at 0 }
    ensures four { result.at < 4 }
{
    let t = s[1] < s[0];
    let m = either(t, s[0], s[1]);
    let i = either(t, 0, 1);
    let u = s[2] < m;
    let n = either(u, m, s[2]);
    let j = either(u, i, 2);
    let v = s[3] < n;
    Best {
        at: either(v, j, 3),
        sum: either(v, n, s[3]),
    }
}
