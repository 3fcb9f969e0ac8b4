// The sums and the indices of the four columns.
ghost use Rattle.std.specs.Prelude.{◌≡◌, ℕ, ◌+◌, ◌-◌, ◌*◌, ◌/◌, ◌%◌, ◌^◌, ◌<◌, [], ◌∷◌, map, replicate, slice_index};
ghost use Rattle.lists.specs.Rows.{up_from, over_pixels};
ghost use Rattle.lists.specs.Digits.{bit};
ghost use Rattle.lists.specs.Bits.{join};
ghost use Rattle.closest.specs.Found.{over_second};
ghost use Rattle.choice_columns.specs.Columns.{column_at};

// Four numbers times BY, each with one more term; by name, as the compiler makes one vector of them. Requires that they fit.
fn grown<const BY: u32>(n: [u32; 4], terms: [u32; 4]) -> [u32; 4]
    requires { (k : ℕ) → slice_index n k * BY + slice_index terms k < 2 ^ 32 }
    ensures { result ≡ (slice_index n 0 * BY + slice_index terms 0) ∷ ((slice_index n 1 * BY + slice_index terms 1) ∷ ((slice_index n 2 * BY + slice_index terms 2) ∷ ((slice_index n 3 * BY + slice_index terms 3) ∷ []))) }
{
    [
        n[0] * BY + terms[0],
        n[1] * BY + terms[1],
        n[2] * BY + terms[2],
        n[3] * BY + terms[3],
    ]
}

// What the least keys of four columns tell. A struct and no tuple, since contracts name its parts; each of these is one
// vector.
#[derive(Clone, Copy)]
pub struct ColumnSums {
    pub all: [u32; 4],
    pub second: [u32; 4],
    pub words: [u32; 4],
}

// A number with all bits set where bit i of a mask is, and 0 elsewhere. Requires one of the sixteen pixels, as a loop counts them.
fn all_ones(mask: u32, i: usize) -> u32
    requires { i < 16 }
    ensures { result ≡ bit mask i * (2 ^ 32 - 1) }
{
    std::num::wrapping_sub_u32(0, (mask >> i) % 2)
}

// The raised distances of all pixels and of those of subset 1, and the indices as one number, in each column, from the last pixel down.
// Requires keys below 2 ^ 23, as those of the search are. The loop has an index, since it goes down the columns and the mask.
pub fn column_sums(columns: &[[u32; 4]; 16], mask: u32) -> ColumnSums
    requires { (c i : ℕ) → column_at columns.now c i < 2 ^ 23 }
    ensures all { result.all ≡ map (λ c. over_pixels (λ i. column_at columns.now c i / 8)) (up_from 0 4) }
    ensures second { result.second ≡ map (λ c. over_second mask (λ i. column_at columns.now c i / 8)) (up_from 0 4) }
    ensures words { result.words ≡ map (λ c. join (replicate 16 2) (map (λ i. column_at columns.now c i % 4) (up_from 0 16))) (up_from 0 4) }
{
    let mut all = [0u32; 4];
    let mut second = [0u32; 4];
    let mut words = [0u32; 4];
    // each result has a name first: the prover covers no call whose result goes into an array that is read in it
    for i in (0..16).rev() {
        let s = all_ones(mask, i);
        let [a, b, c, d] = columns[i];
        let more = grown::<1>(all, [a / 8, b / 8, c / 8, d / 8]);
        let other = grown::<1>(second, [a / 8 & s, b / 8 & s, c / 8 & s, d / 8 & s]);
        let longer = grown::<4>(words, [a % 4, b % 4, c % 4, d % 4]);
        all = more;
        second = other;
        words = longer;
    }
    ColumnSums { all, second, words }
}
