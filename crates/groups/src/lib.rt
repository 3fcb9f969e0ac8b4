// Cutting a picture into groups of 4 by 4 pixels, and putting groups back, a band of at most four rows at a time.
// Pixels stand row by row, three bytes each: red, green, blue. A group has sixteen, so 48 bytes.
#![tactic(auto)]

ghost use Rattle.std.specs.Prelude.{ℕ, ◌≡◌, ◌+◌, ◌*◌, ◌<◌, ◌≤◌, length};
ghost use Rattle.groups.specs.Cutting.{groups_across, rows_in, source_of, place_of, gather, groups_of, picture_of};

// The greatest side of a picture. It stands in the contracts of what takes a side, and in no type here: a size of both sides is the callers',
// and `across` and `picture_bytes` also take one side of it, or a band's rows.
pub const SIDE: usize = 16384;

// How many groups a side of a picture has.
pub fn across(side: usize) -> usize
    requires { side ≤ 16384 }
    ensures { (result ≡ groups_across side) × (result ≤ 4096) }
{
    side.div_ceil(4)
}

// How many rows of pixels a row of groups has: four, or those that are left.
pub fn rows_in(height: usize, row: usize) -> usize
    requires { row * 4 < height }
    ensures { (result ≡ rows_in height row) × (1 ≤ result) × (result ≤ 4) }
{
    (height - row * 4).min(4)
}

// How many bytes a picture has, whole or a band of it.
pub fn picture_bytes(width: usize, height: usize) -> usize
    requires { (width ≤ 16384) × (height ≤ 16384) }
    ensures { (result ≡ width * height * 3) × (result ≤ 49152 * height) }
{
    width * height * 3
}

// The number of the group in a column of a row, counted row by row. Its limits stand in its contract, and in no type: callers count a row
// and a column, or hand in how many rows there are.
pub fn number_at(row: usize, columns: usize, column: usize) -> usize
    requires { (row ≤ 4096) × (columns ≤ 4096) × (column ≤ 4096) }
    ensures { (result ≡ row * columns + column) × (result ≤ row * 4096 + column) }
{
    row * columns + column
}

// Writes to each place of a list what stands at the place of another that a function gives.
#[tactic(auto, using(lists::proofs::Rows::written_all), unfolding(lists::specs::Rows::written))]
fn gather<F: Fn(usize) -> usize>(place: F, from: &[u8], to: &mut [u8])
    ghost places: { ℕ → ℕ }
    requires callable { (i : ℕ) → i < length to.old → F.pre place i }
    requires inside { (i j : ℕ) → i < length to.old → F.post place i j → (j ≡ places i) × (j < length from.now) }
    ensures { to.new ≡ gather places (length to.old) from.now }
{
    for (i, byte) in to.iter_mut().enumerate() {
        *byte = from[place(i)];
    }
}

// A band of a picture's rows: at most four, which one row of groups has.
#[derive(Clone, Copy)]
pub struct Band {
    pub width: usize,
    pub rows: usize,
    ghost wide: { (0 < width) × (width ≤ 16384) },
    ghost high: { (0 < rows) × (rows ≤ 4) },
}

impl Band {
    // Where byte g of the band's groups stands in the band: beyond its edges the last column and the last row are repeated. `place` goes the
    // other way, by another formula.
    #[tactic(auto, using(crate::proofs::Grid::in_band, crate::proofs::Grid::band_column, crate::proofs::Grid::band_row), unfolding(crate::specs::Cutting::source_of))]
    fn source(self, g: usize) -> usize
        requires { g < 48 * groups_across self.width }
        ensures { (result ≡ source_of self.width self.rows g) × (result < self.width * self.rows * 3) }
    {
        let column = 4 * (g / 48) + g / 3 % 4;
        let row = g / 12 % 4;
        let x = column.min(self.width - 1);
        let y = row.min(self.rows - 1);
        (y * self.width + x) * 3 + g % 3
    }

    // The groups of the band. Requires whole parts: a slice's type has no length.
    #[tactic(auto, unfolding(crate::specs::Cutting::groups_of))]
    pub fn cut(self, pixels: &[u8], groups: &mut [u8])
        requires whole { length pixels.now ≡ self.width * self.rows * 3 }
        requires room { length groups.old ≡ 48 * groups_across self.width }
        ensures { groups.new ≡ groups_of self.width self.rows pixels.now }
    {
        gather(|g| self.source(g), pixels, groups);
    }

    // Where byte j of the band stands among its groups' bytes, each of which has its place by `source`.
    #[tactic(auto, using(crate::proofs::Grid::pixel_inside, crate::proofs::Grid::band_grouped), unfolding(crate::specs::Cutting::place_of))]
    fn place(self, j: usize) -> usize
        requires { j < self.width * self.rows * 3 }
        ensures { (result ≡ place_of self.width j) × (result < 48 * groups_across self.width) }
    {
        let x = j / 3 % self.width;
        let y = j / 3 / self.width;
        48 * (x / 4) + (y * 4 + x % 4) * 3 + j % 3
    }

    // The pixels of the band that groups stand for.
    #[tactic(auto, unfolding(crate::specs::Cutting::picture_of))]
    pub fn put_back(self, groups: &[u8], pixels: &mut [u8])
        requires whole { length pixels.old ≡ self.width * self.rows * 3 }
        requires room { length groups.now ≡ 48 * groups_across self.width }
        ensures { pixels.new ≡ picture_of self.width self.rows groups.now }
    {
        gather(|j| self.place(j), groups, pixels);
    }
}
