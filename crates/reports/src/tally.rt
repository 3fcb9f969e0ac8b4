// The figures of the rows of blocks that are measured so far.
ghost use Rattle.std.specs.Prelude.{◌≡◌, ◌+◌, ◌*◌, ◌<◌, ◌≤◌, length};
ghost use Rattle.groups.specs.Cutting.{groups_across, rows_in};
ghost use Rattle.figures.specs.Figures.{none_yet, counted_all};
ghost use Rattle.own_error.specs.Own.{own_row_of};
ghost use Rattle.reports.specs.Bounded.{Bounded};

use figures::Figures;
use own_error::own_error;
use sizes::size::Size;

// Of a picture of this size how many rows of blocks are counted from the first one on, the figures of their blocks, and the error of the
// picture's own pixels in them.
#[derive(Clone, Copy)]
pub struct Tally {
    pub(crate) size: Size,
    pub(crate) from: usize,
    pub(crate) rows: usize,
    pub(crate) figures: Figures,
    pub(crate) own: u64,
    ghost inside: { from + rows ≤ groups_across size.height },
    ghost within: { Bounded figures rows },
    ghost own_within: { own ≤ rows * 17592186044416 },
}

impl Tally {
    // No rows yet, of those from one on.
    pub fn new(size: Size, from: usize) -> Tally
        requires { from ≤ groups_across size.height }
        ensures of { (result.size.width ≡ size.width) × (result.size.height ≡ size.height) × (result.from ≡ from) }
        ensures none { (result.rows ≡ 0) × (result.figures ≡ none_yet) × (result.own ≡ 0) }
    {
        Tally {
            size,
            from,
            rows: 0,
            figures: Figures::none(),
            own: 0,
        }
    }

    // The next row: the errors of its blocks, and the error of the picture's own pixels among theirs.
    pub fn add_row(&mut self, groups: &[u8], blocks: &[u8], errors: &[u32])
        requires inside { (self.old.from + self.old.rows) * 4 < self.old.size.height }
        requires groups { length groups.now ≡ 48 * groups_across self.old.size.width }
        requires blocks { length blocks.now ≡ 16 * groups_across self.old.size.width }
        requires errors { length errors.now ≡ groups_across self.old.size.width }
        ensures rows { self.new.rows ≡ self.old.rows + 1 }
        ensures figures { self.new.figures ≡ counted_all self.old.figures errors.now }
        ensures own { self.new.own ≡ self.old.own + own_row_of self.old.size.width (rows_in self.old.size.height (self.old.from + self.old.rows)) groups.now blocks.now errors.now }
        ensures same { (self.new.size.width ≡ self.old.size.width) × (self.new.size.height ≡ self.old.size.height) × (self.new.from ≡ self.old.from) }
    {
        let Tally {
            size,
            from,
            rows,
            figures,
            own,
        } = *self;
        let more = own_error(size.band(from + rows), groups, blocks, errors);
        *self = Tally {
            size,
            from,
            rows: rows + 1,
            figures: figures.counted_row(errors, rows),
            own: own + more,
        };
    }

    // The figures of the blocks so far.
    pub fn figures(&self) -> Figures
        ensures { (result ≡ self.now.figures) × Bounded result 4096 }
    {
        self.figures
    }
}
