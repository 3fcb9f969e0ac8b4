// The figures of a plate: the errors of its blocks, their number, their sum and the greatest.
#![tactic(auto)]

ghost use Rattle.std.specs.Prelude.{◌≡◌, ◌+◌, ◌*◌, ◌<◌, ◌≤◌, length};
ghost use Rattle.figures.specs.Figures.{none_yet, counted_of, counted_all};

pub mod entry;
pub mod row;
pub mod worst;

// How many blocks, the sum of their errors, the greatest error, and the number of the first block that has it. The last two are 0 where
// there are no blocks, as in `none_yet`, since the theorems speak of numbers.
#[derive(Clone, Copy)]
pub struct Figures {
    pub blocks: u64,
    pub block_errors: u64,
    pub worst: u32,
    pub place: u64,
}

impl Figures {
    // The figures of no blocks. No `Default`: the name says which figures these are.
    pub fn none() -> Figures
        ensures { result ≡ none_yet }
    {
        Figures {
            blocks: 0,
            block_errors: 0,
            worst: 0,
            place: 0,
        }
    }

    // The figures with one block more.
    pub fn counted(self, error: u32) -> Figures
        requires { (self.block_errors + error < 18446744073709551616) × (self.blocks < 18446744073709551615) }
        ensures { result ≡ counted_of self error }
    {
        let place = if self.worst < error {
            self.blocks
        } else {
            self.place
        };
        Figures {
            blocks: self.blocks + 1,
            block_errors: self.block_errors + u64::from(error),
            worst: self.worst.max(error),
            place,
        }
    }

    // The figures with a row of blocks more, where the rows before it are so many and none has more than 4096 blocks. That limit stands in
    // the contract of each function over a row, and in no type: their lists are parts of the caller's buffers, lent anew for each row.
    #[tactic(auto, unfolding(crate::specs::Figures::counted_all))]
    pub fn counted_row(self, errors: &[u32], row: usize) -> Figures
        requires few { (row < 4096) × (length errors.now ≤ 4096) }
        requires bound { (self.block_errors ≤ row * 17592186044416) × (self.blocks ≤ row * 4096) }
        ensures all { result ≡ counted_all self errors.now }
        ensures sum { result.block_errors ≤ (row + 1) * 17592186044416 }
        ensures bound { result.blocks ≤ (row + 1) * 4096 }
        ensures place { self.place ≤ row * 4096 → result.place ≤ (row + 1) * 4096 }
    {
        let mut figures = self;
        for error in errors {
            figures = figures.counted(*error);
        }
        figures
    }
}
