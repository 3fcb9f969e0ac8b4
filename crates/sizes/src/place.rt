// Where a block stands.
ghost use Rattle.std.specs.Prelude.{◌≡◌, ◌+◌, ◌*◌, ◌≤◌};

use groups::number_at;
use std::fmt;

// A block's number, counted row by row, its column and its row.
#[derive(Clone, Copy, Debug, PartialEq, Eq)]
pub struct Place {
    number: usize,
    column: usize,
    row: usize,
}

impl Place {
    // The place in a column of a row of so many.
    pub fn at(row: usize, columns: usize, column: usize) -> Place
        requires { (row ≤ 4096) × (columns ≤ 4096) × (column ≤ 4096) }
        ensures { (result.number ≡ row * columns + column) × (result.column ≡ column) × (result.row ≡ row) }
    {
        Place {
            number: number_at(row, columns, column),
            column,
            row,
        }
    }
}

impl fmt::Display for Place {
    fn fmt<W: fmt::Write>(&self, f: &mut fmt::Formatter<W>) -> fmt::Result {
        write!(
            f,
            "block {} (column {}, row {})",
            self.number, self.column, self.row
        )
    }
}
