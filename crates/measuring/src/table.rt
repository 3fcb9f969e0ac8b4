// The lines of measured blocks: column, row, mode, partition and error.
ghost use Rattle.std.specs.Prelude.{◌*◌, ◌<◌, ◌≤◌, length};

use figures::entry::Entry;
use figures::worst::insert;
use groups::number_at;
use messages::lines::Lines;
use mistakes::failure::NotSaid;
use std::fmt;
use std::io::Print;
use std::num::NonZeroUsize;

// How the numbers of a line stand: with blanks between, or as a spreadsheet reads them.
#[derive(Clone, Copy, Debug, PartialEq, Eq)]
pub(crate) enum Form {
    Words,
    Csv,
}

// A line of the table.
#[derive(Clone, Copy, Debug, PartialEq, Eq)]
struct TableLine {
    form: Form,
    column: usize,
    row: usize,
    mode: u8,
    partition: u8,
    error: u32,
}

// Each form by one format: what stands between the numbers, handed over as a piece of its own, would cost a fourteenth of the table's time.
impl fmt::Display for TableLine {
    fn fmt<W: fmt::Write>(&self, f: &mut fmt::Formatter<W>) -> fmt::Result {
        match self.form {
            Form::Words => write!(
                f,
                "{} {} {} {} {}",
                self.column, self.row, self.mode, self.partition, self.error
            ),
            Form::Csv => write!(
                f,
                "{},{},{},{},{}",
                self.column, self.row, self.mode, self.partition, self.error
            ),
        }
    }
}

// The line above a table.
#[derive(Clone, Copy, Debug, PartialEq, Eq)]
pub(crate) struct Heading(pub(crate) Form);

impl fmt::Display for Heading {
    fn fmt<W: fmt::Write>(&self, f: &mut fmt::Formatter<W>) -> fmt::Result {
        f.write_str(match self.0 {
            Form::Words => "column row mode partition error",
            Form::Csv => "column,row,mode,partition,error",
        })
    }
}

// The mode and the partition of a block that is not declined.
fn mode_and_partition(block: &[u8]) -> Option<(u8, u8)> {
    let mut pixels = [0u8; 48];
    let reading = block::read(block, &mut pixels).ok()?;
    Some((reading.mode, reading.fields.partition))
}

// The lines of a row of blocks that are measured, so that none is declined and left out. The walk stands in `insert_row` too: one for both
// would call a closure with four numbers, and state when it may be called.
pub(crate) fn put_row(
    rt: &impl Print,
    form: Form,
    row: usize,
    blocks: &[u8],
    errors: &[u32],
) -> Result<(), NotSaid> {
    let mut lines = Lines::new(rt);
    for (column, (error, block)) in errors.iter().zip(blocks.chunks_exact(16)).enumerate() {
        let Some((mode, partition)) = mode_and_partition(block) else {
            continue;
        };
        lines.put(TableLine {
            form,
            column,
            row,
            mode,
            partition,
            error: *error,
        })?;
    }
    lines.flush()
}

// Keeps the keys of the worst of a row of blocks that are measured, so that none is declined and left out.
pub(crate) fn insert_row(row: usize, blocks: &[u8], errors: &[u32], keys: &mut [u64])
    requires { (length errors.now ≤ 4096) × (row < 4096) }
{
    let columns = errors.len();
    for (column, (error, block)) in errors.iter().zip(blocks.chunks_exact(16)).enumerate() {
        let Some((mode, partition)) = mode_and_partition(block) else {
            continue;
        };
        // below 2 ^ 24, as a row and a column are below 2 ^ 12
        let number = number_at(row, columns, column) as u32;
        let key = Entry::new(*error, number, mode, partition).key();
        // most blocks are no worse than the last of these, and would fall out after a walk over all places
        if keys.last().is_some_and(|last| *last < key) {
            insert(keys, key);
        }
    }
}

// The line of one of the worst blocks.
fn line_of(entry: Entry, columns: NonZeroUsize) -> TableLine {
    // Rust has no From<u32> for usize
    let number = entry.number.0 as usize;
    TableLine {
        form: Form::Words,
        column: number % columns,
        row: number / columns,
        mode: entry.mode,
        partition: entry.partition,
        error: entry.error,
    }
}

// The lines of the worst blocks, the worst first, by their keys. Out of line, so that their text takes no stack under the measuring.
#[inline(never)]
pub(crate) fn put_worst(
    rt: &impl Print,
    keys: &[u64],
    columns: NonZeroUsize,
) -> Result<(), NotSaid> {
    let mut lines = Lines::new(rt);
    for entry in keys.iter().filter_map(|key| Entry::of_key(*key)) {
        lines.put(line_of(entry, columns))?;
    }
    lines.flush()
}
