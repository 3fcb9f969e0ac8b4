// The errors of a row of blocks, and the pixels that it shows.
ghost use Rattle.std.specs.Prelude.{◌≡◌, ◌+◌, ◌*◌, ◌/◌, ◌<◌, ◌≤◌, length, IfErr};
ghost use Rattle.bptc_block.specs.Answers.{measured};
ghost use Rattle.figures.specs.Row.{measured_at, errors_of, shown_of, refusal_in, row_in, further, measured_row_of, read_row_of};

use block::{Refusal, measure, read};

// The first block of a row that is declined, and why.
#[derive(Clone, Copy, Debug, PartialEq, Eq)]
pub struct Declined {
    pub refusal: Refusal,
    pub at: usize,
}

// Measures block k against its group of pixels.
#[tactic(auto, unfolding(crate::specs::Row::measured_at))]
fn measure_at(groups: &[u8], blocks: &[u8], k: usize) -> Result<u32, Refusal>
    requires { (k < 4096) × (48 * k + 48 ≤ length groups.now) × (16 * k + 16 ≤ length blocks.now) }
    ensures { measured result ≡ measured_at groups.now blocks.now k }
{
    let block = k * 16;
    let group = k * 48;
    measure(&blocks[block..block + 16], &groups[group..group + 48])
}

// The answer for a row with one block more, which stands behind those before it: the refusal of the first that is declined.
#[tactic(auto, using(crate::proofs::Declined::passed_on, crate::proofs::Declined::declined_on))]
fn further<T: Drop>(
    row: Result<(), Declined>,
    block: Result<T, Refusal>,
    at: usize,
) -> Result<(), Declined>
    ensures { row_in (at + 1) result ≡ further (row_in at row) (refusal_in block) }
{
    if let Err(refusal) = block {
        return row.and(Err(Declined { refusal, at }));
    }
    row
}

// Measures a row of blocks: the error of each, and 0, by `errors_of`, where it is declined. The blocks and groups are taken by their places,
// and not by a `zip`: a proof knows nothing of what is written through `iter_mut` under one. It stands beside `read_row`, as it writes a
// number for each block and that one pixels; what both answer is `further`.
#[tactic(auto, using(lists::proofs::Rows::written_all, crate::proofs::Declined::row_none), unfolding(crate::specs::Row::errors_of, lists::specs::Rows::written))]
pub fn measure_row(groups: &[u8], blocks: &[u8], errors: &mut [u32]) -> Result<(), Declined>
    requires groups { length groups.now ≡ 48 * length errors.old }
    requires blocks { length blocks.now ≡ 16 * length errors.old }
    requires few { length errors.old ≤ 4096 }
    ensures errors { errors.new ≡ errors_of groups.now blocks.now (length errors.old) }
    ensures answer { row_in (length errors.old) result ≡ measured_row_of groups.now blocks.now (length errors.old) }
    ensures inside { IfErr result (λ d. d.at < length errors.old) }
{
    let mut row = Ok(());
    for (k, error) in errors.iter_mut().enumerate() {
        let measured = measure_at(groups, blocks, k);
        *error = measured.unwrap_or(0);
        row = further(row, measured, k);
    }
    row
}

// Reads a row of blocks, each into its group of pixels; a group whose block is declined stays as it was. The groups are taken by their
// places: a proof knows nothing of what is written through `chunks_exact_mut`.
#[tactic(auto, using(crate::proofs::Showing::shown_all, crate::proofs::Declined::row_none), unfolding(crate::specs::Row::shown_of, lists::specs::Parts::joined))]
pub fn read_row(blocks: &[u8], groups: &mut [u8]) -> Result<(), Declined>
    requires groups { length groups.old ≡ 48 * (length blocks.now / 16) }
    requires few { length blocks.now / 16 ≤ 4096 }
    ensures groups { groups.new ≡ shown_of blocks.now groups.old (length blocks.now / 16) }
    ensures answer { row_in (length blocks.now / 16) result ≡ read_row_of blocks.now groups.old (length blocks.now / 16) }
    ensures inside { IfErr result (λ d. d.at < length blocks.now / 16) }
{
    let mut row = Ok(());
    for k in 0..blocks.len() / 16 {
        let from = k * 16;
        let at = k * 48;
        let reading = read(&blocks[from..from + 16], &mut groups[at..at + 48]);
        row = further(row, reading, k);
    }
    row
}
