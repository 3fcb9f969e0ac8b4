// The figures of a plate in words.
ghost use Rattle.std.specs.Prelude.{◌≡◌, ◌+◌, ◌-◌, ◌*◌, ◌/◌, ◌%◌, ◌<◌, min, option_map};
ghost use Rattle.groups.specs.Cutting.{groups_across};
ghost use Rattle.quality.specs.Mean.{mean_of};
ghost use Rattle.quality.specs.Psnr.{psnr_of};

use crate::tally::Tally;
use quality::{mean, psnr};
use std::fmt;
use text::line::{Hundredths, Thousandths};

// Of the picture's own pixels the sum of their squared differences, its mean for a channel of a pixel, its ratio to the greatest in
// decibels, which an exact picture has not, and how many they are. Of the blocks how many there are, the sum of their errors, in which
// pixels that are repeated at an edge count too, and the worst and its place.
#[derive(Clone, Copy, Debug, PartialEq, Eq)]
pub struct Report {
    total: u64,
    mean: Thousandths,
    psnr: Option<Hundredths>,
    pixels: u64,
    blocks: u64,
    block_errors: u64,
    worst: u32,
    column: usize,
    row: usize,
}

impl Report {
    // The report of the rows that are counted. Of none the mean is 0, as where they are exact.
    pub fn new(tally: &Tally) -> Report
        ensures total { result.total ≡ tally.now.own }
        ensures pixels { result.pixels ≡ tally.now.size.width * min (tally.now.size.height - tally.now.from * 4) (tally.now.rows * 4) }
        ensures mean { result.mean.0 ≡ mean_of result.total (3 * result.pixels) }
        ensures psnr { option_map (λ p. p.0) result.psnr ≡ psnr_of result.total (3 * result.pixels) }
        ensures sums { (result.blocks ≡ tally.now.figures.blocks) × (result.block_errors ≡ tally.now.figures.block_errors) }
        ensures worst { result.worst ≡ tally.now.figures.worst }
        ensures column { result.column ≡ tally.now.figures.place % groups_across tally.now.size.width }
        ensures row { result.row ≡ tally.now.from + tally.now.figures.place / groups_across tally.now.size.width }
    {
        let Tally {
            size,
            from,
            rows,
            figures,
            own: total,
        } = *tally;
        // saturating, as the first of no rows may lie behind the picture
        let height = size.height.saturating_sub(from * 4).min(rows * 4);
        // Rust has no From between u64 and usize
        let pixels = (size.width * height) as u64;
        let place = figures.place as usize;
        let columns = size.columns();
        Report {
            total,
            mean: Thousandths(mean(total, 3 * pixels)),
            psnr: psnr(total, 3 * pixels).map(Hundredths),
            pixels,
            blocks: figures.blocks,
            block_errors: figures.block_errors,
            worst: figures.worst,
            column: place % columns,
            row: from + place / columns,
        }
    }
}

impl fmt::Display for Report {
    fn fmt<W: fmt::Write>(&self, f: &mut fmt::Formatter<W>) -> fmt::Result {
        writeln!(f, "total {}", self.total)?;
        writeln!(f, "mean squared error per channel {}", self.mean)?;
        match self.psnr {
            Some(psnr) => writeln!(f, "PSNR {psnr} dB")?,
            None => writeln!(f, "PSNR exact")?,
        }
        writeln!(f, "pixels {}", self.pixels)?;
        writeln!(f, "blocks {}", self.blocks)?;
        writeln!(f, "sum of block errors {}", self.block_errors)?;
        write!(
            f,
            "worst block error {} at column {}, row {}",
            self.worst, self.column, self.row
        )
    }
}
