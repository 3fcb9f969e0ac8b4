// `bc7 measure`: how far each block of a plate lies from its photograph.
ghost use Rattle.std.specs.Prelude.{◌≡◌, ◌+◌, ◌<◌, IfOk};
ghost use Rattle.groups.specs.Cutting.{groups_across};

use crate::pair::Pair;
use crate::table::{Form, Heading, insert_row, put_row, put_worst};
use arguments::command::Shown;
use arguments::numbers::Worst;
use messages::ending::say_done;
use messages::say_line;
use mistakes::failure::Failure;
use reports::report::Report;
use reports::tally::Tally;
use row_work::buffers::Buffers;
use row_work::progress::{RowWork, each_row};
use sizes::rows::Rows;
use std::io::Print;

// A plate that is measured: what is shown, the worst blocks, the buffers and the figures so far. The worst blocks are a list beside what is
// shown, with no place where none are asked for: their lines are put after the last row. It holds keys, and not entries: where each block
// is worse than those before it, this takes about half of the time.
#[derive(Drop)]
struct Measuring<'a, 'b> {
    pair: &'b Pair<'a>,
    shown: Shown,
    worst: &'b mut [u64],
    buffers: &'b mut Buffers,
    tally: Tally,
}

impl<'a> RowWork for Measuring<'a, '_> {
    type Error = Failure<'a>;

    ghost rows_of = { λ s. groups_across s.pair.now.photo.size.height };

    ghost first = { λ s. s.tally.from };

    ghost ready = { λ s row. (s.tally.from + s.tally.rows ≡ row) × (s.tally.size.width ≡ s.pair.now.photo.size.width) × (s.tally.size.height ≡ s.pair.now.photo.size.height) };

    fn work_on(&mut self, rt: &HostRuntime, row: usize) -> Result<(), Failure<'a>> {
        // before the buffers are lent, since a field has no rule after that
        let worst = &mut *self.worst;
        let (blocks, errors) = self.pair.measure_row(row, self.buffers, &mut self.tally)?;
        match self.shown {
            Shown::Table => put_row(rt, Form::Words, row, blocks, errors)?,
            Shown::Csv => put_row(rt, Form::Csv, row, blocks, errors)?,
            Shown::Worst(_) => insert_row(row, blocks, errors, worst),
            Shown::Both(_) => {
                put_row(rt, Form::Words, row, blocks, errors)?;
                insert_row(row, blocks, errors, worst);
            }
            Shown::Total => {}
        }
        Ok(())
    }
}

// Measures a plate row by row. What is shown row by row is the progress itself.
fn measure_rows<'a>(
    rt: &HostRuntime,
    pair: &Pair<'a>,
    shown: Shown,
    worst: &mut [u64],
) -> Result<Tally, Failure<'a>>
    ensures { IfOk result (λ tally. 0 < tally.rows) }
{
    let size = pair.photo.size;
    let mut buffers = Buffers::new();
    let mut work = Measuring {
        pair,
        shown,
        worst,
        buffers: &mut buffers,
        tally: Tally::new(size, 0),
    };
    let name = match shown {
        Shown::Table | Shown::Both(_) | Shown::Csv => None,
        Shown::Worst(_) | Shown::Total => Some("measuring"),
    };
    each_row(rt, name, Rows::all(size), &mut work)?;
    Ok(work.tally)
}

// The worst block's error of a plate.
pub fn worst_error<'a>(rt: &HostRuntime, pair: &Pair<'a>) -> Result<u32, Failure<'a>> {
    let tally = measure_rows(rt, pair, Shown::Total, &mut [])?;
    Ok(tally.figures().worst)
}

// Measures a plate and says its table or its worst blocks, where these are shown, and its figures. The heading stands before what is
// measured, also where that fails; the table is said while the plate is measured, the worst blocks behind it.
fn say_measured<'a>(rt: &HostRuntime, pair: &Pair<'a>, shown: Shown) -> Result<(), Failure<'a>> {
    if let Shown::Table | Shown::Worst(_) | Shown::Both(_) = shown {
        say_line(rt, Heading(Form::Words))?;
    }
    // Room for the most: the program takes no heap.
    let mut all = [0; Worst::MOST];
    let worst = match shown {
        Shown::Worst(Worst { count, .. }) | Shown::Both(Worst { count, .. }) => &mut all[..count],
        _ => &mut all[..0],
    };
    let tally = measure_rows(rt, pair, shown, worst)?;
    if let Shown::Worst(_) | Shown::Both(_) = shown {
        put_worst(rt, worst, pair.photo.size.columns())?;
    }
    say_line(rt, Report::new(&tally))?;
    say_done(rt, pair.plate.input.path, "measured")?;
    Ok(())
}

// Measures a plate and says nothing but a table for a spreadsheet: how it ended is said on standard error.
fn say_csv<'a>(rt: &HostRuntime, pair: &Pair<'a>) -> Result<(), Failure<'a>> {
    say_line(rt, Heading(Form::Csv))?;
    measure_rows(rt, pair, Shown::Csv, &mut [])?;
    let err = rt.stderr();
    say_done(&err, pair.plate.input.path, "measured")?;
    Ok(())
}

// Measures a plate against its photograph.
pub fn measure<'a>(
    rt: &HostRuntime,
    photo_path: &'a [u8],
    plate_path: &'a [u8],
    shown: Shown,
) -> Result<(), Failure<'a>> {
    let pair = Pair::open(rt, photo_path, plate_path)?;
    match shown {
        Shown::Csv => say_csv(rt, &pair),
        Shown::Table | Shown::Worst(_) | Shown::Both(_) | Shown::Total => say_measured(
            rt, &pair, shown,
        ),
    }
}
