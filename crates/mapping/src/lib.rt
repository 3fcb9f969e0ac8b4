// `bc7 map`: the errors of a plate as a picture, a block a pixel, from black for none to white for the worst or for a given one.
#![tactic(auto)]

ghost use Rattle.std.specs.Prelude.{◌≡◌, ◌+◌, ◌<◌};
ghost use Rattle.groups.specs.Cutting.{groups_across};

mod legend;

use crate::legend::Legend;
use measuring::measure::worst_error;
use measuring::pair::Pair;
use messages::ending::say_done;
use messages::say_line;
use mistakes::failure::Failure;
use open_files::output::Output;
use photos::picture::write_header;
use reports::tally::Tally;
use row_work::buffers::Buffers;
use row_work::progress::{RowWork, each_row};
use shades::{Scale, shades};
use sizes::rows::Rows;
use sizes::size::Size;

// The bytes of the longest row of the map.
const SHADES: usize = 12288;

// A plate that is mapped: the scale and the error that is white, the new file, the buffers and the figures so far.
#[derive(Drop)]
struct Mapping<'a, 'b> {
    pair: &'b Pair<'a>,
    scale: Scale,
    white: u32,
    out: &'b Output<'a>,
    buffers: &'b mut Buffers,
    tally: Tally,
}

impl<'a> RowWork for Mapping<'a, '_> {
    type Error = Failure<'a>;

    ghost rows_of = { λ s. groups_across s.pair.now.photo.size.height };

    ghost first = { λ s. s.tally.from };

    ghost ready = { λ s row. (s.tally.from + s.tally.rows ≡ row) × (s.tally.size.width ≡ s.pair.now.photo.size.width) × (s.tally.size.height ≡ s.pair.now.photo.size.height) };

    fn work_on(&mut self, _rt: &HostRuntime, row: usize) -> Result<(), Failure<'a>> {
        let (_, errors) = self.pair.measure_row(row, self.buffers, &mut self.tally)?;
        // Room for the longest row: the program takes no heap.
        let mut line = [0u8; SHADES];
        let line = &mut line[..errors.len() * 3];
        shades(self.scale, errors, self.white, line);
        self.out.write(line)
    }
}

// Writes the map row by row. Out of line, so that its buffers take stack and time of this command alone: in line the compiler puts them
// into the function that runs every command.
#[inline(never)]
fn map_rows<'a>(
    rt: &HostRuntime,
    pair: &Pair<'a>,
    scale: Scale,
    white: u32,
    out: &Output<'a>,
) -> Result<(), Failure<'a>> {
    // before anything is written, or the compiler fills them twice
    let mut buffers = Buffers::new();
    let size = pair.photo.size;
    let map = Size {
        width: size.columns().get(),
        height: size.rows(),
    };
    write_header(out, map)?;
    let mut work = Mapping {
        pair,
        scale,
        white,
        out,
        buffers: &mut buffers,
        tally: Tally::new(size, 0),
    };
    each_row(rt, Some("mapping"), Rows::all(size), &mut work)
}

// The error that is white: one that is given, or the worst block's, for which the plate is measured first.
fn white_error<'a>(
    rt: &HostRuntime,
    pair: &Pair<'a>,
    white: Option<u32>,
) -> Result<u32, Failure<'a>> {
    if let Some(white) = white {
        return Ok(white);
    }
    let worst = worst_error(rt, pair)?;
    pair.rewind()?;
    Ok(worst)
}

// Writes the errors of a plate as a picture, by a scale and with a white error where one is given.
pub fn map<'a>(
    rt: &HostRuntime,
    paths: [&'a [u8]; 3],
    scale: Scale,
    given: Option<u32>,
) -> Result<(), Failure<'a>> {
    let [photo_path, plate_path, out_path] = paths;
    let pair = Pair::open(rt, photo_path, plate_path)?;
    let white = white_error(rt, &pair, given)?;
    let inputs = [pair.photo.input.id(), pair.plate.input.id()];
    let out = Output::create(rt, out_path, &inputs)?;
    let mapped = map_rows(rt, &pair, scale, white, &out);
    out.settle(rt, mapped)?;
    say_line(
        rt,
        Legend {
            scale,
            white,
            given: given.is_some(),
        },
    )?;
    say_done(rt, out_path, "written")?;
    Ok(())
}
