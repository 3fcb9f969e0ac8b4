// `bc7 show`: the picture that a plate's blocks show.
#![tactic(auto)]

ghost use Rattle.std.specs.Prelude.{◌<◌};
ghost use Rattle.groups.specs.Cutting.{groups_across};

use figures::row::read_row;
use groups::picture_bytes;
use messages::ending::say_done;
use mistakes::failure::Failure;
use open_files::output::Output;
use photos::picture::write_header;
use plates::plate::Plate;
use row_work::buffers::{Buffers, Parts};
use row_work::progress::{RowWork, each_row};
use sizes::place::Place;
use sizes::rows::Rows;
use sizes::size::Size;

// A plate that is shown: the size of its picture, the new file and the buffers.
#[derive(Drop)]
struct Showing<'a, 'b> {
    plate: &'b Plate<'a>,
    size: Size,
    out: &'b Output<'a>,
    buffers: &'b mut Buffers,
}

impl<'a> RowWork for Showing<'a, '_> {
    type Error = Failure<'a>;

    ghost rows_of = { λ s. groups_across s.size.height };

    ghost first = { λ _. 0 };

    ghost ready = { λ _ _. Unit {0} };

    fn work_on(&mut self, _rt: &HostRuntime, row: usize) -> Result<(), Failure<'a>> {
        let columns = self.size.columns().get();
        let Parts {
            band,
            groups,
            blocks,
            ..
        } = self.buffers.parts(columns);
        self.plate.read_blocks(blocks)?;
        if let Err(declined) = read_row(blocks, groups) {
            let place = Place::at(row, columns, declined.at);
            return Err(self.plate.not_read(place, blocks[declined.at * 16]));
        }
        let part = self.size.band(row);
        let band = &mut band[..picture_bytes(part.width, part.rows)];
        part.put_back(groups, band);
        self.out.write(band)
    }
}

// Writes the picture row by row. Out of line, so that its buffers take stack and time of this command alone: in line the compiler puts them
// into the function that runs every command.
#[inline(never)]
fn show_rows<'a>(
    rt: &HostRuntime,
    plate: &Plate<'a>,
    size: Size,
    out: &Output<'a>,
) -> Result<(), Failure<'a>> {
    // before anything is written, or the compiler fills them twice
    let mut buffers = Buffers::new();
    write_header(out, size)?;
    let mut work = Showing {
        plate,
        size,
        out,
        buffers: &mut buffers,
    };
    each_row(rt, Some("showing"), Rows::all(size), &mut work)
}

// Writes the picture that a plate of this size shows.
pub fn show<'a>(
    rt: &HostRuntime,
    plate_path: &'a [u8],
    size: Size,
    out_path: &'a [u8],
) -> Result<(), Failure<'a>> {
    let plate = Plate::open(rt, plate_path)?;
    plate.check_size(size)?;
    let out = Output::create(rt, out_path, &[plate.input.id()])?;
    let shown = show_rows(rt, &plate, size, &out);
    out.settle(rt, shown)?;
    say_done(rt, out_path, "written")?;
    Ok(())
}
