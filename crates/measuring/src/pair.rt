// A photograph and its plate, opened together and measured a row of blocks at a time.
ghost use Rattle.std.specs.Prelude.{◌≡◌, ◌+◌, ◌*◌, ◌<◌, length, IfOk, OnOk};
ghost use Rattle.groups.specs.Cutting.{groups_across};

use figures::row::measure_row;
use mistakes::failure::Failure;
use photos::photo::Photo;
use plates::plate::Plate;
use reports::tally::Tally;
use row_work::buffers::{Buffers, Parts};
use sizes::place::Place;

// A photograph and the plate of its blocks, both open for reading.
#[derive(Drop)]
pub struct Pair<'a> {
    pub photo: Photo<'a>,
    pub plate: Plate<'a>,
}

impl<'a> Pair<'a> {
    // Opens a photograph and its plate, by their paths, which are arguments of the commands and are handed on once.
    pub fn open(
        rt: &HostRuntime,
        photo_path: &'a [u8],
        plate_path: &'a [u8],
    ) -> Result<Pair<'a>, Failure<'a>> {
        let photo = Photo::open(rt, photo_path)?;
        let plate = Plate::open(rt, plate_path)?;
        plate.check_size(photo.size)?;
        Ok(Pair { photo, plate })
    }

    // Goes to the beginning of both again.
    pub fn rewind(&self) -> Result<(), Failure<'a>> {
        self.photo.go_to(0)?;
        self.plate.go_to(0)
    }

    // Reads a row of the photograph and of the plate, measures its blocks and counts their errors; answers the blocks and the errors. The
    // buffers and the tally are no fields beside the pair: the tally would be lent with what is answered.
    pub fn measure_row<'b>(
        &self,
        row: usize,
        buffers: &'b mut Buffers,
        tally: &mut Tally,
    ) -> Result<(&'b [u8], &'b [u32]), Failure<'a>>
        requires inside { (row * 4 < self.now.photo.size.height) × (tally.old.from + tally.old.rows ≡ row) }
        requires size { (tally.old.size.width ≡ self.now.photo.size.width) × (tally.old.size.height ≡ self.now.photo.size.height) }
        ensures counted { OnOk result ((tally.new.rows ≡ tally.old.rows + 1) × (tally.new.from ≡ tally.old.from)) }
        ensures size { OnOk result ((tally.new.size.width ≡ tally.old.size.width) × (tally.new.size.height ≡ tally.old.size.height)) }
        ensures errors { IfOk result (λ measured. length measured.1.now ≡ groups_across self.now.photo.size.width) }
    {
        let columns = self.photo.size.columns().get();
        let Parts {
            band,
            groups,
            blocks,
            errors,
        } = buffers.parts(columns);
        self.photo.read_groups(row, band, groups)?;
        self.plate.read_blocks(blocks)?;
        if let Err(declined) = measure_row(groups, blocks, errors) {
            let place = Place::at(row, columns, declined.at);
            return Err(self.plate.not_read(place, blocks[declined.at * 16]));
        }
        tally.add_row(groups, blocks, errors);
        Ok((blocks, errors))
    }
}
