// Proposals from a file: for each block a count byte and as many records of 16 bytes.
ghost use Rattle.std.specs.Prelude.{IfOk, ◌≡◌, ◌*◌, ◌/◌, ◌<◌, ◌≤◌, length};

use crate::refused::Refused;
use chooser::Chooser;
use mistakes::failure::Failure;
use mistakes::proposals::{BlockMistake, ProposalsMistake};
use open_files::inputs::Input;
use proposals::offer_records;
use proposals::records::flags_good;
use sizes::place::Place;
use std::io::Print;

// The bytes of the most records.
const RECORDS: usize = 4080;

// A file of proposals that is open for reading, and which of those read so far are refused.
#[derive(Drop)]
pub(crate) struct Proposals<'a> {
    pub(crate) input: Input<'a>,
    pub(crate) refused: Refused,
}

impl<'a> Proposals<'a> {
    // Opens a file of proposals.
    pub(crate) fn open(rt: &HostRuntime, path: &'a [u8]) -> Result<Proposals<'a>, Failure<'a>> {
        Ok(Proposals {
            input: Input::open(rt, path)?,
            refused: Refused::default(),
        })
    }

    // The failure of a block.
    fn failure(&self, place: Place, mistake: BlockMistake) -> Failure<'a> {
        self.input.failure(ProposalsMistake::Block(place, mistake))
    }

    // Reads a block's records into the room for the most.
    fn next_records<'r>(
        &self,
        place: Place,
        room: &'r mut [u8; RECORDS],
    ) -> Result<&'r [u8], Failure<'a>>
        ensures whole { IfOk result (λ records. length records.now ≡ 16 * (length records.now / 16)) }
        ensures few { IfOk result (λ records. length records.now ≤ 4080) }
    {
        let mut count = [0u8; 1];
        if self.input.read(&mut count) != 1 {
            return Err(self.failure(place, BlockMistake::NoCount));
        }
        let records = &mut room[..usize::from(count[0]) * 16];
        if self.input.read(records) != records.len() {
            return Err(self.failure(place, BlockMistake::FewRecords));
        }
        Ok(records)
    }

    // A block's records, which are to be offered: they have good flags.
    fn read_records<'r>(
        &self,
        place: Place,
        room: &'r mut [u8; RECORDS],
    ) -> Result<&'r [u8], Failure<'a>>
        ensures whole { IfOk result (λ records. length records.now ≡ 16 * (length records.now / 16)) }
        ensures few { IfOk result (λ records. length records.now ≤ 4080) }
    {
        let records = self.next_records(place, room)?;
        if !flags_good(records) {
            return Err(self.failure(place, BlockMistake::OtherFlag));
        }
        Ok(records)
    }

    // Chooses among a block's proposals, counts the refused ones, puts the best block into the lent part and answers its error.
    fn choose(
        &mut self,
        rt: &impl Print,
        place: Place,
        pixels: &[u8],
        block: &mut [u8],
    ) -> Result<u32, Failure<'a>> {
        // Room for the most records that a count byte says: the program takes no heap.
        let mut room = [0u8; RECORDS];
        let mut answers = [Ok(()); 255];
        let records = self.read_records(place, &mut room)?;
        let answers = &mut answers[..records.len() / 16];
        let (_, started) = Chooser::start(pixels);
        let held = offer_records(started, records, answers);
        self.refused.count(rt, place, answers)?;
        match held.take(block).0 {
            Ok(error) if answers.iter().any(|answer| answer.is_ok()) => Ok(error),
            // a part of 16 bytes is never declined
            _ => Err(self.failure(place, BlockMistake::NoneAccepted)),
        }
    }

    // Chooses the blocks of a row.
    pub(crate) fn choose_row(
        &mut self,
        rt: &impl Print,
        row: usize,
        groups: &[u8],
        blocks: &mut [u8],
        errors: &mut [u32],
    ) -> Result<(), Failure<'a>>
        requires { (length errors.old ≤ 4096) × (row < 4096) }
    {
        let columns = errors.len();
        let parts = groups.chunks_exact(48).zip(blocks.chunks_exact_mut(16));
        for (column, ((pixels, block), error)) in parts.zip(errors).enumerate() {
            let place = Place::at(row, columns, column);
            *error = self.choose(rt, place, pixels, block)?;
        }
        Ok(())
    }

    // Passes over the proposals of rows of blocks.
    pub(crate) fn skip_rows(&self, rows: usize, columns: usize) -> Result<(), Failure<'a>>
        requires { (rows ≤ 4096) × (columns ≤ 4096) }
    {
        let mut room = [0u8; RECORDS];
        for row in 0..rows {
            for column in 0..columns {
                self.next_records(Place::at(row, columns, column), &mut room)?;
            }
        }
        Ok(())
    }

    // Refuses a file of which not all was read.
    pub(crate) fn check_end(&self) -> Result<(), Failure<'a>> {
        let mut more = [0u8; 1];
        if self.input.read(&mut more) != 0 {
            return Err(self.input.failure(ProposalsMistake::NoEnd));
        }
        Ok(())
    }
}
