// Groups of recorded answers: 48 bytes of pixels, sixteen entries, and what choosing over their candidates in order ends with, a block
// and its error. An entry has 60 bytes: a candidate (16), the finished block (16) and its error (4), indices (8) and the block (16)
// that packing the candidate's fields with them gives.
ghost use Rattle.std.specs.Prelude.{◌<◌, IfOk};

use crate::calls::{Answer, finishes, measures, packs, takes};
use crate::recording::{indices, part};
use crate::tally::Tally;
use block::Candidate;
use chooser::Chooser;
use files::fill;
use proposals::records::candidate;
use std::io;
use std::io::Read;

// The bytes of a group.
const GROUP: usize = 1028;

// The bytes of the pixels of a group.
const PIXELS: usize = 48;

// The bytes of the entries of a group.
const ENTRIES: usize = 960;

// The bytes of an entry.
const ENTRY: usize = 60;

// An entry: a candidate's record, what finishing the group's pixels with it gives, and the indices and the block of packing.
#[derive(Clone, Copy)]
struct Entry {
    record: [u8; 16],
    finished: Answer,
    indices: [u8; 16],
    packed: [u8; 16],
}

impl From<&[u8; ENTRY]> for Entry {
    fn from(bytes: &[u8; ENTRY]) -> Self {
        let record = part(bytes, 0);
        let finished = Answer::from(&part(bytes, 16));
        let indices = indices(&part(bytes, 36));
        let packed = part(bytes, 44);
        Entry {
            record,
            finished,
            indices,
            packed,
        }
    }
}

impl Entry {
    // The candidate.
    fn candidate(&self) -> Candidate {
        candidate(&self.record)
    }

    // Counts what finishing, measuring and packing give for the candidate, and marks its cell.
    fn count(&self, pixels: &[u8], tally: &mut Tally) {
        let c = self.candidate();
        tally.finish.add(finishes(pixels, c, &self.finished));
        tally.measure.add(measures(pixels, &self.finished));
        tally
            .pack
            .add(packs(c, self.record[14], self.indices, &self.packed));
        tally.cells.mark(&self.record);
    }
}

// Replays a group: its entries one after the other, whose candidates a chooser is offered, and then what is held.
fn replay_group(group: &[u8; GROUP], tally: &mut Tally) {
    let (pixels, rest) = group.split_at(PIXELS);
    let (entries, chosen) = rest.split_at(ENTRIES);
    let (_, mut chooser) = Chooser::start(pixels);
    for bytes in entries.as_chunks::<ENTRY>().0 {
        let entry = Entry::from(bytes);
        entry.count(pixels, tally);
        (_, chooser) = chooser.offer(entry.candidate());
    }
    tally
        .choose
        .add(takes(chooser, &Answer::from(&part(chosen, 0))));
}

// Replays groups until the input ends, and gives how many bytes stand behind the last whole group. Nothing says that the input ends,
// so the turns are counted, up to a number that no run reaches.
pub(crate) fn replay(input: &mut impl Read, tally: &mut Tally) -> io::Result<usize>
    ensures { IfOk result (λ rest. rest < 1028) }
{
    let mut group = [0u8; GROUP];
    for _ in 0..u64::MAX {
        let (got, end) = fill(input, &mut group);
        end?;
        if got < GROUP {
            return Ok(got);
        }
        replay_group(&group, tally);
    }
    Ok(0)
}
