// Plates: opened, their blocks counted, and read a row at a time.
ghost use Rattle.std.specs.Prelude.{◌≡◌, ◌<◌};
ghost use Rattle.mistakes.specs.Counts.{modes_counted};
ghost use Rattle.plates.specs.Counting.{modes_in};

use groups::number_at;
use mistakes::failure::Failure;
use mistakes::plate::{PlateMistake, UnreadBlock};
use mistakes::unreadable::{BlockMode, Unreadable};
use open_files::inputs::Input;
use sizes::place::Place;
use sizes::size::{ROW, Size};

// How many blocks are read at once where no row of a picture is: those of the longest row.
pub const BLOCKS: u64 = 4096;

// A plate that is open for reading and how many blocks it has.
#[derive(Drop)]
pub struct Plate<'a> {
    pub input: Input<'a>,
    pub blocks: u64,
    ghost few: { blocks < 1152921504606846976 },
}

impl<'a> Plate<'a> {
    // Opens a plate.
    pub fn open(rt: &HostRuntime, path: &'a [u8]) -> Result<Plate<'a>, Failure<'a>> {
        let input = Input::open(rt, path)?;
        let has = input.length()?;
        let plate = Plate {
            input,
            blocks: has / 16,
        };
        if has == 0 || has % 16 != 0 {
            return Err(plate.input.failure(PlateMistake::NoWholeBlocks { has }));
        }
        plate.go_to(0)?;
        Ok(plate)
    }

    // Goes to a block.
    pub fn go_to(&self, number: u64) -> Result<(), Failure<'a>>
        requires { number < 1152921504606846976 }
    {
        self.input.go_to(number * 16)
    }

    // Refuses a plate that has not the blocks of a picture of this size.
    pub fn check_size(&self, size: Size) -> Result<(), Failure<'a>> {
        let has = self.blocks;
        // Rust has no From between usize and u64
        let expected = number_at(size.rows(), size.columns().get(), 0) as u64;
        if has != expected {
            return Err(
                self.input.failure(PlateMistake::OtherSize {
                    has,
                    expected,
                    size,
                }),
            );
        }
        Ok(())
    }

    // Reads the next blocks.
    pub fn read_blocks(&self, blocks: &mut [u8]) -> Result<(), Failure<'a>> {
        if self.input.read(blocks) != blocks.len() {
            return Err(self.input.failure(PlateMistake::EndsEarly));
        }
        Ok(())
    }

    // Counts the blocks that are not read, by their modes.
    fn count_unreadable(&self) -> Result<Unreadable, Failure<'a>> {
        self.go_to(0)?;
        let mut counts = Unreadable::none();
        // Room for the blocks of one part: the program takes no heap.
        let mut all = [0u8; ROW];
        for part in 0..self.blocks.div_ceil(BLOCKS) {
            let n = BLOCKS.min(self.blocks - part * BLOCKS);
            // Rust has no From between u64 and usize
            let blocks = &mut all[..n as usize * 16];
            self.read_blocks(blocks)?;
            count_blocks(blocks, &mut counts);
        }
        Ok(counts)
    }

    // The failure of this plate by a block that is not read, with how many of it are not.
    pub fn not_read(&self, place: Place, first: u8) -> Failure<'a> {
        match self.count_unreadable() {
            Ok(counts) => self.input.failure(PlateMistake::OtherMode(UnreadBlock {
                place,
                mode: BlockMode::of(first),
                counts,
            })),
            Err(failure) => failure,
        }
    }
}

// Counts blocks by their modes.
fn count_blocks(blocks: &[u8], counts: &mut Unreadable)
    ensures { counts.new ≡ modes_counted counts.old (modes_in blocks.now) }
{
    for block in blocks.chunks_exact(16) {
        counts.count(BlockMode::of(block[0]));
    }
}
