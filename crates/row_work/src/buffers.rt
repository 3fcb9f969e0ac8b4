// The fixed memory in which a row of blocks is worked on, so that no run can fail for want of memory.
ghost use Rattle.std.specs.Prelude.{◌≡◌, ◌*◌, ◌≤◌, length};

use sizes::size::{BAND, ROW};

// The blocks of the longest row. Contracts say 4096 wherever a row, a column or a list of a row's is handed in alone: a slice's type has no
// such bound. `Size`, `Parts` and `Tally` have it for what they hold.
pub const COLUMNS: usize = 4096;

// Four rows of pixels, their groups, the blocks of these and their errors, each with room for a row of the greatest width. A work on rows
// borrows them, so that they are not moved into it.
#[derive(Drop)]
pub struct Buffers {
    pub band: [u8; BAND],
    pub groups: [u8; BAND],
    pub blocks: [u8; ROW],
    pub errors: [u32; COLUMNS],
}

// What a row of blocks takes of the buffers: all of the rows of pixels, its groups, the blocks of these and their errors. Handed on one by
// one: the crates below read some and write others, and a work does not use them all.
#[derive(Drop)]
pub struct Parts<'b> {
    pub band: &'b mut [u8; BAND],
    pub groups: &'b mut [u8],
    pub blocks: &'b mut [u8],
    pub errors: &'b mut [u32],
    ghost few: { length errors.now ≤ 4096 },
    ghost groups_fit: { length groups.now ≡ 48 * length errors.now },
    ghost blocks_fit: { length blocks.now ≡ 16 * length errors.now },
}

// The first so many of a list: a part that a struct's field lends on has a rule only through a call.
fn front<T>(all: &mut [T], n: usize) -> &mut [T]
    requires { n ≤ length all.old }
    ensures { length result.now ≡ n }
{
    &mut all[..n]
}

impl Buffers {
    // Empty buffers.
    pub fn new() -> Buffers {
        Buffers {
            band: [0; BAND],
            groups: [0; BAND],
            blocks: [0; ROW],
            errors: [0; COLUMNS],
        }
    }

    // Lends what a row of so many blocks takes.
    pub fn parts(&mut self, columns: usize) -> Parts<'_>
        requires { columns ≤ 4096 }
        ensures { length result.errors.now ≡ columns }
    {
        let Buffers {
            band,
            groups,
            blocks,
            errors,
        } = self;
        Parts {
            band,
            groups: front(groups, columns * 48),
            blocks: front(blocks, columns * 16),
            errors: front(errors, columns),
        }
    }
}
