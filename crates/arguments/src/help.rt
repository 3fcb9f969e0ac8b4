// The texts of `bc7 help`.
use crate::names::Name;

// The help of all commands.
const COMMANDS: &[u8] = b"bc7: bakes photographs into BC7 blocks of modes 1 and 3, and measures them

  bc7 bake [--rows FROM COUNT] PHOTO.ppm PLATE.bc7 [PROPOSALS]
                               choose a block for each group of 4 by 4 pixels, and write them
  bc7 measure [--worst N | --total | --csv] PHOTO.ppm PLATE.bc7
                               say each block's error, the worst N, or the figures alone
  bc7 read [--width W] [--block N] PLATE.bc7
                               say the fields of each block, or of one
  bc7 show PLATE.bc7 WIDTH HEIGHT OUT.ppm
                               write the picture that the blocks show
  bc7 map [--linear] [--white N] PHOTO.ppm PLATE.bc7 OUT.ppm
                               write the errors as a picture, a block a pixel
  bc7 help [COMMAND]           say this, or more of a command; so do -h and --help
  bc7 --version                say the version

Options stand anywhere behind the command. A file whose name begins with -- is written ./--name.
Photographs are binary PPM (P6) with 255 as the greatest value, 1 to 16384 pixels a side. PROPOSALS has for each block
a count byte and as many records of 16 bytes: mode, partition, four endpoints of red, green and blue, p-bits, and 0
where these are fixed or 1 where they are free. The last line says how it ended: 'done: ..' or 'failed: ..'.
";

// The help of `bake`.
const BAKE: &[u8] = b"bc7 bake [--rows FROM COUNT] PHOTO.ppm PLATE.bc7 [PROPOSALS]

Chooses a block for each group of 4 by 4 pixels of a photograph, and writes the blocks.

  PHOTO.ppm            the photograph: binary PPM (P6) with 255 as the greatest value, 1 to 16384 pixels a side
  PLATE.bc7            the plate that is written: 16 bytes a block, row by row
  PROPOSALS            the proposals that each block is chosen among; without this file they are made of the corners of
                       the box around each subset's colours, in both modes and all 64 partitions
  --rows FROM COUNT    bake COUNT rows of blocks alone, 1 to 4096, from row FROM on, where 0 is the first. Plates of
                       rows that follow one another, one behind the other in a file, are the plate of all of them.

PROPOSALS has for each block of the photograph, with --rows too, a count byte and as many records of 16 bytes: mode,
partition, four endpoints of red, green and blue, p-bits, and 0 where these are fixed or 1 where they are free. A block
without any proposal that is accepted is a mistake.

bake says, in this order:
  with PROPOSALS       each proposal that is refused, and how many are refused by which check: 3 is that of the mode (1
                       or 3), 4 of the partition (at most 63), 5 of the endpoints (at most 63 in mode 1 and 127 in mode
                       3), 6 of fixed p-bits (at most 3 in mode 1 and 15 in mode 3)
  with --rows          the first and the last of the rows, and how many rows the photograph has
  always               the figures, as measure says them ('bc7 help measure'), of the rows that are baked

The new file is PLATE.PROCESS.new, where PROCESS is the number of the process, until it is whole; then it takes the
place of PLATE. A run that is killed or interrupted leaves it behind. No later run removes it, since whether process
PROCESS still runs elsewhere (on another machine, or in another container on the same folder) cannot be told. It may be
removed by hand when no bake of PLATE runs.

    bc7 bake photo.ppm photo.bc7
    bc7 bake --rows 0 256 photo.ppm upper.bc7
    bc7 bake --rows 256 256 photo.ppm lower.bc7
";

// The help of `measure`.
const MEASURE: &[u8] = b"bc7 measure [--worst N | --total | --csv] PHOTO.ppm PLATE.bc7

Says how far each block of a plate lies from its photograph, and the figures of the whole.

  PHOTO.ppm    the photograph: binary PPM (P6) with 255 as the greatest value, 1 to 16384 pixels a side
  PLATE.bc7    its plate, as bake writes it
  --worst N    say the N worst blocks alone, 1 to 1000, the worst first, and the figures
  --total      say the figures alone
  --csv        say the blocks alone, with commas between, and on standard error how it ended

A block's line has its column and its row, both from 0, its mode, its partition and its error: the sum of the squared
differences in red, green and blue over its 16 pixels. Where a side of the photograph is no multiple of 4, its last
column or row is repeated to fill the blocks. The figures:

  total                   the sum of the squared differences over the photograph's own pixels
  mean squared error per channel
                          total / (3 * pixels), rounded to thousandths
  PSNR                    10 log10(255^2 * 3 * pixels / total), to hundredths (a figure next to a half may go to either
                          side); 'exact' where the total is 0. It is there to compare with other tools: a plate is
                          passed by its total and mean
  pixels                  how many pixels the photograph has
  blocks                  how many blocks the plate has
  sum of block errors     the sum of the errors in the table, which counts the repeated pixels too; it is never less
                          than the total, and the same where both sides are multiples of 4
  worst block error       the greatest error of a block, and the first block that has it

    bc7 measure photo.ppm photo.bc7 --worst 20
    bc7 measure --csv photo.ppm photo.bc7 > errors.csv
";

// The help of `read`.
const READ: &[u8] = b"bc7 read [--width W] [--block N] PLATE.bc7

Says the fields of each block of a plate: mode, partition, the endpoints of both subsets, p-bits and the 16 indices.

  PLATE.bc7    the plate: 16 bytes a block, row by row
  --width W    the width of its picture in pixels, 1 to 16384: say each block's column and row too, both from 0
  --block N    say block N alone, where 0 is the first

A block of a mode other than 1 and 3, and one whose first byte is 0, which is reserved, is said to be so. Behind the
lines of the blocks it says how many blocks the plate has.

    bc7 read photo.bc7
    bc7 read --width 1920 --block 17 photo.bc7
";

// The help of `show`.
const SHOW: &[u8] = b"bc7 show PLATE.bc7 WIDTH HEIGHT OUT.ppm

Writes the picture that the blocks of a plate show.

  PLATE.bc7    the plate: 16 bytes a block, row by row
  WIDTH        the width of the picture in pixels, 1 to 16384
  HEIGHT       its height in pixels, 1 to 16384
  OUT.ppm      the picture that is written, a binary PPM (P6)

The pixels of the last blocks that lie outside the picture are left out. The new file is OUT.ppm.PROCESS.new until it
is whole; 'bc7 help bake' says more.

    bc7 show photo.bc7 1920 1080 shown.ppm
";

// The help of `map`.
const MAP: &[u8] = b"bc7 map [--linear] [--white N] PHOTO.ppm PLATE.bc7 OUT.ppm

Writes the errors of a plate's blocks as a picture, a block a pixel: black where a block has no error, and the lighter
the greater its error is.

  PHOTO.ppm    the photograph: binary PPM (P6) with 255 as the greatest value, 1 to 16384 pixels a side
  PLATE.bc7    its plate, as bake writes it
  OUT.ppm      the picture that is written, a binary PPM (P6)
  --linear     shades that grow with the error; without it they grow with its square root
  --white N    the error from which on a block is white, 1 to 4294967295; without it that of the worst block

It says the scale: which errors are black, grey and white. Grey is the greatest error whose shade is at most 128, and
is left out where that is 0. With the same N the maps of different plates can be compared. The new file is
OUT.ppm.PROCESS.new until it is whole; 'bc7 help bake' says more.

    bc7 map photo.ppm photo.bc7 map.ppm
    bc7 map --white 1000 photo.ppm photo.bc7 map.ppm
";

// The help of `help`.
const HELP: &[u8] = b"bc7 help [COMMAND]

Says the commands, or more of one of them: bake, measure, read, show, map or help.

  COMMAND    the command; 'bc7 COMMAND --help' and 'bc7 COMMAND -h' say the same

    bc7 help
    bc7 help measure
";

// What `help` says of a command, or of all of them.
pub fn help(name: Option<Name>) -> &'static [u8] {
    match name {
        None => COMMANDS,
        Some(Name::Bake) => BAKE,
        Some(Name::Measure) => MEASURE,
        Some(Name::Read) => READ,
        Some(Name::Show) => SHOW,
        Some(Name::Map) => MAP,
        Some(Name::Help) => HELP,
    }
}
