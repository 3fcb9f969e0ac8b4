// Photographs: opened, checked against their header, and read as groups, four rows at a time.
ghost use Rattle.std.specs.Prelude.{IfOk, OnOk, ◌≡◌, ◌+◌, ◌<◌, ◌≤◌, ◌*◌, length};
ghost use Rattle.groups.specs.Cutting.{groups_across};
ghost use Rattle.text.specs.Ppm.{SizesRead};

use groups::picture_bytes;
use mistakes::failure::Failure;
use mistakes::photo::PhotoMistake;
use open_files::inputs::Input;
use sizes::rows::Rows;
use sizes::size::{BAND, Size};
use text::ppm::Header;

// A photograph that is open for reading, the place of its pixels and its size.
#[derive(Drop)]
pub struct Photo<'a> {
    pub input: Input<'a>,
    pixels: u64,
    // Whether the white space before the pixels is a carriage return and the first byte behind it a line feed.
    crlf: bool,
    pub size: Size,
    ghost near: { pixels ≤ 4096 },
}

// The header of an open photograph, in its first 4096 bytes: the program takes no heap, and its memory doesn't grow with a file.
fn read_header<'a>(input: &Input<'a>) -> Result<Header, Failure<'a>>
    ensures { IfOk result (λ h. SizesRead h 4096) }
{
    let mut first = [0u8; 4096];
    let got = input.read(&mut first);
    Header::parse(&first[..got]).map_err(|error| input.failure(PhotoMistake::Header(error)))
}

impl<'a> Photo<'a> {
    // Opens a photograph.
    pub fn open(rt: &HostRuntime, path: &'a [u8]) -> Result<Photo<'a>, Failure<'a>> {
        let input = Input::open(rt, path)?;
        let header = read_header(&input)?;
        let photo = Photo {
            input,
            // Rust has no From between usize and u64
            pixels: header.pixels as u64,
            crlf: header.crlf,
            size: Size {
                width: header.width,
                height: header.height,
            },
        };
        photo.check_length()?;
        photo.go_to(0)?;
        Ok(photo)
    }

    // Refuses a photograph that has more or fewer bytes than its header says.
    fn check_length(&self) -> Result<(), Failure<'a>> {
        let has = self.input.length()?;
        // Rust has no From between usize and u64
        let expected = self.pixels + picture_bytes(self.size.width, self.size.height) as u64;
        if has == expected {
            return Ok(());
        }
        Err(
            self.input.failure(if self.crlf {
                PhotoMistake::CarriageReturns
            } else {
                PhotoMistake::Length { has, expected }
            }),
        )
    }

    // Refuses rows of blocks that are not inside.
    pub fn check_rows(&self, wanted: Rows) -> Result<(), Failure<'a>>
        ensures { OnOk result (wanted.from + wanted.count ≤ groups_across self.now.size.height) }
    {
        let rows = Rows::all(self.size);
        if wanted.end() > rows.count {
            return Err(
                self.input
                    .failure(PhotoMistake::RowsOutside { wanted, rows }),
            );
        }
        Ok(())
    }

    // Goes to the first pixel of a row of blocks.
    pub fn go_to(&self, row: usize) -> Result<(), Failure<'a>>
        requires { row ≤ 4096 }
    {
        // Rust has no From between usize and u64
        let before = picture_bytes(self.size.width, row * 4) as u64;
        self.input.go_to(self.pixels + before)
    }

    // Reads the pixels of a row of groups and cuts them.
    pub fn read_groups(
        &self,
        row: usize,
        band: &mut [u8; BAND],
        groups: &mut [u8],
    ) -> Result<(), Failure<'a>>
        requires size { row * 4 < self.now.size.height }
        requires room { length groups.old ≡ 48 * groups_across self.now.size.width }
    {
        let part = self.size.band(row);
        let n = picture_bytes(part.width, part.rows);
        if self.input.read(&mut band[..n]) != n {
            return Err(self.input.failure(PhotoMistake::EndsEarly));
        }
        part.cut(&band[..n], groups);
        Ok(())
    }
}
