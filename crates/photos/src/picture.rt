// Pictures that are written.
use mistakes::failure::Failure;
use open_files::output::Output;
use sizes::size::Size;
use text::ppm::NewHeader;

// Writes the header of a picture.
pub fn write_header<'a>(out: &Output<'a>, size: Size) -> Result<(), Failure<'a>> {
    let header = NewHeader {
        width: size.width,
        height: size.height,
    };
    let text = header.text();
    out.write(text.as_bytes())
}
