// The header of a binary PPM picture, Netpbm's P6.
ghost use Rattle.std.specs.Prelude.{◌≡◌, ◌<◌, ◌≤◌, false, length, IfOk, IsTrue, Some};
ghost use Rattle.text.specs.Ppm.{is_space, in_gap, in_comment, gap_in, small_number, field_in, size_fits};
ghost use Rattle.text.specs.Ppm.{mistake_text, size_in, maxval_in, starts_p6, starts_crlf, header_of, SizesRead, header_text};

use crate::decimal::{digits_in, number};
use crate::line::Line;
use std::error::Error;
use std::fmt;

// What a header says.
#[derive(Clone, Copy, Debug, PartialEq, Eq)]
pub struct Header {
    pub width: usize,
    pub height: usize,
    // The place of the first pixel's first byte.
    pub pixels: usize,
    // Whether the white space before it is a carriage return and the byte there a line feed, as where a file's line ends were rewritten.
    pub crlf: bool,
}

// What is wrong with a header: that a part is missing, that a size is not 1 to 16384, or that the greatest value is not 255.
#[derive(Clone, Copy, Debug, PartialEq, Eq)]
pub enum HeaderError {
    NoName,
    NoWidth,
    NoHeight,
    NoMaxval,
    WidthOutside,
    HeightOutside,
    OtherMaxval,
    NoPixels,
}

impl fmt::Display for HeaderError {
    ghost output = { λ mistake. Some (mistake_text mistake) };

    fn fmt<W: fmt::Write>(&self, f: &mut fmt::Formatter<W>) -> fmt::Result {
        f.write_str(match self {
            HeaderError::NoName => "does not begin with P6; expected a binary PPM picture",
            HeaderError::NoWidth =>
                "has no width in its first 4096 bytes; expected a number from 1 to 16384 behind P6",
            HeaderError::NoHeight =>
                "has no height in its first 4096 bytes; expected a number from 1 to 16384 behind the width",
            HeaderError::NoMaxval =>
                "has no greatest value in its first 4096 bytes; expected 255 behind the height",
            HeaderError::WidthOutside => "has a width out of range; expected 1 to 16384",
            HeaderError::HeightOutside => "has a height out of range; expected 1 to 16384",
            HeaderError::OtherMaxval => "has a greatest value that is not 255; expected 255",
            HeaderError::NoPixels =>
                "has no pixels behind its greatest value; expected one white space and then the pixels",
        })
    }
}

impl Error for HeaderError {}

// A number of a header, and how many bytes it takes with the white space before it. That there are as many stands in the contracts of those
// who read it, since a field does not hold the bytes.
#[derive(Clone, Copy)]
pub(crate) struct Field {
    pub value: usize,
    pub len: usize,
}

// Whether a byte is white space: Netpbm's has the vertical tab, 11, which `is_ascii_whitespace` leaves out.
fn is_space(b: u8) -> bool
    ensures { result ≡ is_space b }
{
    matches!(b, b' ' | 9..=13)
}

// Whether a byte belongs to white space and comments, inside a comment or outside.
fn in_gap(comment: bool, b: u8) -> bool
    ensures { result ≡ in_gap comment b }
{
    comment || b == b'#' || is_space(b)
}

// Whether the byte behind a byte is inside a comment, which ends with its line.
fn in_comment(comment: bool, b: u8) -> bool
    ensures { result ≡ in_comment comment b }
{
    if comment {
        b != b'\n' && b != b'\r'
    } else {
        b == b'#'
    }
}

// How many bytes of white space and comments stand at the front. Whether a byte is one of them depends on those before it, so no test of one
// byte can count them by `take_while`.
fn gap_in(bytes: &[u8]) -> usize
    ensures count { result ≡ gap_in false bytes.now }
    ensures inside { result ≤ length bytes.now }
{
    let mut comment = false;
    for (at, byte) in bytes.iter().enumerate() {
        if !in_gap(comment, *byte) {
            return at;
        }
        comment = in_comment(comment, *byte);
    }
    bytes.len()
}

// The number of one to nine digits, the most that one of a header may have; cast, since Rust has no `From` between `u64` and `usize`.
#[tactic(auto, unfolding(crate::specs::Ppm::small_number))]
fn small_number(digits: &[u8]) -> Option<usize>
    ensures { result ≡ small_number digits.now }
{
    if digits.len() > 9 {
        return None;
    }
    number(digits).map(|n| n as usize)
}

// The number at the front, behind its white space, or the mistake that it is missing or has more than nine digits, which are two of
// `HeaderError` for each field.
#[tactic(auto, unfolding(crate::specs::Ppm::field_in))]
fn field_in(bytes: &[u8], missing: HeaderError, outside: HeaderError) -> Result<Field, HeaderError>
    ensures says { result ≡ field_in bytes.now missing outside }
    ensures inside { IfOk result (λ field. field.len ≤ length bytes.now) }
{
    let gap = gap_in(bytes);
    let rest = &bytes[gap..];
    let count = digits_in(rest);
    if gap == 0 || count == 0 {
        return Err(missing);
    }
    let value = small_number(&rest[..count]).ok_or(outside)?;
    Ok(Field {
        value,
        len: gap + count,
    })
}

// Whether a width or a height is 1 to 16384.
fn size_fits(n: usize) -> bool
    ensures says { result ≡ size_fits n }
    ensures range { IsTrue result → (1 ≤ n) × (n ≤ 16384) }
{
    (1..=16384).contains(&n)
}

// The width or the height at the front, or the mistake that it is missing or outside 1 to 16384.
#[tactic(auto, unfolding(crate::specs::Ppm::size_in))]
fn size_in(bytes: &[u8], missing: HeaderError, outside: HeaderError) -> Result<Field, HeaderError>
    ensures says { result ≡ size_in bytes.now missing outside }
    ensures inside { IfOk result (λ size. size.len ≤ length bytes.now) }
    ensures fits { IfOk result (λ size. (1 ≤ size.value) × (size.value ≤ 16384)) }
{
    let size = field_in(bytes, missing, outside)?;
    if !size_fits(size.value) {
        return Err(outside);
    }
    Ok(size)
}

// How many bytes the maxval at the front takes, with the white space before it; there is one behind it.
#[tactic(auto, unfolding(crate::specs::Ppm::maxval_in))]
fn maxval_in(bytes: &[u8]) -> Result<usize, HeaderError>
    ensures says { result ≡ maxval_in bytes.now }
    ensures inside { IfOk result (λ len. len < length bytes.now) }
{
    let maxval = field_in(bytes, HeaderError::NoMaxval, HeaderError::OtherMaxval)?;
    if maxval.value != 255 {
        return Err(HeaderError::OtherMaxval);
    }
    match bytes.get(maxval.len) {
        Some(byte) if is_space(*byte) => Ok(maxval.len),
        _ => Err(HeaderError::NoPixels),
    }
}

// Whether a file's bytes begin with P6.
fn starts_p6(bytes: &[u8]) -> bool
    ensures says { result ≡ starts_p6 bytes.now }
    ensures long { IsTrue result → 2 ≤ length bytes.now }
{
    bytes.starts_with(b"P6")
}

// Whether bytes begin with a carriage return and a line feed.
fn starts_crlf(bytes: &[u8]) -> bool
    ensures { result ≡ starts_crlf bytes.now }
{
    bytes.starts_with(b"\r\n")
}

impl Header {
    // The header at the start of a file's bytes, or its first mistake.
    #[tactic(auto, unfolding(crate::specs::Ppm::header_of))]
    pub fn parse(bytes: &[u8]) -> Result<Header, HeaderError>
        ensures says { result ≡ header_of bytes.now }
        ensures sized { IfOk result (λ header. SizesRead header (length bytes.now)) }
    {
        if !starts_p6(bytes) {
            return Err(HeaderError::NoName);
        }
        let width = size_in(&bytes[2..], HeaderError::NoWidth, HeaderError::WidthOutside)?;
        let at = 2 + width.len;
        let height = size_in(
            &bytes[at..],
            HeaderError::NoHeight,
            HeaderError::HeightOutside,
        )?;
        let at = at + height.len;
        let at = at + maxval_in(&bytes[at..])?;
        Ok(Header {
            width: width.value,
            height: height.value,
            pixels: at + 1,
            crlf: starts_crlf(&bytes[at..]),
        })
    }
}

// The header of a picture that is written, without a comment.
#[derive(Clone, Copy, Debug, PartialEq, Eq)]
pub struct NewHeader {
    pub width: usize,
    pub height: usize,
}

impl NewHeader {
    // The header as text. The sizes are cast, since Rust has no `From` between `usize` and `u64`.
    pub fn text(self) -> Line<64>
        ensures { result ≡ header_text self.width self.height }
    {
        let mut line = Line::new();
        line.put(b"P6\n");
        line.put_number(self.width as u64);
        line.put(b" ");
        line.put_number(self.height as u64);
        line.put(b"\n255\n");
        line
    }
}

// The same text, where it is written to what can fail.
impl fmt::Display for NewHeader {
    ghost output = { λ header. Some (header_text header.width header.height) };

    fn fmt<W: fmt::Write>(&self, f: &mut fmt::Formatter<W>) -> fmt::Result {
        self.text().fmt(f)
    }
}
