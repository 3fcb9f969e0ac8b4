// What is wrong with a photograph.
use sizes::rows::Rows;
use std::fmt;
use text::ppm::HeaderError;

// What is wrong with a photograph.
#[derive(Clone, Copy)]
pub enum PhotoMistake {
    Header(HeaderError),
    CarriageReturns,
    Length { has: u64, expected: u64 },
    EndsEarly,
    RowsOutside { wanted: Rows, rows: Rows },
}

impl fmt::Display for PhotoMistake {
    fn fmt<W: fmt::Write>(&self, f: &mut fmt::Formatter<W>) -> fmt::Result {
        match *self {
            PhotoMistake::Header(error) => write!(f, "{error}"),
            PhotoMistake::CarriageReturns => f.write_str(
                "has a header with CRLF line ends; expected one LF behind 255",
            ),
            PhotoMistake::Length { has, expected } if has < expected => {
                write!(f, "ends early, after {has} bytes; expected {expected}")
            }
            PhotoMistake::Length { has, expected } => write!(
                f,
                "is longer than its header says, with {has} bytes; expected {expected}"
            ),
            PhotoMistake::EndsEarly => {
                f.write_str("ends early; expected the pixels that its header says")
            }
            PhotoMistake::RowsOutside { wanted, rows } => write!(
                f,
                "has no rows {wanted} of blocks; its rows are {rows}"
            ),
        }
    }
}
