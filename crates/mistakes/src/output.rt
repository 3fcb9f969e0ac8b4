// Why an output cannot be written.
use crate::reason::Reason;
use std::{fmt, io};

// The name of the file that is written until it is whole: the output's, the process's number and `.new`.
#[derive(Clone, Copy)]
pub struct NewName<'a> {
    pub path: &'a str,
    pub process: u32,
}

impl fmt::Display for NewName<'_> {
    fn fmt<W: fmt::Write>(&self, f: &mut fmt::Formatter<W>) -> fmt::Result {
        write!(f, "{}.{}.new", self.path, self.process)
    }
}

// Why an output cannot be written.
#[derive(Clone, Copy)]
pub enum OutputMistake<'a> {
    LongName,
    AlsoInput,
    NotReplaced(io::Error),
    NotMade(NewName<'a>, io::Error),
    NotWritten(io::Error),
}

impl fmt::Display for OutputMistake<'_> {
    fn fmt<W: fmt::Write>(&self, f: &mut fmt::Formatter<W>) -> fmt::Result {
        match *self {
            OutputMistake::LongName => f.write_str(
                "is too long a name; expected at most 4000 bytes",
            ),
            OutputMistake::AlsoInput => f.write_str(
                "is an input too; expected another name for the output",
            ),
            OutputMistake::NotReplaced(error) => write!(f, "cannot be replaced: {}", Reason(error)),
            OutputMistake::NotMade(name, error) => write!(
                f,
                "cannot be written, since {name} cannot be made: {}",
                Reason(error)
            ),
            OutputMistake::NotWritten(error) => write!(f, "cannot be written: {}", Reason(error)),
        }
    }
}
