// Why a file cannot be read.
use crate::reason::Reason;
use std::{fmt, io};

// Why a file cannot be read.
#[derive(Clone, Copy)]
pub enum InputMistake {
    Folder,
    Device,
    NoLength,
    NotOpened(io::Error),
    NotRead(io::Error),
}

impl fmt::Display for InputMistake {
    fn fmt<W: fmt::Write>(&self, f: &mut fmt::Formatter<W>) -> fmt::Result {
        match *self {
            InputMistake::Folder => f.write_str("is a folder; expected a file"),
            InputMistake::Device => f.write_str("is a device or a pipe; expected a file"),
            InputMistake::NoLength => f.write_str("has no length; expected a file"),
            InputMistake::NotOpened(error) => write!(f, "cannot be opened: {}", Reason(error)),
            InputMistake::NotRead(error) => write!(f, "cannot be read: {}", Reason(error)),
        }
    }
}
