// Input files: opened for reading, their length, and their bytes.
ghost use Rattle.io.specs.Counts.{IsPrefixLen};

use files::{FileId, Kind, read_full, status_of};
use mistakes::failure::{Failure, Mistake};
use mistakes::input::InputMistake;
use std::fs::File;
use std::io;
use std::io::{ErrorKind, Seek, SeekFrom};

// A path as text, since std opens no file by another; a name that is no UTF-8 is an impossible one.
pub(crate) fn path_text(path: &[u8]) -> io::Result<&str> {
    str::from_utf8(path).map_err(|_| io::Error::from(ErrorKind::InvalidInput))
}

// Opens the file of a path for reading.
pub(crate) fn open_path(rt: &HostRuntime, path: &[u8]) -> io::Result<File> {
    File::open(rt, path_text(path)?)
}

// A regular file that is open for reading, and its path.
#[derive(Drop)]
pub struct Input<'a> {
    pub path: &'a [u8],
    file: File,
}

impl<'a> Input<'a> {
    // The open file of a path, where it is a regular one.
    pub(crate) fn of(path: &'a [u8], file: File) -> Result<Input<'a>, Failure<'a>> {
        let kind = status_of(&file).map(|known| known.kind);
        let input = Input { path, file };
        match kind {
            Some(Kind::Regular) => Ok(input),
            Some(Kind::Folder) => Err(input.failure(InputMistake::Folder)),
            // one of which nothing is known is no regular file either
            _ => Err(input.failure(InputMistake::Device)),
        }
    }

    // Opens the file of a path.
    pub fn open(rt: &HostRuntime, path: &'a [u8]) -> Result<Input<'a>, Failure<'a>> {
        match open_path(rt, path) {
            Ok(file) => Input::of(path, file),
            Err(error) => Err(Failure::new(path, InputMistake::NotOpened(error))),
        }
    }

    // Which file it is, where that is known.
    pub fn id(&self) -> Option<FileId> {
        Some(status_of(&self.file)?.id)
    }

    // The failure of this file.
    pub fn failure<M: Into<Mistake<'a>>>(&self, mistake: M) -> Failure<'a> {
        Failure::new(self.path, mistake)
    }

    // Its length.
    pub fn length(&self) -> Result<u64, Failure<'a>> {
        let mut file = &self.file;
        file.seek(SeekFrom::End(0))
            .map_err(|_| self.failure(InputMistake::NoLength))
    }

    // Goes to a place of it.
    pub fn go_to(&self, place: u64) -> Result<(), Failure<'a>> {
        let mut file = &self.file;
        match file.seek(SeekFrom::Start(place)) {
            Ok(_) => Ok(()),
            Err(error) => Err(self.failure(InputMistake::NotRead(error))),
        }
    }

    // Reads on until a buffer is full or the file ends: how many bytes it put at the buffer's start.
    pub fn read(&self, to: &mut [u8]) -> usize
        ensures { IsPrefixLen result to.new }
    {
        let mut file = &self.file;
        read_full(&mut file, to)
    }
}
