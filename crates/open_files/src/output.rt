// An output: written to a new file beside it, and renamed at the end, so that the old one is whole until then.
use crate::inputs::{Input, open_path, path_text};
use files::FileId;
use mistakes::failure::Failure;
use mistakes::output::{NewName, OutputMistake};
use std::fmt::Write as _;
use std::fs::{File, OpenOptions};
use std::io::{ErrorKind, Write};
use std::{fs, io, process};
use text::line::Line;

// The greatest length of an output's path, which leaves room for the new file's ending.
const LONGEST: usize = 4000;

// The name of a new file in fixed memory, which has room for it behind a path of the greatest length. Each call below makes it anew, as the
// text that the system takes borrows it.
fn line(name: NewName<'_>) -> Line<4096> {
    let mut line = Line::new();
    let _ = write!(line, "{name}");
    line
}

// Makes a new file, which is not there yet.
fn make(rt: &HostRuntime, name: NewName<'_>) -> io::Result<File> {
    let line = line(name);
    OpenOptions::new()
        .write(true)
        .create_new(true)
        .open(rt, path_text(line.as_bytes())?)
}

// Renames a new file to the output's name.
fn rename(rt: &HostRuntime, name: NewName<'_>) -> io::Result<()> {
    let line = line(name);
    fs::rename(rt, path_text(line.as_bytes())?, name.path)
}

// Removes a new file.
fn remove(rt: &HostRuntime, name: NewName<'_>) -> io::Result<()> {
    let line = line(name);
    fs::remove_file(rt, path_text(line.as_bytes())?)
}

// Refuses to replace an open file that is no regular one, or one of the inputs. With `replaceable` a step of `create`, whose path and inputs
// both take.
fn check_old<'a>(path: &'a [u8], old: File, inputs: &[Option<FileId>]) -> Result<(), Failure<'a>> {
    let old = Input::of(path, old)?;
    let id = old.id();
    if id.is_some() && inputs.contains(&id) {
        return Err(old.failure(OutputMistake::AlsoInput));
    }
    Ok(())
}

// The path of an output as text, where there is no file of it, or one that may be replaced.
fn replaceable<'a>(
    rt: &HostRuntime,
    path: &'a [u8],
    inputs: &[Option<FileId>],
) -> Result<&'a str, Failure<'a>> {
    let refused = |error| Failure::new(path, OutputMistake::NotReplaced(error));
    match open_path(rt, path) {
        Ok(old) => check_old(path, old, inputs)?,
        Err(error) if error.kind() == ErrorKind::NotFound => {}
        Err(error) => return Err(refused(error)),
    }
    path_text(path).map_err(refused)
}

// An output that is being written.
#[derive(Drop)]
pub struct Output<'a> {
    // The path in it is the output's.
    name: NewName<'a>,
    file: File,
}

impl<'a> Output<'a> {
    // Makes the new file. The inputs are the files that it may not replace.
    pub fn create(
        rt: &HostRuntime,
        path: &'a [u8],
        inputs: &[Option<FileId>],
    ) -> Result<Output<'a>, Failure<'a>> {
        if path.len() > LONGEST {
            return Err(Failure::new(path, OutputMistake::LongName));
        }
        let text = replaceable(rt, path, inputs)?;
        let name = NewName {
            path: text,
            process: process::id(rt.process()),
        };
        match make(rt, name) {
            Ok(file) => Ok(Output { name, file }),
            Err(error) => Err(Failure::new(path, OutputMistake::NotMade(name, error))),
        }
    }

    // The failure of this output.
    fn failure(&self, mistake: OutputMistake<'a>) -> Failure<'a> {
        let path = self.name.path;
        Failure::new(path.as_bytes(), mistake)
    }

    // Writes to the new file.
    pub fn write(&self, bytes: &[u8]) -> Result<(), Failure<'a>> {
        let mut file = &self.file;
        file.write_all(bytes)
            .map_err(|error| self.failure(OutputMistake::NotWritten(error)))
    }

    // Gives the new file the output's name once all of it has reached its device, and else removes it.
    fn keep(self, rt: &HostRuntime) -> Result<(), Failure<'a>> {
        let synced = self
            .file
            .sync_all()
            .map_err(|error| self.failure(OutputMistake::NotWritten(error)));
        let Output { name, file } = self;
        drop(file);
        let path = name.path;
        let kept = match synced {
            Ok(()) => rename(rt, name).map_err(|error| Failure::new(
                path.as_bytes(),
                OutputMistake::NotReplaced(error),
            )),
            Err(failure) => Err(failure),
        };
        if kept.is_err() {
            let _ = remove(rt, name);
        }
        kept
    }

    // Removes the new file.
    fn discard(self, rt: &HostRuntime) {
        let Output { name, file } = self;
        drop(file);
        let _ = remove(rt, name);
    }

    // Puts the new file in place of the old one where all of it was written, and else removes it.
    pub fn settle<T: Drop, E: From<Failure<'a>>>(
        self,
        rt: &HostRuntime,
        written: Result<T, E>,
    ) -> Result<T, E> {
        match written {
            Ok(value) => {
                self.keep(rt)?;
                Ok(value)
            }
            Err(failure) => {
                self.discard(rt);
                Err(failure)
            }
        }
    }
}
