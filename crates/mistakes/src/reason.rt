// Why a call of the system failed, in words.
use std::io::ErrorKind;
use std::{fmt, io};

// The system's number of an input or output error, which has no kind of its own.
const EIO: i32 = 5;

// What is said of an error's kind.
#[derive(Clone, Copy)]
pub(crate) struct Reason(pub(crate) io::Error);

impl fmt::Display for Reason {
    fn fmt<W: fmt::Write>(&self, f: &mut fmt::Formatter<W>) -> fmt::Result {
        let error = self.0;
        f.write_str(match error.kind() {
            ErrorKind::NotFound => "no such file or folder",
            ErrorKind::PermissionDenied => "permission denied",
            ErrorKind::AlreadyExists => "the name is taken",
            ErrorKind::IsADirectory => "it is a folder",
            ErrorKind::NotADirectory => "a part of the path is no folder",
            ErrorKind::StorageFull => "no space left",
            ErrorKind::ReadOnlyFilesystem => "the file system is read-only",
            ErrorKind::FileTooLarge => "the file would be too large",
            ErrorKind::InvalidFilename => "the name is too long",
            ErrorKind::InvalidInput => "no such name is possible",
            ErrorKind::BrokenPipe => "nobody reads it",
            _ if error.raw_os_error() == Some(EIO) => "input or output error",
            _ => "the system refused it",
        })
    }
}
