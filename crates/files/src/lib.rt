// What the system knows of an open file, and its bytes read into a buffer.
#![tactic(auto)]

ghost use Rattle.std.specs.Prelude.{◌≡◌, ◌<◌, ◌↔◌, is_ok, is_some, IfSome, IfOk, OnOk, length, take};
ghost use Rattle.std.specs.Fs.{file_type, IsFile, IsDir};
ghost use Rattle.std.specs.Io.KnownBytes.{Consumes, IsAtEnd};
ghost use Rattle.io.specs.Counts.{IsPrefixLen};

use std::fs::{File, FileType, Metadata};
use std::io;
use std::io::Read;
use std::os::unix::fs::MetadataExt;

// What a file is.
#[derive(Clone, Copy, Debug, PartialEq, Eq)]
pub enum Kind {
    Regular,
    Folder,
    // A device, a pipe or a socket.
    Other,
}

// What tells a file from all others: two open files are the same file where these are the same.
#[derive(Clone, Copy, Debug, PartialEq, Eq)]
pub struct FileId {
    pub device: u64,
    pub inode: u64,
}

// What is known of one file.
#[derive(Clone, Copy, Debug, PartialEq, Eq)]
pub struct Status {
    pub kind: Kind,
    pub id: FileId,
}

// What the system's type of a file says.
impl From<FileType> for Kind {
    ghost use Rattle.std.specs.Prelude.{◌≡◌, ◌↔◌};
    ghost use Rattle.std.specs.Fs.{IsFile, IsDir};
    ghost use Rattle.files.specs.declared.Kind.TheVariants.{Regular, Folder};

    ghost from_gives = { λ file kind. ((kind ≡ Regular) ↔ IsFile file) × ((kind ≡ Folder) ↔ IsDir file) };

    fn from(file: FileType) -> Kind {
        if file.is_file() {
            Kind::Regular
        } else if file.is_dir() {
            Kind::Folder
        } else {
            Kind::Other
        }
    }
}

// What the system's answer says.
fn judged(answer: io::Result<Metadata>) -> Option<Status>
    ensures known { is_some result ≡ is_ok answer }
    ensures regular { IfOk answer (λ found. IfSome result (λ status. (status.kind ≡ Kind.Regular) ↔ IsFile (file_type found))) }
    ensures folder { IfOk answer (λ found. IfSome result (λ status. (status.kind ≡ Kind.Folder) ↔ IsDir (file_type found))) }
{
    let found = answer.ok()?;
    Some(Status {
        kind: Kind::from(found.file_type()),
        id: FileId {
            device: found.dev(),
            inode: found.ino(),
        },
    })
}

// Asks the system about an open file: none where it does not know.
pub fn status_of(file: &File) -> Option<Status> {
    judged(file.metadata())
}

// Reads until a buffer is full, the reader ends or a read fails: how many bytes it put at the buffer's start, and the failure. A step is as
// long as what the reader gives, and std's `read_exact` does not say how many bytes came before an end.
pub fn fill<R: Read>(from: &mut R, to: &mut [u8]) -> (usize, io::Result<()>)
    ensures counts { IsPrefixLen result.0 to.new }
    ensures bytes { Consumes (R.remaining from.old) (R.remaining from.new) (take result.0 to.new) }
    ensures whole { OnOk result.1 (result.0 < length to.new → IsAtEnd (R.remaining from.new)) }
{
    let mut done: usize = 0;
    while done < to.len() {
        match from.read(&mut to[done..]) {
            Ok(0) => return (done, Ok(())),
            Ok(n) => done += n,
            Err(error) => return (done, Err(error)),
        }
    }
    (done, Ok(()))
}

// Reads as `fill` does, where a failure counts as the reader's end.
pub fn read_full<R: Read>(from: &mut R, to: &mut [u8]) -> usize
    ensures counts { IsPrefixLen result to.new }
    ensures bytes { Consumes (R.remaining from.old) (R.remaining from.new) (take result to.new) }
{
    fill(from, to).0
}
