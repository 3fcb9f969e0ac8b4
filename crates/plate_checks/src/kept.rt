// Files that are compared and written.
ghost use Rattle.std.specs.Prelude.{◌≤◌, length};

use files::read_full;
use std::fs;
use std::fs::File;
use std::io::Print;

// The bytes of a file, of which the buffer must have room for all; none where it cannot be read, as no file that is compared is empty.
pub(crate) fn read<'b>(rt: &HostRuntime, path: &str, buffer: &'b mut [u8]) -> &'b [u8]
    ensures { length result.now ≤ length buffer.old }
{
    let Ok(mut file) = File::open(rt, path) else {
        return &[];
    };
    let n = read_full(&mut file, buffer);
    &buffer[..n]
}

// Makes a file of these bytes.
pub(crate) fn write(rt: &HostRuntime, path: &str, bytes: &[u8]) {
    let _ = fs::write(rt, path, bytes);
}

// Says whether the bytes of a file stand in another from a place on.
pub(crate) fn say_part(rt: &HostRuntime, path: &str, stored: &str, from: usize) {
    let mut first = [0u8; 65536];
    let mut second = [0u8; 65536];
    let ours = read(rt, path, &mut first);
    let theirs = read(rt, stored, &mut second);
    let rest = theirs.get(from..).unwrap_or_default();
    let verdict = if !ours.is_empty() && rest.starts_with(ours) {
        "is part of"
    } else {
        "is no part of"
    };
    let _ = println!(rt; "{path} {verdict} {stored}");
}

// Says whether two files have the same bytes.
pub(crate) fn say_same(rt: &HostRuntime, path: &str, stored: &str) {
    let mut first = [0u8; 65536];
    let mut second = [0u8; 65536];
    let ours = read(rt, path, &mut first);
    let theirs = read(rt, stored, &mut second);
    let verdict = if !ours.is_empty() && ours == theirs {
        "is"
    } else {
        "differs from"
    };
    let _ = println!(rt; "{path} {verdict} {stored}");
}
