// Wrong input. Each gives one line, and kept.bc7 is as it was.
use crate::kept::{read, write};
use commands::run;

// The bytes of the longest file that is cut.
const LONGEST: usize = 256;

// Runs a command on a file cut at every length.
fn cut_at_every_length(rt: &HostRuntime, path: &str, line: &[u8]) {
    let mut buffer = [0u8; LONGEST];
    let bytes = read(rt, path, &mut buffer);
    for n in 0..bytes.len() {
        write(rt, "cut", &bytes[..n]);
        run(rt, line);
    }
}

// The photograph, the plate and the proposals of the small picture, cut.
pub(crate) fn cut_files(rt: &HostRuntime) {
    cut_at_every_length(rt, "small.ppm", b"bake\x00cut\x00kept.bc7\x00");
    cut_at_every_length(
        rt,
        "small.bc7",
        b"measure\x00small.ppm\x00cut\x00--total\x00",
    );
    cut_at_every_length(
        rt,
        "small.proposals",
        b"bake\x00small.ppm\x00kept.bc7\x00cut\x00",
    );
}

// Wrong headers, and a photograph that is longer than it says.
const HEADERS: [&[u8]; 12] = [
    b"P5 1 1 255 abc",
    b"P6 x 1 255 abc",
    b"P6 1 # 1 255 abc",
    b"P6 1 1 ",
    b"P6 0 1 255 abc",
    b"P6 1 16385 255 abc",
    b"P6 99999999999 1 255 abc",
    b"P6 1 1 65535 abc",
    b"P6 1 1 255abc",
    b"P6 1 1 255 abcd",
    b"P6 2 1 255 abc",
    b"P6\r\n1 1\r\n255\r\nabc",
];

// Bakes each file with a wrong header.
pub(crate) fn headers(rt: &HostRuntime) {
    for header in HEADERS {
        write(rt, "wrong", header);
        run(rt, b"bake\x00wrong\x00kept.bc7\x00");
    }
}

// Plates with blocks of other modes, and of another picture.
pub(crate) fn plates(rt: &HostRuntime) {
    write(rt, "wrong", b"\x40123456789abcdef0123456789abcdef");
    run(rt, b"measure\x00small.ppm\x00wrong\x00--total\x00");
    run(rt, b"show\x00wrong\x008\x004\x00picture.ppm\x00");
    run(rt, b"map\x00small.ppm\x00wrong\x00errors.ppm\x00");
    run(rt, b"read\x00wrong\x00");
    write(rt, "wrong", b"\x00123456789abcdef\x08123456789abcdef");
    run(rt, b"measure\x00small.ppm\x00wrong\x00");
    run(rt, b"measure\x00signal.ppm\x00small.bc7\x00");
    run(rt, b"show\x00small.bc7\x009\x004\x00picture.ppm\x00");
    run(rt, b"read\x00small.bc7\x00--width\x0012\x00");
    run(rt, b"read\x00small.bc7\x00--block\x002\x00");
    write(rt, "wrong", b"");
    run(rt, b"read\x00wrong\x00");
}

// Proposals in which the last byte of a record, the second of block 1, is 2.
pub(crate) fn flags(rt: &HostRuntime) {
    write(
        rt,
        "wrong",
        b"\x01\x03\x090123456789ab\x05\x00\x02\x03\x090123456789ab\x05\x01\x03\x090123456789ab\x05\x02",
    );
    run(rt, b"bake\x00small.ppm\x00kept.bc7\x00wrong\x00");
}

// Wrong arguments, files that are not there, and an output that is an input.
const LINES: [&[u8]; 20] = [
    b"paint\x00",
    b"help\x00me\x00",
    b"bake\x00small.ppm\x00",
    b"bake\x00small.ppm\x00\x00",
    b"bake\x00none.ppm\x00kept.bc7\x00",
    b"bake\x00.\x00kept.bc7\x00",
    b"bake\x00small.ppm\x00./small.ppm\x00",
    b"measure\x00small.ppm\x00small.bc7\x00--best\x00",
    b"measure\x00small.ppm\x00small.bc7\x00--worst\x000\x00",
    b"measure\x00small.ppm\x00small.bc7\x00--worst\x001001\x00",
    b"show\x00small.bc7\x005\x00\x00out.ppm\x00",
    b"show\x00small.bc7\x00x\x003\x00out.ppm\x00",
    b"show\x00small.bc7\x005\x00-3\x00out.ppm\x00",
    b"bake\x00small.ppm\x00kept.bc7\x00--rows\x001\x001\x00",
    b"bake\x00small.ppm\x00kept.bc7\x00--rows\x001\x00",
    b"measure\x00small.ppm\x00small.bc7\x00--total\x00--csv\x00",
    b"measure\x00small.ppm\x00small.bc7\x00--total\x00--total\x00",
    b"map\x00small.ppm\x00small.bc7\x00out.ppm\x00--white\x000\x00",
    b"show\x00small.bc7\x005\x003\x00out.ppm\x00--linear\x00",
    b"help\x00bake\x00measure\x00",
];

// Runs each line with wrong arguments, with a file that is not there or with an output that is an input.
pub(crate) fn arguments(rt: &HostRuntime) {
    for line in LINES {
        run(rt, line);
    }
}
