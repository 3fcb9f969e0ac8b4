// The example: a signal plate of 64 by 48 pixels, and a picture of 5 by 3 with proposals of its own.
use crate::kept::{say_part, say_same};
use commands::run;

// Bakes the photograph, measures the plate, and shows it and its errors by both scales.
pub(crate) fn bake_and_measure(rt: &HostRuntime) {
    run(rt, b"bake\x00signal.ppm\x00baked.bc7\x00");
    say_same(rt, "baked.bc7", "signal.bc7");
    run(rt, b"measure\x00signal.ppm\x00signal.bc7\x00");
    run(
        rt,
        b"measure\x00--worst\x005\x00signal.ppm\x00signal.bc7\x00",
    );
    run(rt, b"measure\x00signal.ppm\x00signal.bc7\x00--total\x00");
    run(rt, b"show\x00signal.bc7\x0064\x0048\x00picture.ppm\x00");
    say_same(rt, "picture.ppm", "shown.ppm");
    run(rt, b"map\x00signal.ppm\x00signal.bc7\x00errors.ppm\x00");
    say_same(rt, "errors.ppm", "map.ppm");
    run(
        rt,
        b"map\x00--linear\x00signal.ppm\x00signal.bc7\x00errors.ppm\x00",
    );
    say_same(rt, "errors.ppm", "linear_worst.ppm");
    run(
        rt,
        b"map\x00--linear\x00--white\x00400\x00signal.ppm\x00signal.bc7\x00errors.ppm\x00",
    );
    say_same(rt, "errors.ppm", "linear.ppm");
}

// Bakes the photograph in two bands of rows of blocks, which one behind the other are the whole plate.
pub(crate) fn bake_bands(rt: &HostRuntime) {
    run(
        rt,
        b"bake\x00--rows\x000\x005\x00signal.ppm\x00band.bc7\x00",
    );
    say_part(rt, "band.bc7", "signal.bc7", 0);
    run(
        rt,
        b"bake\x00--rows\x005\x007\x00signal.ppm\x00band.bc7\x00",
    );
    say_part(rt, "band.bc7", "signal.bc7", 1280);
    run(
        rt,
        b"bake\x00--rows\x000\x001\x00small.ppm\x00band.bc7\x00small.proposals\x00",
    );
    say_same(rt, "band.bc7", "small.bc7");
}

// Bakes with the proposals of a file, some of which are refused, and reads the plate.
pub(crate) fn small_plate(rt: &HostRuntime) {
    run(rt, b"bake\x00small.ppm\x00kept.bc7\x00small.proposals\x00");
    say_same(rt, "kept.bc7", "small.bc7");
    run(rt, b"measure\x00small.ppm\x00small.bc7\x00");
    run(rt, b"measure\x00small.ppm\x00small.bc7\x00--csv\x00");
    run(rt, b"read\x00small.bc7\x00");
    run(rt, b"read\x00small.bc7\x00--width\x005\x00--block\x001\x00");
}

// The help of all commands and of each, and the version.
const HELP: [&[u8]; 8] = [
    b"",
    b"-h\x00",
    b"help\x00",
    b"help\x00bake\x00",
    b"measure\x00--help\x00",
    b"read\x00-h\x00",
    b"help\x00show\x00",
    b"map\x00small.ppm\x00--help\x00",
];

// Asks for help in all forms, and for the version.
pub(crate) fn help(rt: &HostRuntime) {
    for line in HELP {
        run(rt, line);
    }
    run(rt, b"--version\x00");
}
