// Runs the commands of `bc7` on the example plate and on wrong input, and compares the files that they write with stored ones. The
// gate holds it to the file `stdout`.
#![tactic(auto)]

mod example;
mod kept;
mod wrong;

// The example, and then what is refused.
fn main(rt: HostRuntime) {
    example::bake_and_measure(&rt);
    example::bake_bands(&rt);
    example::small_plate(&rt);
    example::help(&rt);
    wrong::cut_files(&rt);
    wrong::headers(&rt);
    wrong::plates(&rt);
    wrong::flags(&rt);
    wrong::arguments(&rt);
    kept::say_same(&rt, "kept.bc7", "small.bc7");
}
