// Prints what the seven calls give for worked and drawn examples; the gate holds it to the file `stdout`.
#![tactic(auto)]

mod answers;
mod call_lists;
mod chooses;
mod drawn;
mod finishes;
mod generator;
mod hex;
mod inputs;
mod modes;
mod orders;
mod packs;
mod reads;

use generator::Kind;
use modes::Mode;
use std::io;

// The examples, one after the other.
fn main(rt: HostRuntime) -> io::Result<()> {
    packs::print_blocks(&rt)?;
    packs::print_lengths(&rt)?;
    packs::print_numbers(&rt)?;
    reads::print_first_bytes(&rt)?;
    reads::print_lengths(&rt)?;
    reads::print_drawn(&rt, Mode::One)?;
    reads::print_drawn(&rt, Mode::Three)?;
    finishes::print_worked(&rt)?;
    finishes::print_lengths(&rt)?;
    finishes::print_numbers(&rt)?;
    finishes::print_greys(&rt)?;
    finishes::print_indices(&rt, 1, 0b1010)?;
    finishes::print_indices(&rt, 0, 0b0101)?;
    finishes::print_tie(&rt)?;
    finishes::print_partitions(&rt, Mode::One)?;
    finishes::print_partitions(&rt, Mode::Three)?;
    chooses::print_worked(&rt)?;
    chooses::print_starts(&rt)?;
    chooses::print_takes(&rt)?;
    chooses::print_numbers(&rt)?;
    chooses::print_made_up(&rt, 0)?;
    chooses::print_made_up(&rt, u32::MAX)?;
    call_lists::print_lists(&rt)?;
    orders::print_orders(&rt, Kind::Extreme)?;
    orders::print_orders(&rt, Kind::Bit)
}
