// Choosers started, offered candidates and taken from, one call after the other.
use crate::answers::Answer;
use crate::hex::Hex;
use crate::inputs::{KEPT, candidate, changed, count_other, zero};
use block::Candidate;
use chooser::Chooser;
use refusals::number;
use std::io;

// The byte of grey pixels.
const GREY: u8 = 40;

// A new chooser over pixels.
pub(crate) fn over(pixels: &[u8]) -> Chooser {
    let (_, chooser) = Chooser::start(pixels);
    chooser
}

// The chooser that an offer hands back.
pub(crate) fn after_offer(chooser: Chooser, c: Candidate) -> Chooser {
    let (_, back) = chooser.offer(c);
    back
}

// A chooser over pixels of the grey that holds the zero candidate of mode 1.
fn holding() -> Chooser {
    after_offer(over(&[GREY; 48]), zero(1))
}

// Takes into a part of 16 bytes, and writes the answer and the block.
pub(crate) fn print_held(rt: &impl Print, label: &str, chooser: Chooser) -> io::Result<()> {
    let mut block = [KEPT; 16];
    let (taken, _) = chooser.take(&mut block);
    println!(rt; "{label} {} {}", Answer(taken), Hex(&block))
}

// P9 and P11, and P11 with the candidates the other way round.
pub(crate) fn print_worked(rt: &impl Print) -> io::Result<()> {
    let none = over(&[0; 48]);
    print_held(rt, "P9", none)?;
    print_held(rt, "P11", after_offer(after_offer(none, zero(1)), zero(3)))?;
    print_held(
        rt,
        "turned",
        after_offer(after_offer(none, zero(3)), zero(1)),
    )
}

// A start: its answer, the bytes of the chooser's pixels that are not 0, and what it holds before and after an offer.
fn print_start(rt: &impl Print, pixels: &[u8]) -> io::Result<()> {
    let (started, chooser) = Chooser::start(pixels);
    let Chooser {
        pixels,
        block,
        error,
    } = chooser;
    println!(rt;
        "start {} {} {error} {}",
        number(started),
        count_other(&pixels, 0),
        Hex(&block)
    )?;
    print_held(rt, "held", after_offer(chooser, zero(1)))
}

// Starts over pixels of the grey, of the right length and beside it.
pub(crate) fn print_starts(rt: &impl Print) -> io::Result<()> {
    print_start(rt, &[GREY; 47])?;
    print_start(rt, &[GREY; 48])?;
    print_start(rt, &[GREY; 49])
}

// A take into a lent part: its answer, the bytes that it changed, and what the chooser handed back holds.
fn print_take(rt: &impl Print, chooser: Chooser, part: &mut [u8]) -> io::Result<()> {
    part.fill(KEPT);
    let (taken, back) = chooser.take(part);
    println!(rt; "take {} {}", Answer(taken), changed(part))?;
    print_held(rt, "held", back)
}

// The refusals of take by the length of the block part, and a take beside them that is not declined.
pub(crate) fn print_takes(rt: &impl Print) -> io::Result<()> {
    let chooser = holding();
    print_take(rt, chooser, &mut [0; 0])?;
    print_take(rt, chooser, &mut [0; 15])?;
    print_take(rt, chooser, &mut [0; 16])?;
    print_take(rt, chooser, &mut [0; 17])
}

// An offer to a chooser over pixels of the grey: its answer, the error held before and after it, and how many bytes it changed of
// the pixels and of the block. Gives the chooser handed back.
fn print_offer(rt: &impl Print, chooser: Chooser, c: Candidate) -> io::Result<Chooser> {
    let (offered, back) = chooser.offer(c);
    let pixels = count_other(&back.pixels, GREY);
    let bytes = chooser.block.iter().zip(&back.block);
    let differences = bytes.filter(|(before, after)| before != after).count();
    println!(rt;
        "offer {} {} {} {pixels} {differences}",
        number(offered),
        chooser.error,
        back.error
    )?;
    Ok(back)
}

// The refusals of offer by the candidate: one reason each, and then several, of which the first is told. Behind them the offers beside
// them that are not declined; the last two have the error that is held.
pub(crate) fn print_numbers(rt: &impl Print) -> io::Result<()> {
    let chooser = holding();
    for (mode, partition, last, p) in [
        (0, 0, 0, 0),
        (2, 0, 0, 0),
        (255, 0, 0, 0),
        (1, 64, 0, 0),
        (3, 64, 0, 0),
        (1, 0, 64, 0),
        (3, 0, 128, 0),
        (1, 0, 0, 4),
        (3, 0, 0, 16),
        (2, 64, 128, 16),
        (2, 64, 0, 0),
        (1, 64, 64, 4),
        (1, 63, 64, 4),
        (3, 63, 128, 16),
        (3, 0, 64, 0),
        (3, 0, 127, 0),
        (1, 0, 63, 0),
        (1, 0, 0, 3),
        (3, 0, 0, 15),
        (1, 63, 0, 0),
        (3, 63, 0, 0),
    ] {
        print_offer(rt, chooser, candidate(mode, partition, last, p))?;
    }
    Ok(())
}

// Offers to a chooser that no start made, and what it then holds.
pub(crate) fn print_made_up(rt: &impl Print, error: u32) -> io::Result<()> {
    let made_up = Chooser {
        pixels: [GREY; 48],
        block: [171; 16],
        error,
    };
    print_held(rt, "made up", made_up)?;
    let first = print_offer(rt, made_up, zero(1))?;
    print_held(rt, "held", first)?;
    let second = print_offer(rt, first, zero(2))?;
    let third = print_offer(rt, second, candidate(1, 0, 0, 3))?;
    print_held(rt, "held", third)
}
