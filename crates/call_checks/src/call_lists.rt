// Drawn lists of offers and takes, each beside the blocks that finish gives for the same candidates.
use crate::chooses::print_held;
use crate::drawn::Drawn;
use crate::generator::{Generator, KINDS, Kind};
use crate::inputs::{KEPT, changed, ends_with};
use block::{Candidate, PBits, Refusal};
use chooser::Chooser;
use std::io;

// The lists.
const LISTS: usize = 64;

// The calls in each.
const CALLS: u32 = 12;

// What candidates are refused for.
const REASONS: [Refusal; 4] = [
    Refusal::Mode,
    Refusal::Partition,
    Refusal::Channel,
    Refusal::PBits,
];

// A block and its error. Before any offer the error is the greatest, as a chooser holds it.
#[derive(Clone, Copy)]
struct Least {
    block: [u8; 16],
    error: u32,
}

// A list of calls over drawn pixels: the chooser, the earliest block of least error that finish gave for the same offers,
// how many offers were accepted and declined, and how many calls gave something else than they must.
#[derive(Drop)]
struct Run<'a> {
    drawn: &'a Drawn,
    chooser: Chooser,
    least: Least,
    accepted: u32,
    declined: u32,
    wrong: u32,
}

// A candidate spoiled so that it is refused for this reason, one of `REASONS`, of which the last is matched by `_`.
fn spoiled(c: Candidate, reason: Refusal) -> Candidate {
    match reason {
        Refusal::Mode => Candidate {
            mode: c.mode / 2 * 2,
            ..c
        },
        Refusal::Partition => Candidate {
            partition: 64 + c.partition % 64,
            ..c
        },
        Refusal::Channel => Candidate {
            ends: ends_with(0, 128),
            ..c
        },
        _ => Candidate {
            p: PBits::Fixed(16),
            ..c
        },
    }
}

impl Run<'_> {
    // A new chooser over drawn pixels, and nothing finished beside it.
    fn new(drawn: &Drawn) -> Run<'_> {
        Run {
            drawn,
            chooser: drawn.chooser(),
            least: Least {
                block: [0; 16],
                error: u32::MAX,
            },
            accepted: 0,
            declined: 0,
            wrong: 0,
        }
    }

    // Counts a call that gave something else than it must.
    fn check(&mut self, right: bool) {
        if !right {
            self.wrong = self.wrong.saturating_add(1);
        }
    }

    // Finishes the pixels with a candidate, and keeps the block if its error is less.
    fn finish(&mut self, c: Candidate) -> Result<u32, Refusal> {
        let mut block = [0u8; 16];
        let finished = block::finish(&self.drawn.pixels, c, &mut block);
        if let Ok(error) = finished
            && error < self.least.error
        {
            self.least = Least { block, error };
        }
        finished
    }

    // Offers a candidate to the chooser, and finishes the pixels with it.
    fn offer(&mut self, c: Candidate) {
        let (offered, chooser) = self.chooser.offer(c);
        self.chooser = chooser;
        match offered {
            Ok(()) => self.accepted = self.accepted.saturating_add(1),
            Err(_) => self.declined = self.declined.saturating_add(1),
        }
        let finished = self.finish(c);
        self.check(offered.err() == finished.err());
    }

    // Takes into a part of 16 bytes: what finish gave.
    fn take(&mut self) {
        let mut block = [KEPT; 16];
        let (taken, chooser) = self.chooser.take(&mut block);
        self.chooser = chooser;
        // A copy, since the prover has no form for a borrow of this array behind `self`.
        let least = self.least;
        self.check(taken == Ok(least.error) && block == least.block);
    }

    // Takes into a part of another length, which is declined and leaves the part as it was.
    fn take_none(&mut self, part: &mut [u8]) {
        part.fill(KEPT);
        let (taken, chooser) = self.chooser.take(part);
        self.chooser = chooser;
        self.check(taken == Err(Refusal::BlockPart) && changed(part) == 0);
    }

    // Draws one call, of a candidate among eight, and makes it. What is drawn is a number, which an enum of the calls would only match
    // once more.
    fn call(&mut self, generator: &mut Generator) {
        let [call, number, how]: [u8; 3] = generator.draw(Kind::Any);
        let c = self.drawn.candidate(number % 8);
        match (call % 8, how % 3) {
            (5, _) => self.offer(spoiled(c, REASONS[usize::from(how % 4)])),
            (6, _) => self.take(),
            (7, 0) => self.take_none(&mut [0; 0]),
            (7, 1) => self.take_none(&mut [0; 15]),
            (7, _) => self.take_none(&mut [0; 17]),
            _ => self.offer(c),
        }
    }

    // Measures the held block against the pixels: where an offer was accepted, the error is the one held.
    fn measure(&mut self) {
        let measured = block::measure(&self.chooser.block, &self.drawn.pixels);
        self.check(self.accepted == 0 || measured == Ok(self.chooser.error));
    }
}

// Draws pixels of a kind and a list of calls over them, and writes how many offers were accepted and declined, and what is held
// after them. Gives how many calls gave something else than they must.
fn print_list(rt: &impl Print, generator: &mut Generator, kind: Kind) -> io::Result<u32> {
    let drawn = Drawn::new(generator, kind);
    let mut run = Run::new(&drawn);
    for _ in 0..CALLS {
        run.call(generator);
    }
    run.take();
    run.measure();
    print!(rt; "list {} {}", run.accepted, run.declined)?;
    print_held(rt, " held", run.chooser)?;
    Ok(run.wrong)
}

// Draws lists of every kind, and writes how many calls gave something else than they must.
pub(crate) fn print_lists(rt: &impl Print) -> io::Result<()> {
    let mut generator = Generator::new(0);
    let mut wrong: u32 = 0;
    for kind in KINDS.iter().cycle().take(LISTS) {
        wrong = wrong.saturating_add(print_list(rt, &mut generator, *kind)?);
    }
    println!(rt; "wrong {wrong}")
}
