// The proposals that are refused.
use chooser::Refusal;
use messages::say_line;
use mistakes::failure::NotSaid;
use sizes::place::Place;
use std::fmt;
use std::io::Print;

// How many proposals were refused by each check. No run counts to 2 ^ 64.
#[derive(Clone, Copy, Default)]
pub(crate) struct Refused {
    mode: u64,
    partition: u64,
    channel: u64,
    p_bits: u64,
}

// A refused proposal of a block: its number, and why.
#[derive(Clone, Copy)]
struct RefusedProposal {
    place: Place,
    number: usize,
    refusal: Refusal,
}

impl fmt::Display for RefusedProposal {
    fn fmt<W: fmt::Write>(&self, f: &mut fmt::Formatter<W>) -> fmt::Result {
        write!(
            f,
            "{}, proposal {}: refused by {}",
            self.place, self.number, self.refusal
        )
    }
}

impl Refused {
    // One refusal more.
    fn add(&mut self, refusal: Refusal) {
        let count = match refusal {
            Refusal::Mode => &mut self.mode,
            Refusal::Partition => &mut self.partition,
            Refusal::Channel => &mut self.channel,
            // that of the p-bits, the last of an offer's checks
            _ => &mut self.p_bits,
        };
        *count = count.wrapping_add(1);
    }

    // Names a block's refused proposals, and counts them.
    pub(crate) fn count(
        &mut self,
        rt: &impl Print,
        place: Place,
        answers: &[Result<(), Refusal>],
    ) -> Result<(), NotSaid> {
        for (number, answer) in answers.iter().enumerate() {
            if let Err(refusal) = *answer {
                self.add(refusal);
                say_line(
                    rt,
                    RefusedProposal {
                        place,
                        number,
                        refusal,
                    },
                )?;
            }
        }
        Ok(())
    }
}

impl fmt::Display for Refused {
    fn fmt<W: fmt::Write>(&self, f: &mut fmt::Formatter<W>) -> fmt::Result {
        write!(
            f,
            "refused by 3: {}, by 4: {}, by 5: {}, by 6: {}",
            self.mode, self.partition, self.channel, self.p_bits
        )
    }
}
