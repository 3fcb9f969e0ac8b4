// What is wrong with a file of proposals.
use sizes::place::Place;
use std::fmt;

// What is wrong with the proposals of a block.
#[derive(Clone, Copy)]
pub enum BlockMistake {
    NoCount,
    FewRecords,
    OtherFlag,
    NoneAccepted,
}

impl fmt::Display for BlockMistake {
    fn fmt<W: fmt::Write>(&self, f: &mut fmt::Formatter<W>) -> fmt::Result {
        f.write_str(match self {
            BlockMistake::NoCount =>
                "has no count; expected a byte and as many records of 16 bytes",
            BlockMistake::FewRecords =>
                "has fewer records than its count; expected 16 bytes for each",
            BlockMistake::OtherFlag =>
                "has a record whose last byte is neither 0 nor 1; expected 0 for fixed p-bits, 1 for free ones",
            BlockMistake::NoneAccepted => "has no proposal that is accepted; expected at least one",
        })
    }
}

// What is wrong with a file of proposals.
#[derive(Clone, Copy)]
pub enum ProposalsMistake {
    Block(Place, BlockMistake),
    NoEnd,
}

impl fmt::Display for ProposalsMistake {
    fn fmt<W: fmt::Write>(&self, f: &mut fmt::Formatter<W>) -> fmt::Result {
        match *self {
            ProposalsMistake::Block(place, mistake) => write!(f, "{place} {mistake}"),
            ProposalsMistake::NoEnd => {
                f.write_str("goes on behind the proposals of the last block; expected its end")
            }
        }
    }
}
