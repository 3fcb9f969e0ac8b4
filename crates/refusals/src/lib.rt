// Why a call declines what it is handed.
#![tactic(auto)]

ghost use Rattle.std.specs.Prelude.{◌≡◌, Some};
ghost use Rattle.refusals.specs.Numbers.{number_of, declined};
ghost use Rattle.refusals.specs.Texts.{refusal_text};

use std::error::Error;
use std::fmt;

// The refusals, in the order in which every call makes its checks.
#[derive(Clone, Copy, Debug, PartialEq, Eq)]
pub enum Refusal {
    PixelPart,
    BlockPart,
    Mode,
    Partition,
    Channel,
    PBits,
    Index,
    Reserved,
    OtherMode,
}

impl Refusal {
    // Its number, from 1 on: the name says which number it is, as a `From` would not.
    pub fn number(self) -> u8
        ensures { result ≡ number_of self }
    {
        match self {
            Refusal::PixelPart => 1,
            Refusal::BlockPart => 2,
            Refusal::Mode => 3,
            Refusal::Partition => 4,
            Refusal::Channel => 5,
            Refusal::PBits => 6,
            Refusal::Index => 7,
            Refusal::Reserved => 8,
            Refusal::OtherMode => 9,
        }
    }
}

// The number of an answer, 0 where nothing is declined, for C and for what is printed.
pub fn number(answer: Result<(), Refusal>) -> u8
    ensures { result ≡ declined answer }
{
    match answer {
        Ok(()) => 0,
        Err(refusal) => refusal.number(),
    }
}

// The number, and what is wrong, in whole texts as they are printed.
impl fmt::Display for Refusal {
    ghost output = { λ refusal. Some (refusal_text refusal) };

    fn fmt<W: fmt::Write>(&self, f: &mut fmt::Formatter<W>) -> fmt::Result {
        f.write_str(match self {
            Refusal::PixelPart => "1, the pixel part is not 48 bytes long",
            Refusal::BlockPart => "2, the block part is not 16 bytes long",
            Refusal::Mode => "3, the mode is neither 1 nor 3",
            Refusal::Partition => "4, the partition is above 63",
            Refusal::Channel => "5, a channel is above 63 in mode 1 or above 127 in mode 3",
            Refusal::PBits => "6, fixed p-bits are above 3 in mode 1 or above 15 in mode 3",
            Refusal::Index => "7, an index is above 7 in mode 1 or above 3 in mode 3",
            Refusal::Reserved => "8, the first byte of the block is 0, which is reserved",
            Refusal::OtherMode => "9, the block has another mode than 1 and 3",
        })
    }
}

impl Error for Refusal {}
