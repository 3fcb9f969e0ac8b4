// The numbers of C as the calls take them and give them.
ghost use Rattle.std.specs.Prelude.{◌≡◌, ◌<◌};
ghost use Rattle.bptc_block.specs.Internal.Words.{p_bits_of};
ghost use Rattle.bc7_c.specs.Numbers.{answered, numbered};

use bptc_block::PBits;
use refusals::Refusal;

// P-bits, fixed or free. Requires a byte where they are fixed.
pub(crate) fn p_bits(p: u32, free: u32) -> PBits
    requires { free ≡ 0 → p < 256 }
    ensures { result ≡ p_bits_of p free }
{
    if free == 0 {
        // narrows a number that the checks accept
        PBits::Fixed(p as u8)
    } else {
        PBits::Free
    }
}

// The answer of a call that gives an error, as one number.
pub(crate) fn numbered(given: Result<u32, Refusal>) -> u64
    ensures { result ≡ numbered given }
{
    match given {
        Ok(error) => answer(0, error),
        Err(refusal) => answer(u32::from(refusal.number()), 0),
    }
}

// A refusal and an error as one number.
#[tactic(auto, unfolding(crate::specs::Numbers::answered))]
pub(crate) fn answer(refusal: u32, error: u32) -> u64
    ensures { result ≡ answered refusal error }
{
    u64::from(refusal) * 4294967296 + u64::from(error)
}
