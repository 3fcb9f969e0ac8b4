// A colour as one number: red lowest, then green, then blue.
ghost use Rattle.std.specs.Prelude.{◌≡◌};
ghost use Rattle.bptc.specs.Internal.Pixels.{pixel_word, pixel_of};

use crate::Rgb;

impl From<Rgb> for u32 {
    ghost from_gives = { λ c n. n ≡ pixel_word c };

    #[tactic(auto, unfolding(crate::specs::Internal::Pixels::pixel_word))]
    fn from(c: Rgb) -> u32 {
        u32::from(c.r) + u32::from(c.g) * 256 + u32::from(c.b) * 65536
    }
}

impl From<u32> for Rgb {
    ghost from_gives = { λ n c. c ≡ pixel_of n };

    #[tactic(auto, unfolding(crate::specs::Internal::Pixels::pixel_of))]
    fn from(n: u32) -> Rgb {
        // each narrows a value that the check proves to fit
        Rgb {
            r: (n % 256) as u8,
            g: (n / 256 % 256) as u8,
            b: (n / 65536 % 256) as u8,
        }
    }
}
