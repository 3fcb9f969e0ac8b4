// The search's numbers of the four choices of p-bits, a choice in each column.
ghost use Rattle.std.specs.Prelude.{◌≡◌, ◌/◌, ◌%◌};
ghost use Rattle.key_numbers.specs.Numbers.{numbers_of};
ghost use Rattle.choices.specs.Choices.{choice_colour};

use key_numbers::columns::numbers_of4;
use palette::Mode3;
use palette::palettes::Ends;

// The search's numbers of the four choices of p-bits, each of them in both subsets.
pub(crate) fn choice_numbers(ends: Ends<Mode3>) -> [u32; 128]
    ensures { result ≡ numbers_of 8 32 (choice_colour ends.stored) (λ k. k / 4 % 4) }
{
    numbers_of4(
        ends.palettes(0),
        ends.palettes(0b1010),
        ends.palettes(0b0101),
        ends.palettes(0b1111),
    )
}
