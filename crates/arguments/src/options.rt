// The options of a command.
ghost use Rattle.std.specs.Prelude.{◌≡◌, ◌≤◌, true, IfOk, OnOk, IfSome, IsNone, Some, is_some, map, ◌∷◌, [], drop, take};
ghost use Rattle.text.specs.Decimal.{number_in};
ghost use Rattle.arguments.specs.Options.{option_word, own_options, numbers_needed, numbers_given, ChangesOnly, SameGiven, StayOnce};
ghost use Rattle.arguments.specs.Line.{option_form, numbers_behind, is_among, word_bytes};

use crate::mistakes::{ArgumentMistake, Misuse};
use crate::names::Name;
use crate::numbers::{Width, Worst};
use crate::quantities::Quantity;
use sizes::rows::Rows;
use std::marker::Model;

// The name of an option.
#[derive(Clone, Copy)]
enum OptionName {
    Rows,
    Worst,
    Total,
    Csv,
    Width,
    Block,
    Linear,
    White,
}

impl OptionName {
    // The option of a command that a word names.
    fn of(command: Name, word: &[u8]) -> Option<OptionName>
        ensures named { IfSome result (λ option. word.now ≡ option_word option) }
        ensures own { IfSome result (λ option. is_among (option_word option) (own_options command) ≡ true) }
    {
        match (command, word) {
            (Name::Bake, b"--rows") => Some(OptionName::Rows),
            (Name::Measure, b"--worst") => Some(OptionName::Worst),
            (Name::Measure, b"--total") => Some(OptionName::Total),
            (Name::Measure, b"--csv") => Some(OptionName::Csv),
            (Name::Read, b"--width") => Some(OptionName::Width),
            (Name::Read, b"--block") => Some(OptionName::Block),
            (Name::Map, b"--linear") => Some(OptionName::Linear),
            (Name::Map, b"--white") => Some(OptionName::White),
            _ => None,
        }
    }
}

// The options of a command that are given.
#[derive(Clone, Copy, Default)]
pub(crate) struct Options {
    pub(crate) rows: Option<Rows>,
    pub(crate) worst: Option<Worst>,
    pub(crate) total: bool,
    pub(crate) csv: bool,
    pub(crate) width: Option<Width>,
    pub(crate) block: Option<u64>,
    pub(crate) linear: bool,
    pub(crate) white: Option<u32>,
}

// Whether a word is an option by its form.
pub(crate) fn is_option(word: &[u8]) -> bool
    ensures { result ≡ option_form word.now }
{
    word.starts_with(b"--")
}

// The words of a line that are still to be read.
#[derive(Drop)]
pub(crate) struct Rest<'w, 'a> {
    words: &'w [&'a [u8]],
}

// A clause sees the words that are still to be read as the list of their bytes.
impl<'w, 'a> Model for Rest<'w, 'a> {
    ghost use Rattle.std.specs.Prelude.{ℕ, List};
    ghost use Rattle.arguments.specs.Line.{word_bytes};

    ghost Value = { List (List ℕ) };

    ghost view = { λ rest. word_bytes rest.words.now };
}

impl<'w, 'a> Rest<'w, 'a> {
    // The words of a line, of which none is read.
    pub(crate) fn new(words: &'w [&'a [u8]]) -> Self
        ensures { result ≡ word_bytes words.now }
    {
        Rest { words }
    }

    // Reads the next word, where one is left.
    pub(crate) fn next(&mut self) -> Option<&'a [u8]>
        ensures some { IfSome result (λ word. self.old ≡ word.now ∷ self.new) }
        ensures none { IsNone result → (self.old ≡ []) × (self.new ≡ []) }
    {
        let [word, rest @ ..] = self.words else {
            return None;
        };
        self.words = rest;
        Some(word)
    }

    // Reads the next word, which is to be a number and no option.
    fn number(&mut self) -> Option<&'a [u8]>
        ensures { IfSome result (λ word. self.old ≡ word.now ∷ self.new) }
    {
        self.next().filter(|word| !is_option(word))
    }

    // Reads the number behind an option.
    fn number_behind(&mut self, option: &'a [u8], quantity: Quantity) -> Result<u64, Misuse<'a>>
        ensures range { IfOk result (λ n. (quantity.least ≤ n) × (n ≤ quantity.most)) }
        ensures said { IfOk result (λ n. map number_in (take 1 self.old) ≡ Some n ∷ []) }
        ensures left { OnOk result (self.new ≡ drop 1 self.old) }
    {
        match self.number() {
            Some(word) => quantity.parse(word),
            None => Err(Misuse::new(option, ArgumentMistake::NoNumber(quantity))),
        }
    }

    // Reads the rows of blocks that the two words behind an option say.
    fn rows_behind(&mut self, option: &'a [u8]) -> Result<Rows, Misuse<'a>>
        ensures said { IfOk result (λ rows. map number_in (take 2 self.old) ≡ Some rows.from ∷ Some rows.count ∷ []) }
        ensures left { OnOk result (self.new ≡ drop 2 self.old) }
    {
        let (Some(from), Some(count)) = (self.number(), self.number()) else {
            return Err(Misuse::new(option, ArgumentMistake::NoRows));
        };
        let from = Quantity::FIRST_ROW.parse(from)? as usize;
        let count = Quantity::ROWS.parse(count)? as usize;
        Ok(Rows { from, count })
    }
}

impl Options {
    // Whether an option is given.
    fn has(&self, option: OptionName) -> bool
        ensures { result ≡ is_some (numbers_given self.now option) }
    {
        match option {
            OptionName::Rows => self.rows.is_some(),
            OptionName::Worst => self.worst.is_some(),
            OptionName::Total => self.total,
            OptionName::Csv => self.csv,
            OptionName::Width => self.width.is_some(),
            OptionName::Block => self.block.is_some(),
            OptionName::Linear => self.linear,
            OptionName::White => self.white.is_some(),
        }
    }

    // Takes an option, and its numbers from the words behind it.
    fn take<'a>(
        &mut self,
        word: &'a [u8],
        option: OptionName,
        rest: &mut Rest<'_, 'a>,
    ) -> Result<(), Misuse<'a>>
        ensures taken { OnOk result (numbers_given self.new option ≡ Some (map number_in (take (numbers_needed option) rest.old))) }
        ensures others { OnOk result (ChangesOnly option self.old self.new) }
        ensures left { OnOk result (rest.new ≡ drop (numbers_needed option) rest.old) }
    {
        match option {
            OptionName::Rows => self.rows = Some(rest.rows_behind(word)?),
            OptionName::Worst => {
                let count = rest.number_behind(word, Quantity::BLOCKS)? as usize;
                self.worst = Some(Worst { count });
            }
            OptionName::Total => self.total = true,
            OptionName::Csv => self.csv = true,
            OptionName::Width => {
                let pixels = rest.number_behind(word, Quantity::WIDTH)? as usize;
                self.width = Some(Width { pixels });
            }
            OptionName::Block => {
                self.block = Some(rest.number_behind(word, Quantity::BLOCK)?);
            }
            OptionName::Linear => self.linear = true,
            OptionName::White => {
                self.white = Some(rest.number_behind(word, Quantity::WHITE)? as u32);
            }
        }
        Ok(())
    }

    // Takes the option of a command that a word names.
    #[tactic(auto, using(crate::proofs::Words::numbers_told, crate::proofs::Given::option_taken, crate::proofs::Once::option_once))]
    pub(crate) fn add<'a>(
        &mut self,
        command: Name,
        word: &'a [u8],
        rest: &mut Rest<'_, 'a>,
    ) -> Result<(), Misuse<'a>>
        ensures given { OnOk result (SameGiven self.old (word.now ∷ rest.old) self.new rest.new) }
        ensures once { OnOk result (StayOnce (own_options command) self.old (word.now ∷ rest.old) self.new rest.new) }
        ensures left { OnOk result (rest.new ≡ drop (numbers_behind word.now) rest.old) }
    {
        let Some(option) = OptionName::of(command, word) else {
            return Err(Misuse::new(word, ArgumentMistake::NoOption(command)));
        };
        if self.has(option) {
            return Err(Misuse::new(word, ArgumentMistake::Twice));
        }
        self.take(word, option, rest)
    }
}
