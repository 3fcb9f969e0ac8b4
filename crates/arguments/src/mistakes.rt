// What is wrong with the words of a command line.
ghost use Rattle.std.specs.Prelude.{◌≡◌};

use crate::names::Name;
use crate::quantities::Quantity;
use std::fmt;

// A mistake in the words of a command line.
#[derive(Clone, Copy)]
pub enum ArgumentMistake {
    NoCommand,
    Empty,
    // other names than the command takes
    OtherNames(Name),
    // more words, where the first stands alone
    WordsBehind,
    NoOption(Name),
    // no number behind an option
    NoNumber(Quantity),
    // no two numbers behind --rows
    NoRows,
    // no such number
    OtherNumber(Quantity),
    Twice,
    // more than one of the options of measure
    Several,
}

impl fmt::Display for ArgumentMistake {
    fn fmt<W: fmt::Write>(&self, f: &mut fmt::Formatter<W>) -> fmt::Result {
        match *self {
            ArgumentMistake::NoCommand => f.write_str(
                "is no command; expected bake, measure, read, show, map or help",
            ),
            ArgumentMistake::Empty => f.write_str(
                "has an argument that is empty or longer than 4095 bytes; expected a name",
            ),
            ArgumentMistake::OtherNames(name) => write!(f, "expected {}", name.expected()),
            ArgumentMistake::WordsBehind => f.write_str("expected nothing behind it"),
            ArgumentMistake::NoOption(name) => match name.options() {
                Some(options) => write!(f, "is no option of {name}; expected {options}"),
                None => write!(f, "is no option of {name}, which has none"),
            },
            ArgumentMistake::NoNumber(quantity) => write!(
                f,
                "has no number behind it; expected {} to {}",
                quantity.least, quantity.most
            ),
            ArgumentMistake::NoRows => {
                f.write_str("has no two numbers behind it; expected FROM and COUNT")
            }
            ArgumentMistake::OtherNumber(quantity) => write!(
                f,
                "is no {}; expected {} to {}",
                quantity.what, quantity.least, quantity.most
            ),
            ArgumentMistake::Twice => f.write_str("is given twice"),
            ArgumentMistake::Several => {
                f.write_str("has more than one of --worst, --total and --csv")
            }
        }
    }
}

// A mistake, and the word that it is about.
#[derive(Clone, Copy)]
pub struct Misuse<'a> {
    pub word: &'a [u8],
    pub mistake: ArgumentMistake,
}

impl<'a> Misuse<'a> {
    // The mistake in a word.
    pub(crate) fn new(word: &'a [u8], mistake: ArgumentMistake) -> Misuse<'a>
        ensures { (result.word.now ≡ word.now) × (result.mistake ≡ mistake) }
    {
        Misuse { word, mistake }
    }
}
