// The commands of a line and their arguments.
ghost use Rattle.std.specs.Prelude.{◌≡◌, IfOk, IfSome, OnOk, [], true, false};
ghost use Rattle.arguments.specs.Line.{help_form, names_of, options_of, each_once, word_bytes};
ghost use Rattle.arguments.specs.Options.{AllGiven, own_options};
ghost use Rattle.arguments.specs.Commands.{help_asked, any_empty, Names, Shows, CommandSaid, options_said, Says};
ghost use Rattle.arguments.specs.declared.names.Name.TheVariants as names;
ghost use Rattle.arguments.specs.declared.command.Command.TheVariants.{Version};

use crate::mistakes::{ArgumentMistake, Misuse};
use crate::names::Name;
use crate::numbers::{Width, Worst};
use crate::options::{Options, Rest, is_option};
use crate::quantities::Quantity;
use arrayvec::ArrayVec;
use shades::Scale;
use sizes::rows::Rows;
use sizes::size::Size;

// What `measure` says: a line for each block, one for each of the worst, the one and then the other, which no command line asks for, the
// figures alone, or lines with commas between.
#[derive(Clone, Copy, Debug, PartialEq, Eq)]
pub enum Shown {
    Table,
    Worst(Worst),
    Both(Worst),
    Total,
    Csv,
}

// A command with its arguments.
#[derive(Clone, Copy)]
pub enum Command<'a> {
    Bake {
        rows: Option<Rows>,
        photo: &'a [u8],
        plate: &'a [u8],
        proposals: Option<&'a [u8]>,
    },
    Measure {
        photo: &'a [u8],
        plate: &'a [u8],
        shown: Shown,
    },
    Read {
        plate: &'a [u8],
        width: Option<Width>,
        block: Option<u64>,
    },
    Show {
        plate: &'a [u8],
        size: Size,
        out: &'a [u8],
    },
    Map {
        photo: &'a [u8],
        plate: &'a [u8],
        out: &'a [u8],
        scale: Scale,
        white: Option<u32>,
    },
    Help(Option<Name>),
    Version,
}

// A command's name, the word that is it, and the words behind it.
#[derive(Clone, Copy)]
struct Line<'w, 'a> {
    name: Name,
    word: &'a [u8],
    behind: &'w [&'a [u8]],
}

impl<'a> Line<'_, 'a> {
    // The mistake of other names than the command takes.
    fn misuse(self) -> Misuse<'a> {
        Misuse::new(self.word, ArgumentMistake::OtherNames(self.name))
    }

    // The options behind the command's name, and the names beside them: at most N. One more is a mistake at once, since of a longer line
    // only the front is here, which may end behind an option without its numbers.
    #[tactic(auto, using(crate::proofs::Words::names_option, crate::proofs::Words::names_taken, crate::proofs::Words::names_all))]
    fn split<const N: usize>(self) -> Result<(ArrayVec<&'a [u8], N>, Options), Misuse<'a>>
        ensures names { IfOk result (λ found. word_bytes found.0.items ≡ names_of (word_bytes self.entry.behind.now)) }
        ensures given { IfOk result (λ found. AllGiven found.1 (word_bytes self.entry.behind.now)) }
        ensures once { OnOk result (each_once (own_options self.entry.name) (options_of (word_bytes self.entry.behind.now)) ≡ true) }
    {
        let mut names = ArrayVec::new();
        let mut options = Options::default();
        let mut rest = Rest::new(self.behind);
        while let Some(word) = rest.next() {
            if is_option(word) {
                options.add(self.name, word, &mut rest)?;
            } else if names.try_push(word).is_err() {
                return Err(self.misuse());
            }
        }
        Ok((names, options))
    }

    // The command of a line `bake [--rows FROM COUNT] PHOTO PLATE [PROPOSALS]`. Each command has its own function, as each has its own
    // pattern.
    fn bake(self) -> Result<Command<'a>, Misuse<'a>>
        ensures said { IfOk result (λ command. CommandSaid command names.Bake (word_bytes self.entry.behind.now)) }
        ensures once { OnOk result (each_once (own_options self.entry.name) (options_of (word_bytes self.entry.behind.now)) ≡ true) }
    {
        let (names, options) = self.split::<3>()?;
        let rows = options.rows;
        match names.as_slice() {
            [photo, plate] => Ok(Command::Bake {
                rows,
                photo,
                plate,
                proposals: None,
            }),
            [photo, plate, proposals] => Ok(Command::Bake {
                rows,
                photo,
                plate,
                proposals: Some(proposals),
            }),
            _ => Err(self.misuse()),
        }
    }

    // The command of a line `measure [--worst N | --total | --csv] PHOTO PLATE`.
    fn measure(self) -> Result<Command<'a>, Misuse<'a>>
        ensures said { IfOk result (λ command. CommandSaid command names.Measure (word_bytes self.entry.behind.now)) }
        ensures once { OnOk result (each_once (own_options self.entry.name) (options_of (word_bytes self.entry.behind.now)) ≡ true) }
    {
        let (names, options) = self.split::<2>()?;
        let [photo, plate] = names.as_slice() else {
            return Err(self.misuse());
        };
        let Some(shown) = asked(options) else {
            return Err(Misuse::new(self.word, ArgumentMistake::Several));
        };
        Ok(Command::Measure {
            photo,
            plate,
            shown,
        })
    }

    // The command of a line `read [--width W] [--block N] PLATE`.
    fn read(self) -> Result<Command<'a>, Misuse<'a>>
        ensures said { IfOk result (λ command. CommandSaid command names.Read (word_bytes self.entry.behind.now)) }
        ensures once { OnOk result (each_once (own_options self.entry.name) (options_of (word_bytes self.entry.behind.now)) ≡ true) }
    {
        let (names, options) = self.split::<1>()?;
        let [plate] = names.as_slice() else {
            return Err(self.misuse());
        };
        Ok(Command::Read {
            plate,
            width: options.width,
            block: options.block,
        })
    }

    // The command of a line `show PLATE WIDTH HEIGHT OUT`.
    fn show(self) -> Result<Command<'a>, Misuse<'a>>
        ensures said { IfOk result (λ command. CommandSaid command names.Show (word_bytes self.entry.behind.now)) }
        ensures once { OnOk result (each_once (own_options self.entry.name) (options_of (word_bytes self.entry.behind.now)) ≡ true) }
    {
        let (names, _) = self.split::<4>()?;
        let [plate, width, height, out] = names.as_slice() else {
            return Err(self.misuse());
        };
        let width = Quantity::WIDTH.parse(width)? as usize;
        let height = Quantity::HEIGHT.parse(height)? as usize;
        let size = Size { width, height };
        Ok(Command::Show { plate, size, out })
    }

    // The command of a line `map [--linear] [--white N] PHOTO PLATE OUT`.
    fn map(self) -> Result<Command<'a>, Misuse<'a>>
        ensures said { IfOk result (λ command. CommandSaid command names.Map (word_bytes self.entry.behind.now)) }
        ensures once { OnOk result (each_once (own_options self.entry.name) (options_of (word_bytes self.entry.behind.now)) ≡ true) }
    {
        let (names, options) = self.split::<3>()?;
        let [photo, plate, out] = names.as_slice() else {
            return Err(self.misuse());
        };
        let scale = if options.linear {
            Scale::Linear
        } else {
            Scale::SquareRoot
        };
        Ok(Command::Map {
            photo,
            plate,
            out,
            scale,
            white: options.white,
        })
    }

    // The command of a line `help [COMMAND]`.
    fn help(self) -> Result<Command<'a>, Misuse<'a>>
        ensures said { IfOk result (λ command. CommandSaid command names.Help (word_bytes self.entry.behind.now)) }
        ensures once { OnOk result (each_once (own_options self.entry.name) (options_of (word_bytes self.entry.behind.now)) ≡ true) }
    {
        let (names, _) = self.split::<1>()?;
        match names.as_slice() {
            [] => Ok(Command::Help(None)),
            [word] => Ok(Command::Help(Some(command_name(word)?))),
            _ => Err(self.misuse()),
        }
    }

    // The command that a line is, by its name.
    #[tactic(auto, using(crate::proofs::Values::said_once))]
    fn parse(self) -> Result<Command<'a>, Misuse<'a>>
        ensures said { IfOk result (λ command. CommandSaid command self.entry.name (word_bytes self.entry.behind.now)) }
        ensures once { IfOk result (λ command. each_once (options_said command) (options_of (word_bytes self.entry.behind.now)) ≡ true) }
    {
        match self.name {
            Name::Bake => self.bake(),
            Name::Measure => self.measure(),
            Name::Read => self.read(),
            Name::Show => self.show(),
            Name::Map => self.map(),
            Name::Help => self.help(),
        }
    }
}

// What is shown by the options of `measure`, unless there is more than one.
fn asked(options: Options) -> Option<Shown>
    ensures { IfSome result (λ shown. Shows shown options) }
{
    match (options.worst, options.total, options.csv) {
        (None, false, false) => Some(Shown::Table),
        (Some(worst), false, false) => Some(Shown::Worst(worst)),
        (None, true, false) => Some(Shown::Total),
        (None, false, true) => Some(Shown::Csv),
        _ => None,
    }
}

// The command that a word names.
fn command_name<'a>(word: &'a [u8]) -> Result<Name, Misuse<'a>>
    ensures { IfOk result (λ name. Names name word.now) }
{
    Name::of(word).ok_or(Misuse::new(word, ArgumentMistake::NoCommand))
}

// Whether a word asks for help.
fn is_help(word: &[u8]) -> bool
    ensures { result ≡ help_form word.now }
{
    word == b"-h".as_slice() || word == b"--help".as_slice()
}

// Whether one of some words asks for help.
fn asks_help(words: &[&[u8]]) -> bool
    ensures { result ≡ help_asked words.now }
{
    words.iter().any(|word| is_help(word))
}

// The command of a line `--version`, which has nothing behind it.
fn parse_version<'a>(word: &'a [u8], behind: &[&'a [u8]]) -> Result<Command<'a>, Misuse<'a>>
    ensures { IfOk result (λ command. (command ≡ Version) × (behind.now ≡ [])) }
{
    if !behind.is_empty() {
        return Err(Misuse::new(word, ArgumentMistake::WordsBehind));
    }
    Ok(Command::Version)
}

// Whether one of some words is empty.
fn has_empty(words: &[&[u8]]) -> bool
    ensures { result ≡ any_empty words.now }
{
    words.iter().any(|word| word.is_empty())
}

// Refuses words of which one is empty. A word that is too long for the program stands as an empty one.
fn check_words<'a>(words: &[&'a [u8]]) -> Result<(), Misuse<'a>>
    ensures { OnOk result (any_empty words.now ≡ false) }
{
    if has_empty(words) {
        return Err(Misuse::new(b"bc7", ArgumentMistake::Empty));
    }
    Ok(())
}

impl<'a> Command<'a> {
    // The command of a line's words, of which the first is its name. `-h` or `--help` behind a name asks for the help of that command,
    // whatever else stands there. Behind a word that is no command an empty word is refused first.
    pub fn parse(words: &[&'a [u8]]) -> Result<Command<'a>, Misuse<'a>>
        ensures { IfOk result (λ command. Says command words.now) }
    {
        let [word, behind @ ..] = words else {
            return Ok(Command::Help(None));
        };
        let word = *word;
        check_words(&[word])?;
        if let b"--version" = word {
            return parse_version(word, behind);
        }
        let name = match command_name(word) {
            Ok(name) => name,
            Err(misuse) => {
                check_words(behind)?;
                return Err(misuse);
            }
        };
        if asks_help(behind) {
            return Ok(Command::Help(Some(name)));
        }
        check_words(behind)?;
        Line { name, word, behind }.parse()
    }
}
