// The names of the commands, and what stands behind each.
ghost use Rattle.std.specs.Prelude.{IfSome};
ghost use Rattle.arguments.specs.Commands.{Names};

use std::fmt;

// The name of a command.
#[derive(Clone, Copy, Debug, PartialEq, Eq)]
pub enum Name {
    Bake,
    Measure,
    Read,
    Show,
    Map,
    Help,
}

impl Name {
    // The command of this name. No `FromStr`, since a word need be no text.
    pub(crate) fn of(word: &[u8]) -> Option<Name>
        ensures { IfSome result (λ name. Names name word.now) }
    {
        match word {
            b"bake" => Some(Name::Bake),
            b"measure" => Some(Name::Measure),
            b"read" => Some(Name::Read),
            b"show" => Some(Name::Show),
            b"map" => Some(Name::Map),
            b"help" | b"-h" | b"--help" => Some(Name::Help),
            _ => None,
        }
    }

    // A command's name as it is written.
    pub fn word(self) -> &'static str
        ensures { Names self result.now }
    {
        match self {
            Name::Bake => "bake",
            Name::Measure => "measure",
            Name::Read => "read",
            Name::Show => "show",
            Name::Map => "map",
            Name::Help => "help",
        }
    }

    // What is expected behind a command's name, as a mistake says it.
    pub(crate) fn expected(self) -> &'static str {
        match self {
            Name::Bake => "[--rows FROM COUNT] PHOTO.ppm PLATE.bc7 [PROPOSALS]",
            Name::Measure => "[--worst N | --total | --csv] PHOTO.ppm PLATE.bc7",
            Name::Read => "[--width W] [--block N] PLATE.bc7",
            Name::Show => "PLATE.bc7 WIDTH HEIGHT OUT.ppm",
            Name::Map => "[--linear] [--white N] PHOTO.ppm PLATE.bc7 OUT.ppm",
            Name::Help => "[COMMAND]",
        }
    }

    // The options of a command, where it has any, as a mistake says them.
    pub(crate) fn options(self) -> Option<&'static str> {
        match self {
            Name::Bake => Some("--rows FROM COUNT"),
            Name::Measure => Some("--worst N, --total or --csv"),
            Name::Read => Some("--width W or --block N"),
            Name::Map => Some("--linear or --white N"),
            Name::Show | Name::Help => None,
        }
    }
}

impl fmt::Display for Name {
    fn fmt<W: fmt::Write>(&self, f: &mut fmt::Formatter<W>) -> fmt::Result {
        f.write_str(self.word())
    }
}
