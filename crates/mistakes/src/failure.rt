// What is wrong with a file, and with which.
use crate::input::InputMistake;
use crate::output::OutputMistake;
use crate::photo::PhotoMistake;
use crate::plate::PlateMistake;
use crate::proposals::ProposalsMistake;
use crate::reason::Reason;
use std::{fmt, io};

// What is wrong with a file, or with standard output.
#[derive(Clone, Copy)]
pub enum Mistake<'a> {
    Input(InputMistake),
    Output(OutputMistake<'a>),
    Photo(PhotoMistake),
    Plate(PlateMistake),
    Proposals(ProposalsMistake),
    StandardOutput(io::Error),
}

impl fmt::Display for Mistake<'_> {
    fn fmt<W: fmt::Write>(&self, f: &mut fmt::Formatter<W>) -> fmt::Result {
        match *self {
            Mistake::Input(mistake) => write!(f, "{mistake}"),
            Mistake::Output(mistake) => write!(f, "{mistake}"),
            Mistake::Photo(mistake) => write!(f, "{mistake}"),
            Mistake::Plate(mistake) => write!(f, "{mistake}"),
            Mistake::Proposals(mistake) => write!(f, "{mistake}"),
            Mistake::StandardOutput(error) => write!(f, "cannot be written: {}", Reason(error)),
        }
    }
}

// A `From` for each kind of mistake, by hand: no impl comes from a macro.
impl From<InputMistake> for Mistake<'_> {
    fn from(mistake: InputMistake) -> Self {
        Mistake::Input(mistake)
    }
}

impl<'a> From<OutputMistake<'a>> for Mistake<'a> {
    fn from(mistake: OutputMistake<'a>) -> Self {
        Mistake::Output(mistake)
    }
}

impl From<PhotoMistake> for Mistake<'_> {
    fn from(mistake: PhotoMistake) -> Self {
        Mistake::Photo(mistake)
    }
}

impl From<PlateMistake> for Mistake<'_> {
    fn from(mistake: PlateMistake) -> Self {
        Mistake::Plate(mistake)
    }
}

impl From<ProposalsMistake> for Mistake<'_> {
    fn from(mistake: ProposalsMistake) -> Self {
        Mistake::Proposals(mistake)
    }
}

// A mistake and the name of what it is about: the path of a file, or standard output.
#[derive(Clone, Copy)]
pub struct Failure<'a> {
    pub what: &'a [u8],
    pub mistake: Mistake<'a>,
}

impl<'a> Failure<'a> {
    // The failure of a path.
    pub fn new<M: Into<Mistake<'a>>>(path: &'a [u8], mistake: M) -> Failure<'a> {
        Failure {
            what: path,
            mistake: mistake.into(),
        }
    }
}

// Why standard output takes no more.
#[derive(Clone, Copy)]
pub struct NotSaid(pub io::Error);

impl From<NotSaid> for Failure<'_> {
    fn from(not_said: NotSaid) -> Self {
        Failure {
            what: b"standard output",
            mistake: Mistake::StandardOutput(not_said.0),
        }
    }
}
