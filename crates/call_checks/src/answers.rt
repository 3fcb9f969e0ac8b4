// The answer of a call that gives an error, as it is printed.
use block::Refusal;
use std::fmt;

// Prints the number of the refusal and the error, each 0 where there is none.
#[derive(Clone, Copy)]
pub(crate) struct Answer(pub(crate) Result<u32, Refusal>);

impl fmt::Display for Answer {
    fn fmt<W: fmt::Write>(&self, f: &mut fmt::Formatter<W>) -> fmt::Result {
        match self.0 {
            Ok(error) => write!(f, "0 {error}"),
            Err(refusal) => write!(f, "{} 0", refusal.number()),
        }
    }
}
